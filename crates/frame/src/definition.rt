// The definitions of a setup of terms: their bodies, and where these stand in the frame.
ghost use Rattle.std.specs.Prelude.{◌≡◌, ◌+◌, ◌<◌, ◌≤◌, length};
ghost use Rattle.std.specs.Iterator.{at_most};
ghost use Rattle.frame.specs.Parts.{bodies};
ghost use Rattle.frame.specs.Definitions.{NextDefinition};

use crate::layout::split_off;

// The body of a definition, with the place of its first byte in the frame.
#[derive(Clone, Copy)]
pub struct Definition<'a> {
    pub place: u16,
    pub body: &'a [u8],
}

// So many definitions, each a byte that counts the bytes of its body, and the body. `bytes` begins
// with them, and stands at the place in the frame.
#[derive(Clone, Copy)]
pub struct Definitions<'a> {
    pub count: u8,
    pub place: u16,
    pub bytes: &'a [u8],
    ghost within: { place + length bytes.now ≤ 1024 },
    ghost whole: { length (bodies count bytes.now) ≡ count },
}

// The definitions that are left, and the place in the frame where they begin.
#[derive(Drop)]
pub struct DefinitionsIter<'a> {
    pub count: u8,
    pub place: u16,
    pub rest: &'a [u8],
    ghost within: { place + length rest.now ≤ 1024 },
}

impl<'a> Definitions<'a> {
    // The definitions, from the first on.
    pub fn iter(&self) -> DefinitionsIter<'a>
        ensures count { result.count ≡ self.now.count }
        ensures place { result.place ≡ self.now.place }
        ensures rest { result.rest.now ≡ self.now.bytes.now }
    {
        DefinitionsIter {
            count: self.count,
            place: self.place,
            rest: self.bytes,
        }
    }
}

impl<'a> Iterator for DefinitionsIter<'a> {
    type Item = Definition<'a>;

    ghost next_gives = { λ s r t. NextDefinition
        (bodies s.count s.rest.now) s.place r
        (bodies t.count t.rest.now) t.place };

    ghost remaining = { λ s. at_most (length (bodies s.count s.rest.now)) };

    fn next(&mut self) -> Option<Definition<'a>> {
        let count = self.count.checked_sub(1)?;
        let (body, rest) = split_off(self.rest, 1)?;
        let place = self.place + 1;
        *self = DefinitionsIter {
            count,
            place: place + body.len() as u16,
            rest,
        };
        Some(Definition { place, body })
    }
}
