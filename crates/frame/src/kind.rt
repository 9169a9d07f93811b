// The kinds of setups, and the bytes that name them.
ghost use Rattle.std.specs.Prelude.{◌≡◌};

pub const TERMS: u8 = 0x01;

pub const NET: u8 = 0x02;

// What system a setup gives; its second byte names it.
#[derive(Clone, Copy)]
pub(crate) enum Kind {
    Terms,
    Net,
}

impl Kind {
    ghost use Rattle.frame.specs.Kinds.{named_kind};

    // The kind that a byte names; none where it names none.
    pub(crate) fn of(byte: u8) -> Option<Kind>
        ensures { result ≡ named_kind byte }
    {
        match byte {
            TERMS => Some(Kind::Terms),
            NET => Some(Kind::Net),
            _ => None,
        }
    }
}
