// The layout of a setup: its parts taken apart.
ghost use Rattle.std.specs.Prelude.{◌≡◌, ◌+◌, ◌*◌, ◌<◌, ◌≤◌, IfSome, length};
ghost use Rattle.byte_strings.specs.Lent.{part_view, pair_view};
ghost use Rattle.frame.specs.Parts.{part_answer, behind_answer};
ghost use Rattle.frame.specs.Systems.{place_of};
ghost use Rattle.frame.specs.Reading.{layout_answer, layout_view, system_answer, system_part_view, terms_answer, definitions_view};

use crate::definition::Definitions;
use crate::event::{EVENT_SIZE, Events};
use crate::kind::Kind;
use crate::parts::Parts;
use crate::setup::System;

// Takes the bytes behind the kind of a setup apart: its parts, and the bytes behind them.
pub(crate) fn layout(kind: Kind, fields: &[u8]) -> Option<(Parts<'_>, &[u8])>
    requires { length fields.now < 1023 }
    ensures { layout_view result ≡ layout_answer kind fields.now }
{
    let (pairs, rest) = split_off(fields, 2)?;
    let (names, rest) = split_off(rest, 1)?;
    // Beside the pairs and the names, five bytes stand before the system: the call, the kind and
    // three counts.
    let place = 5 + (pairs.len() + names.len()) as u16;
    let (system, behind) = split_system(kind, place, rest)?;
    let parts = Parts {
        pairs,
        names,
        system,
    };
    Some((parts, behind))
}

// Splits off the count of definitions or events, and these, which stand at the place; what stands
// behind them comes second.
fn split_system(kind: Kind, place: u16, bytes: &[u8]) -> Option<(System<'_>, &[u8])>
    requires { place + length bytes.now ≤ 1025 }
    ensures view { system_part_view result ≡ system_answer kind bytes.now }
    ensures placed { IfSome result (λ part. place_of part.0 ≡ place) }
{
    match kind {
        Kind::Terms => {
            let (definitions, behind) = split_definitions(place, bytes)?;
            Some((System::Terms(definitions), behind))
        }
        Kind::Net => {
            let (bytes, behind) = split_off(bytes, EVENT_SIZE)?;
            Some((System::Net(Events { place, bytes }), behind))
        }
    }
}

// Splits off a byte that counts definitions, and these, which stand at the place.
fn split_definitions(place: u16, bytes: &[u8]) -> Option<(Definitions<'_>, &[u8])>
    requires { place + length bytes.now ≤ 1025 }
    ensures view { definitions_view result ≡ terms_answer bytes.now }
    ensures placed { IfSome result (λ part. part.0.place ≡ place) }
{
    let (count, bytes) = bytes.split_first()?;
    let behind = skip_definitions(*count, bytes)?;
    let definitions = Definitions {
        count: *count,
        place,
        bytes,
    };
    Some((definitions, behind))
}

// What stands behind so many definitions; none where bytes are missing.
fn skip_definitions(count: u8, bytes: &[u8]) -> Option<&[u8]>
    ensures { part_view result ≡ behind_answer count bytes.now }
{
    let mut rest = bytes;
    for _ in 0..count {
        let Some((_, behind)) = split_off(rest, 1) else {
            return None;
        };
        rest = behind;
    }
    Some(rest)
}

// Splits off a byte that counts items of `size` bytes, and the items; what stands behind them
// comes second.
pub(crate) fn split_off(bytes: &[u8], size: u8) -> Option<(&[u8], &[u8])>
    ensures part { pair_view result ≡ part_answer size bytes.now }
    ensures short { IfSome result (λ part. length part.0.now ≤ 255 * size) }
{
    let (count, rest) = bytes.split_first()?;
    rest.split_at_checked(usize::from(*count) * usize::from(size))
}
