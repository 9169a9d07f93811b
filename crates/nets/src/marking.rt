// Markings as states: eight bytes, one big-endian number, bit c of which says whether condition c
// holds.
ghost use Rattle.std.specs.Prelude.{◌≡◌, length};
ghost use Rattle.byte_strings.specs.Buffer.{count, buffer_after};
ghost use Rattle.steps.specs.Answers.{fitting_state};
ghost use Rattle.nets.specs.Marking.{bytes_of, read_marking};
ghost use Rattle.nets.specs.System.{marking_answer};

use byte_strings::buffer;
use steps::fault::{MaskFault, SystemFault};

// The marking that a state stands for. Else the place: where it ends too early, or behind eight
// bytes.
pub(crate) fn read(state: &[u8]) -> Result<u64, MaskFault>
    ensures { result ≡ marking_answer (read_marking state.now) }
{
    // It fits, so no `try_from`: it is 8 at most.
    let place = state.len().min(8) as u16;
    let bytes = state
        .as_array::<8>()
        .ok_or(MaskFault::Inner(SystemFault::NoState(place)))?;
    Ok(u64::from_be_bytes(*bytes))
}

// Writes a marking over the front of the buffer, and answers its length.
pub(crate) fn put(marking: u64, out: &mut [u8]) -> Result<usize, MaskFault>
    ensures answer { result ≡ count (fitting_state (bytes_of marking) (length out.old)) }
    ensures buffer { out.new
        ≡ buffer_after (fitting_state (bytes_of marking) (length out.old)) out.old }
{
    buffer::copy(&marking.to_be_bytes(), out).ok_or(MaskFault::Inner(SystemFault::StateTooLong(8)))
}
