// A step that a question answers, in a lent buffer.
ghost use Rattle.std.specs.Prelude.{◌≡◌, length, Some, None, if◌then◌else◌};
ghost use Rattle.byte_strings.specs.Buffer.{count_some, buffer_after_some};
ghost use Rattle.steps.specs.Answers.{fitting_step};

use crate::fault::{MaskFault, SystemFault};
use crate::limits::STEP_LIMIT;
use byte_strings::buffer;

// Writes a step over the front of the buffer and answers its length;
// refuses one that is too long for the limit or the buffer, and the buffer stays as it was.
pub fn put_step(step: &[u8], out: &mut [u8]) -> Result<Option<usize>, MaskFault>
    ensures answer { result ≡ count_some (fitting_step (Some step.now) (length out.old)) }
    ensures buffer { out.new ≡ buffer_after_some
        (fitting_step (Some step.now) (length out.old)) out.old }
{
    let needed = step.len();
    if needed <= STEP_LIMIT {
        if let Some(n) = buffer::copy(step, out) {
            return Ok(Some(n));
        }
    }
    let told = u16::try_from(needed).unwrap_or(u16::MAX);
    Err(MaskFault::Inner(SystemFault::StepTooLong(told)))
}

// Writes a step that is answered where a question has an answer, and nothing where it has none.
pub fn put_step_if(answered: bool, step: &[u8], out: &mut [u8]) -> Result<Option<usize>, MaskFault>
    ensures answer { result ≡ count_some
        (fitting_step (if answered then Some step.now else None) (length out.old)) }
    ensures buffer { out.new ≡ buffer_after_some
        (fitting_step (if answered then Some step.now else None) (length out.old)) out.old }
{
    if answered {
        put_step(step, out)
    } else {
        Ok(None)
    }
}
