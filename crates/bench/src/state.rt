// Held states: the one that follows, the one that a list of steps leads to, and the one that is answered.
ghost use Rattle.std.specs.Prelude.{◌≡◌, ◌≤◌, length};
ghost use Rattle.byte_strings.specs.Buffer.{count, buffer_after};
ghost use Rattle.steps.specs.Answers.{next_answer, fitting_state};
ghost use Rattle.bench.specs.Walk.{walked};

use byte_strings::held::Held;
use steps::fault::{MaskFault, SystemFault};
use steps::system::StepSystem;

// Where a list of steps stops: the number of the step, and why it does not follow.
#[derive(Clone, Copy)]
pub(crate) struct Halt {
    pub(crate) number: u16,
    pub(crate) fault: MaskFault,
}

// The state that follows by a step, or why there is none.
pub(crate) fn following<S: StepSystem>(
    system: &S,
    state: &Held<256>,
    step: &[u8],
) -> Result<Held<256>, MaskFault>
    ensures { result ≡ next_answer (S.transitions system.now) state.now step.now 256 }
{
    // A lent buffer and a length: so the interface of step systems answers, without a heap.
    let mut bytes = [0u8; 256];
    let len = system.next(state.items(), step, &mut bytes)?;
    let Some(next) = Held::of(&bytes[..len]) else {
        return unreachable();
    };
    Ok(next)
}

// The state that steps lead to, or the first of them, numbered from 1, that does not follow.
pub(crate) fn walk<S: StepSystem>(
    system: &S,
    start: &Held<256>,
    steps: &[Held<64>],
) -> Result<Held<256>, Halt>
    requires { length steps.now ≤ 32 }
    ensures { result ≡ walked (S.transitions system.now) start.now steps.now 1 }
{
    let mut state = *start;
    for (i, step) in steps.iter().enumerate() {
        // It fits, so no `try_from`: there are at most 32 steps.
        let number = i as u16 + 1;
        state = following(system, &state, step.items()).map_err(|fault| Halt { number, fault })?;
    }
    Ok(state)
}

// Writes a state over the front of a buffer and answers its length, or refuses as the system would where it has no room.
pub(crate) fn answer(state: &Held<256>, out: &mut [u8]) -> Result<usize, MaskFault>
    ensures answer { result ≡ count (fitting_state state.now (length out.old)) }
    ensures buffer { out.new ≡ buffer_after (fitting_state state.now (length out.old)) out.old }
{
    // It fits, so no `try_from`: a held state has at most 256 bytes.
    let needed = state.items().len() as u16;
    state
        .copy_to(out)
        .ok_or(MaskFault::Inner(SystemFault::StateTooLong(needed)))
}
