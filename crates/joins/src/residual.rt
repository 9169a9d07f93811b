// What is left of a step after another, as a held string.
ghost use Rattle.std.specs.Prelude.{◌≡◌};
ghost use Rattle.joins.specs.Steps.{ShortStep};

use byte_strings::held::Held;
use steps::system::StepSystem;

// What is left of x after y; none where they are dependent.
// That a step is one within the limit is required of all of this crate, in a clause: it is a fact of two values, the step and the system.
pub(crate) fn residual<S: StepSystem>(system: &S, x: &Held<64>, y: &Held<64>) -> Option<Held<64>>
    requires first { ShortStep (S.transitions system.now) x.now }
    requires second { ShortStep (S.transitions system.now) y.now }
    ensures { result ≡ (S.independence system.now).left x.now y.now }
{
    // A lent buffer and a length: so the interface of step systems answers, without a heap.
    let mut bytes = [0u8; 64];
    let Ok(answer) = system.residual(x.items(), y.items(), &mut bytes) else {
        return unreachable();
    };
    let n = answer?;
    Held::of(&bytes[..n])
}
