// A step that meets another.
ghost use Rattle.std.specs.Prelude.{◌≡◌};
ghost use Rattle.runs.specs.Join as theory;
ghost use Rattle.joins.specs.Steps.{ShortStep};
ghost use Rattle.joins.specs.Meet.{meet_answer};

use crate::residual::residual;
use byte_strings::held::Held;
use steps::system::StepSystem;

// A step hits another that it is not independent of.
#[derive(Clone, Copy)]
pub(crate) struct Clash;

// Steps that passed each other, each as what is left of it.
#[derive(Clone, Copy)]
pub(crate) struct Passed {
    pub(crate) y: Held<64>,
    pub(crate) x: Held<64>,
}

// Whether a step y that meets x passes it; none where they are one step.
pub(crate) fn meet<S: StepSystem>(
    system: &S,
    y: &Held<64>,
    x: &Held<64>,
) -> Result<Option<Passed>, Clash>
    requires first { ShortStep (S.transitions system.now) y.now }
    requires second { ShortStep (S.transitions system.now) x.now }
    ensures { meet_answer result ≡ theory.meet (S.independence system.now) y.now x.now }
{
    if y.items() == x.items() {
        // One step; `?` has nothing to turn here.
        return Ok(None);
    }
    let y_rest = residual(system, y, x).ok_or(Clash)?;
    let x_rest = residual(system, x, y).ok_or(Clash)?;
    let passed = Passed {
        y: y_rest,
        x: x_rest,
    };
    Ok(Some(passed))
}
