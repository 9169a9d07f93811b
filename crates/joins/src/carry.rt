// A step that is carried through a list.
ghost use Rattle.std.specs.Prelude.{◌≡◌};
ghost use Rattle.runs.specs.Join as theory;
ghost use Rattle.joins.specs.Steps.{ShortStep, ShortSteps};
ghost use Rattle.joins.specs.Carry.{carry_answer};

use crate::list::StepList;
use crate::meet::{Clash, meet};
use byte_strings::held::Held;
use steps::system::StepSystem;

// What is left of a step behind a list, and what remains of the list; none is left where the step is one of the list.
pub(crate) fn carry<S: StepSystem>(
    system: &S,
    step: &Held<64>,
    list: &StepList,
) -> Result<(Option<Held<64>>, StepList), Clash>
    requires first { ShortStep (S.transitions system.now) step.now }
    requires others { ShortSteps (S.transitions system.now) list.now }
    ensures { carry_answer result ≡ theory.carry (S.independence system.now) step.now list.now }
{
    let mut remains = StepList::empty();
    let mut carried = Some(*step);
    for x in list.items() {
        match carried {
            None => remains.push(*x),
            Some(y) => match meet(system, &y, x)? {
                None => carried = None,
                Some(passed) => {
                    remains.push(passed.x);
                    carried = Some(passed.y);
                }
            },
        }
    }
    Ok((carried, remains))
}
