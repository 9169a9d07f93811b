// One list of steps joined to another.
ghost use Rattle.std.specs.Prelude.{◌≡◌, ◌≤◌, length, MatchResult};
ghost use Rattle.runs.specs.Join as theory;
ghost use Rattle.joins.specs.Steps.{ShortSteps};
ghost use Rattle.joins.specs.Join.{added_of};

use crate::carry::carry;
use crate::list::StepList;
use steps::system::StepSystem;

// What is left of the steps of e behind those of s; else the number, from 1, of the first step of e that clashes.
// The error is that number, a place and no kind of error.
pub fn join<S: StepSystem>(system: &S, s: &StepList, e: &StepList) -> Result<StepList, usize>
    requires first { ShortSteps (S.transitions system.now) s.now }
    requires second { ShortSteps (S.transitions system.now) e.now }
    ensures value { result ≡ added_of (theory.join (S.independence system.now) s.now e.now) }
    ensures bound { MatchResult result (λ added. length added ≤ length e.now) (λ n. n ≤ 32) }
{
    let mut added = StepList::empty();
    let mut remains = *s;
    for (k, step) in e.items().iter().enumerate() {
        let number = k + 1;
        let (survivor, rest) = carry(system, step, &remains).map_err(|_| number)?;
        if let Some(survivor) = survivor {
            added.push(survivor);
        }
        remains = rest;
    }
    Ok(added)
}
