// A system in which no two steps are independent.
ghost use Rattle.std.specs.Prelude.{◌≡◌};
ghost use Rattle.std.proofs.Common.{rules};
ghost use Rattle.toys.specs.Sequential.{never, sequential_independence};

use crate::relation::Relation;
use crate::sum::Sum;
use steps::system::StepSystem;

// No two steps are apart.
#[derive(Clone, Copy)]
pub struct Never;

impl Relation for Never {
    ghost apart = { never };

    ghost symmetric = { Prim.search rules };

    ghost irreflexive = { Prim.search rules };

    fn apart(&self, _a: u8, _b: u8) -> bool {
        false
    }
}

// Steps keep the order in which they came.
pub type Sequential = Sum<Never>;

// The system, with its independence in plain words.
pub fn system() -> Sequential
    ensures { ⟦<Sequential as StepSystem>⟧.independence result ≡ sequential_independence }
{
    Sum { relation: Never }
}
