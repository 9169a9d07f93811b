// A system in which all distinct steps are independent.
ghost use Rattle.std.specs.Prelude.{◌≡◌};
ghost use Rattle.std.proofs.Common.{rules};
ghost use Rattle.toys.specs.Commuting.{distinct, commuting_independence};

use crate::relation::Relation;
use crate::sum::Sum;
use steps::system::StepSystem;

// Distinct steps are apart.
// An impl of the same shape as the other relation's: what they share is `Sum`.
#[derive(Clone, Copy)]
pub struct Distinct;

impl Relation for Distinct {
    ghost apart = { distinct };

    ghost symmetric = { Prim.search rules };

    ghost irreflexive = { Prim.search rules };

    fn apart(&self, a: u8, b: u8) -> bool {
        a != b
    }
}

// Distinct steps may follow each other in either order.
pub type Commuting = Sum<Distinct>;

// The system, with its independence in plain words.
pub fn system() -> Commuting
    ensures { ⟦<Commuting as StepSystem>⟧.independence result ≡ commuting_independence }
{
    Sum { relation: Distinct }
}
