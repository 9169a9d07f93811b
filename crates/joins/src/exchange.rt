// Two neighbours, the other way round.
ghost use Rattle.std.specs.Prelude.{◌≡◌};
ghost use Rattle.joins.specs.Steps.{ShortStep};
ghost use Rattle.joins.specs.Exchange.{neighbours_answer, exchange_answer};

use crate::residual::residual;
use byte_strings::held::Held;
use steps::fault::MaskFault;
use steps::system::StepSystem;

// Neighbouring steps.
#[derive(Clone, Copy)]
pub struct Neighbours {
    pub first: Held<64>,
    pub second: Held<64>,
}

// The step of which z is left after x, and then what is left of x after that step; none where there is no such step.
pub fn exchange<S: StepSystem>(
    system: &S,
    x: &Held<64>,
    z: &Held<64>,
) -> Result<Option<Neighbours>, MaskFault>
    requires first { ShortStep (S.transitions system.now) x.now }
    requires second { ShortStep (S.transitions system.now) z.now }
    ensures { neighbours_answer result ≡ exchange_answer (S.independence system.now) x.now z.now }
{
    // A lent buffer and a length: so the interface of step systems answers, without a heap.
    let mut bytes = [0u8; 64];
    let Some(n) = system.back(x.items(), z.items(), &mut bytes)? else {
        // Here `?` has nothing to turn: none is an answer, inside a result.
        return Ok(None);
    };
    let Some(first) = Held::of(&bytes[..n]) else {
        return unreachable();
    };
    let second = residual(system, x, &first);
    Ok(second.map(|second| Neighbours { first, second }))
}
