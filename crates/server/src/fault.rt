// Why a line is refused.
ghost use Rattle.server.specs.declared.fault.Fault.TheVariants as variant;
ghost use Rattle.std.specs.Prelude.{◌≡◌};

use bench::fault::BenchFault;
use frame::fault::FrameFault;

#[derive(Clone, Copy)]
pub(crate) enum Fault {
    // It is no frame, or a setup that is not allowed.
    Frame(FrameFault),
    // The bench sends the call back.
    Call(BenchFault),
}

impl From<FrameFault> for Fault {
    ghost from_gives = { λ f r. r ≡ variant.Frame f };

    fn from(refused: FrameFault) -> Fault {
        Fault::Frame(refused)
    }
}

impl From<BenchFault> for Fault {
    ghost from_gives = { λ f r. r ≡ variant.Call f };

    fn from(refused: BenchFault) -> Fault {
        Fault::Call(refused)
    }
}
