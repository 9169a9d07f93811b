// Why the bench sends a call back, and the number, layer and place that each case is told by.
ghost use Rattle.std.specs.Prelude.{◌≡◌};
ghost use Rattle.bench.specs.declared.fault.BenchFault.TheVariants.{System};
ghost use Rattle.bench.specs.Refusals.{bench_refusal, beneath};

use steps::fault::{MaskFault, Refusal};

#[derive(Clone, Copy)]
pub enum BenchFault {
    // There is no such sheet: the place of its number in the call.
    NoSheet(u16),
    // The sheet's standing does not allow the call: the place of its number in the call.
    WrongStanding(u16),
    // The step system refuses.
    System(MaskFault),
    // The printed text is longer than its buffer: the length it needs.
    TextTooLong(u16),
    // 32 steps are there already.
    Full,
    // There is no such step: the number given, 0 for the last one.
    NoSuchStep(u16),
    // The neighbours cannot be exchanged: the number of the first.
    Dependent(u16),
    // The sheets to be joined have different starts.
    StartsDiffer,
    // No run extends both sheets: how many steps of the second it takes for that.
    Conflict(u16),
    // The joined run has more than 32 steps: how many.
    TooMany(u16),
    // The sheet's replay in this system is stopped: the number of the step, 0 for the start, and why.
    Stopped(u16, MaskFault),
}

impl BenchFault {
    // The refusal that is told beneath it: the one that stopped a replay.
    pub fn cause(self) -> Option<Refusal>
        ensures { result ≡ beneath self }
    {
        match self {
            BenchFault::Stopped(_, fault) => Some(fault.into()),
            _ => None,
        }
    }
}

// Each layer of faults has a match of this shape, with numbers of its own.
impl From<BenchFault> for Refusal {
    ghost from_gives = { λ f r. r ≡ bench_refusal f };

    fn from(fault: BenchFault) -> Refusal {
        let (number, place) = match fault {
            BenchFault::System(fault) => return fault.into(),
            BenchFault::NoSheet(place) | BenchFault::WrongStanding(place) => (3, place),
            BenchFault::TextTooLong(needed) => (8, needed),
            BenchFault::Full => (9, 32),
            BenchFault::NoSuchStep(place) => (10, place),
            BenchFault::Dependent(place) => (11, place),
            BenchFault::StartsDiffer => (13, 0),
            BenchFault::Conflict(place) => (14, place),
            BenchFault::TooMany(len) => (15, len),
            BenchFault::Stopped(place, _) => (16, place),
        };
        Refusal {
            number,
            layer: 2,
            place,
        }
    }
}

impl From<MaskFault> for BenchFault {
    ghost from_gives = { λ f r. r ≡ System f };

    fn from(refused: MaskFault) -> BenchFault {
        BenchFault::System(refused)
    }
}
