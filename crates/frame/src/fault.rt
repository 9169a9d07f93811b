// Why a frame is refused.
ghost use Rattle.std.specs.Prelude.{◌≡◌};
ghost use Rattle.frame.specs.Refusals.{frame_refusal};

use steps::fault::Refusal;

// A refusal of the frame itself, with the place that it tells.
#[derive(Clone, Copy)]
pub enum FrameFault {
    // No frame: how many of its first bytes begin one.
    Malformed(u16),
    // A setup whose part at the place is not allowed.
    BadSetup(u16),
}

impl From<FrameFault> for Refusal {
    ghost from_gives = { λ f r. r ≡ frame_refusal f };

    fn from(fault: FrameFault) -> Refusal {
        let (number, place) = match fault {
            FrameFault::Malformed(place) => (1, place),
            FrameFault::BadSetup(place) => (2, place),
        };
        Refusal {
            number,
            layer: 1,
            place,
        }
    }
}
