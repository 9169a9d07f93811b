// Why a step system sends something back; the number, layer and place that tell each case.
ghost use Rattle.std.specs.Prelude.{◌≡◌};
ghost use Rattle.steps.specs.declared.fault.MaskFault.TheVariants.{Inner};
ghost use Rattle.steps.specs.Refusals.{system_refusal, mask_refusal, refusal_bytes};

// How a refusal is told: its number, the layer that refuses, and a place or a length.
// Numbers and no enums: up to here a refusal is one of the enums below, and these are the bytes
// that the format has for it.
#[derive(Clone, Copy)]
pub struct Refusal {
    pub number: u8,
    pub layer: u8,
    pub place: u16,
}

// A refusal of the terms or the net itself.
#[derive(Clone, Copy)]
pub enum SystemFault {
    // No state, or longer than a state may be: the first byte that fits none.
    NoState(u16),
    // No step, or longer than a step may be: the place of the byte that fits no step, else of the
    // first improper part.
    NoStep(u16),
    // The step is not possible in the state: the first part that does not fit.
    Impossible(u16),
    // The state that follows is too long, or longer than its buffer: the length it needs.
    StateTooLong(u16),
    // The step that is answered is too long, or longer than its buffer: the length it needs.
    StepTooLong(u16),
}

// A refusal of a step system as its user sees it: hidden by a mask, or refused further inside.
#[derive(Clone, Copy)]
pub enum MaskFault {
    Masked,
    Inner(SystemFault),
}

impl From<SystemFault> for Refusal {
    ghost from_gives = { λ f r. r ≡ system_refusal f };

    fn from(fault: SystemFault) -> Refusal {
        let (number, place) = match fault {
            SystemFault::NoState(place) => (4, place),
            SystemFault::NoStep(place) => (5, place),
            SystemFault::Impossible(place) => (6, place),
            SystemFault::StateTooLong(needed) => (8, needed),
            SystemFault::StepTooLong(needed) => (12, needed),
        };
        Refusal {
            number,
            layer: 4,
            place,
        }
    }
}

impl From<MaskFault> for Refusal {
    ghost from_gives = { λ f r. r ≡ mask_refusal f };

    fn from(fault: MaskFault) -> Refusal {
        match fault {
            MaskFault::Masked => Refusal {
                number: 7,
                layer: 3,
                place: 0,
            },
            MaskFault::Inner(fault) => fault.into(),
        }
    }
}

impl From<SystemFault> for MaskFault {
    ghost from_gives = { λ f r. r ≡ Inner f };

    fn from(refused: SystemFault) -> MaskFault {
        MaskFault::Inner(refused)
    }
}

// The four bytes that tell a refusal.
impl From<Refusal> for [u8; 4] {
    ghost from_gives = { λ f r. r ≡ refusal_bytes f };

    fn from(refusal: Refusal) -> [u8; 4] {
        let [high, low] = refusal.place.to_be_bytes();
        [refusal.number, refusal.layer, high, low]
    }
}
