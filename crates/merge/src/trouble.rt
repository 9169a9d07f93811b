// What can stop a merge.
ghost use Rattle.std.specs.Prelude.{◌≡◌};
ghost use Rattle.merge.specs.declared.trouble.Trouble.TheVariants as variant;

use crate::hex::Hex;
use bench::fault::BenchFault;
use nets::event::EventFault;
use std::io;
use std::io::Write;
use steps::fault::Refusal;
use terms::body::BodyFault;

#[derive(Drop)]
pub(crate) enum Trouble {
    // The net does not take an event.
    Event(EventFault),
    // The terms do not take a definition.
    Body(BodyFault),
    // A call on a sheet is refused.
    Refused(BenchFault),
    // The output fails.
    Output(io::Error),
}

impl From<EventFault> for Trouble {
    ghost from_gives = { λ f r. r ≡ variant.Event f };

    fn from(fault: EventFault) -> Trouble {
        Trouble::Event(fault)
    }
}

impl From<BodyFault> for Trouble {
    ghost from_gives = { λ f r. r ≡ variant.Body f };

    fn from(fault: BodyFault) -> Trouble {
        Trouble::Body(fault)
    }
}

impl From<BenchFault> for Trouble {
    ghost from_gives = { λ f r. r ≡ variant.Refused f };

    fn from(fault: BenchFault) -> Trouble {
        Trouble::Refused(fault)
    }
}

impl From<io::Error> for Trouble {
    ghost from_gives = { λ f r. r ≡ variant.Output f };

    fn from(fault: io::Error) -> Trouble {
        Trouble::Output(fault)
    }
}

// Writes what stopped a merge, if something did.
pub(crate) fn tell<W: Write>(done: Result<(), Trouble>, output: &mut W) -> io::Result<()> {
    match done {
        Ok(()) => Ok(()),
        Err(Trouble::Event(_)) => writeln!(output, "the net is refused"),
        Err(Trouble::Body(fault)) => {
            let place = fault.place();
            writeln!(output, "the definition is refused at {place}")
        }
        Err(Trouble::Refused(fault)) => {
            let refusal: [u8; 4] = Refusal::from(fault).into();
            let told = Hex(&refusal);
            write!(output, "refused: {told}")?;
            if let Some(cause) = fault.cause() {
                let beneath: [u8; 4] = cause.into();
                let why = Hex(&beneath);
                write!(output, "{why}")?;
            }
            writeln!(output)
        }
        Err(Trouble::Output(fault)) => Err(fault),
    }
}
