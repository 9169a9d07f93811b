// Frames and the calls that they name.
ghost use Rattle.std.specs.Prelude.{◌≡◌, ◌<◌, IfOk, length};
ghost use Rattle.frame.specs.Frames.{WithinRules, sheet_of};
ghost use Rattle.frame.specs.Reading.{frame_answer, call_answer, frame_view, result_view, sheet_answer, sheet_byte_answer};
ghost use Rattle.frame.specs.Format.{AreBytes, ReadsFrames, PlacesMalformed, PlacesKinds, PlacesBadSetups, ReadsOnce, PlacesParts, PlacesBodies, PlacesEvents};

use crate::call::Call;
use crate::fault::FrameFault;
use crate::setup::Setup;

// A setup, or a call on a sheet.
#[derive(Clone, Copy)]
pub enum Frame<'a> {
    Setup(Setup<'a>),
    Open { sheet: u8, state: &'a [u8] },
    Add { sheet: u8, step: &'a [u8] },
    Swap { sheet: u8, place: u8 },
    Withdraw { sheet: u8 },
    Join { sheet: u8, other: u8 },
    Release { sheet: u8 },
    Reopen { sheet: u8 },
    Print { sheet: u8 },
    Look { sheet: u8, count: u8 },
}

// The most bytes of a frame.
pub const FRAME_LIMIT: usize = 1024;

impl Frame<'_> {
    // Reads a frame by its format; a string of more than 1,024 bytes is malformed at 1,024.
    // A setup is held to its counts, its pairs and its names. Neither bodies nor events are
    // judged: of these only the number is, and of each body its length.
    pub fn read(frame: &[u8]) -> Result<Frame<'_>, FrameFault>
        ensures answer { result_view frame_view result ≡ frame_answer frame.now }
        ensures rules { IfOk result (λ f. WithinRules (frame_view f)) }
        ensures bytes { AreBytes frame.now }
        ensures frames { ReadsFrames }
        ensures malformed { PlacesMalformed }
        ensures kinds { PlacesKinds }
        ensures setups { PlacesBadSetups }
        ensures once { ReadsOnce }
        ensures parts { PlacesParts }
        ensures bodies { PlacesBodies }
        ensures events { PlacesEvents }
    {
        if frame.len() > FRAME_LIMIT {
            return Err(FrameFault::Malformed(FRAME_LIMIT as u16));
        }
        let Some((call, rest)) = Call::split_first(frame) else {
            return Err(FrameFault::Malformed(0));
        };
        read_call(call, rest)
    }

    // The sheet that a frame names first; none where it is a setup.
    pub fn sheet(&self) -> Option<u8>
        ensures { result ≡ sheet_of (frame_view self.now) }
    {
        let sheet = match self {
            Frame::Setup(_) => return None,
            Frame::Open { sheet, .. } => sheet,
            Frame::Add { sheet, .. } => sheet,
            Frame::Swap { sheet, .. } => sheet,
            Frame::Withdraw { sheet } => sheet,
            Frame::Join { sheet, .. } => sheet,
            Frame::Release { sheet } => sheet,
            Frame::Reopen { sheet } => sheet,
            Frame::Print { sheet } => sheet,
            Frame::Look { sheet, .. } => sheet,
        };
        Some(*sheet)
    }
}

// Reads what stands behind the byte of a call.
fn read_call(call: Call, rest: &[u8]) -> Result<Frame<'_>, FrameFault>
    requires { length rest.now < 1024 }
    ensures { result_view frame_view result ≡ call_answer call rest.now }
{
    let frame = match call {
        // No `?`: it has no rule for a value that lends parts and holds a `Copy` struct with a
        // `Model`, as the pairs and the names of a setup are.
        Call::Setup => match Setup::read(rest) {
            Ok(setup) => Frame::Setup(setup),
            Err(fault) => return Err(fault),
        },
        Call::Open => {
            let (sheet, state) = rest.split_first().ok_or(FrameFault::Malformed(1))?;
            Frame::Open {
                sheet: *sheet,
                state,
            }
        }
        Call::Add => {
            let (sheet, step) = rest.split_first().ok_or(FrameFault::Malformed(1))?;
            Frame::Add {
                sheet: *sheet,
                step,
            }
        }
        Call::Swap => {
            let (sheet, place) = with_byte(rest)?;
            Frame::Swap { sheet, place }
        }
        Call::Withdraw => Frame::Withdraw {
            sheet: alone(rest)?,
        },
        Call::Join => {
            let (sheet, other) = with_byte(rest)?;
            Frame::Join { sheet, other }
        }
        Call::Release => Frame::Release {
            sheet: alone(rest)?,
        },
        Call::Reopen => Frame::Reopen {
            sheet: alone(rest)?,
        },
        Call::Print => Frame::Print {
            sheet: alone(rest)?,
        },
        Call::Look => {
            let (sheet, count) = with_byte(rest)?;
            Frame::Look { sheet, count }
        }
    };
    Ok(frame)
}

// The sheet of a call that names nothing else.
fn alone(rest: &[u8]) -> Result<u8, FrameFault>
    ensures { result ≡ sheet_answer (λ sheet. sheet) rest.now }
{
    match rest {
        [] => Err(FrameFault::Malformed(1)),
        [sheet] => Ok(*sheet),
        _ => Err(FrameFault::Malformed(2)),
    }
}

// The sheet of a call that names one byte more, and that byte.
fn with_byte(rest: &[u8]) -> Result<(u8, u8), FrameFault>
    ensures { result ≡ sheet_byte_answer (λ sheet byte. (sheet, byte)) rest.now }
{
    match rest {
        [] => Err(FrameFault::Malformed(1)),
        [_] => Err(FrameFault::Malformed(2)),
        [sheet, byte] => Ok((*sheet, *byte)),
        _ => Err(FrameFault::Malformed(3)),
    }
}
