// The calls of frames, each on the step system and the bench, with its answer as text.
ghost use Rattle.std.specs.Prelude.{◌≡◌};
ghost use Rattle.frame.specs.Frames.{WithinRules, sheet_of};
ghost use Rattle.frame.specs.Reading.{frame_view, setup_view};
ghost use Rattle.server.specs.Text.{Answers};
ghost use Rattle.server.specs.Answer.{model_of, named_standing, frame_reply, set_up_answer};

use crate::fault::Fault;
use crate::server::Server;
use crate::text::TEXT_LIMIT;
use crate::{setup, text};
use bench::fault::BenchFault;
use bench::sheet::Standing;
use frame::fault::FrameFault;
use frame::frame::Frame;
use frame::setup::Setup;

impl Server {
    // Performs the call that a frame names, and writes what it answers over the front of `out`.
    pub(crate) fn call(
        &mut self,
        frame: &Frame<'_>,
        out: &mut [u8; TEXT_LIMIT],
    ) -> Result<usize, Fault>
        requires { WithinRules (frame_view frame.now) }
        ensures answer { Answers (frame_reply (model_of self.old) (frame_view frame.now)).text result out.old out.new }
        ensures model { model_of self.new ≡ (frame_reply (model_of self.old) (frame_view frame.now)).model }
    {
        // What an accepted call answers is the first n bytes, but for a printed text.
        let mut end = [0u8; 256];
        // The call and the sheet's standing decide together.
        // By the frames themselves and no table of functions: each has data of its own.
        let n = match (self.standing(frame), frame) {
            (_, Frame::Setup(setup)) => {
                self.set_up(setup)?;
                0
            }
            (Some(Standing::Blank | Standing::Open), Frame::Open { sheet, state }) => {
                self.bench.open_sheet(&self.system, *sheet, state)?;
                0
            }
            (Some(Standing::Open), Frame::Add { sheet, step }) => {
                self.bench.add(&self.system, *sheet, step, &mut end)?
            }
            (Some(Standing::Open), Frame::Swap { sheet, place }) => {
                self.bench.swap(&self.system, *sheet, *place)?;
                0
            }
            (Some(Standing::Open), Frame::Withdraw { sheet }) => {
                self.bench.withdraw(&self.system, *sheet, &mut end)?
            }
            (Some(Standing::Open), Frame::Join { sheet, other }) => {
                let (len, shared) = self.bench.join(&self.system, *sheet, *other)?;
                end[0] = len;
                end[1] = shared;
                2
            }
            (Some(Standing::Open), Frame::Release { sheet }) => {
                self.bench.release(&self.system, *sheet)?;
                0
            }
            (Some(Standing::Released), Frame::Reopen { sheet }) => {
                self.bench.reopen(&self.system, *sheet)?;
                0
            }
            (Some(Standing::Released), Frame::Print { sheet }) => {
                return Ok(self.bench.print(&self.system, *sheet, out)?)
            }
            (Some(Standing::Open | Standing::Released), Frame::Look { sheet, count }) => {
                self.bench.look(&self.system, *sheet, *count, &mut end)?
            }
            (Some(_), _) => return Err(BenchFault::WrongStanding(1).into()),
            (None, _) => return Err(BenchFault::NoSheet(1).into()),
        };
        Ok(text::accept(&end[0..n], out))
    }

    // Replaces the system by that of a setup; where that is refused, the system stays.
    // It stays a call: the new system is large, and its place would be cleared for each frame.
    #[inline(never)]
    fn set_up(&mut self, setup: &Setup<'_>) -> Result<(), FrameFault>
        requires { WithinRules (setup_view setup.now) }
        ensures { set_up_answer result (model_of self.new)
            ≡ frame_reply (model_of self.old) (setup_view setup.now) }
    {
        self.system = setup::build(setup)?;
        Ok(())
    }

    // The standing of the sheet that a frame names, if there is such a sheet.
    fn standing(&self, frame: &Frame<'_>) -> Option<Standing>
        ensures { result ≡ named_standing (model_of self.now).pages (sheet_of (frame_view frame.now)) }
    {
        let sheet = frame.sheet()?;
        self.bench.standing(sheet)
    }
}
