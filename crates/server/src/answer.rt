// A line of input to the whole text of its answer.
ghost use Rattle.std.specs.Prelude.{◌≡◌, ◌≤◌, [], length, replicate, IfSome};
ghost use Rattle.bench.specs.Page.{blank_page};
ghost use Rattle.server.specs.Text.{Answers};
ghost use Rattle.systems.specs.Design.Design.{of_terms};
ghost use Rattle.server.specs.Setup.{SetupsGiveNets};
ghost use Rattle.server.specs.TermsSetup.{SetupsGiveTerms};
ghost use Rattle.server.specs.Answer.{model_of, line_reply, reply_length, reply_buffer, reply_model};

use crate::fault::Fault;
use crate::server::Server;
use crate::text;
use crate::text::TEXT_LIMIT;
use actions::names::Names;
use actions::pairs::Pairs;
use bench::bench::Bench;
use frame::fault::FrameFault;
use frame::frame::{FRAME_LIMIT, Frame};
use systems::TermsOrNet;
use terms::terms::Terms;

impl Server {
    // Terms with no definitions, and four blank sheets.
    pub fn new() -> Server
        ensures { model_of result ≡ record { system = record { design = of_terms []; pairs = []; names = [] }; pages = replicate 4 blank_page } }
    {
        let terms = TermsOrNet::Terms(Terms::new(0));
        Server {
            system: systems::layered(terms, Pairs::none(), Names::none()),
            bench: Bench::new(),
        }
    }

    // Answers a line: the text stands at the front of `out`, and its length is the answer.
    // None, and nothing is done, where `out` has no room for the longest text.
    // It stays a call, so that the loop over the bytes of input is short.
    #[inline(never)]
    #[tactic(auto, using(crate::proofs::Setups::setups_give_nets, crate::proofs::TermsSetups::setups_give_terms))]
    pub fn answer(&mut self, line: &[u8], out: &mut [u8]) -> Option<usize>
        ensures answer { result ≡ reply_length (line_reply (model_of self.old) line.now) (length out.old) }
        ensures buffer { out.new ≡ reply_buffer (line_reply (model_of self.old) line.now) out.old }
        ensures model { model_of self.new ≡ reply_model (line_reply (model_of self.old) line.now) (length out.old) (model_of self.old) }
        ensures bound { IfSome result (λ n. n ≤ 5222) }
        ensures nets { SetupsGiveNets }
        ensures terms { SetupsGiveTerms }
    {
        let out = out.first_chunk_mut::<TEXT_LIMIT>()?;
        // A match and no `unwrap_or_else`: of what that closure leaves in `out` the proof did not close.
        match self.reply(line, out) {
            Ok(n) => Some(n),
            Err(fault) => Some(text::refuse(fault, out)),
        }
    }

    // Reads a line and performs its call; a fault tells what is refused.
    fn reply(&mut self, line: &[u8], out: &mut [u8; TEXT_LIMIT]) -> Result<usize, Fault>
        ensures answer { Answers (line_reply (model_of self.old) line.now).text result out.old out.new }
        ensures model { model_of self.new ≡ (line_reply (model_of self.old) line.now).model }
    {
        // A lent buffer and a length, as lines are read without a heap.
        let mut bytes = [0u8; FRAME_LIMIT];
        match hexadecimal::read(line, &mut bytes) {
            Ok(n) => match Frame::read(&bytes[0..n]) {
                Ok(frame) => self.call(&frame, out),
                Err(fault) => Err(fault.into()),
            },
            // It fits, so no `try_from`, and is known to fit of this answer only, so no `map_err`: at most 1024 bytes are read.
            Err(place) => Err(FrameFault::Malformed(place as u16).into()),
        }
    }
}
