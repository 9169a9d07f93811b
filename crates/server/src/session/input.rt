// What a session does with its input.
ghost use Rattle.std.specs.Prelude.{◌≡◌, ◌≤◌, not, [], length, take, replicate, IfSome, ◌==◌};
ghost use Rattle.byte_strings.specs.Buffer.{Str};
ghost use Rattle.bench.specs.Page.{blank_page};
ghost use Rattle.systems.specs.Design.Design.{of_terms};
ghost use Rattle.server.specs.Session.{session_model, kept_line, line_limit, taken_length, taken_buffer, taken_model, taken_line};

use crate::server::Server;
use crate::session::Session;
use byte_strings::held::Held;

impl Session {
    // A new server, and an empty line.
    pub fn new() -> Session
        ensures model { session_model result ≡ record { system = record { design = of_terms []; pairs = []; names = [] }; pages = replicate 4 blank_page } }
        ensures line { kept_line result ≡ [] }
    {
        Session {
            server: Server::new(),
            line: Held::empty(),
        }
    }

    // Takes a byte of input. A line end answers the line: the text stands at the front of `out`, and its length is the answer.
    // None, and nothing is done, where an answer is due and `out` has no room for the longest text.
    pub fn take(&mut self, byte: u8, out: &mut [u8]) -> Option<usize>
        ensures answer { (l : Str) → kept_line self.old ≡ take line_limit l → result ≡ taken_length (session_model self.old) l byte (length out.old) }
        ensures buffer { (l : Str) → kept_line self.old ≡ take line_limit l → out.new ≡ taken_buffer (session_model self.old) l byte out.old }
        ensures model { (l : Str) → kept_line self.old ≡ take line_limit l → session_model self.new ≡ taken_model (session_model self.old) l byte (length out.old) }
        ensures line { (l : Str) → kept_line self.old ≡ take line_limit l → kept_line self.new ≡ take line_limit (taken_line l byte (length out.old)) }
        ensures bound { IfSome result (λ n. n ≤ 5222) }
    {
        if byte != b'\n' {
            self.line.push(byte);
            return Some(0);
        }
        let n = self.server.answer(self.line.items(), out)?;
        self.line.clear();
        Some(n)
    }

    // Whether a line was begun that has not ended.
    pub fn pending(&self) -> bool
        ensures { result ≡ not (length (kept_line self.now) == 0) }
    {
        !self.line.items().is_empty()
    }
}
