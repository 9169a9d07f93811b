// The printed text of a sheet.
ghost use Rattle.std.specs.Prelude.{◌≡◌, ◌≤◌, true, length, is_ok, IfOk};
ghost use Rattle.byte_strings.specs.Buffer.{over, count, buffer_after};
ghost use Rattle.bench.specs.Page.{page_of, steps_of};
ghost use Rattle.bench.specs.Replay.{end_answer};
ghost use Rattle.bench.specs.Calls.{answered};
ghost use Rattle.bench.specs.Print.{step_lines, lines_length, sheet_text, text_length, printed};

use crate::fault::BenchFault;
use crate::sheet::{Sheet, Standing};
use byte_strings::held::Held;
use hexadecimal::line;
use steps::system::StepSystem;

impl Sheet {
    // The length of the text, which ends in the state `end`.
    fn text_len(&self, end: &Held<256>) -> usize
        ensures value { result ≡ text_length (page_of self.now) end.now }
        ensures bound { result ≤ 5222 }
    {
        // A loop and no `map` and `sum`: that such a sum fits did not prove.
        let mut n = 0;
        for step in &self.rows[..self.head.len] {
            n += 2 * step.items().len() + 3;
        }
        2 * self.start.items().len() + 5 + (n + (2 * end.items().len() + 1))
    }

    // Writes the lines of the steps over the front of `out`, and answers their length.
    // That the sheet replays is a clause here, below, in swap and in join: a fact of two values, the sheet and the system.
    fn print_steps<S: StepSystem>(&self, system: &S, out: &mut [u8]) -> usize
        requires replays { is_ok (end_answer (S.transitions system.now) (page_of self.now)) ≡ true }
        requires room { lines_length (steps_of (page_of self.now)) ≤ length out.old }
        ensures value { result ≡ lines_length (steps_of (page_of self.now)) }
        ensures buffer { out.new ≡ over (step_lines (S.transitions system.now) (steps_of (page_of self.now))) out.old }
    {
        let mut n = 0;
        for row in &self.rows[..self.head.len] {
            let step = row.items();
            let Ok(label) = system.label(step) else {
                return unreachable();
            };
            let _ = line::write(&[label.action], step, &mut out[n..]);
            n += 2 * step.len() + 3;
        }
        n
    }

    // Writes the text of a released sheet over the front of `out`, and answers its length.
    pub fn print<S: StepSystem>(&self, system: &S, out: &mut [u8]) -> Result<usize, BenchFault>
        ensures answer { result ≡ count (answered (printed (S.transitions system.now) (length out.old) (page_of self.now))) }
        ensures buffer { out.new ≡ buffer_after (answered (printed (S.transitions system.now) (length out.old) (page_of self.now))) out.old }
        ensures bound { IfOk result (λ n. n ≤ 5222) }
    {
        let end = self.end(system, Standing::Released)?;
        let len = self.text_len(&end);
        if len > out.len() {
            // It fits, so no `try_from`: a text has at most 5222 bytes.
            return Err(BenchFault::TextTooLong(len as u16));
        }
        self.write_text(system, &end, out);
        Ok(len)
    }

    // Writes the text, which ends in the state `end`, over the front of `out`.
    fn write_text<S: StepSystem>(&self, system: &S, end: &Held<256>, out: &mut [u8])
        requires replays { is_ok (end_answer (S.transitions system.now) (page_of self.now)) ≡ true }
        requires room { text_length (page_of self.now) end.now ≤ length out.old }
        ensures { out.new ≡ over (sheet_text (S.transitions system.now) (page_of self.now) end.now) out.old }
    {
        let start = self.start.items();
        // It fits, so no `try_from`: there are at most 32 steps.
        let _ = line::write(&[0, self.head.len as u8], start, out);
        let first = 2 * start.len() + 5;
        let steps = self.print_steps(system, &mut out[first..]);
        let _ = line::write(&[], end.items(), &mut out[first + steps..]);
    }
}
