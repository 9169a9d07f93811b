// A look back at the first steps of a sheet.
ghost use Rattle.std.specs.Prelude.{◌≡◌, ◌≤◌, length, take};
ghost use Rattle.byte_strings.specs.Buffer.{count, buffer_after};
ghost use Rattle.bench.specs.Page.{page_of};
ghost use Rattle.bench.specs.Replay.{replayed};
ghost use Rattle.bench.specs.Calls.{answered};
ghost use Rattle.bench.specs.Look.{looked};

use crate::fault::BenchFault;
use crate::sheet::replay::retrace;
use crate::sheet::{Head, Sheet, Standing};
use crate::state::answer;
use byte_strings::held::Held;
use steps::system::StepSystem;

// A sheet's head while it tells fewer steps than the sheet has; the sheet's own length is put back when this goes,
// whichever way the look ends.
struct Shortened<'a> {
    head: &'a mut Head,
    len: usize,
    ghost few: { len ≤ 32 },
}

impl Drop for Shortened<'_> {
    fn drop(self)
        ensures { self.exit.0.now ≡ record self.entry.head.now { len = self.entry.len; few = self.entry.few } }
    {
        let Shortened { head, len } = self;
        *head = Head {
            standing: head.standing,
            len,
        };
    }
}

// The end of the steps that a head tells of the rows behind a start.
fn end_of<S: StepSystem>(
    system: &S,
    head: &Head,
    start: &Held<256>,
    rows: &[Held<64>; 32],
) -> Result<Held<256>, BenchFault>
    ensures { result ≡ replayed (S.transitions system.now) start.now (take head.now.len rows.now) }
{
    retrace(system, start, &rows[..head.len])
}

impl Sheet {
    // Answers the state after the first `steps` steps, and changes nothing.
    pub fn look<S: StepSystem>(
        &mut self,
        system: &S,
        steps: u8,
        out: &mut [u8],
    ) -> Result<usize, BenchFault>
        ensures answer { result ≡ count (answered (looked (S.transitions system.now) steps (length out.old) (page_of self.old))) }
        ensures buffer { out.new ≡ buffer_after (answered (looked (S.transitions system.now) steps (length out.old) (page_of self.old))) out.old }
        ensures unchanged { self.new ≡ self.old }
    {
        let Sheet { head, start, rows } = self;
        if let Standing::Blank = head.standing {
            return Err(BenchFault::WrongStanding(1));
        }
        end_of(system, head, start, rows)?;
        let first = usize::from(steps);
        if first > head.len {
            return Err(BenchFault::NoSuchStep(u16::from(steps)));
        }
        let len = head.len;
        let shortened = Shortened { head, len };
        *shortened.head = Head {
            standing: shortened.head.standing,
            len: first,
        };
        let state = end_of(system, shortened.head, start, rows)?;
        Ok(answer(&state, out)?)
    }
}
