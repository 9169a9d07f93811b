// Opening a sheet, and the calls that change its steps.
ghost use Rattle.std.specs.Prelude.{◌≡◌, true, length, is_err};
ghost use Rattle.byte_strings.specs.Buffer.{count, buffer_after};
ghost use Rattle.bench.specs.Page.{page_of, blank_page};
ghost use Rattle.bench.specs.Calls.{answered, accepted, after, opened, added, withdrawn};

use crate::fault::BenchFault;
use crate::sheet::{Head, Sheet, Standing};
use crate::state::answer;
use byte_strings::held::Held;
use steps::system::StepSystem;

// Each call here and in the files beside says that a refusal leaves the sheet as it was: no type can hold that.
impl Sheet {
    // A sheet with no run.
    pub fn blank() -> Sheet
        ensures { page_of result ≡ blank_page }
    {
        let head = Head {
            standing: Standing::Blank,
            len: 0,
        };
        Sheet {
            head,
            start: Held::empty(),
            rows: [Held::empty(); 32],
        }
    }

    // Opens a blank sheet, or an open one anew, at a start.
    pub fn start_at<S: StepSystem>(&mut self, system: &S, state: &[u8]) -> Result<(), BenchFault>
        ensures answer { result ≡ accepted (opened (S.transitions system.now) state.now (page_of self.old)) }
        ensures page { page_of self.new ≡ after (opened (S.transitions system.now) state.now (page_of self.old)) (page_of self.old) }
        ensures untouched { is_err result ≡ true → self.new ≡ self.old }
    {
        if let Standing::Released = self.head.standing {
            return Err(BenchFault::WrongStanding(1));
        }
        system.state(state)?;
        let Some(start) = Held::of(state) else {
            return unreachable();
        };
        self.head = Head {
            standing: Standing::Open,
            len: 0,
        };
        self.start = start;
        Ok(())
    }

    // Adds a step behind the others, and answers the end state.
    pub fn add<S: StepSystem>(
        &mut self,
        system: &S,
        step: &[u8],
        out: &mut [u8],
    ) -> Result<usize, BenchFault>
        ensures answer { result ≡ count (answered (added (S.transitions system.now) step.now (length out.old) (page_of self.old))) }
        ensures buffer { out.new ≡ buffer_after (answered (added (S.transitions system.now) step.now (length out.old) (page_of self.old))) out.old }
        ensures page { page_of self.new ≡ after (added (S.transitions system.now) step.now (length out.old) (page_of self.old)) (page_of self.old) }
        ensures untouched { is_err result ≡ true → self.new ≡ self.old }
    {
        let end = self.end(system, Standing::Open)?;
        let len = self.head.len;
        if len >= 32 {
            return Err(BenchFault::Full);
        }
        let n = system.next(end.items(), step, out)?;
        if !self.rows[len].put(step) {
            return unreachable();
        }
        self.head = Head {
            standing: Standing::Open,
            len: len + 1,
        };
        Ok(n)
    }

    // Takes the last step away, and answers the end state.
    pub fn withdraw<S: StepSystem>(
        &mut self,
        system: &S,
        out: &mut [u8],
    ) -> Result<usize, BenchFault>
        ensures answer { result ≡ count (answered (withdrawn (S.transitions system.now) (length out.old) (page_of self.old))) }
        ensures buffer { out.new ≡ buffer_after (answered (withdrawn (S.transitions system.now) (length out.old) (page_of self.old))) out.old }
        ensures page { page_of self.new ≡ after (withdrawn (S.transitions system.now) (length out.old) (page_of self.old)) (page_of self.old) }
        ensures untouched { is_err result ≡ true → self.new ≡ self.old }
    {
        self.end(system, Standing::Open)?;
        let len = self.head.len;
        if len == 0 {
            return Err(BenchFault::NoSuchStep(0));
        }
        let rest = self.replay(system, len - 1)?;
        let n = answer(&rest, out)?;
        self.head = Head {
            standing: Standing::Open,
            len: len - 1,
        };
        Ok(n)
    }
}
