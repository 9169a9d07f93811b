// The calls of the bench: each names a sheet, and changes at most that one.
ghost use Rattle.std.specs.Prelude.{◌≡◌, ◌≤◌, true, length, replicate, is_err, IfOk};
ghost use Rattle.byte_strings.specs.Buffer.{count, buffer_after};
ghost use Rattle.bench.specs.Page.{blank_page};
ghost use Rattle.bench.specs.Calls.{answered, accepted, opened, added, withdrawn, released, reopened};
ghost use Rattle.bench.specs.Swap.{swapped};
ghost use Rattle.bench.specs.Join.{named_page, pair_answer, joined};
ghost use Rattle.bench.specs.Print.{printed};
ghost use Rattle.bench.specs.Look.{looked};
ghost use Rattle.bench.specs.Table.{pages_of, on_sheet, pages_after, page_at, standing_of, index_answer};

use crate::bench::Bench;
use crate::fault::BenchFault;
use crate::sheet::{Sheet, Standing};
use steps::system::StepSystem;

// The index of the sheet that a call names.
fn index(sheet: u8) -> Result<usize, BenchFault>
    ensures { result ≡ index_answer sheet }
{
    let index = usize::from(sheet);
    if index < 4 {
        Ok(index)
    } else {
        Err(BenchFault::NoSheet(1))
    }
}

// Each call says that a refusal leaves the bench as it was: a fact of a value before and after, which no type can hold.
impl Bench {
    // Four blank sheets.
    pub fn new() -> Bench
        ensures { pages_of result ≡ replicate 4 blank_page }
    {
        Bench {
            sheets: [Sheet::blank(); 4],
        }
    }

    // Opens a sheet at a start, with no steps.
    pub fn open_sheet<S: StepSystem>(
        &mut self,
        system: &S,
        sheet: u8,
        state: &[u8],
    ) -> Result<(), BenchFault>
        ensures answer { result ≡ accepted (on_sheet (pages_of self.old) sheet (opened (S.transitions system.now) state.now)) }
        ensures pages { pages_of self.new ≡ pages_after (on_sheet (pages_of self.old) sheet (opened (S.transitions system.now) state.now)) (pages_of self.old) sheet }
        ensures untouched { is_err result ≡ true → self.new ≡ self.old }
    {
        let s = index(sheet)?;
        self.sheets[s].start_at(system, state)
    }

    // Adds a step behind the others, and answers the end state.
    pub fn add<S: StepSystem>(
        &mut self,
        system: &S,
        sheet: u8,
        step: &[u8],
        out: &mut [u8],
    ) -> Result<usize, BenchFault>
        ensures answer { result ≡ count (answered (on_sheet (pages_of self.old) sheet (added (S.transitions system.now) step.now (length out.old)))) }
        ensures buffer { out.new ≡ buffer_after (answered (on_sheet (pages_of self.old) sheet (added (S.transitions system.now) step.now (length out.old)))) out.old }
        ensures pages { pages_of self.new ≡ pages_after (on_sheet (pages_of self.old) sheet (added (S.transitions system.now) step.now (length out.old))) (pages_of self.old) sheet }
        ensures untouched { is_err result ≡ true → self.new ≡ self.old }
    {
        let s = index(sheet)?;
        self.sheets[s].add(system, step, out)
    }

    // Takes the last step away, and answers the end state.
    pub fn withdraw<S: StepSystem>(
        &mut self,
        system: &S,
        sheet: u8,
        out: &mut [u8],
    ) -> Result<usize, BenchFault>
        ensures answer { result ≡ count (answered (on_sheet (pages_of self.old) sheet (withdrawn (S.transitions system.now) (length out.old)))) }
        ensures buffer { out.new ≡ buffer_after (answered (on_sheet (pages_of self.old) sheet (withdrawn (S.transitions system.now) (length out.old)))) out.old }
        ensures pages { pages_of self.new ≡ pages_after (on_sheet (pages_of self.old) sheet (withdrawn (S.transitions system.now) (length out.old))) (pages_of self.old) sheet }
        ensures untouched { is_err result ≡ true → self.new ≡ self.old }
    {
        let s = index(sheet)?;
        self.sheets[s].withdraw(system, out)
    }

    // Exchanges the steps `place` and `place` + 1 of a sheet.
    pub fn swap<S: StepSystem>(
        &mut self,
        system: &S,
        sheet: u8,
        place: u8,
    ) -> Result<(), BenchFault>
        ensures answer { result ≡ accepted (on_sheet (pages_of self.old) sheet (swapped (S.transitions system.now) (S.independence system.now) place)) }
        ensures pages { pages_of self.new ≡ pages_after (on_sheet (pages_of self.old) sheet (swapped (S.transitions system.now) (S.independence system.now) place)) (pages_of self.old) sheet }
        ensures untouched { is_err result ≡ true → self.new ≡ self.old }
    {
        let s = index(sheet)?;
        self.sheets[s].swap(system, place)
    }

    // The sheet of a number, if there is one.
    fn named(&self, sheet: u8) -> Option<Sheet>
        ensures { named_page result ≡ page_at (pages_of self.now) sheet }
    {
        self.sheets.get(usize::from(sheet)).copied()
    }

    // Joins another sheet into a sheet, and answers the new length and how many steps both had.
    pub fn join<S: StepSystem>(
        &mut self,
        system: &S,
        sheet: u8,
        other: u8,
    ) -> Result<(u8, u8), BenchFault>
        ensures answer { pair_answer result ≡ answered (on_sheet (pages_of self.old) sheet (joined (S.transitions system.now) (S.independence system.now) (page_at (pages_of self.old) other))) }
        ensures pages { pages_of self.new ≡ pages_after (on_sheet (pages_of self.old) sheet (joined (S.transitions system.now) (S.independence system.now) (page_at (pages_of self.old) other))) (pages_of self.old) sheet }
        ensures untouched { is_err result ≡ true → self.new ≡ self.old }
    {
        let s = index(sheet)?;
        let from = self.named(other);
        self.sheets[s].join(system, from)
    }

    // Releases an open sheet, so that it can be printed.
    pub fn release<S: StepSystem>(&mut self, system: &S, sheet: u8) -> Result<(), BenchFault>
        ensures answer { result ≡ accepted (on_sheet (pages_of self.old) sheet (released (S.transitions system.now))) }
        ensures pages { pages_of self.new ≡ pages_after (on_sheet (pages_of self.old) sheet (released (S.transitions system.now))) (pages_of self.old) sheet }
        ensures untouched { is_err result ≡ true → self.new ≡ self.old }
    {
        let s = index(sheet)?;
        self.sheets[s].release(system)
    }

    // Opens a released sheet again, as it is.
    pub fn reopen<S: StepSystem>(&mut self, system: &S, sheet: u8) -> Result<(), BenchFault>
        ensures answer { result ≡ accepted (on_sheet (pages_of self.old) sheet (reopened (S.transitions system.now))) }
        ensures pages { pages_of self.new ≡ pages_after (on_sheet (pages_of self.old) sheet (reopened (S.transitions system.now))) (pages_of self.old) sheet }
        ensures untouched { is_err result ≡ true → self.new ≡ self.old }
    {
        let s = index(sheet)?;
        self.sheets[s].reopen(system)
    }

    // Prints a released sheet over the front of `out`, and answers the text's length.
    pub fn print<S: StepSystem>(
        &self,
        system: &S,
        sheet: u8,
        out: &mut [u8],
    ) -> Result<usize, BenchFault>
        ensures answer { result ≡ count (answered (on_sheet (pages_of self.now) sheet (printed (S.transitions system.now) (length out.old)))) }
        ensures buffer { out.new ≡ buffer_after (answered (on_sheet (pages_of self.now) sheet (printed (S.transitions system.now) (length out.old)))) out.old }
        ensures bound { IfOk result (λ n. n ≤ 5222) }
    {
        let s = index(sheet)?;
        self.sheets[s].print(system, out)
    }

    // Answers the state after the first `steps` steps of a sheet, and changes nothing.
    pub fn look<S: StepSystem>(
        &mut self,
        system: &S,
        sheet: u8,
        steps: u8,
        out: &mut [u8],
    ) -> Result<usize, BenchFault>
        ensures answer { result ≡ count (answered (on_sheet (pages_of self.old) sheet (looked (S.transitions system.now) steps (length out.old)))) }
        ensures buffer { out.new ≡ buffer_after (answered (on_sheet (pages_of self.old) sheet (looked (S.transitions system.now) steps (length out.old)))) out.old }
        ensures unchanged { self.new ≡ self.old }
    {
        let s = index(sheet)?;
        self.sheets[s].look(system, steps, out)
    }

    // The standing of a sheet, if there is one of that number.
    pub fn standing(&self, sheet: u8) -> Option<Standing>
        ensures { result ≡ standing_of (page_at (pages_of self.now) sheet) }
    {
        let named = self.sheets.get(usize::from(sheet))?;
        Some(named.standing())
    }
}
