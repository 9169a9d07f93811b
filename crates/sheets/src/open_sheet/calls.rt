// The calls that change the steps of an open sheet.
ghost use Rattle.std.specs.Prelude.{◌≡◌, true, length, is_err, IfErr};
ghost use Rattle.byte_strings.specs.Buffer.{count, buffer_after};
ghost use Rattle.bench.specs.Calls.{answered, accepted, after, opened, added, withdrawn};
ghost use Rattle.bench.specs.Swap.{swapped};
ghost use Rattle.bench.specs.Join.{pair_answer, joined};
ghost use Rattle.bench.specs.Look.{looked};
ghost use Rattle.sheets.specs.Pages.{open_page, any_page};
ghost use Rattle.sheets.specs.Standing.{NotByStanding};

use crate::any_sheet::AnySheet;
use crate::open_sheet::OpenSheet;
use bench::fault::BenchFault;
use steps::system::StepSystem;

// Each call says that a refusal leaves the sheet as it was, and that a standing is never why: no type can hold that.
impl OpenSheet {
    // Begins the sheet anew at a start, with no steps.
    pub fn restart<S: StepSystem>(&mut self, system: &S, state: &[u8]) -> Result<(), BenchFault>
        ensures answer { result ≡ accepted (opened (S.transitions system.now) state.now (open_page self.old)) }
        ensures page { open_page self.new ≡ after (opened (S.transitions system.now) state.now (open_page self.old)) (open_page self.old) }
        ensures untouched { is_err result ≡ true → self.new ≡ self.old }
        ensures standing { IfErr result NotByStanding }
    {
        self.sheet.start_at(system, state)
    }

    // Adds a step behind the others, and answers the end state.
    pub fn add<S: StepSystem>(
        &mut self,
        system: &S,
        step: &[u8],
        out: &mut [u8],
    ) -> Result<usize, BenchFault>
        ensures answer { result ≡ count (answered (added (S.transitions system.now) step.now (length out.old) (open_page self.old))) }
        ensures buffer { out.new ≡ buffer_after (answered (added (S.transitions system.now) step.now (length out.old) (open_page self.old))) out.old }
        ensures page { open_page self.new ≡ after (added (S.transitions system.now) step.now (length out.old) (open_page self.old)) (open_page self.old) }
        ensures untouched { is_err result ≡ true → self.new ≡ self.old }
        ensures standing { IfErr result NotByStanding }
    {
        self.sheet.add(system, step, out)
    }

    // Takes the last step away, and answers the end state.
    pub fn withdraw<S: StepSystem>(
        &mut self,
        system: &S,
        out: &mut [u8],
    ) -> Result<usize, BenchFault>
        ensures answer { result ≡ count (answered (withdrawn (S.transitions system.now) (length out.old) (open_page self.old))) }
        ensures buffer { out.new ≡ buffer_after (answered (withdrawn (S.transitions system.now) (length out.old) (open_page self.old))) out.old }
        ensures page { open_page self.new ≡ after (withdrawn (S.transitions system.now) (length out.old) (open_page self.old)) (open_page self.old) }
        ensures untouched { is_err result ≡ true → self.new ≡ self.old }
        ensures standing { IfErr result NotByStanding }
    {
        self.sheet.withdraw(system, out)
    }

    // Exchanges the steps `place` and `place` + 1.
    #[tactic(auto, using(crate::proofs::TypedSheets::same_open))]
    pub fn swap<S: StepSystem>(&mut self, system: &S, place: u8) -> Result<(), BenchFault>
        ensures answer { result ≡ accepted (swapped (S.transitions system.now) (S.independence system.now) place (open_page self.old)) }
        ensures page { open_page self.new ≡ after (swapped (S.transitions system.now) (S.independence system.now) place (open_page self.old)) (open_page self.old) }
        ensures untouched { is_err result ≡ true → self.new ≡ self.old }
        ensures standing { IfErr result NotByStanding }
    {
        self.sheet.swap(system, place)
    }

    // Joins another sheet into this one, and answers the new length and how many steps both had.
    pub fn join<S: StepSystem>(
        &mut self,
        system: &S,
        other: AnySheet<'_>,
    ) -> Result<(u8, u8), BenchFault>
        ensures answer { pair_answer result ≡ answered (joined (S.transitions system.now) (S.independence system.now) (Some (any_page other.entry)) (open_page self.old)) }
        ensures page { open_page self.new ≡ after (joined (S.transitions system.now) (S.independence system.now) (Some (any_page other.entry)) (open_page self.old)) (open_page self.old) }
        ensures untouched { is_err result ≡ true → self.new ≡ self.old }
        ensures standing { IfErr result NotByStanding }
    {
        self.sheet.join(system, Some(other.sheet()))
    }

    // Answers the state after the first `steps` steps, and changes nothing.
    pub fn look<S: StepSystem>(
        &mut self,
        system: &S,
        steps: u8,
        out: &mut [u8],
    ) -> Result<usize, BenchFault>
        ensures answer { result ≡ count (answered (looked (S.transitions system.now) steps (length out.old) (open_page self.old))) }
        ensures buffer { out.new ≡ buffer_after (answered (looked (S.transitions system.now) steps (length out.old) (open_page self.old))) out.old }
        ensures unchanged { self.new ≡ self.old }
        ensures standing { IfErr result NotByStanding }
    {
        self.sheet.look(system, steps, out)
    }
}
