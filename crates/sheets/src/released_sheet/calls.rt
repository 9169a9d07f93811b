// What is done with a released sheet.
ghost use Rattle.std.specs.Prelude.{◌≡◌, ◌≤◌, length, IfOk, IfErr};
ghost use Rattle.byte_strings.specs.Buffer.{count, buffer_after};
ghost use Rattle.bench.specs.Calls.{answered, reopened};
ghost use Rattle.bench.specs.Print.{printed};
ghost use Rattle.bench.specs.Look.{looked};
ghost use Rattle.sheets.specs.Pages.{released_page, page_answer, reopen_answer};
ghost use Rattle.sheets.specs.Standing.{NotByStanding};

use crate::open_sheet::OpenSheet;
use crate::refused::Refused;
use crate::released_sheet::ReleasedSheet;
use bench::fault::BenchFault;
use steps::system::StepSystem;

impl ReleasedSheet {
    // Prints the sheet over the front of `out`, and answers the text's length.
    pub fn print<S: StepSystem>(&self, system: &S, out: &mut [u8]) -> Result<usize, BenchFault>
        ensures answer { result ≡ count (answered (printed (S.transitions system.now) (length out.old) (released_page self.now))) }
        ensures buffer { out.new ≡ buffer_after (answered (printed (S.transitions system.now) (length out.old) (released_page self.now))) out.old }
        ensures bound { IfOk result (λ n. n ≤ 5222) }
        ensures standing { IfErr result NotByStanding }
    {
        self.sheet.print(system, out)
    }

    // Answers the state after the first `steps` steps, and changes nothing.
    pub fn look<S: StepSystem>(
        &mut self,
        system: &S,
        steps: u8,
        out: &mut [u8],
    ) -> Result<usize, BenchFault>
        ensures answer { result ≡ count (answered (looked (S.transitions system.now) steps (length out.old) (released_page self.old))) }
        ensures buffer { out.new ≡ buffer_after (answered (looked (S.transitions system.now) steps (length out.old) (released_page self.old))) out.old }
        ensures unchanged { self.new ≡ self.old }
        ensures standing { IfErr result NotByStanding }
    {
        self.sheet.look(system, steps, out)
    }

    // Opens the sheet again, as it is, or gives it back.
    #[tactic(auto, using(crate::proofs::TypedSheets::same_released))]
    pub fn reopen<S: StepSystem>(self, system: &S) -> Result<OpenSheet, Refused<ReleasedSheet>>
        ensures answer { reopen_answer result ≡ page_answer (reopened (S.transitions system.now) (released_page self)) }
        ensures untouched { IfErr result (λ r. r.sheet ≡ self) }
        ensures standing { IfErr result (λ r. NotByStanding r.fault) }
    {
        let ReleasedSheet { mut sheet } = self;
        match sheet.reopen(system) {
            Ok(()) => Ok(OpenSheet { sheet }),
            Err(fault) => Err(Refused {
                sheet: ReleasedSheet { sheet },
                fault,
            }),
        }
    }

    // Lets the sheet go, and answers how many steps go with it.
    pub fn discard(self) -> usize
        ensures { result ≡ (released_page self).len }
    {
        let ReleasedSheet { sheet } = self;
        sheet.len()
    }
}
