// How an open sheet is given out and used up.
ghost use Rattle.std.specs.Prelude.{◌≡◌, IfErr};
ghost use Rattle.bench.specs.Page.{blank_page};
ghost use Rattle.bench.specs.Calls.{opened, released};
ghost use Rattle.sheets.specs.Pages.{open_page, page_answer, start_answer, release_answer};
ghost use Rattle.sheets.specs.Standing.{NotByStanding};

use crate::open_sheet::OpenSheet;
use crate::refused::Refused;
use crate::released_sheet::ReleasedSheet;
use bench::fault::BenchFault;
use bench::sheet::Sheet;
use steps::system::StepSystem;

impl OpenSheet {
    // Opens a new sheet at a start, with no steps.
    pub fn start<S: StepSystem>(system: &S, state: &[u8]) -> Result<OpenSheet, BenchFault>
        ensures answer { start_answer result ≡ page_answer (opened (S.transitions system.now) state.now blank_page) }
        ensures standing { IfErr result NotByStanding }
    {
        let mut sheet = Sheet::blank();
        sheet.start_at(system, state)?;
        Ok(OpenSheet { sheet })
    }

    // Releases the sheet, so that it can be printed, or gives it back.
    #[tactic(auto, using(crate::proofs::TypedSheets::same_open))]
    pub fn release<S: StepSystem>(self, system: &S) -> Result<ReleasedSheet, Refused<OpenSheet>>
        ensures answer { release_answer result ≡ page_answer (released (S.transitions system.now) (open_page self)) }
        ensures untouched { IfErr result (λ r. r.sheet ≡ self) }
        ensures standing { IfErr result (λ r. NotByStanding r.fault) }
    {
        let OpenSheet { mut sheet } = self;
        match sheet.release(system) {
            Ok(()) => Ok(ReleasedSheet { sheet }),
            Err(fault) => Err(Refused {
                sheet: OpenSheet { sheet },
                fault,
            }),
        }
    }

    // Lets the sheet go, and answers how many steps go with it.
    pub fn discard(self) -> usize
        ensures { result ≡ (open_page self).len }
    {
        let OpenSheet { sheet } = self;
        sheet.len()
    }
}
