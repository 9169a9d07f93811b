// A sheet that is looked at only, whatever its standing.
ghost use Rattle.std.specs.Prelude.{◌≡◌};
ghost use Rattle.bench.specs.Page.{page_of};
ghost use Rattle.sheets.specs.Pages.{any_page};

use crate::open_sheet::OpenSheet;
use crate::released_sheet::ReleasedSheet;
use bench::sheet::Sheet;

// An open or a released sheet.
#[derive(Clone, Copy)]
pub enum AnySheet<'a> {
    Open(&'a OpenSheet),
    Released(&'a ReleasedSheet),
}

impl AnySheet<'_> {
    // The sheet of the bench that it holds.
    pub(crate) fn sheet(self) -> Sheet
        ensures { page_of result ≡ any_page self.entry }
    {
        match self {
            AnySheet::Open(open) => open.sheet,
            AnySheet::Released(released) => released.sheet,
        }
    }
}
