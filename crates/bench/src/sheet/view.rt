// What a sheet tells of itself without a step system.
ghost use Rattle.std.specs.Prelude.{◌≡◌};
ghost use Rattle.bench.specs.Page.{page_of};

use crate::sheet::{Sheet, Standing};

impl Sheet {
    // Whether the sheet is blank, open or released.
    pub fn standing(&self) -> Standing
        ensures { result ≡ (page_of self.now).standing }
    {
        self.head.standing
    }

    // How many steps the sheet has.
    pub fn len(&self) -> usize
        ensures { result ≡ (page_of self.now).len }
    {
        self.head.len
    }
}
