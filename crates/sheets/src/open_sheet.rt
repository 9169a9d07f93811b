// An open sheet.
ghost use Rattle.std.specs.Prelude.{◌≡◌};
ghost use Rattle.bench.specs.declared.sheet.Standing.TheVariants.{Open};
ghost use Rattle.bench.specs.Page.{page_of};

use bench::sheet::Sheet;

mod calls;
mod standing;

// A sheet that can be changed, and is used up where it is released.
// Neither `Copy` nor `Drop`: it stands once, and is not lost but by `discard`.
pub struct OpenSheet {
    pub(crate) sheet: Sheet,
    ghost open: { (page_of sheet).standing ≡ Open },
}
