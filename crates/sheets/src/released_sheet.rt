// A released sheet.
ghost use Rattle.std.specs.Prelude.{◌≡◌};
ghost use Rattle.bench.specs.declared.sheet.Standing.TheVariants.{Released};
ghost use Rattle.bench.specs.Page.{page_of};

use bench::sheet::Sheet;

mod calls;

// A sheet that can be printed, and is used up where it is reopened.
// Neither `Copy` nor `Drop`: it stands once, and is not lost but by `discard`.
pub struct ReleasedSheet {
    pub(crate) sheet: Sheet,
    ghost released: { (page_of sheet).standing ≡ Released },
}
