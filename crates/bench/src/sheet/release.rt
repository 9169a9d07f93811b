// A sheet's standing, and the calls that change it only.
ghost use Rattle.std.specs.Prelude.{◌≡◌, true, is_err};
ghost use Rattle.bench.specs.Page.{page_of};
ghost use Rattle.bench.specs.Calls.{accepted, after, restood, released, reopened};

use crate::fault::BenchFault;
use crate::sheet::{Head, Sheet, Standing};
use steps::system::StepSystem;

impl Sheet {
    // Releases an open sheet.
    pub fn release<S: StepSystem>(&mut self, system: &S) -> Result<(), BenchFault>
        ensures answer { result ≡ accepted (released (S.transitions system.now) (page_of self.old)) }
        ensures page { page_of self.new ≡ after (released (S.transitions system.now) (page_of self.old)) (page_of self.old) }
        ensures untouched { is_err result ≡ true → self.new ≡ self.old }
    {
        self.restand(system, Standing::Open, Standing::Released)
    }

    // Opens a released sheet again.
    pub fn reopen<S: StepSystem>(&mut self, system: &S) -> Result<(), BenchFault>
        ensures answer { result ≡ accepted (reopened (S.transitions system.now) (page_of self.old)) }
        ensures page { page_of self.new ≡ after (reopened (S.transitions system.now) (page_of self.old)) (page_of self.old) }
        ensures untouched { is_err result ≡ true → self.new ≡ self.old }
    {
        self.restand(system, Standing::Released, Standing::Open)
    }

    // Gives a sheet of one standing, which replays, another.
    fn restand<S: StepSystem>(
        &mut self,
        system: &S,
        from: Standing,
        to: Standing,
    ) -> Result<(), BenchFault>
        ensures answer { result ≡ accepted (restood (S.transitions system.now) from to (page_of self.old)) }
        ensures page { page_of self.new ≡ after (restood (S.transitions system.now) from to (page_of self.old)) (page_of self.old) }
        ensures untouched { is_err result ≡ true → self.new ≡ self.old }
    {
        self.end(system, from)?;
        self.head = Head {
            standing: to,
            len: self.head.len,
        };
        Ok(())
    }
}
