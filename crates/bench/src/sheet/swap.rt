// The exchange of neighbours on a sheet.
ghost use Rattle.std.specs.Prelude.{◌≡◌, ◌-◌, ◌<◌, true, [], is_ok, is_err, slice_index_or};
ghost use Rattle.joins.specs.Exchange.{neighbours_answer, exchange_answer};
ghost use Rattle.bench.specs.Page.{page_of};
ghost use Rattle.bench.specs.Replay.{end_answer};
ghost use Rattle.bench.specs.Calls.{accepted, after};
ghost use Rattle.bench.specs.Swap.{swapped};

use crate::fault::BenchFault;
use crate::sheet::{Sheet, Standing};
use crate::state::following;
use joins::exchange::{Neighbours, exchange};
use steps::fault::MaskFault;
use steps::system::StepSystem;

impl Sheet {
    // The steps n and n + 1 of a sheet that replays, the other way round, where they can be exchanged.
    // That it replays is a clause: a fact of the sheet and of the system.
    fn neighbours<S: StepSystem>(
        &self,
        system: &S,
        n: usize,
    ) -> Result<Option<Neighbours>, MaskFault>
        requires above { 0 < n }
        requires below { n < self.now.head.len }
        requires replays { is_ok (end_answer (S.transitions system.now) (page_of self.now)) ≡ true }
        ensures { neighbours_answer result ≡ exchange_answer (S.independence system.now) (slice_index_or (page_of self.now).rows (n - 1) []) (slice_index_or (page_of self.now).rows n []) }
    {
        exchange(system, &self.rows[n - 1], &self.rows[n])
    }

    // Exchanges the steps `place` and `place` + 1: what the second was before the first comes first, then what is left of the first.
    pub fn swap<S: StepSystem>(&mut self, system: &S, place: u8) -> Result<(), BenchFault>
        ensures answer { result ≡ accepted (swapped (S.transitions system.now) (S.independence system.now) place (page_of self.old)) }
        ensures page { page_of self.new ≡ after (swapped (S.transitions system.now) (S.independence system.now) place (page_of self.old)) (page_of self.old) }
        ensures untouched { is_err result ≡ true → self.new ≡ self.old }
    {
        self.end(system, Standing::Open)?;
        let len = self.head.len;
        let n = usize::from(place);
        if n == 0 || n >= len {
            return Err(BenchFault::NoSuchStep(u16::from(place)));
        }
        let dependent = BenchFault::Dependent(u16::from(place));
        let neighbours = self.neighbours(system, n)?.ok_or(dependent)?;
        let before = self.replay(system, n - 1)?;
        following(system, &before, neighbours.first.items())?;
        self.rows[n - 1] = neighbours.first;
        self.rows[n] = neighbours.second;
        Ok(())
    }
}
