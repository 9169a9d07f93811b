// The replay of a sheet in a step system.
ghost use Rattle.std.specs.Prelude.{◌≡◌, ◌≤◌, length, take};
ghost use Rattle.bench.specs.Page.{page_of};
ghost use Rattle.bench.specs.Replay.{replayed, ended};

use crate::fault::BenchFault;
use crate::sheet::{Sheet, Standing};
use crate::state::walk;
use byte_strings::held::Held;
use steps::system::StepSystem;

// The state that rows lead to from a start, or the row that stops them.
pub(crate) fn retrace<S: StepSystem>(
    system: &S,
    start: &Held<256>,
    rows: &[Held<64>],
) -> Result<Held<256>, BenchFault>
    requires { length rows.now ≤ 32 }
    ensures { result ≡ replayed (S.transitions system.now) start.now rows.now }
{
    system
        .state(start.items())
        .map_err(|fault| BenchFault::Stopped(0, fault))?;
    let end = walk(system, start, rows).map_err(|halt| BenchFault::Stopped(
        halt.number,
        halt.fault,
    ))?;
    Ok(end)
}

impl Sheet {
    // The state that the first `count` rows lead to from the start, or the row that stops them.
    pub(crate) fn replay<S: StepSystem>(
        &self,
        system: &S,
        count: usize,
    ) -> Result<Held<256>, BenchFault>
        requires { count ≤ 32 }
        ensures { result ≡ replayed (S.transitions system.now) self.now.start (take count (page_of self.now).rows) }
    {
        retrace(system, &self.start, &self.rows[..count])
    }

    // The end of a sheet of the given standing, or why it has none.
    pub(crate) fn end<S: StepSystem>(
        &self,
        system: &S,
        standing: Standing,
    ) -> Result<Held<256>, BenchFault>
        ensures { result ≡ ended (S.transitions system.now) standing (page_of self.now) }
    {
        if self.head.standing != standing {
            return Err(BenchFault::WrongStanding(1));
        }
        self.replay(system, self.head.len)
    }
}
