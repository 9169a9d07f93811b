// One call on a bench.
ghost use Rattle.std.specs.Prelude.{◌≡◌, ◌≤◌, length};
ghost use Rattle.bench.specs.Table.{pages_of};
ghost use Rattle.history.specs.Views.{call_view, answer_view};
ghost use Rattle.history.specs.History.AnswerView.{ends};
ghost use Rattle.history.specs.Told.{answer_told, pages_then};

use crate::call::{Answer, Call};
use bench::bench::Bench;
use bench::fault::BenchFault;
use byte_strings::held::Held;
use steps::system::StepSystem;

// Performs a call and answers what it gave.
pub(crate) fn turn<S: StepSystem>(
    bench: &mut Bench,
    system: &S,
    call: &Call<'_>,
) -> Result<Answer, BenchFault>
    ensures answer { answer_view result ≡ answer_told (S.transitions system.now) (S.independence system.now) (pages_of bench.old) (call_view call.now) }
    ensures pages { pages_of bench.new ≡ pages_then (S.transitions system.now) (S.independence system.now) (pages_of bench.old) (call_view call.now) }
{
    // A match and no table of functions: each call has data of its own, and the calls are these.
    match call {
        Call::Open { sheet, state } => {
            bench.open_sheet(system, *sheet, state)?;
            Ok(Answer::Opened)
        }
        Call::Add { sheet, step } => {
            // Here and below a lent buffer and a length, as the bench answers, without a heap.
            let mut out = [0u8; 256];
            let n = bench.add(system, *sheet, step, &mut out)?;
            Ok(end_at(&out[..n]))
        }
        Call::Swap { sheet, place } => {
            bench.swap(system, *sheet, *place)?;
            Ok(Answer::Swapped)
        }
        Call::Withdraw { sheet } => {
            let mut end = [0u8; 256];
            let n = bench.withdraw(system, *sheet, &mut end)?;
            Ok(end_at(&end[..n]))
        }
        Call::Join { sheet, other } => {
            let (len, shared) = bench.join(system, *sheet, *other)?;
            Ok(Answer::Joined { len, shared })
        }
    }
}

// The answer that a run ends in a state.
fn end_at(state: &[u8]) -> Answer
    requires { length state.now ≤ 256 }
    ensures { answer_view (Ok result) ≡ ends state.now }
{
    let Some(held) = Held::of(state) else {
        return unreachable();
    };
    Answer::Ends(held)
}
