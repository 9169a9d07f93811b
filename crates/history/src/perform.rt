// A list of calls on a new bench.
ghost use Rattle.std.specs.Prelude.{◌≡◌, false, map, length, take, is_some};
ghost use Rattle.history.specs.Views.{call_view, answer_view, Promised};
ghost use Rattle.history.specs.Told.{bench_view, performed, answers_after};

use crate::call::{Answer, Call};
use crate::turn;
use bench::bench::Bench;
use bench::fault::BenchFault;
use steps::system::StepSystem;

// Performs calls on a new bench, each on what the earlier ones left, and answers what each gave and the bench; none, and the answers as they were, where there is no room for an answer to each.
pub fn perform<S: StepSystem>(
    system: &S,
    calls: &[Call<'_>],
    answers: &mut [Result<Answer, BenchFault>],
) -> Option<Bench>
    ensures answer { bench_view result ≡ performed (S.transitions system.now) (S.independence system.now) (map call_view calls.now) (length answers.old) }
    ensures answers { map answer_view answers.new ≡ answers_after (S.transitions system.now) (S.independence system.now) (map call_view calls.now) (map answer_view answers.old) }
    ensures untouched { is_some result ≡ false → answers.new ≡ answers.old }
    ensures promise { Promised (S.transitions system.now) (S.independence system.now) (map call_view calls.now) (length answers.old) (map answer_view (take (length calls.now) answers.new)) result }
{
    if calls.len() > answers.len() {
        return None;
    }
    let mut bench = Bench::new();
    // By index: after `answers.iter_mut().zip(calls)` and two zips like it a proof knows how many answers there are, but none of them; and `iter_mut` alone, with the calls moved on by hand, is no plainer.
    for (i, call) in calls.iter().enumerate() {
        answers[i] = turn::turn(&mut bench, system, call);
    }
    Some(bench)
}
