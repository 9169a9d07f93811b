// The step system: what terms, nets and the layers over them answer, and the laws that they keep.
ghost use Rattle.std.specs.Prelude.{◌≡◌, length};
ghost use Rattle.steps.specs.Meaning.{Transitions, Independence};
ghost use Rattle.steps.specs.Laws.{Laws};
ghost use Rattle.byte_strings.specs.Buffer.{count, buffer_after, count_some, buffer_after_some};
ghost use Rattle.steps.specs.Answers.{state_answer, step_answer, label_answer, next_answer, independent_answer, left_answer, back_answer};

use crate::fault::MaskFault;
use crate::label::Label;

// A question changes nothing. Its answer is the meaning, or the first refusal in the order:
// no step, masked, no state, not possible, too long.
// An answer of bytes is written to a lent buffer, and its length given back: no heap is used.
pub trait StepSystem {
    ghost transitions: { Self → Transitions };

    ghost independence: { Self → Independence };

    // Is it a state?
    fn state(&self, state: &[u8]) -> Result<(), MaskFault>
        ensures { result ≡ state_answer (transitions self.now) state.now };

    // Is it a step?
    fn step(&self, step: &[u8]) -> Result<(), MaskFault>
        ensures { result ≡ step_answer (transitions self.now) step.now };

    // What does the step show?
    fn label(&self, step: &[u8]) -> Result<Label, MaskFault>
        ensures { result ≡ label_answer (transitions self.now) step.now };

    // Which state follows by the step? Its length, with the state at the front of `out`.
    fn next(&self, state: &[u8], step: &[u8], out: &mut [u8]) -> Result<usize, MaskFault>
        ensures answer { result ≡ count
            (next_answer (transitions self.now) state.now step.now (length out.old)) }
        ensures buffer { out.new ≡ buffer_after
            (next_answer (transitions self.now) state.now step.now (length out.old)) out.old };

    // Are the two steps independent?
    fn independent(&self, x: &[u8], y: &[u8]) -> Result<bool, MaskFault>
        ensures { result ≡ independent_answer
            (transitions self.now) (independence self.now) x.now y.now };

    // What is left of x after y? Its length, with the step at the front of `out`;
    // none where they are dependent.
    fn residual(&self, x: &[u8], y: &[u8], out: &mut [u8]) -> Result<Option<usize>, MaskFault>
        ensures answer { result ≡ count_some
            (left_answer (transitions self.now) (independence self.now)
            x.now y.now (length out.old)) }
        ensures buffer { out.new ≡ buffer_after_some
            (left_answer (transitions self.now) (independence self.now)
            x.now y.now (length out.old)) out.old };

    // Which step, independent of x, has z left after x? Its length, with the step at the front of
    // `out`, or that there is none.
    fn back(&self, x: &[u8], z: &[u8], out: &mut [u8]) -> Result<Option<usize>, MaskFault>
        ensures answer { result ≡ count_some
            (back_answer (transitions self.now) (independence self.now)
            x.now z.now (length out.old)) }
        ensures buffer { out.new ≡ buffer_after_some
            (back_answer (transitions self.now) (independence self.now)
            x.now z.now (length out.old)) out.old };

    ghost lawful: { (m : Self) → Laws (transitions m) (independence m) };
}
