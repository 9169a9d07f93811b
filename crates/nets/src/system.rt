// The step system of a net: its states are markings, its steps the numbers of its events.
ghost use Rattle.std.specs.Prelude.{◌≡◌, ℕ, ◌≤◌, ◌↔◌, true, length, take, Ok, Err, IsOk, IfOk, IfSome, IfNone};
ghost use Rattle.byte_strings.specs.Buffer.{count, buffer_after, count_some, buffer_after_some};
ghost use Rattle.steps.specs.Meaning.{Str};
ghost use Rattle.steps.specs.Beginning.{LongestBeginning};
ghost use Rattle.steps.specs.Answers.{state_answer, step_answer, label_answer, next_answer, independent_answer, left_answer, back_answer};
ghost use Rattle.steps.specs.declared.fault.MaskFault.TheVariants.{Inner};
ghost use Rattle.steps.specs.declared.fault.SystemFault.TheVariants.{NoState, NoStep, Impossible};
ghost use Rattle.nets.specs.declared.event.Event.{Event};
ghost use Rattle.nets.specs.Contents.{events_of};
ghost use Rattle.nets.specs.System.{net_transitions, net_independence};
ghost use Rattle.nets.specs.Rules.{IsMarking, IsEvent, Names, NetGoes, Stuck, NetLeaves, StepPlace};
ghost use Rattle.nets.specs.Laws.{net_laws};

use crate::marking;
use crate::net::Net;
use steps::answer::put_step_if;
use steps::fault::{MaskFault, SystemFault};
use steps::label::Label;
use steps::system::StepSystem;

impl StepSystem for Net {
    ghost transitions = { λ n. net_transitions (events_of n) };

    ghost independence = { λ n. net_independence (events_of n) };

    ghost lawful = { λ n. net_laws (events_of n) n.sound };

    // Any eight bytes are a state. Of others it tells where the longest beginning of one ends:
    // behind the last byte, or behind the eighth.
    fn state(&self, state: &[u8]) -> Result<(), MaskFault>
        ensures answer { result ≡ state_answer (net_transitions (events_of self.now)) state.now }
        ensures markings { IsOk result ↔ IsMarking state.now }
        ensures place { (p : ℕ) → result ≡ Err (Inner (NoState p)) →
            LongestBeginning IsMarking state.now p }
    {
        marking::read(state)?;
        Ok(())
    }

    // A step is one byte, the number of an event. Of others it tells where the longest beginning of
    // one ends: behind the first byte if that is one, else at 0.
    fn step(&self, step: &[u8]) -> Result<(), MaskFault>
        ensures answer { result ≡ step_answer (net_transitions (events_of self.now)) step.now }
        ensures events { IsOk result ↔ IsEvent (events_of self.now) step.now }
        ensures place { (p : ℕ) → result ≡ Err (Inner (NoStep p)) →
            StepPlace (events_of self.now) step.now p }
    {
        self.event(step)?;
        Ok(())
    }

    // A step shows its event's action.
    fn label(&self, step: &[u8]) -> Result<Label, MaskFault>
        ensures answer { result ≡ label_answer (net_transitions (events_of self.now)) step.now }
        ensures action { (e : Event) → Names (events_of self.now) step.now e →
            result ≡ Ok (record { action = e.action }) }
    {
        let event = self.event(step)?;
        Ok(Label {
            action: event.action,
        })
    }

    // The marking that follows by the firing rule, in eight bytes; `Impossible` at 0 where there is
    // none.
    fn next(&self, state: &[u8], step: &[u8], out: &mut [u8]) -> Result<usize, MaskFault>
        ensures answer { let net = net_transitions (events_of self.now) in
            result ≡ count (next_answer net state.now step.now (length out.old)) }
        ensures buffer { let net = net_transitions (events_of self.now) in
            out.new ≡ buffer_after (next_answer net state.now step.now (length out.old)) out.old }
        ensures moves { IfOk result (λ n.
            NetGoes (events_of self.now) state.now step.now (take n out.new)) }
        ensures whole { (b : Str) → NetGoes (events_of self.now) state.now step.now b →
            8 ≤ length out.old → result ≡ Ok 8 }
        ensures stuck { (result ≡ Err (Inner (Impossible 0)))
            ↔ Stuck (events_of self.now) state.now step.now }
    {
        let event = self.event(step)?;
        let marking = marking::read(state)?;
        let after = event
            .fire(marking)
            .ok_or(MaskFault::Inner(SystemFault::Impossible(0)))?;
        marking::put(after, out)
    }

    // Two steps are independent if no condition is at both events.
    fn independent(&self, x: &[u8], y: &[u8]) -> Result<bool, MaskFault>
        ensures answer { let net = net_transitions (events_of self.now) in
            let apart = net_independence (events_of self.now) in
            result ≡ independent_answer net apart x.now y.now }
        ensures rule { (result ≡ Ok true) ↔ NetLeaves (events_of self.now) x.now y.now x.now }
    {
        let first = self.event(x)?;
        let second = self.event(y)?;
        Ok(first.apart_from(second))
    }

    // What is left of x after y: x itself where the two are independent, else nothing.
    fn residual(&self, x: &[u8], y: &[u8], out: &mut [u8]) -> Result<Option<usize>, MaskFault>
        ensures answer { let net = net_transitions (events_of self.now) in
            let apart = net_independence (events_of self.now) in
            result ≡ count_some (left_answer net apart x.now y.now (length out.old)) }
        ensures buffer { let net = net_transitions (events_of self.now) in
            let apart = net_independence (events_of self.now) in
            out.new
            ≡ buffer_after_some (left_answer net apart x.now y.now (length out.old)) out.old }
        ensures leaves { IfOk result (λ left.
            IfSome left (λ n. NetLeaves (events_of self.now) x.now y.now (take n out.new))) }
        ensures nothing { IfOk result (λ left.
            IfNone left ((z : Str) → NetLeaves (events_of self.now) x.now y.now z → ⊥)) }
    {
        put_step_if(self.independent(x, y)?, x, out)
    }

    // The step of which z is left after x: z itself where the two are independent, else none.
    fn back(&self, x: &[u8], z: &[u8], out: &mut [u8]) -> Result<Option<usize>, MaskFault>
        ensures answer { let net = net_transitions (events_of self.now) in
            let apart = net_independence (events_of self.now) in
            result ≡ count_some (back_answer net apart x.now z.now (length out.old)) }
        ensures buffer { let net = net_transitions (events_of self.now) in
            let apart = net_independence (events_of self.now) in
            out.new
            ≡ buffer_after_some (back_answer net apart x.now z.now (length out.old)) out.old }
        ensures leaves { IfOk result (λ origin.
            IfSome origin (λ n. NetLeaves (events_of self.now) (take n out.new) x.now z.now)) }
        ensures nothing { IfOk result (λ origin.
            IfNone origin ((y : Str) → NetLeaves (events_of self.now) y x.now z.now → ⊥)) }
    {
        put_step_if(self.independent(x, z)?, z, out)
    }
}
