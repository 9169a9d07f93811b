// Terms over some definitions, each of which has a body that is a term over them and no call.
ghost use Rattle.std.specs.Prelude.{◌≡◌, ◌≤◌, length, IsTrue};
ghost use Rattle.terms.specs.Bodies.{definition_limit, sound_bodies_of};

use crate::body::{BodyFault, body_fault};
pub use crate::limits::{BODY_LIMIT, DEFINITION_LIMIT};
use crate::misfit::further;
use crate::place::past;
use byte_strings::held::Held;
use byte_strings::list::FixedList;
use ccs::node_bytes::{PARALLEL, RESTRICTION};
use nodes::proof::Proof;
use nodes::term::Term;
use residuals::sink::Sink;
use steps::STATE_LIMIT;
use steps::fault::SystemFault;

// The definitions that terms may call: how many, and the bodies of the first of them. One whose
// body is still to come does nothing.
#[derive(Clone, Copy)]
pub struct Terms {
    count: u8,
    bodies: FixedList<Held<BODY_LIMIT>, DEFINITION_LIMIT>,
    ghost limited: { count ≤ definition_limit },
    ghost few: { length bodies ≤ count },
    ghost sound: { IsTrue (sound_bodies_of count bodies) },
}

impl Terms {
    ghost use Rattle.std.specs.Prelude.{ℕ, ◌+◌, ◌<◌, ◌^◌, [], min, Some, is_ok, IfSome};
    ghost use Rattle.std.specs.List.{slice_get};
    ghost use Rattle.byte_strings.specs.Lent.{part_view};
    ghost use Rattle.ccs.specs.Reading.{read_term, read_proof};
    ghost use Rattle.nodes.specs.Nodes.{TermNode, TermsRead, node_of_term};
    ghost use Rattle.terms.specs.Answers.{state_check_answer};
    ghost use Rattle.terms.specs.Bodies.{add_answer, bodies_after, WithinBody};
    ghost use Rattle.terms.specs.BodyLaws.{BodiesTold};
    ghost use Rattle.terms.specs.Contents.{count_of, bodies_of, terms_of};
    ghost use Rattle.terms.specs.Follow.{plain_term, next_term, onto_term, outcome, WithinStep};

    // Terms over so many definitions, sixteen at most, whose bodies are still to come.
    pub fn new(count: u8) -> Terms
        ensures count { count_of result ≡ min count definition_limit }
        ensures bodies { bodies_of result ≡ [] }
    {
        Terms {
            count: count.min(DEFINITION_LIMIT as u8),
            bodies: FixedList::empty(),
        }
    }

    // Gives the next definition its body, or refuses it and stays as it is.
    #[tactic(auto, using(crate::proofs::Bodies::bodies_told))]
    pub fn add(&mut self, body: &[u8]) -> Result<(), BodyFault>
        ensures answer { result ≡ add_answer (count_of self.old) (bodies_of self.old) body.now }
        ensures count { count_of self.new ≡ count_of self.old }
        ensures bodies { bodies_of self.new
            ≡ bodies_after (count_of self.old) (bodies_of self.old) body.now }
        ensures place { WithinBody result }
        ensures told { BodiesTold }
    {
        if self.bodies.items().len() >= usize::from(self.count) {
            return Err(BodyFault::Full);
        }
        if let Some(place) = body_fault(self.count, body) {
            return Err(BodyFault::NoBody(place));
        }
        let Some(held) = Held::of(body) else {
            return unreachable();
        };
        self.bodies.push(held);
        Ok(())
    }

    // Refuses a string that is no state, or a longer one than a state may be.
    pub(crate) fn check_state(&self, state: &[u8]) -> Result<(), SystemFault>
        ensures { result ≡ state_check_answer (terms_of self.now) state.now }
    {
        match past(STATE_LIMIT, state, Term::fault(self.count, state)) {
            Some(place) => Err(SystemFault::NoState(place)),
            None => Ok(()),
        }
    }

    // The node of a term that is no call: its own, or that of the body that it calls.
    pub(crate) fn plain_node<'a>(&'a self, term: &'a [u8]) -> Term<'a>
        requires { IsTrue (is_ok (read_term self.now.count term.now)) }
        ensures node { TermNode self.now.count
            (Some (node_of_term result)) (plain_term (terms_of self.now) term.now) }
        ensures parts { TermsRead self.now.count (node_of_term result) }
    {
        let node = Term::of(self.count, term);
        let Some(definition) = node.called() else {
            return node;
        };
        let Some(body) = self.body(definition) else {
            return Term::Nil;
        };
        Term::of(self.count, body)
    }

    // The body of a definition, if it has come.
    fn body(&self, definition: u8) -> Option<&[u8]>
        ensures { part_view result ≡ slice_get self.now.bodies definition }
    {
        let body = self.bodies.items().get(usize::from(definition))?;
        Some(body.items())
    }

    // Writes the term that follows the term by the proof behind what was written; else the place of
    // the proof's first node that does not fit the term that it comes to: what the sink then holds
    // is not told.
    pub(crate) fn follow(&self, term: &[u8], step: &[u8], sink: &mut Sink) -> Result<(), usize>
        requires term { IsTrue (is_ok (read_term self.now.count term.now)) }
        requires step { IsTrue (is_ok (read_proof step.now)) }
        ensures answer { outcome result sink.new
            ≡ onto_term sink.old (next_term (terms_of self.now) term.now step.now) }
        ensures within { WithinStep result (length step.now) }
    {
        let node = self.plain_node(term);
        match Proof::of(step) {
            Proof::Act(action) => {
                let rest = node.rest(action).ok_or(0usize)?;
                sink.bytes(rest);
                Ok(())
            }
            Proof::Left(part) => {
                let (left, right) = node.sides().ok_or(0usize)?;
                sink.byte(PARALLEL);
                further(1, self.follow(left, part, sink))?;
                sink.bytes(right);
                Ok(())
            }
            Proof::Right(part) => {
                let (left, right) = node.sides().ok_or(0usize)?;
                sink.byte(PARALLEL);
                sink.bytes(left);
                further(1, self.follow(right, part, sink))
            }
            Proof::Both(first, second) => {
                let (left, right) = node.sides().ok_or(0usize)?;
                sink.byte(PARALLEL);
                further(1, self.follow(left, first, sink))?;
                further(1 + first.len(), self.follow(right, second, sink))
            }
            // The choice is made: what was not taken is gone.
            Proof::ChooseLeft(part) => {
                let (left, _) = node.branches().ok_or(0usize)?;
                further(1, self.follow(left, part, sink))
            }
            Proof::ChooseRight(part) => {
                let (_, right) = node.branches().ok_or(0usize)?;
                further(1, self.follow(right, part, sink))
            }
            Proof::Under(name, part) => {
                let inner = node.restricted(name).ok_or(0usize)?;
                sink.byte(RESTRICTION);
                sink.byte(name);
                further(2, self.follow(inner, part, sink))
            }
        }
    }
}
