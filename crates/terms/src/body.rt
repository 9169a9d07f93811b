// Bodies of definitions, and why a string is none.
ghost use Rattle.std.specs.Prelude.{◌≡◌, ◌≤◌, IfSome};
ghost use Rattle.terms.specs.Bodies.{body_fault, body_limit, place_of};

use crate::limits::BODY_LIMIT;
use crate::place::past;
use ccs::node_bytes::CALL;
use nodes::term::Term;

// Why a body is refused.
#[derive(Clone, Copy)]
pub enum BodyFault {
    // All definitions have their bodies.
    Full,
    // No body: the place of the first byte that fits none.
    NoBody(u16),
}

impl BodyFault {
    // The place in the body; the first, where no body is called for.
    pub fn place(self) -> u16
        ensures { result ≡ place_of self }
    {
        match self {
            BodyFault::Full => 0,
            BodyFault::NoBody(place) => place,
        }
    }
}

// The first byte that fits no body, of a string that is to be one: a body is a term and no call,
// and has at most 255 bytes.
pub(crate) fn body_fault(count: u8, body: &[u8]) -> Option<u16>
    ensures place { result ≡ body_fault count body.now }
    ensures within { IfSome result (λ k. k ≤ body_limit) }
{
    if let [CALL, ..] = body {
        return Some(0);
    }
    past(BODY_LIMIT, body, Term::fault(count, body))
}
