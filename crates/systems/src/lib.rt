// The step system that the program has: terms or a net, behind a renaming, behind a mask; and what
// its answers mean. It rests on `terms`, `nets` and `layers`.
#![tactic(auto)]

ghost use Rattle.std.specs.Prelude.{◌≡◌};
ghost use Rattle.actions.specs.Contents.{names_of, pairs_of};
ghost use Rattle.systems.specs.Design.{design_of};
ghost use Rattle.systems.specs.Layered.{layered_of, transitions_of_system, independence_of_system};
ghost use Rattle.systems.specs.Possible.{Possible, EverySystem};
ghost use Rattle.systems.specs.Worked.{Worked};

use actions::names::Names;
use actions::pairs::Pairs;
use layers::{Mask, Renaming};

pub mod terms_or_net;

pub use terms_or_net::TermsOrNet;

// The system of the program.
pub type System = Mask<Renaming<TermsOrNet>>;

// Puts a renaming over terms or a net, and a mask over both. What it makes answers as the rules
// say: which strings are states and steps, which step leads where and what it shows, which steps
// are independent; and what is refused, in which order and at which place.
pub fn layered(system: TermsOrNet, pairs: Pairs, names: Names) -> System
    ensures parts { layered_of result
        ≡ record { design = design_of system; pairs = pairs_of pairs; names = names_of names } }
    ensures possible { Possible (design_of system) (pairs_of pairs) (names_of names)
        (transitions_of_system result) (independence_of_system result) }
    ensures every { EverySystem }
{
    Mask::over(Renaming::over(system, pairs), names)
}

// The definitions give these answers, which anyone can work out by hand.
// It has no code: it is of the meanings of terms and nets that the systems are proved to have.
pub fn worked_questions()
    ensures answers { Worked }
{}
