// Terms of CCS and the proofs of their steps: the bytes that spell them, the transition rules,
// independence of steps and their residuals; and that terms over some definitions are a step
// system. Its functions have no code: each names what is proved of the
// definitions. It rests on `byte_strings`, `actions` and `steps`.
#![tactic(auto)]

pub mod due;
pub mod node_bytes;

ghost use Rattle.ccs.specs.ReadingLaws.{ReadTerms, ReadProofs, StatesAreTerms, StepsAreProper, StatePlaces, StepPlaces};
ghost use Rattle.ccs.specs.FollowLaws.{NextByRules, MisfitsTold, LabelsShown};
ghost use Rattle.ccs.specs.ResidualLaws.{LeftByRules, BackUndoesLeft, Lawful};

/// Which strings are states and steps, and which place is told of the others.
///
/// A string is read as the one term, or the one proof, that it spells. States are the terms over so
/// many definitions, steps the proper proofs. Of a string that is no state within the limit, and of
/// no other, the place is told where its longest beginning ends that begins a state. Of one that is
/// no step, likewise: for proofs, or the place of a proof's first improper node.
pub fn strings_are_read()
    ensures terms { ReadTerms }
    ensures proofs { ReadProofs }
    ensures states { StatesAreTerms }
    ensures steps { StepsAreProper }
    ensures state_places { StatePlaces }
    ensures step_places { StepPlaces }
{}

/// What follows a state by a step, and what the step shows.
///
/// Over definitions whose bodies are terms over as many and no calls, a step leads from a state to
/// another exactly where the transition rules say so. Where it leads nowhere, and only there, the
/// place is told of the first node that does not fit. A step shows what its proof does.
pub fn terms_follow_rules()
    ensures next { NextByRules }
    ensures misfits { MisfitsTold }
    ensures labels { LabelsShown }
{}

/// Independence of steps, and residuals.
///
/// Something is left of a step after another exactly where the rules say so. Back answers the step
/// of which the other is what is left, where there is one.
pub fn residuals_follow_rules()
    ensures left { LeftByRules }
    ensures back { BackUndoesLeft }
{}

/// Terms over sound definitions keep every law of step systems.
pub fn terms_are_lawful()
    ensures laws { Lawful }
{}
