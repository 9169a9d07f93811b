// Layers over any step system, each a step system again: a mask, which takes steps away, and a
// renaming, which changes what they show. It rests on `actions` and on the interface of `steps`.
#![tactic(auto)]

ghost use Rattle.actions.specs.declared.names.Names.{Names};
ghost use Rattle.actions.specs.declared.pairs.Pairs.{Pairs};
ghost use Rattle.actions.specs.Contents.{names_of, pairs_of};
ghost use Rattle.steps.specs.Meaning.{Transitions, Independence};
ghost use Rattle.layers.specs.Mask.{mask_transitions, mask_independence};
ghost use Rattle.layers.specs.Renaming.{renaming_transitions};
ghost use Rattle.layers.specs.Promises.{MaskedSteps, MaskAnswers, RenamedLabels, RenamingAnswers, MaskedRenamed, NothingListed, LawsKept};

pub mod masks;
pub mod renamings;

pub use masks::Mask;
pub use renamings::Renaming;

// What a mask takes away, what a renaming replaces, and that over any step system both are step
// systems. It has no code: it holds of the meanings that the impls are proved to have.
pub fn layers_are_step_systems()
    ensures masks { (names : Names) (t : Transitions) (i : Independence) →
        MaskedSteps (names_of names) t i }
    ensures mask_answers { (names : Names) (t : Transitions) (i : Independence) →
        MaskAnswers (names_of names) t i
        (mask_transitions (names_of names) t) (mask_independence (names_of names) t i) }
    ensures renamings { (pairs : Pairs) (t : Transitions) → RenamedLabels (pairs_of pairs) t }
    ensures renaming_answers { (pairs : Pairs) (t : Transitions) (i : Independence) →
        RenamingAnswers (pairs_of pairs) t i (renaming_transitions (pairs_of pairs) t) i }
    ensures together { (names : Names) (pairs : Pairs) (t : Transitions) →
        MaskedRenamed (names_of names) (pairs_of pairs) t }
    ensures nothing { (t : Transitions) (i : Independence) → NothingListed t i }
    ensures laws { (names : Names) (pairs : Pairs) (t : Transitions) (i : Independence) →
        LawsKept (names_of names) (pairs_of pairs) t i }
{}
