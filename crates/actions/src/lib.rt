// Actions, names, and the lists of names that masks and renamings have.
// It rests on `byte_strings`.
#![tactic(auto)]

pub mod action;
pub mod names;
pub mod pairs;

pub use names::{NAME_LIMIT, NameFault, Names};
pub use pairs::{PAIR_LIMIT, Pair, PairFault, Pairs};
