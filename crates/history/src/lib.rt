// Calls performed one after the other on a new bench, and the promise that every moment of it keeps.
// It rests on `bench`, and speaks of its sheets in the words of `runs`.
#![tactic(auto)]

pub mod call;
pub mod perform;
pub mod plain;
pub mod reports;
mod turn;
