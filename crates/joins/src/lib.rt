// Exchanging neighbours in lists of steps, and joining such lists, over any step system.
// It rests on `byte_strings` and `steps`, and answers what `runs` defines.
#![tactic(auto)]

mod carry;
pub mod exchange;
pub mod join;
pub mod list;
mod meet;
mod residual;
