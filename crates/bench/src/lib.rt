// The bench of run sheets: four sheets, each a start and up to 32 steps, and the calls on them over any step system.
// It knows systems only by the interface of `steps`, and rests on `joins` for exchanges and joins, as `runs` defines them.
#![tactic(auto)]

pub mod bench;
pub mod fault;
pub mod sheet;
mod state;
