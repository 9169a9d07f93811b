// The frame server: a line of input to the whole text of its answer.
// It rests on all crates below: frames are read, the step system and the bench are asked, answers are written.
#![tactic(auto)]

pub mod answer;
mod calls;
mod fault;
pub mod server;
pub mod session;
mod setup;
pub mod text;
