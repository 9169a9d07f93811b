// Two small step systems over the same transitions: in one no two steps are independent, in the
// other all distinct ones are. Both are one system over a relation between its steps.
// They show what the interface allows. It rests on the interface of step systems.
#![tactic(auto)]

pub mod commuting;
pub mod relation;
pub mod sequential;
pub mod sum;
