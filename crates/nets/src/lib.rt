// Condition/event nets: events, markings of 64 conditions, and a net's step system.
// It rests on the interface of step systems.
#![tactic(auto)]

pub mod event;
mod marking;
pub mod net;
pub mod system;

pub use event::{Event, EventFault};
pub use net::Net;
