// Frames: byte strings that each name a call, read without copying.
// It rests on `actions` for pairs and names, on `steps` for the way refusals are told, on `nets`
// for events, and on `terms` for the most definitions that there may be.
#![tactic(auto)]

mod call;
pub mod definition;
pub mod event;
pub mod fault;
pub mod frame;
mod kind;
mod layout;
mod parts;
mod rules;
pub mod setup;

pub use definition::{Definition, Definitions};
pub use event::{EVENT_SIZE, Events};
pub use fault::FrameFault;
pub use frame::{FRAME_LIMIT, Frame};
pub use setup::{Setup, System};
