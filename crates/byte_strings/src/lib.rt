// Lists of items in fixed places, strings of bytes among them, and strings in lent buffers.
// It rests on nothing but the standard library.
#![tactic(auto)]

pub mod buffer;
pub mod held;
pub mod list;

pub use list::{Blank, FixedList, Held};
