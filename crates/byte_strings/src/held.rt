// A string of at most N bytes in a fixed place: a list of bytes.
pub use crate::list::Held;
