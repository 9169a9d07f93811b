// Input byte by byte: lines are gathered, and answered at their end.
use crate::server::Server;
use byte_strings::held::Held;

pub mod input;

// What is kept of a line: one character more than the longest frame has decides that a line is too long.
pub const LINE_LIMIT: usize = 2049;

// A server, and the beginning of the line that is being read.
#[derive(Clone, Copy)]
pub struct Session {
    server: Server,
    line: Held<LINE_LIMIT>,
}
