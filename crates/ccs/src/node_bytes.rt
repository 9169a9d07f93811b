// The byte that each node of a term or of a proof begins with. An action, a name or a number
// follows it where the node has one, and then the node's parts.

/// The term that does nothing: no bytes follow.
pub const NIL: u8 = 0x00;
/// An action, and the term behind it: the action and the term follow.
pub const PREFIX: u8 = 0x01;
/// Two terms side by side: both follow.
pub const PARALLEL: u8 = 0x02;
/// A choice of two terms: both follow.
pub const SUM: u8 = 0x03;
/// A term that keeps a name to itself: the name and the term follow.
pub const RESTRICTION: u8 = 0x04;
/// A call of a definition: its number follows.
pub const CALL: u8 = 0x05;

/// A prefix does its action: the action follows.
pub const ACT: u8 = 0x10;
/// The left side of a parallel term moves alone: the proof of its step follows.
pub const LEFT: u8 = 0x11;
/// The right side moves alone: the proof of its step follows.
pub const RIGHT: u8 = 0x12;
/// Both sides move together: the proofs of the left one's step and of the right one's follow.
pub const BOTH: u8 = 0x13;
/// The left branch of a choice is chosen: the proof of its step follows.
pub const CHOOSE_LEFT: u8 = 0x14;
/// The right branch is chosen: the proof of its step follows.
pub const CHOOSE_RIGHT: u8 = 0x15;
/// A step under a restriction: the name that is restricted and the proof of the step follow.
pub const UNDER: u8 = 0x16;
