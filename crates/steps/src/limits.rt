// How long the strings are that a step system is asked about and answers.

/// The most bytes that a state has where a question is asked or answered.
pub const STATE_LIMIT: usize = 256;

/// The most bytes that a step has where a question is asked or answered.
pub const STEP_LIMIT: usize = 64;
