// How many definitions there are, and how long their bodies.

// The most definitions.
pub const DEFINITION_LIMIT: usize = 16;

// The most bytes of a definition's body.
pub const BODY_LIMIT: usize = 255;
