// What reading the bytes of a term, or of a proof, waits for.

/// What the next byte has to be: the first of a node, or what belongs to the node begun before it.
#[derive(Clone, Copy)]
pub enum Due {
    /// A node's first byte: one of `node_bytes`.
    Node,
    /// The action of a prefix, or of the step of one.
    Action,
    /// The name of a restriction, or of a step under one.
    Name,
    /// The number of a definition that is called.
    Number,
}
