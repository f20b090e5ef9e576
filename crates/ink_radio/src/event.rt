//! What happens to a node, a base and the radio between them.

/// One event of a script.
#[derive(Clone, Copy, Debug, PartialEq, Eq)]
pub enum RadioEvent {
    /// So many further outputs are committed, as far as there are so many.
    Grow(u32),
    /// The node sends the output at its cursor, where it is committed.
    Send,
    /// The node goes back to the first output that it doesn't know as saved.
    Rewind,
    /// The node loses its registers.
    NodeCut,
    /// The packet of this number comes to the base.
    ToBase(u32),
    /// The packet of this number comes to the node.
    ToNode(u32),
    /// The base saves what it has, and sends how much that is.
    Save,
    /// The base loses what it hasn't saved.
    BaseCut,
}
