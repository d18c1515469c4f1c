//! What a node is.

/// What a node is.
#[derive(Clone, Copy, Debug, PartialEq, Eq)]
pub enum NodeState {
    /// It is the node of no key.
    Blank,
    /// It is the node of a key, and its points are in memory.
    Resident,
    /// It is the node of a key, and its points are in its spill file.
    Spilled,
    /// It is the node of a key whose spill file failed to keep its points, or to return them.
    Broken,
}
