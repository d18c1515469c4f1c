//! What a checkpoint states of a node.

use crate::letter::Letter;
use ept_space::Key;

/// What a checkpoint states of a node.
#[derive(Clone, Copy, Debug, PartialEq, Eq)]
pub struct NodeLine {
    /// The key of the node.
    pub key: Key,
    /// The number of its points.
    pub count: u64,
    /// A bit for each octant whose points go down to a child, bit 0 for octant 0.
    pub mask: u8,
    /// Which version of its tile has these points.
    pub letter: Letter,
}
