//! What a folder is found to be.

use crate::fault::Fault;
use ept_space::Key;

/// What a finished folder is found to be.
#[derive(Clone, Copy, Debug, PartialEq, Eq)]
pub enum Verdict {
    /// Its hierarchy and its tiles are the sampling of the points in its tiles. `points` is the number of these points,
    /// and `nodes` the number of the nodes.
    Fit { points: u64, nodes: u64 },
    /// They are not: this is wrong with the node of a key, the first node with which anything is wrong.
    Unfit { key: Key, why: Fault },
}
