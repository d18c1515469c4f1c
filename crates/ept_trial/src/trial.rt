//! What the octree of a trial comes to.

/// What the octree of a trial comes to.
#[derive(Clone, Copy, Debug, PartialEq, Eq)]
pub struct Trial {
    /// How many points there are in all.
    pub points: u64,
    /// How many nodes the octree has.
    pub nodes: u64,
    /// The greatest depth of a node.
    pub depth: u32,
    /// The sum of all bytes of all tiles, modulo 2^64.
    pub sum: u64,
}
