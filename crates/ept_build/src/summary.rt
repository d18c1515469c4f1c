//! What a build says of its output.

/// What a build says of its output.
#[derive(Clone, Copy, Debug, PartialEq, Eq)]
pub struct Summary {
    /// How many points there are in all.
    pub points: u64,
    /// How many nodes the octree has.
    pub nodes: u32,
}
