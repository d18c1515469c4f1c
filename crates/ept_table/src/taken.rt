//! What lies in a slot, as plain data.

use crate::note::Counted;
use ept_grid::Grid;
use ept_point::List;
use ept_scan::ReadError;

/// A node, and the slots of its children by octant: 0 if there is none.
pub struct Cell {
    pub node: Grid,
    pub children: List<u32>,
}

/// How far a reader is.
pub struct Progress {
    /// How many points were drawn.
    pub drawn: u64,
    /// How many points are left.
    pub left: u64,
    /// How many of these may be drawn.
    pub allowed: u64,
    /// The inputs that are read.
    pub inputs: List<Counted>,
    /// The refusal by which it has failed.
    pub failed: Option<ReadError>,
}

/// What lies in a slot.
pub enum Taken {
    /// The node of no key.
    Blank,
    /// A node.
    Standing(Cell),
    /// The reader.
    Reading(Progress),
}
