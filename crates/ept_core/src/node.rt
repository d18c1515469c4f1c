//! The nodes of the core.

use ept_point::{List, Point};
use ept_sample::OCTANTS;

/// A node: its points in id order, which of its octants are open, and whether its points are in memory
/// or spilled.
#[derive(Debug, Drop)]
pub struct Node {
    pub points: List<Point>,
    pub opened: [bool; OCTANTS],
    pub is_resident: bool,
}
