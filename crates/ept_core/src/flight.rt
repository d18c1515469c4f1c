//! Points on their way to a node.

use ept_point::{List, Point};
use ept_space::Key;

/// Points that an actor carries to a node.
#[derive(Debug, Drop)]
pub struct Flight {
    pub actor: u32,
    pub key: Key,
    pub points: List<Point>,
}
