//! The nodes of a sampling.

use ept_point::{List, Point};
use ept_space::Key;

/// A node of the sampling: its key and its points, in id order.
#[derive(Debug, Drop)]
pub struct Tile {
    pub key: Key,
    pub points: List<Point>,
}

/// The nodes of a sampling, in key order.
#[derive(Debug, Drop)]
pub struct Tiles {
    pub tiles: List<Tile>,
}
