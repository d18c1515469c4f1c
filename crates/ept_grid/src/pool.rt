//! The pool of cells of a node.

use ept_point::Point;

/// A cell of a node that has a point: its best point, and which cell of its column comes next.
#[derive(Clone, Copy, Debug)]
pub(crate) struct Cell {
    pub point: Point,
    /// The number of the next cell of the column plus one, or 0 if there is none.
    pub next: u32,
}
