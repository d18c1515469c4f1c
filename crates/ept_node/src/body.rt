//! What a node has in memory.

ghost use Rattle.std.specs.Prelude.{◌≡◌, ◌≤◌, IfOk};
ghost use Rattle.ept_node.specs.Shown.{bare, empty_node};

use crate::error::NodeError;
use crate::site::{Filed, Site};
use ept_grid::Grid;
use ept_point::Memory;
use ept_space::{Key, Rules};
use std::alloc::Global;

/// What a node has in memory. The points, and what is known of points in a file, are in a box, so that a node is small.
#[derive(Debug, Drop)]
pub(crate) enum Body {
    /// It is the node of no key.
    Blank,
    /// No point has arrived yet, and nothing of the points' place is there.
    Begun(Site),
    /// The points are there.
    Resident(Box<Grid>),
    /// The points are in the spill file.
    Spilled(Box<Filed>),
    /// The spill file failed to keep the points, which are still there.
    Unkept(Box<Grid>),
    /// The spill file failed to return the points.
    Lost(Box<Filed>, NodeError),
}

// A grid without points, in a box. It is a function of its own because room for a whole grid would otherwise be cleared
// at each arrival.
#[cold]
#[inline(never)]
pub(crate) fn empty_grid(alloc: Global, key: Key, rules: &Rules) -> Result<Box<Grid>, Memory>
    requires { key.depth ≤ rules.now.cube.depth }
    ensures { IfOk result (λ grid. bare grid.value ≡ empty_node key rules.now) }
{
    Ok(Box::new(alloc, Grid::new(alloc, key, rules))?)
}

// A grid in a box.
#[cold]
#[inline(never)]
pub(crate) fn boxed(alloc: Global, grid: Grid) -> Result<Box<Grid>, Memory>
    ensures { IfOk result (λ kept. kept.value ≡ grid) }
{
    Ok(Box::new(alloc, grid)?)
}
