//! Where a cell is in the box of its node: in which column, and how high.

ghost use Rattle.std.specs.Prelude.{◌≡◌, ◌<◌, ◌≤◌, ◌*◌, ◌^◌};
ghost use Rattle.ept_space.specs.OctreeCube.{InCube};
ghost use Rattle.ept_sample.specs.Place.{place};
ghost use Rattle.ept_grid.specs.Columns.{column_of, spot};

use ept_point::Point;
use ept_sample::place_of;
use ept_space::{Cube, Rules, cell};

/// The column of a cell in the box of its node, and the cell's index on the axis z, counted from the
/// cube's corner.
#[derive(Clone, Copy, Debug)]
pub(crate) struct Spot {
    pub column: u32,
    pub level: u32,
}

/// The spot of the cell that a point lies in.
pub(crate) fn spot_of(rules: &Rules, depth: u8, point: &Point) -> Spot
    requires low { depth ≤ rules.now.cube.depth }
    requires inside { InCube rules.now.cube (place point.now) }
    ensures spot { result ≡ spot rules.now depth point.now }
    ensures column { result.column < 2 ^ (2 * rules.now.cube.s) }
{
    let cell = cell(&rules.cube, depth, place_of(point));
    Spot {
        column: column_of(&rules.cube, cell[0], cell[1]),
        level: cell[2],
    }
}

/// The number of a column in its box, from the indices of its cells on the axes x and y.
pub(crate) fn column_of(cube: &Cube, x: u32, y: u32) -> u32
    ensures value { result ≡ column_of cube.now x y }
    ensures low { result < 2 ^ (2 * cube.now.s) }
{
    let mask = (1u32 << cube.s) - 1;
    (x & mask) + ((y & mask) << cube.s)
}

/// The level of the cell that a point lies in.
pub(crate) fn level_of(rules: &Rules, depth: u8, point: &Point) -> u32
    requires low { depth ≤ rules.now.cube.depth }
    requires inside { InCube rules.now.cube (place point.now) }
    ensures { result ≡ (spot rules.now depth point.now).level }
{
    cell(&rules.cube, depth, place_of(point))[2]
}
