//! Where a place lies: in which octant of a box, in which cell, and how far from the cell's centre.
//!
//! A build calls these at each node that a point comes to, so each is a few shifts and no loop.

ghost use Rattle.std.specs.Prelude.{◌≡◌, ◌+◌, ◌-◌, ◌*◌, ◌%◌, ◌^◌, ◌<◌, ◌≤◌};
ghost use Rattle.std.specs.Int.{abs_diff};
ghost use Rattle.ept_space.specs.OctreeCube.{InBox, InCube, offset, octant_at, cell_at, distance_at};

use crate::cube::Cube;
use crate::key::Key;

/// The octant of the key's box in which the place lies. Bit 0 is set in the upper half of x, bit 1 of y and bit 2 of z.
pub fn octant(cube: &Cube, key: &Key, place: [i32; 3]) -> u8
    requires has_children { key.now.depth < cube.now.depth }
    requires in_box { InBox cube.now key.now place }
    ensures value { result ≡ octant_at cube.now key.now.depth place }
    ensures one_of_eight { result < 8 }
{
    let shift = u32::from(cube.e - key.depth - 1);
    let above = from_corner(cube, place);
    let x = above.x >> shift & 1;
    let y = above.y >> shift & 1;
    let z = above.z >> shift & 1;
    (x + 2 * y + 4 * z) as u8
}

/// The cell of that depth in which the place lies: its index on each axis, counted from the cube's corner.
pub fn cell(cube: &Cube, depth: u8, place: [i32; 3]) -> [u32; 3]
    requires low { depth ≤ cube.now.depth }
    requires in_cube { InCube cube.now place }
    ensures cell { result ≡ cell_at cube.now depth place }
{
    let shift = u32::from(cube.e - depth - cube.s);
    let above = from_corner(cube, place);
    [
        (above.x >> shift) as u32,
        (above.y >> shift) as u32,
        (above.z >> shift) as u32,
    ]
}

/// How far the place is from the centre of its cell of that depth. It is the sum over the axes of (2 * (place - cell
/// corner) - side)^2.
pub fn centre_distance(cube: &Cube, depth: u8, place: [i32; 3]) -> u64
    requires low { depth ≤ cube.now.depth }
    requires in_cube { InCube cube.now place }
    ensures distance { result ≡ distance_at cube.now depth place }
{
    let shift = u32::from(cube.e - depth - cube.s);
    let above = from_corner(cube, place);
    off_centre_squared(above.x, shift)
        + off_centre_squared(above.y, shift)
        + off_centre_squared(above.z, shift)
}

/// How many units a place is above the cube's corner on each axis.
#[derive(Clone, Copy)]
struct Offsets {
    x: u64,
    y: u64,
    z: u64,
}

#[inline]
fn from_corner(cube: &Cube, place: [i32; 3]) -> Offsets
    requires { InCube cube.now place }
    ensures along_x { result.x ≡ offset cube.now place 0 }
    ensures along_y { result.y ≡ offset cube.now place 1 }
    ensures along_z { result.z ≡ offset cube.now place 2 }
    ensures x_in_word { result.x < 2 ^ 32 }
    ensures y_in_word { result.y < 2 ^ 32 }
    ensures z_in_word { result.z < 2 ^ 32 }
{
    Offsets {
        x: (i64::from(place[0]) - cube.corner[0]) as u64,
        y: (i64::from(place[1]) - cube.corner[1]) as u64,
        z: (i64::from(place[2]) - cube.corner[2]) as u64,
    }
}

/// The square of twice how far an offset is from the middle of its cell of side 2^shift.
#[inline]
fn off_centre_squared(offset: u64, shift: u32) -> u64
    requires in_word { shift < 32 }
    ensures value { result ≡ abs_diff (2 * (offset % 2 ^ shift)) (2 ^ shift) ^ 2 }
    ensures small { result ≤ 2 ^ 62 }
{
    let side = 1u64 << shift;
    let off_centre = (2 * (offset & (side - 1))).abs_diff(side);
    off_centre * off_centre
}
