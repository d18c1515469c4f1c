//! Closed boxes of places.

ghost use Rattle.std.specs.Prelude.{◌+◌, ◌-◌, ◌*◌, ◌^◌, ◌<◌, ◌≤◌, ◌↔◌, IsTrue, ℤ, pos, ◌+ℤ◌, FitsSigned};
ghost use Rattle.std.specs.Int.{w32};
ghost use Rattle.ept_space.specs.Place.{Place};
ghost use Rattle.ept_space.specs.OctreeCube.{IsFrom, InBox};
ghost use Rattle.ept_space.specs.ClosedBox.{IsBetween, Overlap, IsIn, Meet};

use crate::cube::Cube;
use crate::key::Key;

/// The whole-number places from `min` to `max`, both included, on each axis. There are none if `min` is above `max` on
/// one of them. The order is x, y, z.
#[derive(Clone, Copy, Debug, PartialEq, Eq)]
pub struct Box3 {
    pub min: [i64; 3],
    pub max: [i64; 3],
}

/// The closed box of the places in the box of a key.
pub fn node_box(cube: &Cube, key: &Key) -> Box3
    requires { key.now.depth ≤ cube.now.depth }
    ensures places { (place : Place) → IsIn result place ↔ InBox cube.now key.now place }
{
    let shift = u32::from(cube.e - key.depth);
    let x = Interval::of(cube.corner[0], key.x, shift);
    let y = Interval::of(cube.corner[1], key.y, shift);
    let z = Interval::of(cube.corner[2], key.z, shift);
    Box3 {
        min: [x.least, y.least, z.least],
        max: [x.greatest, y.greatest, z.greatest],
    }
}

/// Whether some place is in both boxes.
pub fn meets(a: &Box3, b: &Box3) -> bool
    ensures meet { IsTrue result ↔ Meet a.now b.now }
{
    let x = overlaps(a.min[0], a.max[0], b.min[0], b.max[0]);
    let y = overlaps(a.min[1], a.max[1], b.min[1], b.max[1]);
    let z = overlaps(a.min[2], a.max[2], b.min[2], b.max[2]);
    x & y & z
}

/// Whether the place is in the box.
pub fn contains(a: &Box3, place: [i32; 3]) -> bool
    ensures inside { IsTrue result ↔ IsIn a.now place }
{
    let x = is_between(a.min[0], a.max[0], place[0]);
    let y = is_between(a.min[1], a.max[1], place[1]);
    let z = is_between(a.min[2], a.max[2], place[2]);
    x & y & z
}

/// The coordinates from a least one to a greatest, both included.
#[derive(Clone, Copy)]
struct Interval {
    least: i64,
    greatest: i64,
}

impl Interval {
    /// The interval of that index among the intervals of length 2^shift that start at a corner.
    #[inline]
    fn of(corner: i64, index: u32, shift: u32) -> Interval
        requires corner_in_range { FitsSigned w32 corner }
        requires short { shift ≤ 32 }
        requires near { index * 2 ^ shift + 2 ^ shift ≤ 2 ^ 32 }
        ensures { (at : ℤ) → IsBetween result.least result.greatest at
            ↔ IsFrom (corner +ℤ pos (index * 2 ^ shift)) (2 ^ shift) at }
    {
        let length = 1u64 << shift;
        let least = corner + (u64::from(index) * length) as i64;
        Interval {
            least,
            greatest: least + (length - 1) as i64,
        }
    }
}

/// Whether two closed intervals have a coordinate in common.
#[inline]
fn overlaps(a_min: i64, a_max: i64, b_min: i64, b_max: i64) -> bool
    ensures { IsTrue result ↔ Overlap a_min a_max b_min b_max }
{
    a_min.max(b_min) <= a_max.min(b_max)
}

/// Whether a coordinate is in a closed interval.
#[inline]
fn is_between(min: i64, max: i64, at: i32) -> bool
    ensures { IsTrue result ↔ IsBetween min max at }
{
    min <= i64::from(at) && i64::from(at) <= max
}
