//! The eight octants of a box: which one a point lies in, and sets of them as the bits of a byte.

ghost use Rattle.std.specs.Prelude.{◌≡◌, ◌<◌, ◌≤◌, ℕ, ◌/◌, ◌^◌, ◌%◌, ◌==◌, ◌||◌, length, slice_index};
ghost use Rattle.ept_space.specs.OctreeCube.{InCube};
ghost use Rattle.ept_sample.specs.Place.{place, AllInCube};
ghost use Rattle.ept_sample.specs.Arrivals.{octant};
ghost use Rattle.ept_grid.specs.Mask.{opened};
ghost use Rattle.ept_grid.specs.Node.{count_in};

use ept_point::Point;
use ept_sample::place_of;
use ept_space::{Rules, cell};

/// How many octants a box has.
pub const OCTANTS: u8 = 8;

/// The octant of a point in its box of this depth. Bit 0 is set in the upper half of x, bit 1 of y and bit 2 of z.
pub(crate) fn octant_of(rules: &Rules, depth: u8, point: &Point) -> u8
    requires low { depth ≤ rules.now.cube.depth }
    requires inside { InCube rules.now.cube (place point.now) }
    ensures value { result ≡ octant rules.now depth point.now }
    ensures one_of_eight { result < 8 }
{
    let cell = cell(&rules.cube, depth, place_of(point));
    // Half a box has half the cells of the box.
    let shift = u32::from(rules.cube.s - 1);
    upper(cell[0], shift) + 2 * upper(cell[1], shift) + 4 * upper(cell[2], shift)
}

/// How many of the points lie in each octant of their box of that depth.
pub(crate) fn by_octant(rules: &Rules, depth: u8, points: &[Point]) -> [usize; 8]
    requires low { depth ≤ rules.now.cube.depth }
    requires inside { AllInCube rules.now.cube points.now }
    ensures counts { (o : ℕ) → o < 8 → slice_index result o ≡ count_in rules.now depth o points.now }
    ensures eight { length result ≡ 8 }
{
    let mut counts = [0; 8];
    for point in points {
        counts[octant_of(rules, depth, point) as usize] += 1;
    }
    counts
}

// Bit `shift` of the index of a cell.
fn upper(index: u32, shift: u32) -> u8
    requires { shift < 32 }
    ensures value { result ≡ index / 2 ^ shift % 2 }
    ensures bit { result < 2 }
{
    (index >> shift & 1) as u8
}

/// Whether the octant is in the set.
pub(crate) fn is_open(mask: u8, octant: u8) -> bool
    requires { octant < 8 }
    ensures { result ≡ opened mask octant }
{
    mask >> octant & 1 == 1
}

/// The set with the octant.
pub(crate) fn with_open(mask: u8, octant: u8) -> u8
    requires { octant < 8 }
    ensures { (o : ℕ) → opened result o ≡ (opened mask o || (o == octant)) }
{
    mask | 1 << octant
}
