//! Stored coordinates in native units.

ghost use Rattle.std.specs.Prelude.{◌≡◌, ◌<◌, ◌≤◌, ◌^◌, ◌++◌, ◌*ℤ◌, pos, unsigned_abs, OnOk};
ghost use Rattle.ept_config.specs.InputRanges.{AreThreeWithin};
ghost use Rattle.ept_space.specs.Place.{coordinate};
ghost use Rattle.ept_space.specs.CubeOfBounds.{cube_of};
ghost use Rattle.ept_meta.specs.Units.{coordinate_text, corner_text, box_text, bounds_text};
ghost use Rattle.ept_meta.specs.Units.{cube_text, far_corner};

use crate::pieces::append;
use ept_config::Kept;
use ept_num::decimal_text;
use ept_point::Memory;
use ept_space::{Bounds, Cube};

/// Appends the cube of the octree: its least corner and its greatest corner.
#[tactic(auto, unfolding(crate::specs::Units::cube_text))]
pub(crate) fn append_cube(text: &mut Vec<u8>, kept: &Kept) -> Result<(), Memory>
    ensures { OnOk result (text.new.items ≡ text.old.items ++ cube_text kept.now) }
{
    let cube = cube_of(kept);
    append_box(text, kept, &cube.corner, &far_corner(&cube))
}

/// Appends bounds: their least coordinates, and then their greatest ones.
#[tactic(auto, unfolding(crate::specs::Units::bounds_text))]
pub(crate) fn append_bounds(text: &mut Vec<u8>, kept: &Kept, bounds: &Bounds) -> Result<(), Memory>
    ensures { OnOk result (text.new.items ≡ text.old.items ++ bounds_text kept.now bounds.now) }
{
    append_box(text, kept, &wide(&bounds.min), &wide(&bounds.max))
}

fn cube_of(kept: &Kept) -> Cube
    ensures { result ≡ cube_of kept.now.bounds kept.now.s kept.now.max_depth }
{
    Cube::over(&kept.bounds, kept.s, kept.max_depth)
}

#[tactic(auto, unfolding(crate::specs::Units::far_corner))]
fn far_corner(cube: &Cube) -> [i64; 3]
    ensures corner { result ≡ far_corner cube.now }
    ensures near { AreThreeWithin (2 ^ 33) result }
{
    let side = 2i64.pow(u32::from(cube.e));
    let [x, y, z] = cube.corner;
    [x + side, y + side, z + side]
}

/// A place in numbers of 64 bits.
pub(crate) fn wide(place: &[i32; 3]) -> [i64; 3]
    ensures same { result ≡ place.now }
    ensures near { AreThreeWithin (2 ^ 33) result }
{
    let [x, y, z] = *place;
    [i64::from(x), i64::from(y), i64::from(z)]
}

#[tactic(auto, unfolding(crate::specs::Units::box_text))]
fn append_box(
    text: &mut Vec<u8>,
    kept: &Kept,
    least: &[i64; 3],
    greatest: &[i64; 3],
) -> Result<(), Memory>
    requires least_near { AreThreeWithin (2 ^ 33) least.now }
    requires greatest_near { AreThreeWithin (2 ^ 33) greatest.now }
    ensures { OnOk result (text.new.items ≡ text.old.items ++ box_text kept.now least.now greatest.now) }
{
    append(text, b"[")?;
    append_corner(text, kept, least)?;
    append(text, b",")?;
    append_corner(text, kept, greatest)?;
    append(text, b"]")?;
    Ok(())
}

#[tactic(auto, unfolding(crate::specs::Units::corner_text))]
fn append_corner(text: &mut Vec<u8>, kept: &Kept, place: &[i64; 3]) -> Result<(), Memory>
    requires { AreThreeWithin (2 ^ 33) place.now }
    ensures { OnOk result (text.new.items ≡ text.old.items ++ corner_text kept.now place.now) }
{
    append_coordinate(text, kept, place, 0)?;
    append(text, b",")?;
    append_coordinate(text, kept, place, 1)?;
    append(text, b",")?;
    append_coordinate(text, kept, place, 2)?;
    Ok(())
}

#[tactic(auto, unfolding(crate::specs::Units::coordinate_text))]
fn append_coordinate(
    text: &mut Vec<u8>,
    kept: &Kept,
    place: &[i64; 3],
    axis: usize,
) -> Result<(), Memory>
    requires axis { axis < 3 }
    requires near { AreThreeWithin (2 ^ 33) place.now }
    ensures { OnOk result (text.new.items ≡ text.old.items ++ coordinate_text kept.now place.now axis) }
{
    let mut digits = [0; 24];
    let units = place[axis] + origin(kept, axis);
    let length = decimal_text(units, kept.scale, &mut digits);
    append(text, &digits[..length])
}

// How many stored units the stored coordinate 0 is away from the native coordinate 0.
fn origin(kept: &Kept, axis: usize) -> i64
    requires { axis < 3 }
    ensures value { result ≡ coordinate kept.now.offset axis *ℤ pos (10 ^ kept.now.scale) }
    ensures range { unsigned_abs result ≤ 10 ^ 18 }
{
    kept.offset[axis] * 10i64.pow(u32::from(kept.scale))
}

/// The span: how many cells a node has on each axis.
pub(crate) fn span(kept: &Kept) -> u64
    ensures { result ≡ 2 ^ kept.now.s }
{
    2u64.pow(u32::from(kept.s))
}
