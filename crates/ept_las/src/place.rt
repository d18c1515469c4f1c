//! The place of a point data record (LAS 1.4 R15, section 2.6): X, Y and Z, which come first in it.

ghost use Rattle.std.specs.Prelude.{◌≤◌, ◌<◌, ◌*◌, ◌^◌, pos, length, unsigned_abs, ◌≤ℤ◌, ◌+ℤ◌, ◌*ℤ◌, FitsSigned};
ghost use Rattle.std.specs.Result.{result_ok};
ghost use Rattle.std.specs.Option.{SomeIff};
ghost use Rattle.std.specs.Int.{w32};
ghost use Rattle.ept_las.specs.PointRecord.{coordinate, PlaceReadsAs};

use crate::shift::Shift;
use crate::words::i32_at;

const COORDINATE_WIDTH: usize = 4;

/// A stored coordinate does not fit into 32 bits.
#[derive(Clone, Copy, Debug, PartialEq, Eq)]
pub struct OutOfUnits;

/// A place, in stored units.
#[derive(Clone, Copy, Debug, PartialEq, Eq)]
pub struct Place {
    pub x: i32,
    pub y: i32,
    pub z: i32,
}

// A coordinate in stored units, if it fits into 32 bits.
#[inline(always)]
fn stored_of(raw: i32, factor: i64, by: i64) -> Option<i32>
    requires least { pos 1 ≤ℤ factor }
    requires greatest { factor ≤ℤ pos (10 ^ 9) }
    requires by_bound { unsigned_abs by ≤ 10 ^ 15 }
    ensures { SomeIff result (FitsSigned w32 ((raw *ℤ factor) +ℤ by)) ((raw *ℤ factor) +ℤ by) }
{
    i32::try_from(i64::from(raw) * factor + by).ok()
}

// The stored coordinate on an axis from 0 to 2.
#[inline(always)]
fn axis_of(bytes: &[u8], shift: &Shift, axis: usize) -> Option<i32>
    requires room { 20 ≤ length bytes.now }
    requires axis { axis < 3 }
    ensures { SomeIff result (FitsSigned w32 (coordinate shift.now bytes.now axis)) (coordinate shift.now bytes.now axis) }
{
    let raw = i32_at(bytes, COORDINATE_WIDTH * axis);
    stored_of(raw, shift.factor, shift.by[axis])
}

#[inline(always)]
fn place_of(bytes: &[u8], shift: &Shift) -> Option<Place>
    requires { 20 ≤ length bytes.now }
    ensures { PlaceReadsAs shift.now bytes.now result }
{
    let x = axis_of(bytes, shift, 0)?;
    let y = axis_of(bytes, shift, 1)?;
    let z = axis_of(bytes, shift, 2)?;
    Some(Place { x, y, z })
}

/// Reads the place of a record, and nothing else of its point. It takes no memory.
///
/// # Errors
///
/// `OutOfUnits` if and only if a stored coordinate does not fit into 32 bits.
#[inline(always)]
pub fn read_place(bytes: &[u8], shift: &Shift) -> Result<Place, OutOfUnits>
    requires { 20 ≤ length bytes.now }
    ensures { PlaceReadsAs shift.now bytes.now (result_ok result) }
{
    place_of(bytes, shift).ok_or(OutOfUnits)
}
