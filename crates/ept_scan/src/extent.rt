//! The extents of points.

ghost use Rattle.std.specs.Prelude.{◌↔◌, List, [], ◌∷◌, ◌++◌, IsTrue};
ghost use Rattle.ept_point.specs.declared.point.Point as at;
ghost use Rattle.ept_space.specs.ClosedBox.{IsBetween};
ghost use Rattle.ept_las.specs.PointRecord.{LiesAt};
ghost use Rattle.ept_config.specs.Extents.{IsWithin, IsExtentOf, HasExtent};
ghost use Rattle.ept_scan.specs.Extents.{IsAllowed, IsLeast, IsGreatest};

use ept_las::Place;
use ept_point::Point;
use ept_space::Bounds;

#[inline]
fn is_between(least: i32, greatest: i32, at: i32) -> bool
    ensures { IsTrue result ↔ IsBetween least greatest at }
{
    least <= at && at <= greatest
}

// Whether a point at this place lies within bounds.
#[inline(always)]
fn is_within(bounds: &Bounds, place: Place) -> bool
    ensures { (p : at.Point) → LiesAt place p → IsTrue result ↔ IsWithin bounds.now p }
{
    let x = is_between(bounds.min[0], bounds.max[0], place.x);
    let y = is_between(bounds.min[1], bounds.max[1], place.y);
    let z = is_between(bounds.min[2], bounds.max[2], place.z);
    x & y & z
}

/// Whether a point may lie at a place: within the bounds, if there are any.
#[inline(always)]
pub(crate) fn may_lie(limits: Option<Bounds>, place: Place) -> bool
    ensures { (p : at.Point) → LiesAt place p → IsTrue result ↔ IsAllowed limits p }
{
    match limits {
        None => true,
        Some(bounds) => is_within(&bounds, place),
    }
}

/// Whether a point lies where points may lie.
#[inline(always)]
pub(crate) fn is_allowed(limits: Option<Bounds>, point: &Point) -> bool
    ensures { IsTrue result ↔ IsAllowed limits point.now }
{
    may_lie(
        limits,
        Place {
            x: point.x,
            y: point.y,
            z: point.z,
        },
    )
}

fn least(a: i32, b: i32) -> i32
    ensures { IsLeast a b result }
{
    if a < b { a } else { b }
}

fn greatest(a: i32, b: i32) -> i32
    ensures { IsGreatest a b result }
{
    if a < b { b } else { a }
}

// The extent of one point that lies at a place.
#[inline(always)]
fn extent_of(place: Place) -> Bounds
    ensures { (p : at.Point) → LiesAt place p → IsExtentOf (p ∷ []) result }
{
    let corner = [place.x, place.y, place.z];
    Bounds {
        min: corner,
        max: corner,
    }
}

/// The extent of all points of two extents.
#[inline(always)]
pub(crate) fn joined(a: &Bounds, b: &Bounds) -> Bounds
    ensures { (xs ys : List at.Point) → IsExtentOf xs a.now → IsExtentOf ys b.now
        → IsExtentOf (xs ++ ys) result }
{
    Bounds {
        min: [
            least(a.min[0], b.min[0]),
            least(a.min[1], b.min[1]),
            least(a.min[2], b.min[2]),
        ],
        max: [
            greatest(a.max[0], b.max[0]),
            greatest(a.max[1], b.max[1]),
            greatest(a.max[2], b.max[2]),
        ],
    }
}

/// The extent with one point more, which lies at a place.
#[inline(always)]
pub(crate) fn grown(extent: Option<Bounds>, place: Place) -> Bounds
    ensures { (xs : List at.Point) (p : at.Point) → LiesAt place p → HasExtent xs extent
        → IsExtentOf (xs ++ p ∷ []) result }
{
    match extent {
        None => extent_of(place),
        Some(extent) => joined(&extent, &extent_of(place)),
    }
}

/// The extent of all points of two extents. Either may be of no points.
pub(crate) fn united(a: Option<Bounds>, b: Option<Bounds>) -> Option<Bounds>
    ensures { (xs ys : List at.Point) → HasExtent xs a → HasExtent ys b → HasExtent (xs ++ ys) result }
{
    let Some(first) = a else {
        return b;
    };
    let Some(second) = b else {
        return a;
    };
    Some(joined(&first, &second))
}
