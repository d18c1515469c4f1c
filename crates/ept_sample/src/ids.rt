//! The order of points by their ids.

ghost use Rattle.std.specs.Prelude.{◌≡◌, ◌↔◌, IsTrue, IfOk};
ghost use Rattle.std.specs.Bool.{OnTrue};
ghost use Rattle.ept_point.specs.Order.{IsAscending};
ghost use Rattle.ept_sample.specs.Ids.{comes_before, HasDistinctIds, in_id_order};

use ept_point::{Memory, Point};

/// Whether the ids of the points ascend. Points whose ids ascend have distinct ids.
pub fn ids_ascend(points: &[Point]) -> bool
    ensures ascend { IsTrue result ↔ IsAscending points.now }
    ensures distinct { OnTrue result (HasDistinctIds points.now) }
{
    points.is_sorted_by(|first, second| comes_before(first, second))
}

// Whether the id of the first point comes first.
fn comes_before(first: &Point, second: &Point) -> bool
    ensures { result ≡ comes_before first.now second.now }
{
    first.id().is_before(second.id())
}

/// Points with distinct ids, put in id order.
pub fn in_id_order(mut points: Vec<Point>) -> Result<Vec<Point>, Memory>
    requires distinct { HasDistinctIds points.items }
    ensures sorted { IfOk result (λ v. v.items ≡ in_id_order points.items) }
{
    points.sort_by_key(|point| point.id())?;
    Ok(points)
}
