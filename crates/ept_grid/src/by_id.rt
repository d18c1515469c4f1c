//! The points of a node in id order.

ghost use Rattle.std.specs.Prelude.{◌≡◌, ◌<◌, ◌≤◌, ◌+◌, ◌++◌, IfOk, IfSome, OnOk, OnErr, length, take, drop, position, vec_len, vec_capacity, map, IsPermutation};
ghost use Rattle.ept_sample.specs.Ids.{comes_before, placed_by_id, in_id_order};
ghost use Rattle.ept_grid.specs.Settling.{winners};
ghost use Rattle.ept_grid.specs.Contents.{contents};

use crate::outgoing::Outgoing;
use crate::pool::Cell;
use ept_point::{Memory, Point, PointId};
use ept_sample::ids_ascend;
use std::alloc::Global;

/// How many points a node has.
pub(crate) fn count(cells: &[Cell], losers: &Outgoing) -> usize
    ensures count { result ≡ length (contents (winners cells.now) losers.now) }
    ensures small { result < 4611686018427387904 }
{
    cells.len() + losers.total()
}

/// Appends the points of a node, in id order, in the list's own room as far as that is enough. After `Memory` the list
/// is as it was.
pub(crate) fn append_by_id(
    cells: &[Cell],
    losers: &Outgoing,
    out: &mut Vec<Point>,
) -> Result<(), Memory>
    ensures ok { OnOk result (out.new.items ≡ out.old.items ++ in_id_order (contents (winners cells.now) losers.now)) }
    ensures unchanged { OnErr result (out.new.items ≡ out.old.items) }
{
    let before = out.len();
    append_sorted(cells, losers, out)?;
    if ids_ascend(&out.as_slice()[before..]) {
        return Ok(());
    }
    // Two points have the same id, so the sort left the order of its points open.
    out.truncate(before);
    append_one_by_one(cells, losers, out)
}

// Appends the points sorted by their ids. The sort moves an id and a reference, a third of a point.
fn append_sorted(cells: &[Cell], losers: &Outgoing, out: &mut Vec<Point>) -> Result<(), Memory>
    ensures before { OnOk result (take (length out.old.items) out.new.items ≡ out.old.items) }
    ensures moved { OnOk result (IsPermutation (contents (winners cells.now) losers.now) (drop (length out.old.items) out.new.items)) }
    ensures unchanged { OnErr result (out.new.items ≡ out.old.items) }
{
    let mut order = with_ids(*out.allocator(), cells, losers)?;
    order.sort_unstable_by_key(|entry| entry.0);
    append_entries(order.as_slice(), out)
}

// The points with their ids: the winners, and the losers octant by octant.
fn with_ids<'a>(
    alloc: Global,
    cells: &'a [Cell],
    losers: &'a Outgoing,
) -> Result<Vec<(PointId, &'a Point)>, Memory>
    ensures { IfOk result (λ v. map (λ e. e.1.now) v.items ≡ contents (winners cells.now) losers.now) }
{
    let mut entries = Vec::with_capacity(alloc, count(cells, losers))?;
    append_winner_ids(cells, &mut entries)?;
    losers.append_ids(&mut entries)?;
    Ok(entries)
}

fn append_winner_ids<'a>(
    cells: &'a [Cell],
    out: &mut Vec<(PointId, &'a Point)>,
) -> Result<(), Memory>
    ensures { OnOk result (map (λ e. e.1.now) out.new.items ≡ map (λ e. e.1.now) out.old.items ++ winners cells.now) }
{
    out.reserve(cells.len())?;
    for cell in cells {
        out.push_reserved((cell.point.id(), &cell.point));
    }
    Ok(())
}

// Appends the points of these entries. After `Memory` the list is as it was.
fn append_entries(entries: &[(PointId, &Point)], out: &mut Vec<Point>) -> Result<(), Memory>
    ensures ok { OnOk result (out.new.items ≡ out.old.items ++ map (λ e. e.1.now) entries.now) }
    ensures unchanged { OnErr result (out.new.items ≡ out.old.items) }
{
    out.reserve(entries.len())?;
    for entry in entries {
        out.push_reserved(*entry.1);
    }
    Ok(())
}

// Appends the points in id order, each put at its place. After `Memory` the list is as it was.
fn append_one_by_one(cells: &[Cell], losers: &Outgoing, out: &mut Vec<Point>) -> Result<(), Memory>
    ensures ok { OnOk result (out.new.items ≡ out.old.items ++ in_id_order (contents (winners cells.now) losers.now)) }
    ensures unchanged { OnErr result (out.new.items ≡ out.old.items) }
{
    let alloc = *out.allocator();
    let gathered = gather(alloc, cells, losers)?;
    let mut points = placed_one_by_one(alloc, gathered.as_slice())?;
    out.append(&mut points)?;
    Ok(())
}

// The winners, and the losers octant by octant.
fn gather(alloc: Global, cells: &[Cell], losers: &Outgoing) -> Result<Vec<Point>, Memory>
    ensures { IfOk result (λ v. v.items ≡ contents (winners cells.now) losers.now) }
{
    let mut points = Vec::with_capacity(alloc, count(cells, losers))?;
    append_winners(cells, &mut points)?;
    losers.append_to(&mut points)?;
    Ok(points)
}

fn append_winners(cells: &[Cell], out: &mut Vec<Point>) -> Result<(), Memory>
    ensures { OnOk result (out.new.items ≡ out.old.items ++ winners cells.now) }
{
    out.reserve(cells.len())?;
    for cell in cells {
        out.push_reserved(cell.point);
    }
    Ok(())
}

// The points put in id order one by one, the last one first.
fn placed_one_by_one(alloc: Global, points: &[Point]) -> Result<Vec<Point>, Memory>
    ensures { IfOk result (λ v. v.items ≡ in_id_order points.now) }
{
    let mut placed = Vec::with_capacity(alloc, points.len())?;
    for done in 0..points.len() {
        put_by_id(&mut placed, points[points.len() - 1 - done]);
    }
    Ok(placed)
}

// Puts a point at its place in id order. There is room for it, so this takes no memory.
fn put_by_id(points: &mut Vec<Point>, point: Point)
    requires { vec_len points.old < vec_capacity points.old }
    ensures items { points.new.items ≡ placed_by_id point points.old.items }
    ensures len { vec_len points.new ≡ vec_len points.old + 1 }
    ensures room { vec_capacity points.new ≡ vec_capacity points.old }
{
    let end = points.len();
    let at = first_after(points.as_slice(), &point).unwrap_or(end);
    let _ = points.insert(at, point);
}

// The index of the first point that comes after this one.
fn first_after(points: &[Point], point: &Point) -> Option<usize>
    ensures place { result ≡ position (comes_before point.now) points.now }
    ensures inside { IfSome result (λ at. at ≤ length points.now) }
{
    points.iter().position(|other| stands_before(point, other))
}

// Whether the id of the first point comes first.
fn stands_before(first: &Point, second: &Point) -> bool
    ensures { result ≡ comes_before first.now second.now }
{
    first.origin < second.origin || (first.origin == second.origin && first.number < second.number)
}
