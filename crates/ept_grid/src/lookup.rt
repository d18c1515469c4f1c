//! Whether a point of a node is one of its winners, by reading its cell.

ghost use Rattle.std.specs.Prelude.{◌≡◌, ◌<◌, ◌≤◌, ◌*◌, ◌^◌, not, MatchOption, length};
ghost use Rattle.std.specs.List.{list_any};
ghost use Rattle.ept_space.specs.OctreeCube.{InCube};
ghost use Rattle.ept_sample.specs.Ids.{same_id};
ghost use Rattle.ept_sample.specs.Place.{place, AllInCube};
ghost use Rattle.ept_grid.specs.Settling.{winners};
ghost use Rattle.ept_grid.specs.Columns.{spot, spots_of, nexts_of, IsChained, IsAlone, StandsAt, StandInPlace};

use crate::pool::Cell;
use crate::spot::spot_of;
use crate::walk::{gap_at, is_at};
use ept_point::Point;
use ept_space::Rules;

/// Whether no winner has the id of the point. A winner of its id has to be in the point's place.
pub(crate) fn is_no_winner(
    rules: &Rules,
    depth: u8,
    heads: &[u32],
    cells: &[Cell],
    point: &Point,
) -> bool
    requires low { depth ≤ rules.now.cube.depth }
    requires all_inside { AllInCube rules.now.cube (winners cells.now) }
    requires inside { InCube rules.now.cube (place point.now) }
    requires table { 0 < length cells.now → length heads.now ≡ 2 ^ (2 * rules.now.cube.s) }
    requires chained { IsChained heads.now (nexts_of cells.now) (spots_of rules.now depth cells.now) }
    requires in_place { StandInPlace rules.now depth (winners cells.now) point.now }
    ensures { result ≡ not (list_any (same_id point.now) (winners cells.now)) }
{
    match winner_at(rules, depth, heads, cells, point) {
        Some(winner) => !have_one_id(point, &winner),
        None => true,
    }
}

// The winner in the place of the point's cell.
fn winner_at(
    rules: &Rules,
    depth: u8,
    heads: &[u32],
    cells: &[Cell],
    point: &Point,
) -> Option<Point>
    requires low { depth ≤ rules.now.cube.depth }
    requires all_inside { AllInCube rules.now.cube (winners cells.now) }
    requires inside { InCube rules.now.cube (place point.now) }
    requires table { 0 < length cells.now → length heads.now ≡ 2 ^ (2 * rules.now.cube.s) }
    requires chained { IsChained heads.now (nexts_of cells.now) (spots_of rules.now depth cells.now) }
    ensures { MatchOption result
        (IsAlone (spots_of rules.now depth cells.now) (spot rules.now depth point.now))
        (StandsAt rules.now depth (winners cells.now) (spot rules.now depth point.now)) }
{
    if cells.is_empty() {
        return None;
    }
    let spot = spot_of(rules, depth, point);
    let gap = gap_at(rules, depth, heads, cells, spot);
    if is_at(rules, depth, cells, gap.above, spot.level) {
        return Some(cells[(gap.above - 1) as usize].point);
    }
    None
}

fn have_one_id(first: &Point, second: &Point) -> bool
    ensures { result ≡ same_id first.now second.now }
{
    first.origin == second.origin && first.number == second.number
}
