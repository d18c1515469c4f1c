//! How a point settles in a node: it gets a cell of its own, or contends with the winner of its cell.

ghost use Rattle.std.specs.Prelude.{◌≡◌, ◌<◌, ◌≤◌, ◌+◌, ◌*◌, ◌^◌, ◌++◌, ◌∷◌, [], IsTrue, MatchOption, length, slice_index_or, vec_len, vec_capacity};
ghost use Rattle.std.specs.List.{All};
ghost use Rattle.ept_space.specs.OctreeCube.{InBox, InCube};
ghost use Rattle.ept_sample.specs.Place.{place, AllInBox, AllInCube};
ghost use Rattle.ept_grid.specs.Settling.{winners, share_cell, AreApart, HasItsCell, HasContended};
ghost use Rattle.ept_grid.specs.Columns.{nowhere, spot, spots_of, nexts_of, heads_with, nexts_with, IsChained};

use crate::pool::Cell;
use crate::spot::spot_of;
use crate::walk::{Gap, gap_at, is_at};
use ept_point::Point;
use ept_sample::is_better;
use ept_space::{Key, Rules};
use std::mem;

/// Puts a point among the winners of a node, and returns the point that loses, if its cell had a point. There is room
/// for a cell, so this takes no memory.
pub(crate) fn settle(
    key: &Key,
    rules: &Rules,
    heads: &mut Vec<u32>,
    cells: &mut Vec<Cell>,
    point: Point,
) -> Option<Point>
    requires low { key.now.depth ≤ rules.now.cube.depth }
    requires all_inside { AllInBox rules.now.cube key.now (winners cells.old.items) }
    requires inside { InBox rules.now.cube key.now (place point) }
    requires table { length heads.old.items ≡ 2 ^ (2 * rules.now.cube.s) }
    requires chained { IsChained heads.old.items (nexts_of cells.old.items) (spots_of rules.now key.now.depth cells.old.items) }
    requires room { vec_len cells.old < vec_capacity cells.old }
    requires few { length cells.old.items < 4294967295 }
    ensures settled { MatchOption result
        (HasItsCell rules.now key.now.depth point (winners cells.old.items) (winners cells.new.items))
        (HasContended rules.now key.now.depth point (winners cells.old.items) (winners cells.new.items)) }
    ensures apart { AreApart rules.now key.now.depth (winners cells.new.items) }
    ensures chained { IsChained heads.new.items (nexts_of cells.new.items) (spots_of rules.now key.now.depth cells.new.items) }
    ensures table { length heads.new.items ≡ length heads.old.items }
    ensures room { vec_capacity cells.new ≡ vec_capacity cells.old }
{
    key.known();
    rules.cube.known();
    settle_at(rules, key.depth, heads, cells, point)
}

// The same at a depth at which cells in one place are one cell.
fn settle_at(
    rules: &Rules,
    depth: u8,
    heads: &mut Vec<u32>,
    cells: &mut Vec<Cell>,
    point: Point,
) -> Option<Point>
    requires low { depth ≤ rules.now.cube.depth }
    requires all_inside { AllInCube rules.now.cube (winners cells.old.items) }
    requires inside { InCube rules.now.cube (place point) }
    requires meets { All (λ w. spot rules.now depth w ≡ spot rules.now depth point → IsTrue (share_cell rules.now depth w point)) (winners cells.old.items) }
    requires table { length heads.old.items ≡ 2 ^ (2 * rules.now.cube.s) }
    requires chained { IsChained heads.old.items (nexts_of cells.old.items) (spots_of rules.now depth cells.old.items) }
    requires room { vec_len cells.old < vec_capacity cells.old }
    requires few { length cells.old.items < 4294967295 }
    ensures settled { MatchOption result
        (HasItsCell rules.now depth point (winners cells.old.items) (winners cells.new.items))
        (HasContended rules.now depth point (winners cells.old.items) (winners cells.new.items)) }
    ensures chained { IsChained heads.new.items (nexts_of cells.new.items) (spots_of rules.now depth cells.new.items) }
    ensures table { length heads.new.items ≡ length heads.old.items }
    ensures room { vec_capacity cells.new ≡ vec_capacity cells.old }
{
    let spot = spot_of(rules, depth, &point);
    let gap = gap_at(rules, depth, heads.as_slice(), cells.as_slice(), spot);
    if is_at(rules, depth, cells.as_slice(), gap.above, spot.level) {
        let at = (gap.above - 1) as usize;
        return Some(contend(rules, depth, cells, at, point));
    }
    add_cell(heads, cells, spot.column, gap, point);
    None
}

// Leaves the cell of a number to the better of its winner and a point, and returns the worse one.
fn contend(rules: &Rules, depth: u8, cells: &mut Vec<Cell>, at: usize, point: Point) -> Point
    requires low { depth ≤ rules.now.cube.depth }
    requires all_inside { AllInCube rules.now.cube (winners cells.old.items) }
    requires inside { InCube rules.now.cube (place point) }
    requires there { at < length cells.old.items }
    requires meets { slice_index_or (spots_of rules.now depth cells.old.items) at nowhere ≡ spot rules.now depth point }
    requires one_cell { IsTrue (share_cell rules.now depth (slice_index_or (winners cells.old.items) at point) point) }
    ensures contended { HasContended rules.now depth point (winners cells.old.items) (winners cells.new.items) result }
    ensures links { nexts_of cells.new.items ≡ nexts_of cells.old.items }
    ensures spots { spots_of rules.now depth cells.new.items ≡ spots_of rules.now depth cells.old.items }
    ensures room { vec_capacity cells.new ≡ vec_capacity cells.old }
{
    if is_better(rules, depth, &point, &cells[at].point) {
        return mem::replace(&mut cells[at].point, point);
    }
    point
}

// Adds a cell to a column, in a gap between two cells.
fn add_cell(heads: &mut Vec<u32>, cells: &mut Vec<Cell>, column: u32, gap: Gap, point: Point)
    requires room { vec_len cells.old < vec_capacity cells.old }
    requires few { length cells.old.items < 4294967295 }
    requires column { column < length heads.old.items }
    requires there { gap.below ≤ length cells.old.items }
    ensures winners { winners cells.new.items ≡ winners cells.old.items ++ point ∷ [] }
    ensures heads { heads.new.items ≡ heads_with heads.old.items column gap.below (length cells.old.items + 1) }
    ensures links { nexts_of cells.new.items ≡ nexts_with (nexts_of cells.old.items) gap.below gap.above (length cells.old.items + 1) }
    ensures room { vec_capacity cells.new ≡ vec_capacity cells.old }
{
    cells.push_reserved(Cell {
        point,
        next: gap.above,
    });
    let link = cells.len() as u32;
    if gap.below == 0 {
        heads[column as usize] = link;
    } else {
        cells[(gap.below - 1) as usize].next = link;
    }
}
