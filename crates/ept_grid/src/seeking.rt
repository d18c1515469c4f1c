//! The search for the winner of a cell.

ghost use Rattle.std.specs.Prelude.{◌≡◌, ◌<◌, ◌≤◌, ◌+◌, ◌-◌, ◌*◌, ◌^◌, MatchOption, length, slice_index, slice_index_or};
ghost use Rattle.ept_sample.specs.Place.{AllInBox, AllInCube};
ghost use Rattle.ept_grid.specs.Settling.{winners};
ghost use Rattle.ept_grid.specs.Columns.{spots_of, nexts_of, IsChained, IsAlone, StandsAt, in_column};
ghost use Rattle.ept_grid.specs.Winner.{IsCellOf, NoneIn, WinsIn, column_cells};

use crate::pool::Cell;
use crate::spot::{Spot, column_of, level_of};
use crate::steps::Steps;
use ept_point::Point;
use ept_space::{Key, Rules};
use std::sync::ledger::Ledger;

/// The winner of a cell of the node's box, if it has one. Each step is a cell of its column that is read.
pub(crate) fn winner_of<L: Ledger>(
    key: &Key,
    rules: &Rules,
    heads: &[u32],
    cells: &[Cell],
    cell: [u32; 3],
    steps: &mut Steps<L>,
) -> Option<Point>
    requires low { key.now.depth ≤ rules.now.cube.depth }
    requires inside { AllInBox rules.now.cube key.now (winners cells.now) }
    requires of_box { IsCellOf rules.now key.now cell }
    requires table { 0 < length cells.now → length heads.now ≡ 2 ^ (2 * rules.now.cube.s) }
    requires chained { IsChained heads.now (nexts_of cells.now) (spots_of rules.now key.now.depth cells.now) }
    ensures found { MatchOption result
        (NoneIn rules.now key.now.depth cell (winners cells.now))
        (WinsIn rules.now key.now.depth cell (winners cells.now)) }
    ensures cost { steps.new ≤ steps.old
        + column_cells rules.now key.now (winners cells.now) (slice_index cell 0) (slice_index cell 1) }
{
    if cells.is_empty() {
        return None;
    }
    key.known();
    rules.cube.known();
    let spot = Spot {
        column: column_of(&rules.cube, cell[0], cell[1]),
        level: cell[2],
    };
    seek(rules, key.depth, heads, cells, spot, steps)
}

// The winner of the cell in a place of its column.
fn seek<L: Ledger>(
    rules: &Rules,
    depth: u8,
    heads: &[u32],
    cells: &[Cell],
    spot: Spot,
    steps: &mut Steps<L>,
) -> Option<Point>
    requires low { depth ≤ rules.now.cube.depth }
    requires inside { AllInCube rules.now.cube (winners cells.now) }
    requires column { spot.column < length heads.now }
    requires chained { IsChained heads.now (nexts_of cells.now) (spots_of rules.now depth cells.now) }
    ensures found { MatchOption result (IsAlone (spots_of rules.now depth cells.now) spot) (StandsAt rules.now depth (winners cells.now) spot) }
    ensures cost { steps.new ≤ steps.old + in_column (spots_of rules.now depth cells.now) spot.column }
{
    let mut link = heads[spot.column as usize];
    while link != 0 {
        let cell = look(cells, link, steps);
        let level = level_of(rules, depth, &cell.point);
        if level == spot.level {
            return Some(cell.point);
        }
        if level > spot.level {
            return None;
        }
        link = cell.next;
    }
    None
}

// Reads the cell that a link names: one step.
fn look<L: Ledger>(cells: &[Cell], link: u32, steps: &mut Steps<L>) -> Cell
    requires some { 0 < link }
    requires there { link ≤ length cells.now }
    ensures cell { result ≡ slice_index_or cells.now (link - 1) result }
    ensures step { steps.new ≡ steps.old + 1 }
{
    steps.tick();
    cells[(link - 1) as usize]
}
