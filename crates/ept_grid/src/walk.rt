//! The way up a column to the cells of a level.

ghost use Rattle.std.specs.Prelude.{◌≡◌, ◌<◌, ◌≤◌, ◌-◌, length};
ghost use Rattle.std.specs.Bool.{OnTrue, OnFalse};
ghost use Rattle.ept_sample.specs.Place.{AllInCube};
ghost use Rattle.ept_grid.specs.Settling.{winners};
ghost use Rattle.ept_grid.specs.Columns.{spots_of, nexts_of, level_at, NamesBelow, NamesAt, IsChained, IsCut};

use crate::pool::Cell;
use crate::spot::{Spot, level_of};
use ept_space::Rules;

/// Two links of a column with a level between them: to its last cell below, and to the next cell.
#[derive(Clone, Copy, Debug)]
pub(crate) struct Gap {
    pub below: u32,
    pub above: u32,
}

/// The way up the column of a spot to its level.
pub(crate) fn gap_at(rules: &Rules, depth: u8, heads: &[u32], cells: &[Cell], spot: Spot) -> Gap
    requires low { depth ≤ rules.now.cube.depth }
    requires inside { AllInCube rules.now.cube (winners cells.now) }
    requires column { spot.column < length heads.now }
    requires chained { IsChained heads.now (nexts_of cells.now) (spots_of rules.now depth cells.now) }
    ensures { IsCut (spots_of rules.now depth cells.now) spot.column spot.level result.below result.above }
{
    let mut below = 0;
    let mut above = heads[spot.column as usize];
    while is_below(rules, depth, cells, above, spot.level) {
        below = above;
        above = cells[(above - 1) as usize].next;
    }
    Gap { below, above }
}

/// Whether a link names a cell below a level.
pub(crate) fn is_below(rules: &Rules, depth: u8, cells: &[Cell], link: u32, level: u32) -> bool
    requires low { depth ≤ rules.now.cube.depth }
    requires inside { AllInCube rules.now.cube (winners cells.now) }
    requires there { link ≤ length cells.now }
    ensures below { OnTrue result (NamesBelow (spots_of rules.now depth cells.now) level link) }
    ensures not_below { OnFalse result (0 < link → level ≤ level_at (spots_of rules.now depth cells.now) (link - 1)) }
{
    link != 0 && level_of(rules, depth, &cells[(link - 1) as usize].point) < level
}

/// Whether a link names a cell of a level.
pub(crate) fn is_at(rules: &Rules, depth: u8, cells: &[Cell], link: u32, level: u32) -> bool
    requires low { depth ≤ rules.now.cube.depth }
    requires inside { AllInCube rules.now.cube (winners cells.now) }
    requires there { link ≤ length cells.now }
    ensures at { OnTrue result (NamesAt (spots_of rules.now depth cells.now) level link) }
    ensures not_at { OnFalse result (0 < link → ¬ (level_at (spots_of rules.now depth cells.now) (link - 1) ≡ level)) }
{
    link != 0 && level_of(rules, depth, &cells[(link - 1) as usize].point) == level
}
