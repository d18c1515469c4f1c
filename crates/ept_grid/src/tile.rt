//! The points of a node from a tile.

ghost use Rattle.std.specs.Prelude.{◌≡◌, ◌≢◌, ◌<◌, ◌≤◌, ◌+◌, ◌↔◌, IsTrue, ℕ, ◌&&◌, ◌==◌, not, true, false, IfOk, IfErr, OnOk, MatchOption, length, position, take, vec_capacity, ◌*◌, ◌^◌};
ghost use Rattle.std.specs.Bool.{OnFalse};
ghost use Rattle.ept_point.specs.Order.{IsAscending};
ghost use Rattle.ept_space.specs.OctreeCube.{InBox};
ghost use Rattle.ept_sample.specs.Place.{place, AllInBox, AllInCube};
ghost use Rattle.ept_sample.specs.Ids.{in_id_order};
ghost use Rattle.ept_grid.specs.Mask.{opened};
ghost use Rattle.ept_grid.specs.Outgoing.{points_at};
ghost use Rattle.ept_grid.specs.Settling.{winners, is_open_stranger};
ghost use Rattle.ept_grid.specs.Columns.{spots_of, nexts_of, IsChained, StandInPlace};
ghost use Rattle.std.specs.List.{All};
ghost use Rattle.ept_grid.specs.Contents.{contents, opens_with, IsFilled, IsNode};
ghost use Rattle.ept_grid.specs.Tile.{is_open_loser, IsFirstOutside, IsTile, IsTileFault};

use crate::error::GridError;
use crate::lists::Lists;
use crate::lookup::is_no_winner;
use crate::losing::is_too_many;
use crate::making::{emptied, make_cells};
use crate::octants::{OCTANTS, is_open, octant_of};
use crate::outgoing::Outgoing;
use crate::pool::Cell;
use crate::settling::settle;
use ept_point::{Memory, Point};
use ept_sample::place_of;
use ept_space::{Key, Rules, contains, node_box};

/// The points of a node as it keeps them.
#[derive(Debug, Drop)]
pub(crate) struct Kept {
    pub heads: Vec<u32>,
    pub cells: Vec<Cell>,
    pub losers: Outgoing,
}

/// The points of a node with these points and open octants, or the first cause why they are no node.
pub(crate) fn node_of_tile(
    lists: Lists,
    key: &Key,
    rules: &Rules,
    mask: u8,
    points: &[Point],
) -> Result<Kept, GridError>
    requires low { key.now.depth ≤ rules.now.cube.depth }
    requires ascend { IsAscending points.now }
    ensures points { IfOk result (λ kept. in_id_order (contents (winners kept.cells.items) kept.losers) ≡ points.now) }
    ensures node { IfOk result (λ kept.
        IsNode key.now rules.now kept.heads.items kept.cells.items (vec_capacity kept.cells) kept.losers mask) }
    ensures tile { IfOk result (λ _. IsTile key.now rules.now mask points.now) }
    ensures refused { IfErr result (λ e. e ≢ GridError.Memory → IsTileFault key.now rules.now mask points.now e) }
{
    if let Some(at) = first_outside(key, rules, points) {
        return Err(GridError::Outside { at: at as u64 });
    }
    let kept = settle_all(lists, key, rules, points)?;
    if let Some(at) = first_open_loser(key, rules, mask, &kept, points) {
        return Err(GridError::OpenLoser { at: at as u64 });
    }
    if let Some(octant) = first_overfull(rules, key.depth, &kept.losers, mask) {
        return Err(GridError::TooMany { octant });
    }
    if is_deep(key, rules, mask) {
        return Err(GridError::Deep);
    }
    Ok(kept)
}

// Whether an octant is open at the greatest depth.
fn is_deep(key: &Key, rules: &Rules, mask: u8) -> bool
    ensures { result ≡ (not (mask == 0) && (key.now.depth == rules.now.cube.depth)) }
{
    mask != 0 && key.depth == rules.cube.depth
}

/// The number of the first point outside the key's box, from 0.
pub fn first_outside(key: &Key, rules: &Rules, points: &[Point]) -> Option<usize>
    requires { key.now.depth ≤ rules.now.cube.depth }
    ensures { MatchOption result (AllInBox rules.now.cube key.now points.now)
        (IsFirstOutside rules.now.cube key.now points.now) }
{
    for (at, point) in points.iter().enumerate() {
        if !is_inside(key, rules, point) {
            return Some(at);
        }
    }
    None
}

/// Whether a point lies in the key's box.
pub(crate) fn is_inside(key: &Key, rules: &Rules, point: &Point) -> bool
    requires { key.now.depth ≤ rules.now.cube.depth }
    ensures { IsTrue result ↔ InBox rules.now.cube key.now (place point.now) }
{
    contains(&node_box(&rules.cube, key), place_of(point))
}

// The points settled one by one, with no octant open.
fn settle_all(lists: Lists, key: &Key, rules: &Rules, points: &[Point]) -> Result<Kept, Memory>
    requires low { key.now.depth ≤ rules.now.cube.depth }
    requires inside { AllInBox rules.now.cube key.now points.now }
    ensures filled { IfOk result (λ kept.
        IsFilled key.now rules.now kept.heads.items kept.cells.items (vec_capacity kept.cells) kept.losers points.now) }
{
    let Lists {
        mut heads,
        mut cells,
        mut losers,
    } = lists;
    emptied(rules, &mut heads, &mut cells)?;
    losers.clear();
    losers.known();
    let mut kept = Kept {
        heads,
        cells,
        losers,
    };
    for at in 0..points.len() {
        fill(key, rules, points, at, &mut kept)?;
    }
    Ok(kept)
}

// Settles the point of a number. Room for cells is made one cell at a time, so none is made for points that lose.
fn fill(
    key: &Key,
    rules: &Rules,
    points: &[Point],
    at: usize,
    kept: &mut Kept,
) -> Result<(), Memory>
    requires low { key.now.depth ≤ rules.now.cube.depth }
    requires inside { AllInBox rules.now.cube key.now points.now }
    requires there { at < length points.now }
    requires filled { IsFilled key.now rules.now kept.old.heads.items kept.old.cells.items
        (vec_capacity kept.old.cells) kept.old.losers (take at points.now) }
    ensures filled { OnOk result (IsFilled key.now rules.now kept.new.heads.items kept.new.cells.items
        (vec_capacity kept.new.cells) kept.new.losers (take (at + 1) points.now)) }
{
    key.known();
    rules.cube.known();
    kept.losers.known();
    make_cells(rules, &mut kept.heads, &mut kept.cells, 1)?;
    if let Some(loser) = settle(key, rules, &mut kept.heads, &mut kept.cells, points[at]) {
        let octant = octant_of(rules, key.depth, &loser);
        kept.losers.add(octant, loser)?;
    }
    Ok(())
}

// The number of the first point that loses in an open octant.
fn first_open_loser(
    key: &Key,
    rules: &Rules,
    mask: u8,
    kept: &Kept,
    points: &[Point],
) -> Option<usize>
    requires low { key.now.depth ≤ rules.now.cube.depth }
    requires ascend { IsAscending points.now }
    requires inside { AllInBox rules.now.cube key.now points.now }
    requires filled { IsFilled key.now rules.now kept.now.heads.items kept.now.cells.items
        (vec_capacity kept.now.cells) kept.now.losers points.now }
    ensures { result ≡ position (is_open_loser rules.now key.now.depth mask points.now) points.now }
{
    if !has_open_losers(mask, &kept.losers) {
        return None;
    }
    key.known();
    rules.cube.known();
    let heads = kept.heads.as_slice();
    first_losing(rules, key.depth, mask, heads, kept.cells.as_slice(), points)
}

// Whether a list of losers of an open octant has points.
fn has_open_losers(mask: u8, losers: &Outgoing) -> bool
    ensures { OnFalse result ((o : ℕ) → o < 8 → opened mask o ≡ true → length (points_at losers.now o) ≡ 0) }
{
    for octant in 0..OCTANTS {
        if is_open(mask, octant) && losers.count(octant) != 0 {
            return true;
        }
    }
    false
}

// The number of the first point in an open octant that is no winner.
fn first_losing(
    rules: &Rules,
    depth: u8,
    mask: u8,
    heads: &[u32],
    cells: &[Cell],
    points: &[Point],
) -> Option<usize>
    requires low { depth ≤ rules.now.cube.depth }
    requires all_inside { AllInCube rules.now.cube (winners cells.now) }
    requires inside { AllInCube rules.now.cube points.now }
    requires table { 0 < length cells.now → length heads.now ≡ 2 ^ (2 * rules.now.cube.s) }
    requires chained { IsChained heads.now (nexts_of cells.now) (spots_of rules.now depth cells.now) }
    requires in_place { All (StandInPlace rules.now depth (winners cells.now)) points.now }
    ensures { result ≡ position (is_open_stranger rules.now depth mask (winners cells.now)) points.now }
{
    for (at, point) in points.iter().enumerate() {
        if is_open(mask, octant_of(rules, depth, point))
            && is_no_winner(rules, depth, heads, cells, point)
        {
            return Some(at);
        }
    }
    None
}

// The first closed octant with more losers than the threshold.
fn first_overfull(rules: &Rules, depth: u8, losers: &Outgoing, mask: u8) -> Option<u8>
    ensures { MatchOption result
        ((o : ℕ) → o < 8 →
        (not (opened mask o) && opens_with rules.now depth (length (points_at losers.now o))) ≡ false)
        (λ o. (o < 8)
        × ((not (opened mask o) && opens_with rules.now depth (length (points_at losers.now o))) ≡ true)
        × ((k : ℕ) → k < o →
        (not (opened mask k) && opens_with rules.now depth (length (points_at losers.now k))) ≡ false)) }
{
    for octant in 0..OCTANTS {
        if !is_open(mask, octant) && is_too_many(rules, depth, losers.count(octant)) {
            return Some(octant);
        }
    }
    None
}
