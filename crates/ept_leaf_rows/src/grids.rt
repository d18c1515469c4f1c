//! Calls of `ept_grid`.

ghost use Rattle.std.specs.Prelude.{◌≡◌, ◌<◌};

use crate::notation::{key_of, point_of, points_of};
use crate::sampling::rules_of;
use crate::words::{Miss, Words, number, parted};
use crate::writing::{part, write_ids, write_or_none, write_refusal};
use ept_grid::{Grid, GridError, Lists, Outgoing, Steps};
use ept_point::{Point, PointNumber};
use ept_sample::ids_ascend;
use std::alloc::Global;
use std::fmt::Write;
use std::marker::Brand;
use std::sync::ledger::{Blank, Ledger};

/// Carries out a call, and writes its result.
pub(crate) fn answer(
    alloc: Global,
    call: &str,
    words: &mut Words<'_>,
    out: &mut String,
) -> Result<(), Miss> {
    match call {
        "arrive" => arrive(alloc, words, out),
        "count" => count(alloc, words, out),
        "tile" => tile(alloc, words, out),
        "winner" => winner(alloc, words, out),
        _ => Err(Miss::Form),
    }
}

// The node without points whose cube, threshold and key are the next three words.
fn grid_of(alloc: Global, words: &mut Words<'_>) -> Result<Grid, Miss> {
    let rules = rules_of(words)?;
    let key = key_of(words.word()?)?;
    if key.depth > rules.cube.depth {
        return Err(Miss::Form);
    }
    Ok(Grid::new(alloc, key, &rules))
}

// Lets a point arrive.
fn feed(grid: &mut Grid, point: Point, leaving: &mut Outgoing) -> Result<(), Miss> {
    if !grid.is_inside(&point) {
        return Err(Miss::Form);
    }
    grid.reserve(&[point], leaving)?;
    grid.arrive(point, leaving);
    Ok(())
}

// `grid arrive CUBE THRESHOLD KEY POINT POINT ..`: how many points the node has after each arrival, and those that it
// keeps at the end. Then its open octants, and the points that left for each octant. Once these are cleared, no point
// is out.
fn arrive(alloc: Global, words: &mut Words<'_>, out: &mut String) -> Result<(), Miss> {
    let mut grid = grid_of(alloc, words)?;
    let mut leaving = Outgoing::new(alloc);
    arrive_at(alloc, &mut grid, &mut leaving, words.rest(), out)
}

fn arrive_at(
    alloc: Global,
    grid: &mut Grid,
    leaving: &mut Outgoing,
    points: &str,
    out: &mut String,
) -> Result<(), Miss> {
    out.push_str("counts")?;
    for word in points.split_whitespace() {
        feed(grid, point_of(word)?, leaving)?;
        write!(out, " {}", grid.count())?;
    }
    write_grid(alloc, grid, out)?;
    write_leaving(leaving, out)?;
    leaving.clear();
    write_leaving(leaving, out)
}

fn write_grid(alloc: Global, grid: &Grid, out: &mut String) -> Result<(), Miss> {
    let mut kept = Vec::new(alloc);
    grid.points_into(&mut kept)?;
    write_kept(kept.as_slice(), grid.open_mask(), out)
}

fn write_kept(kept: &[Point], mask: u8, out: &mut String) -> Result<(), Miss> {
    out.push_str(" | kept ")?;
    write_ids(kept, out)?;
    write!(out, " | open {mask}")?;
    Ok(())
}

/// The points that leave, by octant, without the octants for which none do.
pub(crate) fn write_leaving(leaving: &Outgoing, out: &mut String) -> Result<(), Miss> {
    part(out)?;
    out.push_str("out")?;
    for octant in 0..8 {
        let points = leaving.points(octant);
        if !points.is_empty() {
            write!(out, " {octant}>")?;
            write_ids(points, out)?;
        }
    }
    Ok(())
}

// `grid count CUBE THRESHOLD KEY POINT POINT ..`: whether the node counts the points that it gives out. Then how many
// these are with those that left, and whether their numbers ascend. The ids may occur twice.
fn count(alloc: Global, words: &mut Words<'_>, out: &mut String) -> Result<(), Miss> {
    let mut grid = grid_of(alloc, words)?;
    let mut leaving = Outgoing::new(alloc);
    feed_all(&mut grid, &mut leaving, words.rest())?;
    write_count(alloc, &grid, &leaving, out)
}

// Lets the points of the words arrive one after another.
fn feed_all(grid: &mut Grid, leaving: &mut Outgoing, points: &str) -> Result<(), Miss> {
    for word in points.split_whitespace() {
        feed(grid, point_of(word)?, leaving)?;
    }
    Ok(())
}

fn write_count(
    alloc: Global,
    grid: &Grid,
    leaving: &Outgoing,
    out: &mut String,
) -> Result<(), Miss> {
    let mut kept = Vec::new(alloc);
    grid.points_into(&mut kept)?;
    let is_count = grid.count() == kept.len() as u64;
    let all = kept.len().wrapping_add(count_leaving(leaving));
    let ascend = are_in_order(kept.as_slice());
    write!(out, "{is_count} {all} {ascend}")?;
    Ok(())
}

fn count_leaving(leaving: &Outgoing) -> usize {
    let mut count = 0usize;
    for octant in 0..8 {
        count = count.wrapping_add(leaving.points(octant).len());
    }
    count
}

fn are_in_order(points: &[Point]) -> bool {
    points
        .iter()
        .zip(points.iter().skip(1))
        .all(|(point, next)| point.number <= next.number)
}

// `grid tile CUBE THRESHOLD KEY MASK POINT POINT ..`: how many points and which open octants the node of the tile has.
fn tile(alloc: Global, words: &mut Words<'_>, out: &mut String) -> Result<(), Miss> {
    let rules = rules_of(words)?;
    let key = key_of(words.word()?)?;
    let mask = words.number()?;
    let points = points_of(alloc, words.rest())?;
    if key.depth > rules.cube.depth || !ids_ascend(points.as_slice()) {
        return Err(Miss::Form);
    }
    match Grid::from_tile(Lists::new(alloc), key, &rules, mask, points.as_slice()) {
        Ok(grid) => write!(out, "{} open {}", grid.count(), grid.open_mask())?,
        Err(GridError::Memory) => return Err(Miss::Memory),
        Err(refused) => write_refusal(&refused, out)?,
    }
    Ok(())
}

// `grid winner CUBE THRESHOLD KEY CELL POINT POINT ..`: the number of the best point of a cell.
fn winner(alloc: Global, words: &mut Words<'_>, out: &mut String) -> Result<(), Miss> {
    let mut grid = grid_of(alloc, words)?;
    let mut leaving = Outgoing::new(alloc);
    winner_at(&mut grid, &mut leaving, words, out)
}

fn winner_at(
    grid: &mut Grid,
    leaving: &mut Outgoing,
    words: &mut Words<'_>,
    out: &mut String,
) -> Result<(), Miss> {
    let cell = cell_of(words.word()?)?;
    feed_all(grid, leaving, words.rest())?;
    write_or_none(number_in(grid, cell), out)
}

// `X,Y,Z`: the index of a cell on each axis.
fn cell_of(word: &str) -> Result<[u32; 3], Miss> {
    let (x, rest) = parted(word, ",")?;
    let (y, z) = parted(rest, ",")?;
    Ok([number(x)?, number(y)?, number(z)?])
}

// The number of the winner of a cell, if the cell lies in the node's box and has one.
fn number_of_winner<L: Ledger>(grid: &Grid, cell: [u32; 3], blank: Blank) -> Option<PointNumber>
    requires name { blank.name ≡ L.name }
    requires parts { blank.parts ≡ L.parts }
    requires some { 0 < blank.parts }
{
    let key = grid.key();
    let cube = grid.rules().cube;
    cube.known();
    let shift = u32::from(cube.s);
    if cell[0] >> shift != key.x || cell[1] >> shift != key.y || cell[2] >> shift != key.z {
        return None;
    }
    let mut steps = Steps::<L>::new(blank);
    Some(grid.winner(cell, &mut steps)?.number)
}

fn number_in(grid: &Grid, cell: [u32; 3]) -> Option<PointNumber> {
    number_of_winner::<Brand>(grid, cell, Blank::new(1))
}
