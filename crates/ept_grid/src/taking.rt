//! How a node takes in a point.

ghost use Rattle.std.specs.Prelude.{◌≡◌, ◌<◌, ◌≤◌, ◌+◌, false, length, vec_len, vec_capacity};
ghost use Rattle.ept_space.specs.OctreeCube.{InBox};
ghost use Rattle.ept_sample.specs.Place.{place};
ghost use Rattle.ept_sample.specs.Arrivals.{octant};
ghost use Rattle.ept_grid.specs.Mask.{opened};
ghost use Rattle.ept_grid.specs.Outgoing.{leaving_at, points_at};
ghost use Rattle.ept_grid.specs.Settling.{winners};
ghost use Rattle.ept_grid.specs.Contents.{HasTaken, IsNode};

use crate::losing::lose;
use crate::outgoing::Outgoing;
use crate::pool::Cell;
use crate::settling::settle;
use ept_point::Point;
use ept_space::{Key, Rules};

/// Puts a point among those of a node, sends on those that leave, and returns the open octants.
pub(crate) fn take_in(
    key: &Key,
    rules: &Rules,
    heads: &mut Vec<u32>,
    cells: &mut Vec<Cell>,
    losers: &mut Outgoing,
    mask: u8,
    point: Point,
    out: &mut Outgoing,
) -> u8
    requires node { IsNode key.now rules.now heads.old.items cells.old.items (vec_capacity cells.old) losers.old mask }
    requires inside { InBox rules.now.cube key.now (place point) }
    requires room { vec_len cells.old < vec_capacity cells.old }
    requires few { length cells.old.items < 4294967295 }
    requires place { opened mask (octant rules.now key.now.depth point) ≡ false →
        0 < (leaving_at losers.old (octant rules.now key.now.depth point)).room }
    requires list { length (points_at losers.old (octant rules.now key.now.depth point)) + 1
        ≤ (leaving_at out.old (octant rules.now key.now.depth point)).room }
    ensures node { IsNode key.now rules.now heads.new.items cells.new.items (vec_capacity cells.new) losers.new result }
    ensures taken { HasTaken rules.now key.now.depth mask result point
        (winners cells.old.items) (winners cells.new.items) losers.old losers.new out.old out.new }
    ensures room { vec_capacity cells.new ≡ vec_capacity cells.old }
    ensures grows { vec_len cells.new ≤ vec_len cells.old + 1 }
{
    key.known();
    rules.cube.known();
    losers.known();
    out.known();
    match settle(key, rules, heads, cells, point) {
        None => mask,
        Some(loser) => lose(rules, key.depth, mask, loser, losers, out),
    }
}
