//! Room in a node, and in what leaves it, for arrivals.

ghost use Rattle.std.specs.Prelude.{◌≡◌, ◌≢◌, ◌⊎◌, ◌<◌, ◌≤◌, ◌+◌, ◌*◌, ◌^◌, ℕ, length, slice_index, vec_len, vec_capacity, OnOk};
ghost use Rattle.ept_sample.specs.Place.{AllInBox};
ghost use Rattle.ept_grid.specs.Mask.{opened};
ghost use Rattle.ept_grid.specs.Node.{count_in};
ghost use Rattle.ept_grid.specs.Outgoing.{leaving_at, points_at, all_points};
ghost use Rattle.ept_grid.specs.Contents.{cell_room, HasLaneRoom, IsNode};

use crate::making::make_cells;
use crate::octants::{by_octant, is_open};
use crate::outgoing::Outgoing;
use crate::pool::Cell;
use ept_point::{Memory, Point};
use ept_space::{Key, Rules};

/// Makes room for these points: a cell for each, and room for those of each octant among what leaves for it. A closed
/// octant also gets room among its losers. The points that are there stay, whatever the result.
pub(crate) fn make_room(
    key: &Key,
    rules: &Rules,
    heads: &mut Vec<u32>,
    cells: &mut Vec<Cell>,
    losers: &mut Outgoing,
    mask: u8,
    arrivals: &[Point],
    out: &mut Outgoing,
) -> Result<(), Memory>
    requires low { key.now.depth ≤ rules.now.cube.depth }
    requires inside { AllInBox rules.now.cube key.now arrivals.now }
    requires table { (length heads.old.items ≡ 0) ⊎ (length heads.old.items ≡ 2 ^ (2 * rules.now.cube.s)) }
    requires some { 0 < vec_capacity cells.old → 0 < length heads.old.items }
    ensures cells_room { OnOk result (length arrivals.now ≤ cell_room (vec_capacity cells.new) (vec_len cells.new)) }
    ensures lanes { OnOk result ((o : ℕ) → o < 8 →
        HasLaneRoom mask o (count_in rules.now key.now.depth o arrivals.now) losers.new out.new) }
    ensures cells { cells.new.items ≡ cells.old.items }
    ensures losers { (o : ℕ) → points_at losers.new o ≡ points_at losers.old o }
    ensures losers_all { all_points losers.new ≡ all_points losers.old }
    ensures points { (o : ℕ) → points_at out.new o ≡ points_at out.old o }
    ensures all { all_points out.new ≡ all_points out.old }
    ensures node { (mask : ℕ) →
        IsNode key.now rules.now heads.old.items cells.old.items (vec_capacity cells.old) losers.old mask →
        IsNode key.now rules.now heads.new.items cells.new.items (vec_capacity cells.new) losers.new mask }
{
    key.known();
    rules.cube.known();
    losers.known();
    out.known();
    let counts = by_octant(rules, key.depth, arrivals);
    make_cells(rules, heads, cells, arrivals.len())?;
    make_lanes(losers, mask, &counts, out)
}

// Makes room for the count of points of each octant among what leaves for it. A closed octant also gets room among its
// losers.
fn make_lanes(
    losers: &mut Outgoing,
    mask: u8,
    counts: &[usize; 8],
    out: &mut Outgoing,
) -> Result<(), Memory>
    requires small { (o : ℕ) → o < 8 → slice_index counts.now o ≤ 4294967295 }
    requires eight { length losers.old ≡ 8 }
    requires out_eight { length out.old ≡ 8 }
    ensures lanes { OnOk result ((o : ℕ) → o < 8 → HasLaneRoom mask o (slice_index counts.now o) losers.new out.new) }
    ensures losers { (o : ℕ) → points_at losers.new o ≡ points_at losers.old o }
    ensures points { (o : ℕ) → points_at out.new o ≡ points_at out.old o }
    ensures eight { length losers.new ≡ length losers.old }
    ensures out_eight { length out.new ≡ length out.old }
{
    for octant in 0..8 {
        let count = counts[octant as usize];
        make_lane(losers, mask, octant, count, out)?;
    }
    Ok(())
}

// The same for one octant.
fn make_lane(
    losers: &mut Outgoing,
    mask: u8,
    octant: u8,
    count: usize,
    out: &mut Outgoing,
) -> Result<(), Memory>
    requires one_of_eight { octant < 8 }
    requires small { count ≤ 4294967295 }
    ensures lane { OnOk result (HasLaneRoom mask octant count losers.new out.new) }
    ensures losers { (o : ℕ) → points_at losers.new o ≡ points_at losers.old o }
    ensures points { (o : ℕ) → points_at out.new o ≡ points_at out.old o }
    ensures losers_others { (o : ℕ) → o ≢ octant → leaving_at losers.new o ≡ leaving_at losers.old o }
    ensures others { (o : ℕ) → o ≢ octant → leaving_at out.new o ≡ leaving_at out.old o }
    ensures eight { length losers.new ≡ length losers.old }
    ensures out_eight { length out.new ≡ length out.old }
{
    if !is_open(mask, octant) {
        losers.reserve(octant, count)?;
    }
    out.reserve(octant, losers.count(octant) + count)
}
