//! Drawing ahead, for when nodes have to leave memory. A worker draws further batches before it reads a node back, and
//! carries their points as far down as nodes are in memory. So a node that is read back takes in many points before it
//! is evicted again.

ghost use Rattle.std.specs.Prelude.{◌≡◌, ◌≤◌, IfOk, IfErr};
ghost use Rattle.ept_slots.specs.Seating.{view};
ghost use Rattle.ept_table.specs.Permits.{spare_of};
ghost use Rattle.ept_table.specs.Steps.{in_one};
ghost use Rattle.ept_work.specs.Rest.{IsAtRest};
ghost use Rattle.ept_work.specs.Working.{Keeps};

use crate::worker::{BATCH, Worker, is_near};
use ept_base::{Source, SpillFile};
use ept_core::Flight;
use ept_point::List;
use ept_space::Rules;
use ept_table::{Carried, NodeTable, Scan};

/// The least number of points that a worker may carry before it reads a node back.
pub(crate) const LEAST_AHEAD: usize = 32 * BATCH;

// And the greatest.
const GREATEST_AHEAD: u64 = 1 << 20;

// The greatest number of points in a merged flight. An arrival reserves room for them in each octant of the node and of
// what leaves it.
const MERGED: usize = 4 * BATCH;

// Two flights that are not merged.
struct Apart {
    first: Carried,
    second: Carried,
}

/// How many points each of `workers` workers carries before it reads a node back. Together they carry what `cache` nodes
/// hold, each with a point in half of the cells of a layer and `threshold` losers.
pub(crate) fn most_ahead_of(rules: &Rules, cache: u32, workers: u32) -> usize
    ensures { LEAST_AHEAD ≤ result }
{
    let cells = 4u64.saturating_pow(u32::from(rules.cube.s));
    let points = (cells / 2)
        .saturating_add(rules.threshold)
        .saturating_mul(u64::from(cache));
    let share = points / u64::from(workers.max(1));
    (share.min(GREATEST_AHEAD) as usize).max(LEAST_AHEAD)
}

impl<F: SpillFile, S: Source> Worker<F, S> {
    ghost use Rattle.ept_table.specs.Table.{IsSeat};
    ghost use Rattle.ept_work.specs.Worker.{seat_of, number_of, knows};

    /// Whether a further batch is to be drawn before a node is read back: each flight goes to a node that would have to
    /// be, and there may be more points ahead.
    pub(crate) fn draws_ahead<J: Scan>(&self, table: &NodeTable<F, S, J>) -> bool {
        self.is_short && !self.is_drained && !self.has_near(table) && self.ahead() < self.most_ahead
    }

    // Whether a flight goes to a node that need not be read back.
    fn has_near<J: Scan>(&self, table: &NodeTable<F, S, J>) -> bool {
        let newest = self.newest;
        self.flights
            .iter()
            .any(|carried| is_near(table, carried.slot, newest))
    }

    // How many points are carried.
    fn ahead(&self) -> usize {
        let mut points = 0usize;
        for carried in self.flights.iter() {
            points = points.saturating_add(carried.flight.points.as_slice().len());
        }
        points
    }

    /// Merges the newest flight with the one before it, if nodes have to leave memory. Both have to go to one node, and
    /// have few points together. If memory runs out, they stay two.
    pub(crate) fn merge_last<J: Scan>(&mut self, table: &NodeTable<F, S, J>)
        requires seat { IsSeat J.told table.now (seat_of self.old) }
        requires rest { IsAtRest J.told (knows F.held S.whole self.old) }
        ensures seat { IsSeat J.told table.now (seat_of self.new) }
        ensures number { number_of self.new ≡ number_of self.old }
        ensures rest { IsAtRest J.told (knows F.held S.whole self.new) }
        ensures keeps { Keeps (knows F.held S.whole self.old) (knows F.held S.whole self.new) }
        ensures permits { spare_of (view (seat_of self.new)) ≡ spare_of (view (seat_of self.old)) }
    {
        if !self.is_short {
            return;
        }
        let Some(second) = self.flights.pop() else {
            return;
        };
        let Some(first) = self.flights.pop() else {
            self.flights.push_reserved(second);
            return;
        };
        match in_one(first, second) {
            Ok(one) => {
                table.merge(&mut self.seat);
                self.flights.push_reserved(one);
            }
            Err(apart) => {
                let Apart { first, second } = apart;
                self.flights.push_reserved(first);
                self.flights.push_reserved(second);
            }
        }
    }
}

// Two flights as one, if they go to one node and have few points together. Both unchanged if not, or if memory runs
// out.
fn in_one(first: Carried, second: Carried) -> Result<Carried, Apart>
    ensures slot { IfOk result (λ one. first.slot ≡ second.slot) }
    ensures key { IfOk result (λ one. first.flight.key ≡ second.flight.key) }
    ensures one { IfOk result (λ one. one ≡ in_one first second) }
    ensures apart { IfErr result (λ apart. (apart.first ≡ first) × (apart.second ≡ second)) }
{
    let more = second.flight.points.as_slice().len();
    let is_one = first.slot == second.slot && first.flight.key == second.flight.key;
    if !is_one || MERGED < more || MERGED - more < first.flight.points.as_slice().len() {
        return Err(Apart { first, second });
    }
    let Carried { slot, flight } = first;
    let Flight { actor, key, points } = flight;
    let mut points = points.into_vec();
    let added = points.extend_from_slice(second.flight.points.as_slice());
    let first = Carried {
        slot,
        flight: Flight {
            actor,
            key,
            points: List::of(points),
        },
    };
    match added {
        Ok(()) => Ok(first),
        Err(_) => Err(Apart { first, second }),
    }
}
