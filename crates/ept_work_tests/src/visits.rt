//! One worker whose visits are whole.

ghost use Rattle.ept_work_tests.specs.Hands.{parts_of, IsTable, IsHand};
ghost use Rattle.ept_work_tests.specs.Tables.{IsNewTable};
ghost use Rattle.std.specs.Prelude.{◌≡◌};

use crate::hands::{Doing, Hand, Past};
use crate::plans::Worked;
use crate::steps::{finish, whole_step};
use ept_base::{Gate, Source, SpillFile};
use ept_table::{NodeTable, Scan, Seat};
use ept_work::Worker;
use std::alloc::Global;
use std::sync::Wait;

/// One worker makes `steps` steps, and ends.
pub fn work_by_visits<F: SpillFile, S: Source, J: Scan, G: Gate, H: Wait>(
    rt: &H,
    alloc: Global,
    table: NodeTable<F, S, J>,
    seat: Seat<F, S>,
    steps: u32,
    gate: &G,
) -> Worked<F, S>
    requires { IsNewTable J.told table seat }
{
    let hand = Hand {
        worker: Worker::new(alloc, seat, 1),
        doing: Doing::Rest,
    };
    let hand = take_steps(rt, alloc, &table, hand, steps, gate);
    let Past { worker, refused } = finish(&table, hand);
    let (forest, reader) = table.close(worker.into_seat());
    Worked {
        forest,
        reader,
        refused: [refused, None],
    }
}

// The worker makes `steps` steps.
fn take_steps<F: SpillFile, S: Source, J: Scan, G: Gate, H: Wait>(
    rt: &H,
    alloc: Global,
    table: &NodeTable<F, S, J>,
    mut hand: Hand<F, S>,
    steps: u32,
    gate: &G,
) -> Hand<F, S>
    requires table { IsTable J.told table.now }
    requires hand { IsHand F.held S.whole J.told table.now hand }
    ensures hand { IsHand F.held S.whole J.told table.now result }
    ensures share { parts_of F.held S.whole J.told result.worker ≡ parts_of F.held S.whole J.told hand.worker }
{
    for _ in 0..steps {
        hand = whole_step(rt, alloc, table, hand, gate);
    }
    hand
}
