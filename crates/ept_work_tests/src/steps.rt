//! A worker, one step at a time.

ghost use Rattle.std.specs.Prelude.{◌≡◌};
ghost use Rattle.ept_table.specs.Table.{IsSeat};
ghost use Rattle.ept_work.specs.Worker.{seat_of, knows};
ghost use Rattle.ept_work.specs.Rest.{IsIdle, IsAtRest};
ghost use Rattle.ept_work.specs.Visiting.{IsVisit, IsLanding, HasRoom};
ghost use Rattle.ept_work_tests.specs.Hands.{HasEnded, HasPermit, parts_of, IsTable, IsHand};

use crate::hands::{Doing, Hand, Past};
use ept_base::{Gate, Source, SpillFile};
use ept_table::{NodeTable, Scan};
use ept_work::{Landing, Visit, WorkError, Worker};
use std::alloc::Global;
use std::sync::Wait;

/// The next step of a worker. A worker that carries no flight draws, and a worker that has drawn nothing ends.
pub fn step<F: SpillFile, S: Source, J: Scan, H: Wait>(
    rt: &H,
    alloc: Global,
    table: &NodeTable<F, S, J>,
    hand: Hand<F, S>,
) -> Hand<F, S>
    requires table { IsTable J.told table.now }
    requires hand { IsHand F.held S.whole J.told table.now hand }
    ensures hand { IsHand F.held S.whole J.told table.now result }
    ensures share { parts_of F.held S.whole J.told result.worker ≡ parts_of F.held S.whole J.told hand.worker }
{
    let Hand { worker, doing } = hand;
    match doing {
        Doing::Rest => begin(rt, alloc, table, worker),
        Doing::Up(visit) => land(alloc, table, worker, visit),
        Doing::Down(landing) => leave(table, worker, landing),
        Doing::Ended(refused) => Hand {
            worker,
            doing: Doing::Ended(refused),
        },
    }
}

/// As `step`, but a worker at rest that carries flights visits the node of the last one in one step.
pub fn whole_step<F: SpillFile, S: Source, J: Scan, G: Gate, H: Wait>(
    rt: &H,
    alloc: Global,
    table: &NodeTable<F, S, J>,
    hand: Hand<F, S>,
    gate: &G,
) -> Hand<F, S>
    requires table { IsTable J.told table.now }
    requires hand { IsHand F.held S.whole J.told table.now hand }
    ensures hand { IsHand F.held S.whole J.told table.now result }
    ensures share { parts_of F.held S.whole J.told result.worker ≡ parts_of F.held S.whole J.told hand.worker }
{
    let Hand { worker, doing } = hand;
    match doing {
        Doing::Rest => visit(rt, alloc, table, worker, gate),
        Doing::Up(visit) => land(alloc, table, worker, visit),
        Doing::Down(landing) => leave(table, worker, landing),
        Doing::Ended(refused) => Hand {
            worker,
            doing: Doing::Ended(refused),
        },
    }
}

// Draws, if no flight is carried, or visits the next flight's node.
fn visit<F: SpillFile, S: Source, J: Scan, G: Gate, H: Wait>(
    rt: &H,
    alloc: Global,
    table: &NodeTable<F, S, J>,
    mut worker: Worker<F, S>,
    gate: &G,
) -> Hand<F, S>
    requires table { IsTable J.told table.now }
    requires seat { IsSeat J.told table.now (seat_of worker) }
    requires rest { IsAtRest J.told (knows F.held S.whole worker) }
    ensures hand { IsHand F.held S.whole J.told table.now result }
    ensures share { parts_of F.held S.whole J.told result.worker ≡ parts_of F.held S.whole J.told worker }
{
    if worker.is_empty() {
        return draw(rt, alloc, table, worker);
    }
    match worker.visit(rt, alloc, table, gate) {
        Ok(()) => Hand {
            worker,
            doing: Doing::Rest,
        },
        Err(refused) => end(table, worker, Some(refused)),
    }
}

// Draws, if no flight is carried, or takes up the next flight's node.
fn begin<F: SpillFile, S: Source, J: Scan, H: Wait>(
    rt: &H,
    alloc: Global,
    table: &NodeTable<F, S, J>,
    mut worker: Worker<F, S>,
) -> Hand<F, S>
    requires table { IsTable J.told table.now }
    requires seat { IsSeat J.told table.now (seat_of worker) }
    requires rest { IsAtRest J.told (knows F.held S.whole worker) }
    ensures hand { IsHand F.held S.whole J.told table.now result }
    ensures share { parts_of F.held S.whole J.told result.worker ≡ parts_of F.held S.whole J.told worker }
{
    if worker.is_empty() {
        return draw(rt, alloc, table, worker);
    }
    match worker.take_up(rt, alloc, table) {
        Ok(visit) => Hand {
            worker,
            doing: Doing::Up(visit),
        },
        Err(refused) => end(table, worker, Some(refused)),
    }
}

// Draws a batch, or ends if there is none.
fn draw<F: SpillFile, S: Source, J: Scan, H: Wait>(
    rt: &H,
    alloc: Global,
    table: &NodeTable<F, S, J>,
    mut worker: Worker<F, S>,
) -> Hand<F, S>
    requires table { IsTable J.told table.now }
    requires seat { IsSeat J.told table.now (seat_of worker) }
    requires rest { IsAtRest J.told (knows F.held S.whole worker) }
    ensures hand { IsHand F.held S.whole J.told table.now result }
    ensures share { parts_of F.held S.whole J.told result.worker ≡ parts_of F.held S.whole J.told worker }
{
    match worker.draw(rt, alloc, table) {
        Ok(true) => Hand {
            worker,
            doing: Doing::Rest,
        },
        Ok(false) => end(table, worker, None),
        Err(refused) => end(table, worker, Some(refused)),
    }
}

fn land<F: SpillFile, S: Source, J: Scan>(
    alloc: Global,
    table: &NodeTable<F, S, J>,
    mut worker: Worker<F, S>,
    visit: Visit<F>,
) -> Hand<F, S>
    requires table { IsTable J.told table.now }
    requires seat { IsSeat J.told table.now (seat_of worker) }
    requires visit { IsVisit F.held J.told (knows F.held S.whole worker) visit }
    requires permit { HasPermit F.held S.whole J.told worker }
    ensures hand { IsHand F.held S.whole J.told table.now result }
    ensures share { parts_of F.held S.whole J.told result.worker ≡ parts_of F.held S.whole J.told worker }
{
    match worker.land(alloc, table, visit) {
        Ok(landing) => Hand {
            worker,
            doing: Doing::Down(landing),
        },
        Err(visit) => put_back(table, worker, visit, Some(WorkError::Memory)),
    }
}

fn put_back<F: SpillFile, S: Source, J: Scan>(
    table: &NodeTable<F, S, J>,
    mut worker: Worker<F, S>,
    visit: Visit<F>,
    refused: Option<WorkError>,
) -> Hand<F, S>
    requires table { IsTable J.told table.now }
    requires seat { IsSeat J.told table.now (seat_of worker) }
    requires visit { IsVisit F.held J.told (knows F.held S.whole worker) visit }
    requires permit { HasPermit F.held S.whole J.told worker }
    ensures hand { IsHand F.held S.whole J.told table.now result }
    ensures share { parts_of F.held S.whole J.told result.worker ≡ parts_of F.held S.whole J.told worker }
{
    worker.put_back(table, visit);
    end(table, worker, refused)
}

fn leave<F: SpillFile, S: Source, J: Scan>(
    table: &NodeTable<F, S, J>,
    mut worker: Worker<F, S>,
    landing: Landing<F>,
) -> Hand<F, S>
    requires table { IsTable J.told table.now }
    requires seat { IsSeat J.told table.now (seat_of worker) }
    requires landing { IsLanding F.held J.told (knows F.held S.whole worker) landing }
    requires room { HasRoom worker landing }
    requires permit { HasPermit F.held S.whole J.told worker }
    ensures hand { IsHand F.held S.whole J.told table.now result }
    ensures share { parts_of F.held S.whole J.told result.worker ≡ parts_of F.held S.whole J.told worker }
{
    match worker.leave(table, landing) {
        Ok(()) => Hand {
            worker,
            doing: Doing::Rest,
        },
        Err(refused) => end(table, worker, Some(refused)),
    }
}

fn end<F: SpillFile, S: Source, J: Scan>(
    table: &NodeTable<F, S, J>,
    mut worker: Worker<F, S>,
    refused: Option<WorkError>,
) -> Hand<F, S>
    requires seat { IsSeat J.told table.now (seat_of worker) }
    requires idle { IsIdle (knows F.held S.whole worker) }
    ensures hand { IsHand F.held S.whole J.told table.now result }
    ensures share { parts_of F.held S.whole J.told result.worker ≡ parts_of F.held S.whole J.told worker }
{
    worker.abandon(table);
    Hand {
        worker,
        doing: Doing::Ended(refused),
    }
}

/// Ends a worker at whatever it is. The flights that it still carries are abandoned.
pub fn finish<F: SpillFile, S: Source, J: Scan>(
    table: &NodeTable<F, S, J>,
    hand: Hand<F, S>,
) -> Past<F, S>
    requires table { IsTable J.told table.now }
    requires hand { IsHand F.held S.whole J.told table.now hand }
    ensures seat { IsSeat J.told table.now (seat_of result.worker) }
    ensures ended { HasEnded F.held S.whole J.told result.worker }
    ensures share { parts_of F.held S.whole J.told result.worker ≡ parts_of F.held S.whole J.told hand.worker }
{
    let Hand { mut worker, doing } = hand;
    let refused = match doing {
        Doing::Rest => None,
        Doing::Up(visit) => {
            worker.put_back(table, visit);
            None
        }
        Doing::Down(landing) => worker.leave(table, landing).err(),
        Doing::Ended(refused) => refused,
    };
    worker.abandon(table);
    Past { worker, refused }
}
