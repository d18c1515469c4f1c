//! Several workers, and the result of their table.

ghost use Rattle.std.specs.Prelude.{◌≡◌, ◌≢◌, ◌+◌, ◌*◌, ◌≤◌, ◌<◌, min, ℕ, [], Err, None, Some, OnOk, true, take, length};
ghost use Rattle.std.specs.List.{All, Any};
ghost use Rattle.ept_forest.specs.Slots.{nodes_of, used_of, residents_of};
ghost use Rattle.ept_node.specs.Shown.{file_of, fault_of};
ghost use Rattle.ept_node.specs.declared.error.NodeError.TheVariants as node;
ghost use Rattle.ept_scan.specs.Reader.{drawn_of, refusal_of, HasFault};
ghost use Rattle.ept_scan.specs.declared.read_error.ReadError.TheVariants as read;
ghost use Rattle.ept_slots.specs.Views.{first_view};
ghost use Rattle.ept_slots.specs.Seating.{view};
ghost use Rattle.ept_table.specs.Item.{seen_reader, IsFiled, IsFiledNode};
ghost use Rattle.ept_table.specs.Row.{row};
ghost use Rattle.ept_table.specs.Shown.{FitsReader};
ghost use Rattle.ept_table.specs.Standing.{known};
ghost use Rattle.ept_table.specs.Steps.{first_note, joined};
ghost use Rattle.ept_table.specs.Tells.{IsTooMany, IsLanded, IsSampling};
ghost use Rattle.ept_table.specs.Table.{slots_of, rules_of, IsSeat};
ghost use Rattle.ept_work.specs.Errors.{settled_by};
ghost use Rattle.ept_work.specs.Working.{first_refusal};
ghost use Rattle.ept_work.specs.Crews.{MayWork, HaveWorked};
ghost use Rattle.ept_work.specs.declared.error.WorkError.TheVariants as errors;

use crate::ahead::most_ahead_of;
use crate::error::WorkError;
use crate::worker::Worker;
use ept_base::{Gate, Source, SpillFile};
use ept_forest::Forest;
use ept_node::NodeError;
use ept_scan::Reader;
use ept_table::{NodeTable, Scan, Seat};
use std::alloc::Global;
use std::sync::Wait;
use std::thread;
use std::thread::Threads;

// How workers ended: their seat, and the refusal of the lowest worker that was refused.
struct Ended<F, S> {
    seat: Seat<F, S>,
    result: Result<(), WorkError>,
}

/// Inserts the points of the reader's allowance with `workers` workers, and closes the table.
///
/// # Errors
///
/// If a node is broken, its fault: `SpillFault` or `SpillDamaged`. Otherwise, of several refusals, that of the lowest
/// worker. The forest and the reader are returned in either case.
pub fn insert_all<
    F: SpillFile + Send + Sync,
    S: Source + Send,
    J: Scan + Sync,
    G: Gate + Sync,
    R: Threads + Wait + Sync,
>(
    rt: &R,
    alloc: Global,
    table: NodeTable<F, S, J>,
    seat: Seat<F, S>,
    workers: u32,
    gate: &G,
) -> (Forest<F>, Reader<S>, Result<(), WorkError>)
    requires seat { IsSeat J.told table seat }
    requires first { view seat ≡ first_view J.told.most (first_note J.told) }
    requires slots { slots_of table ≡ J.told.most + 1 }
    requires rules { rules_of table ≡ J.told.rules }
    requires workers { (1 ≤ workers) × (workers ≤ 64) }

    // If nothing is refused, nothing flies at the end. If contents are also visible, the nodes are the sampling of all
    // points that the allowance and the inputs have.
    ensures landed { OnOk result.2 (IsLanded J.told (used_of result.0) (row F.held S.whole result.1 (nodes_of result.0))) }
    ensures sampling { OnOk result.2 (J.told.tells ≡ true
        → IsSampling J.told (row F.held S.whole result.1 (nodes_of result.0)) (take (drawn_of result.1) J.told.points)) }
    ensures drawn { OnOk result.2 (drawn_of result.1 ≡ min J.told.end J.told.total) }
    ensures sound { OnOk result.2 (refusal_of result.1 ≡ None) }

    // Whatever the result, the reader and the slots are those of the table, and the nodes agree with their files.
    ensures filed { IsFiled S.whole S.left S.given S.faults J.told result.1 }
    ensures fits { FitsReader J.told (seen_reader S.whole result.1) }
    ensures slots { length (nodes_of result.0) ≡ J.told.most }
    ensures nodes { All (IsFiledNode F.held F.faults F.keeps J.told) (nodes_of result.0) }
    ensures cached { residents_of (nodes_of result.0) ≤ J.told.cache }

    // Unless the refusal is of a broken node, no node is broken.
    ensures unbroken { result.2 ≢ Err errors.SpillFault
        → ((kept found at : ℕ) → result.2 ≢ Err (errors.SpillDamaged kept found at))
        → All (λ node. fault_of node ≡ None) (nodes_of result.0) }

    // The causes of a refusal.
    ensures too_many { result.2 ≡ Err errors.TooManyNodes → IsTooMany J.told }
    ensures fault { result.2 ≡ Err errors.SourceFault → HasFault S.faults result.1 }
    ensures changed { (source number : ℕ) → result.2 ≡ Err (errors.SourceChanged source number)
        → refusal_of result.1 ≡ Some (read.SourceChanged source number) }
    ensures no_change { J.told.tells ≡ true → (source number : ℕ)
        → result.2 ≢ Err (errors.SourceChanged source number) }
    ensures spill_fault { result.2 ≡ Err errors.SpillFault
        → Any (λ n. (fault_of n ≡ Some node.SpillFault) × (0 < F.faults (file_of n))) (nodes_of result.0) }
    ensures damaged { (kept found at : ℕ) → result.2 ≡ Err (errors.SpillDamaged kept found at)
        → Any (λ n. fault_of n ≡ Some (node.SpillDamaged kept found at)) (nodes_of result.0) }
    ensures no_damage { J.told.tells ≡ true → (kept found at : ℕ)
        → result.2 ≢ Err (errors.SpillDamaged kept found at) }
{
    let most_ahead = most_ahead_of(table.rules(), table.cache(), workers);
    let Ended { seat, result } = work_all(rt, alloc, &table, seat, 0, workers, most_ahead, gate);
    let (forest, reader) = table.close(seat);
    let result = settled(forest.fault(), result);
    (forest, reader, result)
}

// The result of workers if a node may be broken: its fault comes before any other refusal.
fn settled(broken: Option<NodeError>, answer: Result<(), WorkError>) -> Result<(), WorkError>
    ensures { result ≡ settled_by broken answer }
{
    match broken {
        Some(why) => Err(why.into()),
        None => answer,
    }
}

// Lets `workers` workers, numbered from the first on, work at a table, each with up to `most_ahead` points ahead. The higher half
// of them works in a thread of its own.
fn work_all<F, S, J, G, R>(
    rt: &R,
    alloc: Global,
    table: &NodeTable<F, S, J>,
    mut seat: Seat<F, S>,
    first: u32,
    workers: u32,
    most_ahead: usize,
    gate: &G,
) -> Ended<F, S>
where
    F: SpillFile + Send + Sync,
    S: Source + Send,
    J: Scan + Sync,
    G: Gate + Sync,
    R: Threads + Wait + Sync,
    requires { MayWork F.held J.told S.whole table.now seat first workers }
    ensures { HaveWorked F.held J.told S.whole table.now seat result }
{
    if workers == 1 {
        return work_alone(rt, alloc, table, seat, first, most_ahead, gate);
    }
    let higher = workers / 2;
    let lower = workers - higher;
    let next = first + lower;
    let other = table.split(&mut seat);
    let (left, right) = thread::join(
        rt,
        move || -> Ended<F, S>
            requires { MayWork F.held J.told S.whole table.now seat first lower }
            ensures { HaveWorked F.held J.told S.whole table.entry.now seat result }
        { work_all(rt, alloc, table, seat, first, lower, most_ahead, gate) },
        move || -> Ended<F, S>
            requires { MayWork F.held J.told S.whole table.now other next higher }
            ensures { HaveWorked F.held J.told S.whole table.entry.now other result }
        { work_all(rt, alloc, table, other, next, higher, most_ahead, gate) },
    );
    both(table, left, right)
}

// Lets one worker work.
fn work_alone<F: SpillFile, S: Source, J: Scan, G: Gate, H: Wait>(
    rt: &H,
    alloc: Global,
    table: &NodeTable<F, S, J>,
    seat: Seat<F, S>,
    number: u32,
    most_ahead: usize,
    gate: &G,
) -> Ended<F, S>
    requires { MayWork F.held J.told S.whole table.now seat number 1 }
    ensures { HaveWorked F.held J.told S.whole table.now seat result }
{
    let mut worker = Worker::new(alloc, seat, number);
    worker.most_ahead = most_ahead;
    let result = worker.work(rt, alloc, table, gate);
    Ended {
        seat: worker.into_seat(),
        result,
    }
}

// Ends the seat of the higher workers in that of the lower ones.
fn both<F: SpillFile, S: Source, J: Scan>(
    table: &NodeTable<F, S, J>,
    lower: Ended<F, S>,
    higher: Ended<F, S>,
) -> Ended<F, S>
    requires lower { IsSeat J.told table.now lower.seat }
    requires higher { IsSeat J.told table.now higher.seat }
    requires share { 0 < (view lower.seat).parts }
    requires idle { (known F.held S.whole (view higher.seat)).hold ≡ None }
    requires landed { (view higher.seat).note.flights ≡ [] }
    ensures seat { IsSeat J.told table.now result.seat }
    ensures both { known F.held S.whole (view result.seat) ≡ joined (known F.held S.whole (view lower.seat)) (known F.held S.whole (view higher.seat)) }
    ensures result { result.result ≡ first_refusal lower.result higher.result }
{
    let Ended {
        mut seat,
        result: first,
    } = lower;
    let Ended {
        seat: other,
        result: second,
    } = higher;
    table.join(&mut seat, other);
    Ended {
        seat,
        result: first_of(first, second),
    }
}

// The refusal of the first, and otherwise the result of the second.
fn first_of(first: Result<(), WorkError>, second: Result<(), WorkError>) -> Result<(), WorkError>
    ensures { result ≡ first_refusal first second }
{
    first?;
    second
}
