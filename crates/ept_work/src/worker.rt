//! A worker, and how it draws a batch.

ghost use Rattle.std.specs.Prelude.{◌≡◌, ◌+◌, ◌++◌, ◌<◌, ◌≤◌, ℕ, List, [], IfOk, IfErr, IfSome, OnOk, OnErr, Some, None, ◌≢◌, true, false, length, vec_len, vec_capacity};
ghost use Rattle.ept_point.specs.declared.point.Point as at;
ghost use Rattle.ept_space.specs.VoxelKey.{root};
ghost use Rattle.ept_scan.specs.declared.second_reading.Reader as reader_of;
ghost use Rattle.ept_scan.specs.declared.read_error.ReadError.TheVariants as errors;
ghost use Rattle.ept_scan.specs.Reader.{batch_of, refusal_of};
ghost use Rattle.ept_slots.specs.Seating.{view};
ghost use Rattle.ept_table.specs.declared.item.Item.TheVariants as items;
ghost use Rattle.ept_table.specs.Item.{seen_reader, IsFiled};
ghost use Rattle.ept_table.specs.Shown.{IsTold, FitsReader};
ghost use Rattle.ept_table.specs.Permits.{spare_of};
ghost use Rattle.ept_table.specs.Standing.{known};
ghost use Rattle.ept_table.specs.declared.done.Done.TheVariants as done_of;
ghost use Rattle.ept_table.specs.Visits.{fresh_of};
ghost use Rattle.ept_table.specs.Steps.{noting, abandoned, lacks_slot, carried_to, HasRead};
ghost use Rattle.ept_table.specs.Tells.{IsTooMany};
ghost use Rattle.ept_work.specs.Rest.{IsIdle, IsAtRest};
ghost use Rattle.ept_work.specs.Drawing.{DrawsBatch, DrawsNone, IsReadCause, answer_of};

use crate::ahead::LEAST_AHEAD;
use crate::error::WorkError;
use crate::victims::Victims;
use ept_base::{Source, SpillFile};
use ept_core::Flight;
use ept_grid::Outgoing;
use ept_point::{List, Point};
use ept_scan::{ReadError, Reader};
use ept_space::Key;
use ept_table::{Carried, Done, Item, NodeTable, Scan, Seat};
use std::alloc::Global;
use std::mem;
use std::sync::Wait;

// How many records are drawn at a time.
pub(crate) const BATCH: usize = 1_024;

// The slot of the root's node.
pub(crate) const ROOT_SLOT: u32 = 1;

/// A seat of a table with the flights that it carries.
pub struct Worker<F, S> {
    pub(crate) seat: Seat<F, S>,
    pub(crate) flights: Vec<Carried>,
    pub(crate) number: u32,
    // The points that leave a node while a flight arrives at it, and the flights in which they leave.
    pub(crate) out: Outgoing,
    pub(crate) fresh: Vec<Carried>,
    // The nodes that are evicted next, and whether a free permit was ever missing.
    pub(crate) victims: Victims,
    pub(crate) is_short: bool,
    // How many points it carries before it reads a node back, once a free permit was missing.
    pub(crate) most_ahead: usize,
    // Whether a draw has found no points, so no more are left.
    pub(crate) is_drained: bool,
    // The slot of the node that was visited last, 0 before the first visit. The greatest slot of a node that was
    // visited.
    pub(crate) here: u32,
    pub(crate) newest: u32,
    ghost carries: { (view seat).note.flights ≡ flights.items },
    ghost emptied: { fresh.items ≡ [] },
}

impl<F: SpillFile, S: Source> Worker<F, S> {
    ghost use Rattle.ept_table.specs.Table.{slots_of, IsSeat};
    ghost use Rattle.ept_work.specs.Worker.{seat_of, number_of, knows, IsGoal};

    /// A worker of this number with a seat that carries no flight. It allocates no memory.
    pub fn new(alloc: Global, seat: Seat<F, S>, number: u32) -> Worker<F, S>
        requires { (view seat).note.flights ≡ [] }
        ensures seat { seat_of result ≡ seat }
        ensures number { number_of result ≡ number }
    {
        Worker {
            seat,
            flights: Vec::new(alloc),
            number,
            out: Outgoing::new(alloc),
            fresh: Vec::new(alloc),
            victims: Victims::new(alloc),
            is_short: false,
            most_ahead: LEAST_AHEAD,
            is_drained: false,
            here: 0,
            newest: 0,
        }
    }

    /// The seat of a worker that carries no flight.
    pub fn into_seat(self) -> Seat<F, S>
        ensures { result ≡ seat_of self }
    {
        let Worker {
            seat,
            flights: _flights,
            number: _number,
            out: _out,
            fresh: _fresh,
            victims: _victims,
            is_short: _is_short,
            most_ahead: _most_ahead,
            is_drained: _is_drained,
            here: _here,
            newest: _newest,
        } = self;
        seat
    }

    /// Whether it carries no flight.
    pub fn is_empty(&self) -> bool
        ensures empty { result ≡ true → (view (seat_of self.now)).note.flights ≡ [] }
        ensures some { result ≡ false → 0 < length (view (seat_of self.now)).note.flights }
    {
        self.flights.is_empty()
    }

    /// The slot of the node that is visited next, to which one of the flights goes: 0 if that flight has none. `None`
    /// if no flight is carried.
    pub fn next_slot<J: Scan>(&self, table: &NodeTable<F, S, J>) -> Option<u32>
        ensures some { IfSome result (IsGoal (knows F.held S.whole self.now).note.flights) }
        ensures none { result ≡ None → (knows F.held S.whole self.now).note.flights ≡ [] }
    {
        if self.flights.is_empty() {
            return None;
        }
        Some(self.flights[self.next(table)].slot)
    }

    // The flight whose node is visited next. Flights to nodes that no other worker is seen to hold come first: the
    // newest to the node that was visited last. If there is none and nodes have to leave memory, the newest to a node
    // that need not be read back, or else the oldest. If none have to leave memory, the newest. If other workers hold
    // all these nodes, it is the newest flight.
    pub(crate) fn next<J: Scan>(&self, table: &NodeTable<F, S, J>) -> usize
        requires { 0 < vec_len self.now.flights }
        ensures { result < vec_len self.now.flights }
    {
        let here = self.here;
        let (is_short, newest) = (self.is_short, self.newest);
        let flights = self.flights.as_slice();
        flights
            .iter()
            .rposition(|carried| carried.slot == here && is_free(table, here))
            .or_else(|| flights
                .iter()
                .rposition(|carried| is_short && is_near(table, carried.slot, newest)))
            .or_else(|| flights
                .iter()
                .position(|carried| is_short && is_free(table, carried.slot)))
            .or_else(|| flights
                .iter()
                .rposition(|carried| is_free(table, carried.slot)))
            .unwrap_or(flights.len() - 1)
    }

    /// Takes the reader as soon as it is free, draws a batch of at most 1,024 records, and returns the reader. The
    /// points fly to the root. The result is whether there were any.
    ///
    /// # Errors
    ///
    /// The refusal of the reader, which the seat then notes, and `Memory`.
    pub fn draw<H: Wait, J: Scan>(
        &mut self,
        rt: &H,
        alloc: Global,
        table: &NodeTable<F, S, J>,
    ) -> Result<bool, WorkError>
        requires seat { IsSeat J.told table.now (seat_of self.old) }
        requires rest { IsAtRest J.told (knows F.held S.whole self.old) }
        requires slots { slots_of table.now ≡ J.told.most + 1 }
        ensures seat { IsSeat J.told table.now (seat_of self.new) }
        ensures number { number_of self.new ≡ number_of self.old }
        ensures rest { IsAtRest J.told (knows F.held S.whole self.new) }
        ensures ok { IfOk result (DrawsBatch J.told (number_of self.old) (knows F.held S.whole self.old) (knows F.held S.whole self.new)) }
        ensures refused { IfErr result (λ e. IsReadCause (knows F.held S.whole self.new) e
            × DrawsNone J.told (number_of self.old) (knows F.held S.whole self.old) (knows F.held S.whole self.new)) }
        ensures permits { spare_of (view (seat_of self.new)) ≡ spare_of (view (seat_of self.old)) }
    {
        let batch = Vec::with_capacity(alloc, BATCH)?;
        self.flights.reserve(1)?;
        self.fresh.reserve(1)?;
        let item = table.take(rt, &mut self.seat, 0);
        let Drawn {
            reader,
            batch,
            read,
        } = read_batch::<S, J>(reader_in(item), batch);
        let is_some = !batch.is_empty();
        let fresh = mem::replace(&mut self.fresh, Vec::new(alloc));
        let fresh = launched(fresh, self.number, batch);
        let done = Done::Draw {
            fresh: List::of(fresh),
        };
        let done = table.give(&mut self.seat, 0, Item::Reader(reader), done);
        self.fresh = take_over(&mut self.flights, fresh_in(done));
        answer(read, is_some)
    }

    /// Abandons its flights, which the seat that ends its seat takes over. If a flight has no slot and contents are
    /// visible, the sampling has more nodes than there may be.
    pub fn abandon<J: Scan>(&mut self, table: &NodeTable<F, S, J>)
        requires seat { IsSeat J.told table.now (seat_of self.old) }
        requires idle { IsIdle (knows F.held S.whole self.old) }
        ensures seat { IsSeat J.told table.now (seat_of self.new) }
        ensures number { number_of self.new ≡ number_of self.old }
        ensures knows { knows F.held S.whole self.new ≡ noting (knows F.held S.whole self.old) (abandoned (knows F.held S.whole self.old).note) }
        ensures too_many { lacks_slot (knows F.held S.whole self.old).note.flights ≡ true → IsTooMany J.told }
        ensures permits { spare_of (view (seat_of self.new)) ≡ spare_of (view (seat_of self.old)) }
    {
        table.abandon(&mut self.seat);
        self.flights.clear();
    }
}

// Whether a flight with this slot need not wait for another worker. A flight without a slot waits for none.
fn is_free<F: SpillFile, S: Source, J: Scan>(table: &NodeTable<F, S, J>, slot: u32) -> bool {
    slot == 0 || !table.is_held(slot)
}

// Whether the node of this slot need not be read back. Either it is seen in memory, or it is free and no worker is known
// to have visited it: its slot is 0 or greater than `newest`.
pub(crate) fn is_near<F: SpillFile, S: Source, J: Scan>(
    table: &NodeTable<F, S, J>,
    slot: u32,
    newest: u32,
) -> bool {
    table.is_resident(slot) || (newest < slot || slot == 0) && is_free(table, slot)
}

// A reader that was read, and the result.
struct Drawn<S> {
    reader: Reader<S>,
    batch: Vec<Point>,
    read: Result<(), ReadError>,
}

// Draws a batch into an empty list.
fn read_batch<S: Source, J: Scan>(mut reader: Reader<S>, mut batch: Vec<Point>) -> Drawn<S>
    requires told { IsTold J.told }
    requires fits { FitsReader J.told (seen_reader S.whole reader) }
    requires filed { IsFiled S.whole S.left S.given S.faults J.told reader }
    requires empty { batch.items ≡ [] }
    ensures reads { HasRead J.told (seen_reader S.whole reader) (seen_reader S.whole result.reader) result.batch.items
        × IsFiled S.whole S.left S.given S.faults J.told result.reader }
    ensures sound { OnOk result.read (refusal_of result.reader ≡ None) }
    ensures batch { OnOk result.read (length result.batch.items ≡ batch_of 1024 reader) }
    ensures none { OnErr result.read (result.batch.items ≡ []) }
    ensures failed { IfErr result.read (λ e. e ≢ errors.Memory → refusal_of result.reader ≡ Some e) }
{
    let read = reader.next_batch(BATCH, &mut batch);
    Drawn {
        reader,
        batch,
        read,
    }
}

// What a draw returns.
fn answer(read: Result<(), ReadError>, is_some: bool) -> Result<bool, WorkError>
    ensures { result ≡ answer_of read is_some }
{
    read?;
    Ok(is_some)
}

// The flights, with one more to the root if there are points. There is room for it.
fn launched(mut fresh: Vec<Carried>, number: u32, batch: Vec<Point>) -> Vec<Carried>
    requires empty { fresh.items ≡ [] }
    requires room { 1 ≤ vec_capacity fresh }
    ensures { result.items ≡ carried_to number 1 root batch.items }
{
    if !batch.is_empty() {
        fresh.push_reserved(Carried {
            slot: ROOT_SLOT,
            flight: Flight {
                actor: number,
                key: Key::ROOT,
                points: List::of(batch),
            },
        });
    }
    fresh
}

// Moves flights to the end of others, which have room for them, and returns their emptied list.
pub(crate) fn take_over(flights: &mut Vec<Carried>, mut fresh: Vec<Carried>) -> Vec<Carried>
    requires { vec_len flights.old + length fresh.items ≤ vec_capacity flights.old }
    ensures flights { flights.new.items ≡ flights.old.items ++ fresh.items }
    ensures emptied { result.items ≡ [] }
{
    let _ = flights.append(&mut fresh);
    fresh
}

// The flights of what a visit did.
pub(crate) fn fresh_in(done: Done) -> Vec<Carried>
    requires { done ≡ done_of.Nothing → ⊥ }
    ensures { result.items ≡ fresh_of done }
{
    match done {
        Done::Draw { fresh } => fresh.into_vec(),
        Done::Arrive {
            number: _number,
            fresh,
        } => fresh.into_vec(),
        Done::Nothing => unreachable!(),
    }
}

// The reader of an item.
fn reader_in<F, S>(item: Item<F, S>) -> Reader<S>
    requires { (reader : reader_of.Reader S) × (item ≡ items.Reader reader) }
    ensures { item ≡ items.Reader result }
{
    let Item::Reader(reader) = item else {
        unreachable!()
    };
    reader
}
