//! A visit of a node, in its three parts.

ghost use Rattle.std.specs.Prelude.{◌≡◌, ◌+◌, ◌<◌, ◌≤◌, ◌⊎◌, ◌++◌, ℕ, [], Ok, Err, IfOk, IfErr, OnOk, OnErr, true, false, if◌then◌else◌, length, vec_len, vec_capacity};
ghost use Rattle.ept_node.specs.declared.node.Node as node_of_type;
ghost use Rattle.ept_node.specs.Shown.{file_of, state_of, node_of, children_of, no_children};
ghost use Rattle.ept_grid.specs.Outgoing.{points_at};
ghost use Rattle.ept_sample.specs.Place.{AllInBox};
ghost use Rattle.ept_node.specs.declared.state.NodeState.TheVariants.{Blank, Resident};
ghost use Rattle.ept_slots.specs.Views.{Holds};
ghost use Rattle.ept_slots.specs.Seating.{view};
ghost use Rattle.ept_table.specs.declared.item.Item.TheVariants as items;
ghost use Rattle.ept_table.specs.declared.taken.Taken as taken_of;
ghost use Rattle.ept_table.specs.Item.{seen_node};
ghost use Rattle.ept_table.specs.Permits.{spare_of};
ghost use Rattle.ept_table.specs.Standing.{known};
ghost use Rattle.ept_table.specs.Steps.{given_back};
ghost use Rattle.ept_table.specs.Table.{IsSeat};
ghost use Rattle.ept_work.specs.Rest.{IsIdle, IsAtRest};
ghost use Rattle.ept_work.specs.Visiting.{IsBegun, IsVisit, TakesUp, IsLanding, HasRoom, IsVisitCause, IsOpening, HoldsWhole, leaving, Visits};
ghost use Rattle.ept_work.specs.Meeting.{Meets};

use crate::error::WorkError;
use crate::opening::{Opening, open_children};
use crate::sending::send_on;
use crate::worker::{Worker, fresh_in, take_over};
use ept_base::{Gate, Source, SpillFile};
use ept_grid::Outgoing;
use ept_node::{Node, NodeState};
use ept_point::{List, Memory, Point};
use ept_space::{Key, Rules};
use ept_table::{Carried, Done, Item, NodeTable, Scan, Seat};
use std::alloc::Global;
use std::mem;
use std::sync::Wait;

/// A node that a worker holds, at which its flight has not arrived yet.
pub struct Visit<F> {
    pub(crate) node: Node<F>,
    pub(crate) slot: u32,
    pub(crate) number: u32,
    pub(crate) was_blank: bool,
}

/// A node that a worker holds, at which its flight has arrived, with the flights that leave it.
pub struct Landing<F> {
    pub(crate) node: Node<F>,
    pub(crate) slot: u32,
    pub(crate) number: u32,
    pub(crate) fresh: Vec<Carried>,
    pub(crate) is_full: bool,
}

impl<F: SpillFile, S: Source> Worker<F, S> {
    ghost use Rattle.ept_table.specs.Table.{slots_of, rules_of};
    ghost use Rattle.ept_work.specs.Worker.{seat_of, number_of, knows};

    /// Adds the points of the flight to the node. Draws slots for the children of the octants that it opens, until a
    /// slot is refused, and makes the flights that leave. All memory is reserved first, so that nothing is refused once
    /// the points have arrived.
    ///
    /// # Errors
    ///
    /// If memory runs out, the visit is returned as it was.
    pub fn land<J: Scan>(
        &mut self,
        alloc: Global,
        table: &NodeTable<F, S, J>,
        visit: Visit<F>,
    ) -> Result<Landing<F>, Visit<F>>
        requires seat { IsSeat J.told table.now (seat_of self.old) }
        requires visit { IsVisit F.held J.told (knows F.held S.whole self.old) visit }
        requires slots { slots_of table.now ≡ J.told.most + 1 }
        requires rules { rules_of table.now ≡ J.told.rules }
        requires whole { HoldsWhole (view (seat_of self.old)) }
        ensures seat { IsSeat J.told table.now (seat_of self.new) }
        ensures number { number_of self.new ≡ number_of self.old }
        ensures whole { HoldsWhole (view (seat_of self.new)) }
        ensures opens { IsOpening (knows F.held S.whole self.old) (knows F.held S.whole self.new) }
        ensures ok { IfOk result (λ landing. IsLanding F.held J.told (knows F.held S.whole self.new) landing × HasRoom self.new landing) }
        ensures unchanged { OnErr result (knows F.held S.whole self.new ≡ knows F.held S.whole self.old) }
        ensures refused { IfErr result (IsVisit F.held J.told (knows F.held S.whole self.new)) }
        ensures permits { spare_of (view (seat_of self.new)) ≡ spare_of (view (seat_of self.old)) }
    {
        if self.reserve().is_err() {
            return Err(visit);
        }
        let Visit {
            node,
            slot,
            number,
            was_blank,
        } = visit;
        table.rules().cube.known();
        node.known();
        let before = node.open_mask();
        let flight = &self.flights[number as usize].flight;
        let actor = flight.actor;
        self.out.clear();
        let node = match arrived(alloc, node, flight.points.as_slice(), &mut self.out) {
            Ok(node) => node,
            Err(node) => {
                return Err(Visit {
                    node,
                    slot,
                    number,
                    was_blank,
                });
            }
        };
        let Opening { node, is_full } = open_children(table, &mut self.seat, node, slot, before);
        node.known();
        self.out.known();
        let fresh = mem::replace(&mut self.fresh, Vec::new(alloc));
        let fresh = send_on(alloc, &node, actor, &mut self.out, fresh);
        Ok(Landing {
            node,
            slot,
            number,
            fresh,
            is_full,
        })
    }

    /// Returns the node at which the flight has arrived. The flights that leave it are carried in place of that flight.
    ///
    /// # Errors
    ///
    /// `TooManyNodes` if a slot was refused.
    pub fn leave<J: Scan>(
        &mut self,
        table: &NodeTable<F, S, J>,
        landing: Landing<F>,
    ) -> Result<(), WorkError>
        requires seat { IsSeat J.told table.now (seat_of self.old) }
        requires landing { IsLanding F.held J.told (knows F.held S.whole self.old) landing }
        requires room { HasRoom self.old landing }
        requires permit { 1 ≤ spare_of (view (seat_of self.old)) }
        requires slots { slots_of table.now ≡ J.told.most + 1 }
        requires whole { HoldsWhole (view (seat_of self.old)) }
        ensures seat { IsSeat J.told table.now (seat_of self.new) }
        ensures number { number_of self.new ≡ number_of self.old }
        ensures knows { knows F.held S.whole self.new ≡ leaving (knows F.held S.whole self.old) landing.number landing.fresh.items }
        ensures idle { IsIdle (knows F.held S.whole self.new) }
        ensures rest { OnOk result (IsAtRest J.told (knows F.held S.whole self.new)) }
        ensures refused { IfErr result (IsVisitCause J.told (knows F.held S.whole self.new)) }
        ensures permits { spare_of (view (seat_of self.new)) + 1 ≡ spare_of (view (seat_of self.old)) }
    {
        let Landing {
            node,
            slot,
            number,
            fresh,
            is_full,
        } = landing;
        let done = Done::Arrive {
            number,
            fresh: List::of(fresh),
        };
        let done = table.give(&mut self.seat, slot, Item::Node(node), done);
        let _landed = self.flights.remove(number as usize);
        self.here = slot;
        self.newest = self.newest.max(slot);
        self.fresh = take_over(&mut self.flights, fresh_in(done));
        if is_full {
            return Err(WorkError::TooManyNodes);
        }
        Ok(())
    }

    /// Returns the node, and a node that was blank as a blank one. The flight is still carried.
    pub fn put_back<J: Scan>(&mut self, table: &NodeTable<F, S, J>, visit: Visit<F>)
        requires seat { IsSeat J.told table.now (seat_of self.old) }
        requires visit { IsVisit F.held J.told (knows F.held S.whole self.old) visit }
        requires slots { slots_of table.now ≡ J.told.most + 1 }
        requires permit { 1 ≤ spare_of (view (seat_of self.old)) }
        requires whole { HoldsWhole (view (seat_of self.old)) }
        ensures seat { IsSeat J.told table.now (seat_of self.new) }
        ensures number { number_of self.new ≡ number_of self.old }
        ensures knows { knows F.held S.whole self.new ≡ given_back (knows F.held S.whole self.old) (knows F.held S.whole self.old).note }
        ensures rest { IsAtRest J.told (knows F.held S.whole self.new) }
        ensures permits { spare_of (view (seat_of self.new)) + 1 ≡ spare_of (view (seat_of self.old)) }
    {
        let Visit {
            node,
            slot,
            number: _number,
            was_blank,
        } = visit;
        let node = as_taken(node, was_blank);
        let _done = table.give(&mut self.seat, slot, Item::Node(node), Done::Nothing);
        permit_back(table, &mut self.seat, was_blank);
    }

    /// Visits the node of the next flight. The gate is entered once, while the node is held.
    ///
    /// # Errors
    ///
    /// `TooManyNodes`, the fault of a spill file, and `Memory`. No node is held afterwards.
    pub fn visit<H: Wait, G: Gate, J: Scan>(
        &mut self,
        rt: &H,
        alloc: Global,
        table: &NodeTable<F, S, J>,
        gate: &G,
    ) -> Result<(), WorkError>
        requires seat { IsSeat J.told table.now (seat_of self.old) }
        requires rest { IsAtRest J.told (knows F.held S.whole self.old) }
        requires slots { slots_of table.now ≡ J.told.most + 1 }
        requires rules { rules_of table.now ≡ J.told.rules }
        requires some { 0 < length (knows F.held S.whole self.old).note.flights }
        ensures seat { IsSeat J.told table.now (seat_of self.new) }
        ensures number { number_of self.new ≡ number_of self.old }
        ensures visits { OnOk result (Visits J.told (knows F.held S.whole self.old) (knows F.held S.whole self.new)) }
        ensures rest { OnOk result (IsAtRest J.told (knows F.held S.whole self.new)) }
        ensures idle { IsIdle (knows F.held S.whole self.new) }
        ensures share { (knows F.held S.whole self.new).parts ≡ (knows F.held S.whole self.old).parts }
        ensures refused { IfErr result (IsVisitCause J.told (knows F.held S.whole self.new)) }
        ensures permits { spare_of (view (seat_of self.new)) ≡ spare_of (view (seat_of self.old)) }
    {
        let visit = self.take_up(rt, alloc, table)?;
        visit.enter(self.number, gate);
        match self.land(alloc, table, visit) {
            Ok(landing) => self.leave(table, landing),
            Err(visit) => {
                self.put_back(table, visit);
                Err(WorkError::Memory)
            }
        }
    }

    // Reserves the memory of a visit: a node has eight children.
    fn reserve(&mut self) -> Result<(), Memory>
        ensures seat { self.new.seat ≡ self.old.seat }
        ensures number { self.new.number ≡ self.old.number }
        ensures flights { self.new.flights.items ≡ self.old.flights.items }
        ensures room { OnOk result (vec_len self.new.flights + 8 ≤ vec_capacity self.new.flights) }
        ensures fresh { OnOk result (8 ≤ vec_capacity self.new.fresh) }
    {
        self.flights.reserve(8)?;
        self.fresh.reserve(8)?;
        Ok(())
    }
}

impl<F> Visit<F> {
    /// The slot of the node.
    pub fn slot(&self) -> u32
        ensures { result ≡ self.now.slot }
    {
        self.slot
    }
}

impl<F: SpillFile> Visit<F> {
    // Enters the gate.
    fn enter<G: Gate>(&self, worker: u32, gate: &G)
        requires { state_of self.now.node ≡ Resident }
    {
        let key = self.node.key();
        gate.entered(worker, key.depth, key.x, key.y, key.z);
    }
}

impl<F> Landing<F> {
    /// The slot of the node.
    pub fn slot(&self) -> u32
        ensures { result ≡ self.now.slot }
    {
        self.slot
    }
}

// Returns a permit that is not needed.
pub(crate) fn permit_back<F: SpillFile, S: Source, J: Scan>(
    table: &NodeTable<F, S, J>,
    seat: &mut Seat<F, S>,
    is_spare: bool,
)
    requires seat { IsSeat J.told table.now seat.old }
    requires permit { is_spare ≡ true → 0 < (view seat.old).permits }
    ensures seat { IsSeat J.told table.now seat.new }
    ensures known { known F.held S.whole (view seat.new) ≡ known F.held S.whole (view seat.old) }
    ensures held { (view seat.new).hold ≡ (view seat.old).hold }
    ensures permits { spare_of (view seat.new) + (if is_spare then 1 else 0) ≡ spare_of (view seat.old) }
{
    if !is_spare {
        return;
    }
    table.give_permit(seat);
}

// The node as it was taken.
fn as_taken<F: SpillFile>(mut node: Node<F>, was_blank: bool) -> Node<F>
    requires resident { state_of node ≡ Resident }
    requires blank { was_blank ≡ true → ((node_of F.held node).points ≡ []) × ((node_of F.held node).mask ≡ 0) × (children_of node ≡ no_children) }
    ensures blank { was_blank ≡ true → state_of result ≡ Blank }
    ensures standing { was_blank ≡ false → result ≡ node }
    ensures file { file_of result ≡ file_of node }
{
    if was_blank {
        node.unbegin();
    }
    node
}

// Adds points to a node, and the points that leave it to an empty list. If memory runs out, the node is as it was.
fn arrived<F: SpillFile>(
    alloc: Global,
    mut node: Node<F>,
    points: &[Point],
    out: &mut Outgoing,
) -> Result<Node<F>, Node<F>>
    requires resident { state_of node ≡ Resident }
    requires inside { AllInBox (node_of F.held node).rules.cube (node_of F.held node).key points.now }
    requires some { 0 < length points.now }
    requires empty { (o : ℕ) → points_at out.old o ≡ [] }
    ensures ok { IfOk result (λ new. Meets (node_of F.held node) (node_of F.held new) points.now out.new) }
    ensures state { IfOk result (λ new. (state_of new ≡ Resident) × (children_of new ≡ children_of node) × (file_of new ≡ file_of node)) }
    ensures refused { IfErr result (λ new. (state_of new ≡ Resident) × (node_of F.held new ≡ node_of F.held node) × (children_of new ≡ children_of node) × (file_of new ≡ file_of node)) }
{
    match node.arrive_batch(alloc, points, out) {
        Ok(()) => Ok(node),
        Err(_) => Err(node),
    }
}

// The node of an item.
pub(crate) fn node_in<F, S>(item: Item<F, S>) -> Node<F>
    requires { (node : node_of_type.Node F) × (item ≡ items.Node node) }
    ensures { item ≡ items.Node result }
{
    let Item::Node(node) = item else {
        unreachable!()
    };
    node
}
