//! A table of nodes and its seats.

ghost use Rattle.std.specs.Prelude.{◌≡◌, ◌+◌, ◌-◌, ◌<◌, ◌≤◌, [], true, false, vec_capacity, IfOk, OnErr, IfSome, IsNone};
ghost use Rattle.ept_table.specs.Tells.{IsTooMany, Fits, ShowsLaw};
ghost use Rattle.ept_table.specs.declared.done.Done as done_of;
ghost use Rattle.ept_table.specs.declared.done.Said.TheVariants.{Did};
ghost use Rattle.ept_table.specs.declared.item.Item as item_of;
ghost use Rattle.ept_table.specs.Steps.{holding, given_back, noting, refused_more, wishing, drawing, abandoned, merged, beginning, together, lacks_slot, GoTogether, MayDraw, noting_broken};
ghost use Rattle.ept_table.specs.Item.{seen, broken_by, StaysBroken, Filed};
ghost use Rattle.ept_table.specs.Permits.{weight_of, spare_of};
ghost use Rattle.ept_table.specs.Standing.{known};
ghost use Rattle.ept_table.specs.Visits.{note_after, Visits};
ghost use Rattle.ept_slots.specs.Views.{Holds, HoldsNothing, with_permits, left_of, right_of, both_of};
ghost use Rattle.ept_slots.specs.Seating.{view, count_of};

use crate::done::{Done, Said};
use crate::item::Item;
use crate::note::Note;
use crate::rule::{
    Abandoning, Dividing, Drawing, Giving, Joining, Looking, Merging, Rule, Scan, Taking, Wishing,
};
use ept_base::{Source, SpillFile};
use ept_node::{Node, NodeState};
use ept_slots::{SlotSeat, Slots};
use ept_space::Rules;
use std::sync::Wait;

/// A token of no bytes, with which a worker steps on a table.
pub type Seat<F, S> = SlotSeat<Item<F, S>, Note, Said>;

/// All slots are drawn.
#[derive(Clone, Copy, Debug, PartialEq, Eq)]
pub struct Full;

/// A table of nodes that workers share. Slot 0 has the reader, slot 1 the root's node, and each further slot a node or
/// a blank one.
pub struct NodeTable<F: SpillFile, S: Source, J: Scan> {
    pub(crate) slots: Slots<Item<F, S>, Note, Said, (), Rule<F, S, J>>,
    // The list that the nodes were in, now empty.
    pub(crate) spare: Vec<Node<F>>,
    pub(crate) most: u32,
    pub(crate) cache: u32,
    pub(crate) rules: Rules,
    ghost empty: { spare.items ≡ [] },
    ghost room: { count_of slots ≤ vec_capacity spare + 1 },
    ghost limit: { count_of slots ≡ most + 1 },
}

impl<F: SpillFile, S: Source, J: Scan> NodeTable<F, S, J> {
    ghost use Rattle.ept_table.specs.Table.{slots_of, rules_of, cache_of, IsSeat};

    /// The rules of the sampling.
    pub fn rules(&self) -> &Rules
        ensures { result.now ≡ rules_of self.now }
    {
        &self.rules
    }

    /// How many slots there are for nodes: those from 1 to this number.
    pub fn most(&self) -> u32
        ensures { result + 1 ≡ slots_of self.now }
    {
        self.most
    }

    /// How many nodes may be in memory at a time.
    pub fn cache(&self) -> u32
        ensures { result ≡ cache_of self.now }
    {
        self.cache
    }

    /// Whether a slot is held at the moment of the call, for a worker that has other things to do meanwhile. It is
    /// false if there is no such slot.
    pub fn is_held(&self, slot: u32) -> bool
        ensures none { result ≡ true → slot < slots_of self.now }
    {
        (slot as usize) < self.slots.count() && self.slots.is_held(slot as usize)
    }

    /// Whether a slot is free at the moment of the call, and the node last returned to it is in memory. It is false if
    /// there is no such slot.
    pub fn is_resident(&self, slot: u32) -> bool
        ensures none { result ≡ true → slot < slots_of self.now }
    {
        (slot as usize) < self.slots.count() && self.slots.is_wanted(slot as usize)
    }

    /// Backs off after `looks` failed attempts to get a permit.
    pub fn rest_for_permit<H: Wait>(&self, rt: &H, looks: u32) {
        self.slots.rest_for_permit(rt, looks);
    }

    /// Takes what lies in a slot, as soon as the slot is free. The seat is its holder then.
    pub fn take<H: Wait>(&self, rt: &H, seat: &mut Seat<F, S>, slot: u32) -> Item<F, S>
        requires seat { IsSeat J.told self.now seat.old }
        requires idle { HoldsNothing (view seat.old) × (0 < (view seat.old).parts) }
        requires slot { slot < slots_of self.now }
        ensures seat { IsSeat J.told self.now seat.new }
        ensures holds { Holds (view seat.new) slot result }
        ensures known { known F.held S.whole (view seat.new) ≡ holding (known F.held S.whole (view seat.old)) slot (seen F.held S.whole result) }
        ensures fits { Fits J.told (known F.held S.whole (view seat.old)) slot (seen F.held S.whole result) }
        ensures filed { Filed F.held F.faults F.keeps S.whole S.left S.given S.faults J.told result }
        ensures permits { spare_of (view seat.new) ≡ spare_of (view seat.old) + weight_of result }
    {
        self.slots
            .take::<Taking<F, S, J>, H>(rt, seat, slot as usize)
    }

    /// Tries once to take what lies in a slot. `None` if the slot is held; then nothing changed.
    pub fn try_take(&self, seat: &mut Seat<F, S>, slot: u32) -> Option<Item<F, S>>
        requires seat { IsSeat J.told self.now seat.old }
        requires idle { HoldsNothing (view seat.old) × (0 < (view seat.old).parts) }
        requires slot { slot < slots_of self.now }
        ensures seat { IsSeat J.told self.now seat.new }
        ensures holds { IfSome result (λ item. Holds (view seat.new) slot item) }
        ensures known { IfSome result (λ item. known F.held S.whole (view seat.new)
            ≡ holding (known F.held S.whole (view seat.old)) slot (seen F.held S.whole item)) }
        ensures fits { IfSome result (λ item. Fits J.told (known F.held S.whole (view seat.old)) slot (seen F.held S.whole item)) }
        ensures filed { IfSome result (λ item. Filed F.held F.faults F.keeps S.whole S.left S.given S.faults J.told item) }
        ensures unchanged { IsNone result → view seat.new ≡ view seat.old }
        ensures permits { IfSome result (λ item. spare_of (view seat.new) ≡ spare_of (view seat.old) + weight_of item) }
    {
        self.slots.try_take::<Taking<F, S, J>>(seat, slot as usize)
    }

    /// Tries once to take a permit. False if none was free, or if another seat changed the number of free permits
    /// meanwhile.
    pub fn try_permit(&self, seat: &mut Seat<F, S>) -> bool
        requires seat { IsSeat J.told self.now seat.old }
        requires share { 0 < (view seat.old).parts }
        ensures seat { IsSeat J.told self.now seat.new }
        ensures granted { result ≡ true → view seat.new ≡ with_permits (view seat.old) ((view seat.old).permits + 1) }
        ensures unchanged { result ≡ false → view seat.new ≡ view seat.old }
    {
        self.slots.try_permit(seat)
    }

    /// Returns a permit, so that it is free.
    pub fn give_permit(&self, seat: &mut Seat<F, S>)
        requires seat { IsSeat J.told self.now seat.old }
        requires permit { 0 < (view seat.old).permits }
        ensures seat { IsSeat J.told self.now seat.new }
        ensures step { view seat.new ≡ with_permits (view seat.old) ((view seat.old).permits - 1) }
    {
        self.slots.give_permit(seat);
    }

    /// Returns an item to the slot that the seat holds, and frees the slot. The result is what the visit did, with the
    /// flights that leave. A node whose points are in memory takes a permit of the seat. A node taken with its points
    /// in memory brought its permit to the seat. A node that was broken when it was taken is still broken. The seat
    /// notes the refusal of a broken node.
    pub fn give(&self, seat: &mut Seat<F, S>, slot: u32, item: Item<F, S>, done: Done) -> Done
        requires seat { IsSeat J.told self.now seat.old }
        requires visit { (x : item_of.Item F S) × Holds (view seat.old) slot x
            × Visits J.told (known F.held S.whole (view seat.old)) slot (seen F.held S.whole x) (seen F.held S.whole item) done
            × StaysBroken x item }
        requires slot { slot < slots_of self.now }
        requires filed { Filed F.held F.faults F.keeps S.whole S.left S.given S.faults J.told item }
        requires permit { weight_of item ≤ spare_of (view seat.old) }
        ensures seat { IsSeat J.told self.now seat.new }
        ensures known { known F.held S.whole (view seat.new)
            ≡ given_back (known F.held S.whole (view seat.old))
            (noting_broken (broken_by item) (note_after (view seat.old).note (seen F.held S.whole item) done)) }
        ensures done { result ≡ done }
        ensures permits { spare_of (view seat.new) + weight_of item ≡ spare_of (view seat.old) }
    {
        let is_wanted = could_spill(&item);
        let said = self
            .slots
            .give::<Giving<F, S>>(seat, slot as usize, item, Said::Did(done), is_wanted);
        done_said(said)
    }

    /// Draws a slot for the child of an octant of the node that the seat holds, and returns its number.
    ///
    /// # Errors
    ///
    /// `Full` if all slots are drawn. If contents are visible, the sampling of the points up to the end of the
    /// allowance then has more nodes than there may be.
    pub fn draw_slot(&self, seat: &mut Seat<F, S>, slot: u32, octant: u8) -> Result<u32, Full>
        requires seat { IsSeat J.told self.now seat.old }
        requires may { (x : item_of.Item F S) × Holds (view seat.old) slot x
            × MayDraw J.told (known F.held S.whole (view seat.old)) slot (seen F.held S.whole x) octant }
        requires slot { slot < slots_of self.now }
        requires share { (view seat.old).refused < (view seat.old).parts }
        ensures seat { IsSeat J.told self.now seat.new }
        ensures ok { IfOk result (λ n. (0 < n) × (n ≤ J.told.most) × (known F.held S.whole (view seat.new)
            ≡ noting (known F.held S.whole (view seat.old)) (drawing (wishing (view seat.old).note octant) n))) }
        ensures full { OnErr result (known F.held S.whole (view seat.new)
            ≡ refused_more (noting (known F.held S.whole (view seat.old)) (wishing (view seat.old).note octant))) }
        ensures too_many { OnErr result (IsTooMany J.told) }
        ensures held { (view seat.new).hold ≡ (view seat.old).hold }
        ensures permits { spare_of (view seat.new) ≡ spare_of (view seat.old) }
    {
        let _said = self
            .slots
            .note::<Wishing<F, S>>(seat, slot as usize, Said::Wish(octant));
        match self.slots.draw::<Drawing<F, S, J>>(seat) {
            Some(number) => Ok(number),
            None => Err(Full),
        }
    }

    /// Reads the counter of draws, and changes nothing. If contents are visible, the table and its seats show a state
    /// that keeps the law of the machine.
    pub fn look(&self, seat: &mut Seat<F, S>)
        requires { IsSeat J.told self.now seat.old }
        ensures seat { IsSeat J.told self.now seat.new }
        ensures same { known F.held S.whole (view seat.new) ≡ known F.held S.whole (view seat.old) }
        ensures law { J.told.tells ≡ true → ShowsLaw J.told (known F.held S.whole (view seat.old)) }
        ensures permits { spare_of (view seat.new) ≡ spare_of (view seat.old) }
    {
        self.slots.look::<Looking<F, S, J>>(seat);
    }

    /// Abandons the flights of a seat, which the seat that ends it takes over. If a flight has no slot and contents are
    /// visible, the sampling has more nodes than there may be.
    pub fn abandon(&self, seat: &mut Seat<F, S>)
        requires seat { IsSeat J.told self.now seat.old }
        requires idle { HoldsNothing (view seat.old) × (0 < (view seat.old).parts) }
        ensures seat { IsSeat J.told self.now seat.new }
        ensures known { known F.held S.whole (view seat.new)
            ≡ noting (known F.held S.whole (view seat.old)) (abandoned (view seat.old).note) }
        ensures too_many { lacks_slot (view seat.old).note.flights ≡ true → IsTooMany J.told }
        ensures permits { spare_of (view seat.new) ≡ spare_of (view seat.old) }
    {
        self.slots.look::<Abandoning<F, S, J>>(seat);
    }

    /// Merges the last two flights of a seat, which go to one slot and one key. The points of the first come before
    /// those of the second, and the seat's worker has carried both.
    pub fn merge(&self, seat: &mut Seat<F, S>)
        requires seat { IsSeat J.told self.now seat.old }
        requires idle { HoldsNothing (view seat.old) × (0 < (view seat.old).parts) }
        requires together { GoTogether (view seat.old).note.flights }
        ensures seat { IsSeat J.told self.now seat.new }
        ensures known { known F.held S.whole (view seat.new)
            ≡ noting (known F.held S.whole (view seat.old)) (merged (view seat.old).note) }
        ensures permits { spare_of (view seat.new) ≡ spare_of (view seat.old) }
    {
        self.slots.look::<Merging<F, S>>(seat);
    }

    /// A new seat without flights, with half of the share of this one.
    pub fn split(&self, seat: &mut Seat<F, S>) -> Seat<F, S>
        requires seat { IsSeat J.told self.now seat.old }
        requires share { (1 < (view seat.old).parts) × ((view seat.old).refused ≡ 0) }
        ensures seat { IsSeat J.told self.now seat.new }
        ensures new_seat { IsSeat J.told self.now result }
        ensures left { view seat.new ≡ left_of (view seat.old) (view seat.old).note }
        ensures right { view result ≡ right_of (view seat.old) (beginning (view seat.old).note) }
    {
        self.slots.split::<Dividing>(seat)
    }

    /// Ends a seat that holds no slot and carries no flight. This seat gets its share, and takes over its abandoned
    /// flights and its notes of refusals.
    pub fn join(&self, seat: &mut Seat<F, S>, other: Seat<F, S>)
        requires seat { IsSeat J.told self.now seat.old }
        requires other { IsSeat J.told self.now other }
        requires share { 0 < (view seat.old).parts }
        requires idle { HoldsNothing (view other) }
        requires landed { (view other).note.flights ≡ [] }
        ensures seat { IsSeat J.told self.now seat.new }
        ensures both { view seat.new ≡ both_of (view seat.old) (view other) (together (view seat.old).note (view other).note) }
    {
        self.slots.join::<Joining<J>>(seat, other);
    }
}

// Whether it is a node that could go to its file.
fn could_spill<F, S>(item: &Item<F, S>) -> bool {
    match item {
        Item::Node(node) => node.state() == NodeState::Resident,
        Item::Reader(_) => false,
    }
}

// What a visit did, from the report of a step.
fn done_said(said: Said) -> Done
    requires { (done : done_of.Done) × (said ≡ Did done) }
    ensures { said ≡ Did result }
{
    match said {
        Said::Did(done) => done,
        Said::Wish(_) => unreachable!(),
    }
}
