//! How a worker takes up the node of its next flight, wherever the node's points are.

ghost use Rattle.std.specs.Prelude.{◌≡◌, ◌≢◌, ◌+◌, ◌<◌, ◌≤◌, None, Some, IfOk, IfErr, OnOk, OnErr, IfSome, IsSome, IsNone, true, false, if◌then◌else◌, length};
ghost use Rattle.ept_sample.specs.Ids.{HasDistinctIds};
ghost use Rattle.ept_node.specs.declared.error.NodeError.{NodeError};
ghost use Rattle.ept_node.specs.declared.state.NodeState.TheVariants.{Blank, Resident, Spilled};
ghost use Rattle.ept_node.specs.Shown.{file_of, state_of, node_of, is_here, fault_of, DoesTell};
ghost use Rattle.ept_slots.specs.Seating.{view};
ghost use Rattle.ept_table.specs.Item.{cell_of, seen_node, IsFiledNode};
ghost use Rattle.ept_table.specs.Permits.{spare_of};
ghost use Rattle.ept_table.specs.Steps.{IsAlikeCell, StaysAlike};
ghost use Rattle.ept_table.specs.Taken.{points_of};
ghost use Rattle.ept_work.specs.Errors.{answer_staying};
ghost use Rattle.ept_work.specs.Rest.{IsIdle, IsAtRest};
ghost use Rattle.ept_work.specs.Visiting.{IsBegun, TakesUp, IsVisitCause, HoldsWhole, breaking, refused_by};

use crate::error::WorkError;
use crate::visit::{Visit, node_in, permit_back};
use crate::worker::Worker;
use ept_base::{Source, SpillFile};
use ept_node::{Node, NodeError, NodeState};
use ept_space::{Key, Rules};
use ept_table::{Done, Item, NodeTable, Scan};
use std::alloc::Global;
use std::sync::Wait;

// A node in memory, whether it was blank, and whether it takes a permit that it did not have.
struct Ready<F> {
    node: Node<F>,
    was_blank: bool,
    spends: bool,
}

// A node that stays where it is, and why. `None` means that a permit is missing.
struct Stays<F> {
    node: Node<F>,
    why: Option<NodeError>,
}

impl<F: SpillFile, S: Source> Worker<F, S> {
    ghost use Rattle.ept_table.specs.Table.{slots_of, rules_of, IsSeat};
    ghost use Rattle.ept_work.specs.Worker.{seat_of, number_of, knows};

    /// Takes the node to which the next flight goes, as soon as the node is free. A blank node begins with the key of
    /// the flight, and a node whose points are in its file is read back. A permit for it is taken before, while no node
    /// is held.
    ///
    /// # Errors
    ///
    /// `TooManyNodes` if the flight has no slot. `SpillFault` and `SpillDamaged` if a spill file fails or is damaged,
    /// either of the node or of a node to be evicted. The same if one of these nodes is broken already. `Memory`.
    pub fn take_up<H: Wait, J: Scan>(
        &mut self,
        rt: &H,
        alloc: Global,
        table: &NodeTable<F, S, J>,
    ) -> Result<Visit<F>, WorkError>
        requires seat { IsSeat J.told table.now (seat_of self.old) }
        requires rest { IsAtRest J.told (knows F.held S.whole self.old) }
        requires slots { slots_of table.now ≡ J.told.most + 1 }
        requires rules { rules_of table.now ≡ J.told.rules }
        requires some { 0 < length (knows F.held S.whole self.old).note.flights }
        ensures seat { IsSeat J.told table.now (seat_of self.new) }
        ensures number { number_of self.new ≡ number_of self.old }
        ensures ok { IfOk result (TakesUp F.held J.told (knows F.held S.whole self.old) (knows F.held S.whole self.new)) }
        ensures whole { OnOk result (HoldsWhole (view (seat_of self.new))) }
        ensures noted { IfErr result (λ e. knows F.held S.whole self.new ≡ refused_by e (knows F.held S.whole self.old)) }
        ensures refused { IfErr result (IsVisitCause J.told (knows F.held S.whole self.new)) }
        ensures permit { OnOk result (spare_of (view (seat_of self.new)) ≡ spare_of (view (seat_of self.old)) + 1) }
        ensures no_permit { OnErr result (spare_of (view (seat_of self.new)) ≡ spare_of (view (seat_of self.old))) }
    {
        for _ in rt.forever() {
            match self.try_up(rt, alloc, table)? {
                Some(visit) => return Ok(visit),
                None => {}
            }
        }
        unreachable!()
    }

    // Takes the node as soon as it is free. `None`, and nothing changed, if it was seen in memory and is no longer
    // there.
    fn try_up<H: Wait, J: Scan>(
        &mut self,
        rt: &H,
        alloc: Global,
        table: &NodeTable<F, S, J>,
    ) -> Result<Option<Visit<F>>, WorkError>
        requires seat { IsSeat J.told table.now (seat_of self.old) }
        requires rest { IsAtRest J.told (knows F.held S.whole self.old) }
        requires slots { slots_of table.now ≡ J.told.most + 1 }
        requires rules { rules_of table.now ≡ J.told.rules }
        requires some { 0 < length (knows F.held S.whole self.old).note.flights }
        ensures seat { IsSeat J.told table.now (seat_of self.new) }
        ensures number { number_of self.new ≡ number_of self.old }
        ensures up { IfOk result (λ found. IfSome found (TakesUp F.held J.told (knows F.held S.whole self.old) (knows F.held S.whole self.new))) }
        ensures again { IfOk result (λ found. IsNone found → knows F.held S.whole self.new ≡ knows F.held S.whole self.old) }
        ensures whole { IfOk result (λ found. IsSome found → HoldsWhole (view (seat_of self.new))) }
        ensures noted { IfErr result (λ e. knows F.held S.whole self.new ≡ refused_by e (knows F.held S.whole self.old)) }
        ensures refused { IfErr result (IsVisitCause J.told (knows F.held S.whole self.new)) }
        ensures permit { IfOk result (λ found. IsSome found → spare_of (view (seat_of self.new)) ≡ spare_of (view (seat_of self.old)) + 1) }
        ensures again_permit { IfOk result (λ found. IsNone found → spare_of (view (seat_of self.new)) ≡ spare_of (view (seat_of self.old))) }
        ensures no_permit { OnErr result (spare_of (view (seat_of self.new)) ≡ spare_of (view (seat_of self.old))) }
    {
        let Ok(number) = u32::try_from(self.next(table)) else {
            return Err(WorkError::Memory);
        };
        let carried = &self.flights[number as usize];
        let slot = carried.slot;
        let key = carried.flight.key;
        if slot == 0 {
            return Err(WorkError::TooManyNodes);
        }
        let has_permit = self.permit_for(rt, alloc, table, slot)?;
        let node = node_in(table.take(rt, &mut self.seat, slot));
        match readied::<F, J>(alloc, node, key, table.rules(), has_permit) {
            Ok(ready) => {
                let Ready {
                    node,
                    was_blank,
                    spends,
                } = ready;
                permit_back(table, &mut self.seat, has_permit && !spends);
                Ok(Some(Visit {
                    node,
                    slot,
                    number,
                    was_blank,
                }))
            }
            Err(stays) => {
                let Stays { node, why } = stays;
                let _done = table.give(&mut self.seat, slot, Item::Node(node), Done::Nothing);
                permit_back(table, &mut self.seat, has_permit);
                given_up(why)
            }
        }
    }

    // Takes a permit for the node of a slot, and returns whether it did. It takes none if the node is seen in memory,
    // or with another worker, who has a permit for it.
    fn permit_for<H: Wait, J: Scan>(
        &mut self,
        rt: &H,
        alloc: Global,
        table: &NodeTable<F, S, J>,
        slot: u32,
    ) -> Result<bool, WorkError>
        requires seat { IsSeat J.told table.now (seat_of self.old) }
        requires idle { IsIdle (knows F.held S.whole self.old) }
        requires some { 1 < slots_of table.now }
        ensures seat { IsSeat J.told table.now (seat_of self.new) }
        ensures number { number_of self.new ≡ number_of self.old }
        ensures same { OnOk result (knows F.held S.whole self.new ≡ knows F.held S.whole self.old) }
        ensures noted { IfErr result (λ e. knows F.held S.whole self.new ≡ refused_by e (knows F.held S.whole self.old)) }
        ensures permit { IfOk result (λ has. spare_of (view (seat_of self.new)) ≡ spare_of (view (seat_of self.old)) + (if has then 1 else 0)) }
        ensures no_permit { OnErr result (spare_of (view (seat_of self.new)) ≡ spare_of (view (seat_of self.old))) }
        ensures refused { IfErr result (IsVisitCause J.told (knows F.held S.whole self.new)) }
    {
        if table.is_resident(slot) || table.is_held(slot) {
            return Ok(false);
        }
        self.take_permit(rt, alloc, table)?;
        Ok(true)
    }
}

// The node of a key in memory. It is there, or begins in place of a blank one, or is read back from its file. The
// latter two need a permit. Or the node stays where it is.
fn readied<F: SpillFile, J: Scan>(
    alloc: Global,
    mut node: Node<F>,
    key: Key,
    rules: &Rules,
    has_permit: bool,
) -> Result<Ready<F>, Stays<F>>
    requires filed { IsFiledNode F.held F.faults F.keeps J.told node }
    requires rules { rules.now ≡ J.told.rules }
    requires low { key.depth ≤ rules.now.cube.depth }
    requires standing { state_of node ≢ Blank → ((node_of F.held node).key ≡ key) × ((node_of F.held node).rules ≡ rules.now) }
    requires different { J.told.tells ≡ true → HasDistinctIds (points_of (seen_node F.held node)) }
    ensures ready { IfOk result (λ ready. IsBegun F.held J.told (seen_node F.held node) key ready.node ready.was_blank) }
    ensures telling { IfOk result (λ ready. J.told.tells ≡ true → DoesTell F.held (file_of ready.node)) }
    ensures spends { IfOk result (λ ready. (if is_here node then 1 else 0) + (if ready.spends then 1 else 0) ≡ 1) }
    ensures granted { IfOk result (λ ready. ready.spends ≡ true → has_permit ≡ true) }
    ensures stays { IfErr result (λ it. StaysAlike J.told (seen_node F.held node) (seen_node F.held it.node)) }
    ensures filed { IfErr result (λ it. IsFiledNode F.held F.faults F.keeps J.told it.node) }
    ensures here { IfErr result (λ it. is_here it.node ≡ is_here node) }
    ensures lacks { IfErr result (λ it. it.why ≡ None → has_permit ≡ false) }
    ensures away { OnErr result (state_of node ≢ Resident) }
    ensures fault { IfSome (fault_of node) (λ why. IfErr result (λ it. it.why ≡ Some why)) }
    ensures sound { OnOk result (fault_of node ≡ None) }
    ensures broken { IfErr result (λ it. (why : NodeError) → fault_of node ≡ Some why → fault_of it.node ≡ Some why) }
    ensures reason { IfErr result (λ it. fault_of it.node ≡ breaking it.why) }
{
    match node.state() {
        NodeState::Resident => {
            node.known();
            Ok(Ready {
                node,
                was_blank: false,
                spends: false,
            })
        }
        NodeState::Broken => {
            let why = node.fault();
            Err(Stays { node, why })
        }
        _ if !has_permit => Err(Stays { node, why: None }),
        NodeState::Blank => {
            node.begin(key, rules);
            Ok(Ready {
                node,
                was_blank: true,
                spends: true,
            })
        }
        NodeState::Spilled => Ok(Ready {
            node: reloaded::<F, J>(alloc, node)?,
            was_blank: false,
            spends: true,
        }),
    }
}

// A node with its points read back from its file. Or it stays there.
fn reloaded<F: SpillFile, J: Scan>(alloc: Global, mut node: Node<F>) -> Result<Node<F>, Stays<F>>
    requires spilled { state_of node ≡ Spilled }
    requires filed { IsFiledNode F.held F.faults F.keeps J.told node }
    requires different { J.told.tells ≡ true → HasDistinctIds (node_of F.held node).points }
    ensures resident { IfOk result (λ new. state_of new ≡ Resident) }
    ensures alike { IfOk result (λ new. IsAlikeCell J.told (cell_of F.held node) (cell_of F.held new)) }
    ensures telling { IfOk result (λ new. J.told.tells ≡ true → DoesTell F.held (file_of new)) }
    ensures stays { IfErr result (λ it. seen_node F.held it.node ≡ seen_node F.held node) }
    ensures filed { IfErr result (λ it. IsFiledNode F.held F.faults F.keeps J.told it.node) }
    ensures here { IfErr result (λ it. is_here it.node ≡ false) }
    ensures why { IfErr result (λ it. it.why ≢ None) }
    ensures reason { IfErr result (λ it. fault_of it.node ≡ breaking it.why) }
{
    match node.reload(alloc) {
        Ok(()) => {
            node.known();
            Ok(node)
        }
        Err(why) => Err(Stays {
            node,
            why: Some(why),
        }),
    }
}

// What is returned for a node that stays where it is.
fn given_up<F>(why: Option<NodeError>) -> Result<Option<Visit<F>>, WorkError>
    ensures { result ≡ answer_staying why }
{
    match why {
        Some(why) => Err(why.into()),
        None => Ok(None),
    }
}
