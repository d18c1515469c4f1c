//! How a worker gets a permit for a node that comes into memory: a free permit, or the permit of a node that it evicts.

ghost use Rattle.std.specs.Prelude.{◌≡◌, ◌≢◌, ◌+◌, ◌<◌, Some, None, Ok, Err, IfSome, IfOk, IfErr, OnOk, OnErr, true, false, if◌then◌else◌};
ghost use Rattle.ept_node.specs.declared.error.NodeError.{NodeError};
ghost use Rattle.ept_node.specs.declared.state.NodeState.TheVariants.{Resident};
ghost use Rattle.ept_node.specs.Shown.{state_of, is_here, fault_of};
ghost use Rattle.ept_slots.specs.Seating.{view};
ghost use Rattle.ept_table.specs.Item.{seen_node, IsFiledNode};
ghost use Rattle.ept_table.specs.Permits.{spare_of};
ghost use Rattle.ept_table.specs.Steps.{StaysAlike};
ghost use Rattle.ept_work.specs.Rest.{IsIdle};
ghost use Rattle.ept_work.specs.Visiting.{IsVisitCause, breaking, refused_by};

use crate::error::WorkError;
use crate::visit::node_in;
use crate::worker::Worker;
use ept_base::{Source, SpillFile};
use ept_node::{Node, NodeError, NodeState};
use ept_table::{Done, Item, NodeTable, Scan};
use std::alloc::Global;
use std::sync::Wait;

// A node that was to be evicted, and whether it was.
struct Evicted<F> {
    node: Node<F>,
    answer: Result<bool, NodeError>,
}

impl<F: SpillFile, S: Source> Worker<F, S> {
    ghost use Rattle.ept_table.specs.Table.{slots_of, IsSeat};
    ghost use Rattle.ept_work.specs.Worker.{seat_of, number_of, knows};

    /// Takes a permit as soon as one is free, or evicts a node and takes over its permit.
    ///
    /// # Errors
    ///
    /// `SpillFault` if the file of an evicted node fails, the fault of a broken node that is met, and `Memory`.
    pub(crate) fn take_permit<H: Wait, J: Scan>(
        &mut self,
        rt: &H,
        alloc: Global,
        table: &NodeTable<F, S, J>,
    ) -> Result<(), WorkError>
        requires seat { IsSeat J.told table.now (seat_of self.old) }
        requires idle { IsIdle (knows F.held S.whole self.old) }
        requires some { 1 < slots_of table.now }
        ensures seat { IsSeat J.told table.now (seat_of self.new) }
        ensures number { number_of self.new ≡ number_of self.old }
        ensures same { OnOk result (knows F.held S.whole self.new ≡ knows F.held S.whole self.old) }
        ensures noted { IfErr result (λ e. knows F.held S.whole self.new ≡ refused_by e (knows F.held S.whole self.old)) }
        ensures permit { OnOk result (spare_of (view (seat_of self.new)) ≡ spare_of (view (seat_of self.old)) + 1) }
        ensures no_permit { OnErr result (spare_of (view (seat_of self.new)) ≡ spare_of (view (seat_of self.old))) }
        ensures refused { IfErr result (IsVisitCause J.told (knows F.held S.whole self.new)) }
    {
        let mut looks = 0;
        for _ in rt.forever() {
            if table.try_permit(&mut self.seat) {
                return Ok(());
            }
            self.is_short = true;
            if self.evict(alloc, table)? {
                return Ok(());
            }
            table.rest_for_permit(rt, looks);
            looks = looks.saturating_add(1);
        }
        unreachable!()
    }

    // Evicts the node whose turn it is, if it is free and in memory, and keeps its permit. Returns whether it was
    // evicted.
    fn evict<J: Scan>(
        &mut self,
        alloc: Global,
        table: &NodeTable<F, S, J>,
    ) -> Result<bool, WorkError>
        requires seat { IsSeat J.told table.now (seat_of self.old) }
        requires idle { IsIdle (knows F.held S.whole self.old) }
        requires some { 1 < slots_of table.now }
        ensures seat { IsSeat J.told table.now (seat_of self.new) }
        ensures number { number_of self.new ≡ number_of self.old }
        ensures same { OnOk result (knows F.held S.whole self.new ≡ knows F.held S.whole self.old) }
        ensures noted { IfErr result (λ e. knows F.held S.whole self.new ≡ refused_by e (knows F.held S.whole self.old)) }
        ensures permit { IfOk result (λ gone. spare_of (view (seat_of self.new)) ≡ spare_of (view (seat_of self.old)) + (if gone then 1 else 0)) }
        ensures no_permit { OnErr result (spare_of (view (seat_of self.new)) ≡ spare_of (view (seat_of self.old))) }
        ensures refused { IfErr result (IsVisitCause J.told (knows F.held S.whole self.new)) }
    {
        let slot = self.victims.next(table)?;
        let Some(item) = table.try_take(&mut self.seat, slot) else {
            return Ok(false);
        };
        let Evicted { node, answer } = put_in_file::<F, J>(alloc, node_in(item));
        let _done = table.give(&mut self.seat, slot, Item::Node(node), Done::Nothing);
        Ok(answer?)
    }
}

// Evicts a node that is resident. Any other node stays, and a broken one is refused with its fault.
fn put_in_file<F: SpillFile, J: Scan>(alloc: Global, mut node: Node<F>) -> Evicted<F>
    requires { IsFiledNode F.held F.faults F.keeps J.told node }
    ensures stays { StaysAlike J.told (seen_node F.held node) (seen_node F.held result.node) }
    ensures filed { IsFiledNode F.held F.faults F.keeps J.told result.node }
    ensures gone { result.answer ≡ Ok true → (is_here node ≡ true) × (is_here result.node ≡ false) }
    ensures kept { result.answer ≢ Ok true → is_here result.node ≡ is_here node }
    ensures asked { state_of node ≡ Resident → result.answer ≢ Ok false }
    ensures fault { IfSome (fault_of node) (λ why. result.answer ≡ Err why) }
    ensures broken { (why : NodeError) → fault_of node ≡ Some why → fault_of result.node ≡ Some why }
    ensures sound { OnOk result.answer (fault_of result.node ≡ None) }
    ensures reason { IfErr result.answer (λ why. fault_of result.node ≡ breaking (Some why)) }
{
    if let Some(fault) = node.fault() {
        return Evicted {
            node,
            answer: Err(fault),
        };
    }
    if node.state() != NodeState::Resident {
        return Evicted {
            node,
            answer: Ok(false),
        };
    }
    let answer = node.spill(alloc);
    node.known();
    Evicted {
        node,
        answer: answer.map(|()| true),
    }
}
