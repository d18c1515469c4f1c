//! One worker, from the first batch to the last.

ghost use Rattle.std.specs.Prelude.{◌≡◌, ◌+◌, ℕ, [], IfOk, IfErr, OnOk, OnErr, true, false};
ghost use Rattle.ept_slots.specs.Seating.{view};
ghost use Rattle.ept_table.specs.Permits.{spare_of};
ghost use Rattle.ept_work.specs.Rest.{IsIdle, IsAtRest};
ghost use Rattle.ept_work.specs.Drawing.{HasDrawnAll};
ghost use Rattle.ept_work.specs.Working.{Keeps, HasWorked, HasEnded, IsStopped, IsCause};

use crate::error::WorkError;
use crate::worker::{ROOT_SLOT, Worker};
use ept_base::{Gate, Source, SpillFile};
use ept_table::{NodeTable, Scan};
use std::alloc::Global;
use std::sync::Wait;

// Backlog limit: a worker whose next node is held draws another batch instead of waiting, while it carries fewer
// flights than this. The limit for the root is lower, to leave room for batches drawn later at another held node.
const CARRIED: usize = 32;

const CARRIED_TO_ROOT: usize = 4;

impl<F: SpillFile, S: Source> Worker<F, S> {
    ghost use Rattle.ept_table.specs.Table.{slots_of, rules_of, IsSeat};
    ghost use Rattle.ept_work.specs.Worker.{seat_of, number_of, knows};

    /// Works from the first batch to the last, one visit at a time. The next visit is for the newest flight to a node
    /// that no other worker is seen to hold. Flights to the node of the visit before come first. If other workers hold
    /// the nodes of all its flights, it draws a further batch meanwhile. A worker that is refused abandons its flights.
    /// At the end it carries no flight and holds no slot, whatever the result.
    ///
    /// # Errors
    ///
    /// The refusal of the reader, `TooManyNodes`, the refusals of a spill file, `SpillFault` and `SpillDamaged`, and
    /// `Memory`.
    pub fn work<H: Wait, G: Gate, J: Scan>(
        &mut self,
        rt: &H,
        alloc: Global,
        table: &NodeTable<F, S, J>,
        gate: &G,
    ) -> Result<(), WorkError>
        requires seat { IsSeat J.told table.now (seat_of self.old) }
        requires rest { IsAtRest J.told (knows F.held S.whole self.old) }
        requires slots { slots_of table.now ≡ J.told.most + 1 }
        requires rules { rules_of table.now ≡ J.told.rules }
        ensures seat { IsSeat J.told table.now (seat_of self.new) }
        ensures number { number_of self.new ≡ number_of self.old }
        ensures ended { HasEnded (knows F.held S.whole self.old) (knows F.held S.whole self.new) }
        ensures ok { OnOk result (HasWorked J.told (knows F.held S.whole self.old) (knows F.held S.whole self.new)) }
        ensures refused { IfErr result (IsCause J.told (knows F.held S.whole self.new)) }
        ensures permits { spare_of (view (seat_of self.new)) ≡ spare_of (view (seat_of self.old)) }
    {
        match self.go_on(rt, alloc, table, gate) {
            Ok(()) => Ok(()),
            Err(refused) => {
                self.abandon(table);
                Err(refused)
            }
        }
    }

    // Works as long as there are points and nothing is refused.
    fn go_on<H: Wait, G: Gate, J: Scan>(
        &mut self,
        rt: &H,
        alloc: Global,
        table: &NodeTable<F, S, J>,
        gate: &G,
    ) -> Result<(), WorkError>
        requires seat { IsSeat J.told table.now (seat_of self.old) }
        requires rest { IsAtRest J.told (knows F.held S.whole self.old) }
        requires slots { slots_of table.now ≡ J.told.most + 1 }
        requires rules { rules_of table.now ≡ J.told.rules }
        ensures seat { IsSeat J.told table.now (seat_of self.new) }
        ensures number { number_of self.new ≡ number_of self.old }
        ensures idle { IsIdle (knows F.held S.whole self.new) }
        ensures parts { (knows F.held S.whole self.new).parts ≡ (knows F.held S.whole self.old).parts }
        ensures ok { OnOk result (HasWorked J.told (knows F.held S.whole self.old) (knows F.held S.whole self.new)) }
        ensures landed { OnOk result ((knows F.held S.whole self.new).note.flights ≡ []) }
        ensures refused { IfErr result (IsStopped J.told (knows F.held S.whole self.new)) }
        ensures permits { spare_of (view (seat_of self.new)) ≡ spare_of (view (seat_of self.old)) }
    {
        for _ in rt.forever() {
            if !self.step(rt, alloc, table, gate)? {
                return Ok(());
            }
        }
        unreachable!()
    }

    // Visits the node of the next flight. It draws a batch instead if it has no flight or if more points are to be
    // carried down together. It also does so if other workers hold the nodes of all flights. Returns whether there is
    // more to do.
    fn step<H: Wait, G: Gate, J: Scan>(
        &mut self,
        rt: &H,
        alloc: Global,
        table: &NodeTable<F, S, J>,
        gate: &G,
    ) -> Result<bool, WorkError>
        requires seat { IsSeat J.told table.now (seat_of self.old) }
        requires rest { IsAtRest J.told (knows F.held S.whole self.old) }
        requires slots { slots_of table.now ≡ J.told.most + 1 }
        requires rules { rules_of table.now ≡ J.told.rules }
        ensures seat { IsSeat J.told table.now (seat_of self.new) }
        ensures number { number_of self.new ≡ number_of self.old }
        ensures rest { OnOk result (IsAtRest J.told (knows F.held S.whole self.new)) }
        ensures idle { IsIdle (knows F.held S.whole self.new) }
        ensures parts { (knows F.held S.whole self.new).parts ≡ (knows F.held S.whole self.old).parts }
        ensures keeps { OnOk result (Keeps (knows F.held S.whole self.old) (knows F.held S.whole self.new)) }
        ensures landed { IfOk result (λ more. more ≡ false → (knows F.held S.whole self.new).note.flights ≡ []) }
        ensures all { IfOk result (λ more. more ≡ false → HasDrawnAll J.told (knows F.held S.whole self.new)) }
        ensures refused { IfErr result (IsStopped J.told (knows F.held S.whole self.new)) }
        ensures permits { spare_of (view (seat_of self.new)) ≡ spare_of (view (seat_of self.old)) }
    {
        if self.is_empty() {
            return self.draw(rt, alloc, table);
        }
        if self.draws_ahead(table) || self.would_wait(table) {
            return self.draw_meanwhile(rt, alloc, table, gate);
        }
        self.visit(rt, alloc, table, gate)?;
        Ok(true)
    }

    // Draws a batch although flights are carried. If no points are left, it visits the node of the next flight.
    fn draw_meanwhile<H: Wait, G: Gate, J: Scan>(
        &mut self,
        rt: &H,
        alloc: Global,
        table: &NodeTable<F, S, J>,
        gate: &G,
    ) -> Result<bool, WorkError>
        requires seat { IsSeat J.told table.now (seat_of self.old) }
        requires rest { IsAtRest J.told (knows F.held S.whole self.old) }
        requires slots { slots_of table.now ≡ J.told.most + 1 }
        requires rules { rules_of table.now ≡ J.told.rules }
        ensures seat { IsSeat J.told table.now (seat_of self.new) }
        ensures number { number_of self.new ≡ number_of self.old }
        ensures rest { OnOk result (IsAtRest J.told (knows F.held S.whole self.new)) }
        ensures idle { IsIdle (knows F.held S.whole self.new) }
        ensures parts { (knows F.held S.whole self.new).parts ≡ (knows F.held S.whole self.old).parts }
        ensures keeps { OnOk result (Keeps (knows F.held S.whole self.old) (knows F.held S.whole self.new)) }
        ensures more { IfOk result (λ more. more ≡ true) }
        ensures refused { IfErr result (IsStopped J.told (knows F.held S.whole self.new)) }
        ensures permits { spare_of (view (seat_of self.new)) ≡ spare_of (view (seat_of self.old)) }
    {
        let is_some = self.draw(rt, alloc, table)?;
        self.is_drained = !is_some;
        self.merge_last(table);
        if is_some || self.is_empty() {
            return Ok(true);
        }
        self.visit(rt, alloc, table, gate)?;
        Ok(true)
    }

    // Whether other workers hold the nodes of all flights, and few are carried.
    fn would_wait<J: Scan>(&self, table: &NodeTable<F, S, J>) -> bool {
        let Some(slot) = self.next_slot(table) else {
            return false;
        };
        let most = if slot == ROOT_SLOT {
            CARRIED_TO_ROOT
        } else {
            CARRIED
        };
        self.flights.len() < most && table.is_held(slot)
    }
}
