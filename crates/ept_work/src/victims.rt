//! Which node is evicted next.

ghost use Rattle.std.specs.Prelude.{◌≡◌, ◌<◌, ◌≤◌, ◌+◌, [], ℕ, IfOk, IfSome, true, length, slice_index};
ghost use Rattle.std.specs.List.Sorted.{IsNonDecreasing};
ghost use Rattle.ept_table.specs.Table.{slots_of};
ghost use Rattle.ept_work.specs.Evicting.{IsNodeSlot};

use ept_base::{Source, SpillFile};
use ept_clock::Clock;
use ept_table::{NodeTable, Scan};
use std::alloc::{AllocError, Global};

/// The slots of nodes that may be evicted. These are the nodes that were in memory when the slots were last checked,
/// except those whose turn has come.
#[derive(Drop)]
pub(crate) struct Victims {
    clock: Clock,
    slots: Vec<u32>,
    // The slot that was returned last when no node was seen in memory.
    last: u32,
    ghost ascend: { IsNonDecreasing slots.items },
}

impl Victims {
    /// No slots, until they are first checked. It allocates no memory.
    pub(crate) fn new(alloc: Global) -> Victims {
        Victims {
            clock: Clock::new(),
            slots: Vec::new(alloc),
            last: 0,
        }
    }

    /// The slot whose turn it is. The hand of a clock chooses it from the nodes that are seen in memory, free to be
    /// taken. If there are none, the slots are returned one after another. Other nodes may have permits: nodes that no
    /// worker has visited yet, and broken ones.
    pub(crate) fn next<F: SpillFile, S: Source, J: Scan>(
        &mut self,
        table: &NodeTable<F, S, J>,
    ) -> Result<u32, AllocError>
        requires { 1 < slots_of table.now }
        ensures { IfOk result (λ slot. IsNodeSlot table.now slot) }
    {
        if self.slots.is_empty() {
            look_through(table, &mut self.slots)?;
        }
        match self.next_seen(table) {
            Some(slot) => Ok(slot),
            None => Ok(self.next_of_all(table)),
        }
    }

    // The slot of the clock's turn; slots whose nodes are no longer seen in memory are skipped.
    fn next_seen<F: SpillFile, S: Source, J: Scan>(
        &mut self,
        table: &NodeTable<F, S, J>,
    ) -> Option<u32>
        ensures { IfSome result (λ slot. IsNodeSlot table.now slot) }
    {
        while let Some(at) = self.clock.next(&self.slots) {
            let slot = self.slots.remove(at);
            if is_seen(table, slot) {
                return Some(slot);
            }
        }
        None
    }

    // The slot after the one that was returned last, and slot 1 after the last slot.
    fn next_of_all<F: SpillFile, S: Source, J: Scan>(&mut self, table: &NodeTable<F, S, J>) -> u32
        requires { 1 < slots_of table.now }
        ensures { IsNodeSlot table.now result }
    {
        self.last = if self.last < table.most() {
            self.last + 1
        } else {
            1
        };
        self.last
    }
}

// Adds the slots of the nodes that are seen in memory to an empty list, in ascending order.
fn look_through<F: SpillFile, S: Source, J: Scan>(
    table: &NodeTable<F, S, J>,
    slots: &mut Vec<u32>,
) -> Result<(), AllocError>
    requires { slots.old.items ≡ [] }
    ensures { IsNonDecreasing slots.new.items }
{
    for before in 0..table.most() {
        let slot = before + 1;
        if is_seen(table, slot) {
            slots.push(slot)?;
        }
    }
    Ok(())
}

// Whether the slot has a node that is seen in memory, free to be taken.
fn is_seen<F: SpillFile, S: Source, J: Scan>(table: &NodeTable<F, S, J>, slot: u32) -> bool
    ensures { result ≡ true → IsNodeSlot table.now slot }
{
    0 < slot && table.is_resident(slot)
}
