//! The table and what it is made of.
ghost use Rattle.std.specs.Prelude.{◌≡◌, ◌+◌, ◌<◌, ◌^◌};

use crate::rule::{Locked, SlotRule};
use crate::slot::Slot;
use crate::view::View;
use atomic_table::{Seat, Table};
use std::alloc::Global;

pub(crate) const DRAWN: usize = 0;

pub(crate) const PERMITS: usize = 1;

pub(crate) const FREE: u64 = 0;

pub(crate) const HELD: u64 = 1;

// The lock of a free slot with an item that is wanted.
pub(crate) const WANTED: u64 = 2;

// The words before the locks: word 0 counts the slots that were drawn, word 1 the permits that are free.
pub(crate) const LOCKS: usize = 2;

/// A token of no bytes with which a thread steps. In a clause, its `view` is what it knows.
pub type SlotSeat<T, N, W> = Seat<Slot<T, W>, View<T, N>>;

/// Slots with items `T`, numbered from 0, each with a lock, and a counter of the slots that were drawn.
/// It is closed, never dropped.
pub struct Slots<T, N, W, K, R: SlotRule<T, N, K>> {
    pub(crate) table: Table<Slot<T, W>, View<T, N>, K, Locked<R>, Global>,
    pub(crate) last: u32,
    pub(crate) count: usize,
    ghost sized: { (table.shared.table_id.words ≡ count + 2) × (table.shared.table_id.slots ≡ count + 1) × (count < 2 ^ 60) },
}

/// Memory ran out. The items are returned.
#[derive(Drop)]
pub struct Refused<T> {
    pub items: Vec<T, Global>,
}

/// What a table held when it was closed.
#[derive(Drop)]
pub struct Ending<T> {
    /// The items in the order of their slots.
    pub items: Vec<T, Global>,
    /// How many slots were drawn or refused.
    pub drawn: u64,
    /// How many permits were free.
    pub free: u64,
}
