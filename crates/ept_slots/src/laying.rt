//! Items are laid into slots and taken out of them again, in order.
ghost use Rattle.std.specs.Prelude.{◌≡◌, ℕ, ◌+◌, ◌<◌, ◌≤◌, ◌^◌, List, [], ◌∷◌, ◌++◌, length, vec_len, vec_capacity, IfOk, IfErr, IsTrue, true, slice_index_or};
ghost use Rattle.std.specs.Slots.{slots_items, IsFull};
ghost use Rattle.ept_slots.specs.Laid.{IsLaid};

use crate::slot::Slot;
use crate::slots::Refused;
use atomic_table::Closed;
use std::alloc::Global;

// Adds a value to a list that has room.
pub(crate) fn put<X>(list: &mut Vec<X, Global>, value: X)
    requires { vec_len list.old < vec_capacity list.old }
    ensures items { list.new.items ≡ list.old.items ++ value ∷ [] }
    ensures room { vec_capacity list.old ≤ vec_capacity list.new }
{
    let pushed = list.push(value);
    let Ok(()) = pushed else { unreachable!() };
}

// The slots of these items, and the list that they were in. Or the items, if memory runs out.
pub(crate) fn lay_out<T, W>(
    alloc: Global,
    mut items: Vec<T, Global>,
) -> Result<Vec<Slot<T, W>, Global>, Refused<T>>
    requires { length items.items < 2 ^ 60 }
    ensures laid { IfOk result (λ slots. IsLaid items.items slots.items) }
    ensures refused { IfErr result (λ r. r.items.items ≡ items.items) }
{
    let Ok(mut slots) = Vec::with_capacity(alloc, items.len() + 1) else {
        return Err(Refused { items });
    };
    items.reverse();
    while let Some(item) = items.pop() {
        put(&mut slots, Slot::Here(item));
    }
    put(&mut slots, Slot::Spare(items));
    Ok(slots)
}

// The items, in the list that they were in.
pub(crate) fn take_back<T, W>(mut slots: Vec<Slot<T, W>, Global>) -> Vec<T, Global>
    requires { (items : List T) × IsLaid items slots.items }
    ensures { IsLaid result.items slots.items }
{
    let last = slots.pop();
    let Some(spare) = last else { unreachable!() };
    let mut items = spare.into_spare();
    slots.reverse();
    while let Some(slot) = slots.pop() {
        put(&mut items, slot.into_item());
    }
    slots.destroy_empty();
    items
}

// The items of a table that is no longer shared, in the list that they were in. The table's memory is freed.
pub(crate) fn gather<T, W>(mut closed: Closed<Slot<T, W>, Global>, count: usize) -> Vec<T, Global>
    requires full { IsFull closed.slots }
    requires laid { (items : List T) × IsLaid items (slots_items closed.slots) × (length items ≡ count) }
    ensures { IsLaid result.items (slots_items closed.slots) }
{
    let mut items = closed.take(count).into_spare();
    for i in 0..count {
        put(&mut items, closed.take(i).into_item());
    }
    closed.free();
    items
}
