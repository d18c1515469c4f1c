//! The caller's rule, and the rule of the underlying table.
ghost use Rattle.std.specs.Prelude.{ℕ, List};
ghost use Rattle.ept_slots.specs.declared.view.View.{View};
ghost use Rattle.ept_slots.specs.Views.{first_view};
ghost use Rattle.ept_slots.specs.Locks.{Lies};

use crate::slot::Slot;
use crate::view::View;
use atomic_table::TableRule;
use std::marker::PhantomData;

/// The caller's rule of a table of slots with items `T`, whose seats note `N`. It may read a key `K`,
/// which is fixed when the table is made.
pub trait SlotRule<T, N, K> {
    /// What holds of the number of slots drawn, of what lies in each slot, and of what each seat knows. For a held slot
    /// it is what lay there when it was taken.
    ghost holds: { K → ℕ → List T → List (View T N) → Type 0 };

    /// Up to which number slots are drawn.
    ghost most: { K → ℕ };

    /// How many permits there are.
    ghost permits: { K → ℕ };

    /// How many permits an item takes as it lies in its slot.
    ghost weight: { T → ℕ };

    /// The note of the first seat.
    ghost first: { K → N };
}

/// The rule of the underlying table: the locks, the shares, the counter, the permits, and the caller's rule.
pub struct Locked<R> {
    rule: PhantomData<R>,
}

impl<T, N, W, K, R: SlotRule<T, N, K>> TableRule<Slot<T, W>, View<T, N>, K> for Locked<R> {
    ghost holds = { λ about. Lies R.weight (R.permits about) (R.most about) (R.holds about) };

    ghost first = { λ about. first_view (R.most about) (R.first about) };
}
