//! Seats are divided, and end in other seats.
ghost use Rattle.std.specs.Prelude.{◌≡◌, ℕ, ◌<◌};
ghost use Rattle.ept_slots.specs.Views.{HoldsNothing, left_of, right_of, both_of};
ghost use Rattle.ept_slots.specs.Asks.{Splits, Joins};
ghost use Rattle.ept_slots.specs.Seating.{view, key_of, IsSeatOf};

use crate::plays::{Halves, Sums};
use crate::rule::SlotRule;
use crate::slots::{SlotSeat, Slots};
use atomic_table::{Join, Split};

impl<T, N, W, K, R: SlotRule<T, N, K>> Slots<T, N, W, K, R> {
    /// A new seat, with half of the parts of this one.
    pub fn split<M: Split<N>>(&self, seat: &mut SlotSeat<T, N, W>) -> SlotSeat<T, N, W>
        requires seat { IsSeatOf R.most self.now seat.old }
        requires share { (1 < (view seat.old).parts) × ((view seat.old).refused ≡ 0) }
        requires rule { Splits (R.holds (key_of self.now)) (R.most (key_of self.now)) seat.old.id (view seat.old) (M.left (view seat.old).note) (M.right (view seat.old).note) }
        ensures seat { IsSeatOf R.most self.now seat.new × (seat.new.id ≡ seat.old.id) × IsSeatOf R.most self.now result }
        ensures left { view seat.new ≡ left_of (view seat.old) (M.left (view seat.old).note) }
        ensures right { view result ≡ right_of (view seat.old) (M.right (view seat.old).note) }
    {
        self.table.shared.split_seat::<Halves<M>>(seat)
    }

    /// Ends the other seat, and adds its parts to this one.
    pub fn join<M: Join<N>>(&self, seat: &mut SlotSeat<T, N, W>, other: SlotSeat<T, N, W>)
        requires seat { IsSeatOf R.most self.now seat.old × IsSeatOf R.most self.now other }
        requires idle { HoldsNothing (view other) }
        requires rule { Joins (R.holds (key_of self.now)) (R.most (key_of self.now)) seat.old.id (view seat.old) other.id (view other) (M.both (view seat.old).note (view other).note) M.spent }
        ensures seat { IsSeatOf R.most self.now seat.new × (seat.new.id ≡ seat.old.id) }
        ensures step { view seat.new ≡ both_of (view seat.old) (view other) (M.both (view seat.old).note (view other).note) }
    {
        self.table.shared.join_seat::<Sums<M>>(seat, other);
    }
}
