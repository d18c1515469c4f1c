//! Single steps of a seat.
ghost use Rattle.std.specs.Prelude.{◌≡◌, ◌≢◌, ℕ, true, false, ◌+◌, ◌-◌, ◌<◌, ◌≤◌, Some, None, MatchOption, IfSome};
ghost use Rattle.ept_slots.specs.Views.{Holds, HoldsNothing, held_weight, permits_after, taken, given, with_permits, noted, refused};
ghost use Rattle.ept_slots.specs.Asks.{Takes, Gives, HasPermits, Notes, Looks, Draws, IsRefused};
ghost use Rattle.ept_slots.specs.Seating.{view, count_of, key_of, IsSeatOf};

use crate::plays::{Drawing, Giving, Granting, Looking, Noting, Returning, Taking};
use crate::rule::SlotRule;
use crate::slot::Slot;
use crate::slots::{DRAWN, FREE, HELD, LOCKS, PERMITS, SlotSeat, Slots, WANTED};
use crate::tells::{Draw, Give, Look, Note, Take};
use std::hint;
use std::sync::Wait;
use std::time::Duration;

// How many attempts a waiting thread makes before it sleeps, and for how many microseconds it sleeps between further
// attempts.
const LOOKS: u32 = 1_000;

const SLEEP: u64 = 20;

impl<T, N, W, K, R: SlotRule<T, N, K>> Slots<T, N, W, K, R> {
    /// The number of slots.
    pub fn count(&self) -> usize
        ensures { result ≡ count_of self.now }
    {
        self.count
    }

    /// Whether the lock of a slot is held at the moment of the call. Another seat may return or take the slot
    /// meanwhile.
    pub fn is_held(&self, slot: usize) -> bool
        requires { slot < count_of self.now }
    {
        self.table.shared.peek(slot + LOCKS) == HELD
    }

    /// Whether a slot is free at the moment of the call, and the item last returned to it was marked as wanted. Another
    /// seat may take it meanwhile.
    pub fn is_wanted(&self, slot: usize) -> bool
        requires { slot < count_of self.now }
    {
        self.table.shared.peek(slot + LOCKS) == WANTED
    }

    /// Tries once to take what lies in a slot. `None` if its lock was held; then nothing changed.
    pub fn try_take<M: Take<T, N>>(&self, seat: &mut SlotSeat<T, N, W>, slot: usize) -> Option<T>
        requires seat { IsSeatOf R.most self.now seat.old }
        requires idle { HoldsNothing (view seat.old) × (0 < (view seat.old).parts) }
        requires slot { slot < count_of self.now }
        requires rule { Takes (R.holds (key_of self.now)) (R.most (key_of self.now)) seat.old.id (view seat.old) slot (M.tells (view seat.old) slot) }
        ensures seat { IsSeatOf R.most self.now seat.new × (seat.new.id ≡ seat.old.id) }
        ensures step { MatchOption result (view seat.new ≡ view seat.old) (λ x. (n : N) × (view seat.new ≡ taken (view seat.old) slot x n) × M.tells (view seat.old) slot x n) }
    {
        let shared = &self.table.shared;
        let seen = shared.peek(slot + LOCKS);
        if seen == HELD {
            return None;
        }
        let found = shared.compare_exchange::<Taking<M>>(seat, slot + LOCKS, seen, HELD);
        if found != seen {
            return None;
        }
        Some(shared.exchange(seat, slot, Slot::Out).into_item())
    }

    /// Takes what lies in a slot, as soon as its lock is free. The seat is the holder then.
    pub fn take<M: Take<T, N>, H: Wait>(
        &self,
        rt: &H,
        seat: &mut SlotSeat<T, N, W>,
        slot: usize,
    ) -> T
        requires seat { IsSeatOf R.most self.now seat.old }
        requires idle { HoldsNothing (view seat.old) × (0 < (view seat.old).parts) }
        requires slot { slot < count_of self.now }
        requires rule { Takes (R.holds (key_of self.now)) (R.most (key_of self.now)) seat.old.id (view seat.old) slot (M.tells (view seat.old) slot) }
        ensures seat { IsSeatOf R.most self.now seat.new × (seat.new.id ≡ seat.old.id) }
        ensures step { (n : N) × (view seat.new ≡ taken (view seat.old) slot result n) × M.tells (view seat.old) slot result n }
    {
        let mut looks = 0;
        for _ in rt.forever() {
            if let Some(item) = self.try_take::<M>(seat, slot) {
                return item;
            }
            self.rest(rt, slot + LOCKS, HELD as u32, looks);
            looks = looks.saturating_add(1);
        }
        unreachable!()
    }

    /// Backs off after `looks` failed attempts to get a permit: spins at first, then sleeps.
    pub fn rest_for_permit<H: Wait>(&self, rt: &H, looks: u32) {
        self.rest(rt, PERMITS, 0, looks);
    }

    // Backs off after `looks` failed attempts, the last of which saw `seen` in the word. A thread that waits for long
    // sleeps: the holder of a slot may need the processor that it would keep busy.
    fn rest<H: Wait>(&self, rt: &H, word: usize, seen: u32, looks: u32)
        requires { word < count_of self.now + 2 }
    {
        if looks < LOOKS {
            hint::spin_loop();
            return;
        }
        let sleep = Duration::from_micros(SLEEP);
        self.table.shared.park_timeout(rt, word, seen, sleep);
    }

    /// Returns an item to the slot that the seat holds, and frees the lock. The seat gets the permits of what was
    /// taken, and the item takes its own from it. `said` is for the caller's rule alone, and is returned. `is_wanted`
    /// is for the method of that name alone.
    pub fn give<M: Give<T, N, W>>(
        &self,
        seat: &mut SlotSeat<T, N, W>,
        slot: usize,
        item: T,
        said: W,
        is_wanted: bool,
    ) -> W
        requires seat { IsSeatOf R.most self.now seat.old }
        requires slot { slot < count_of self.now }
        requires held { (x : T) × Holds (view seat.old) slot x }
        requires permits { R.weight item ≤ (view seat.old).permits + held_weight R.weight (view seat.old).hold }
        requires rule { Gives (R.holds (key_of self.now)) (R.most (key_of self.now)) seat.old.id (view seat.old) slot item (permits_after R.weight (view seat.old) item) (M.tells (view seat.old) item said) }
        ensures seat { IsSeatOf R.most self.now seat.new × (seat.new.id ≡ seat.old.id) }
        ensures step { (n : N) × (view seat.new ≡ given (view seat.old) (permits_after R.weight (view seat.old) item) n) × M.tells (view seat.old) item said n }
        ensures said { result ≡ said }
    {
        let shared = &self.table.shared;
        shared.exchange(seat, slot, Slot::Here(item)).end();
        let told = Slot::Said(said);
        let free = free_word(is_wanted);
        shared.compare_exchange_with::<Giving<M, K, R>>(seat, slot + LOCKS, HELD, free, &told);
        told.into_said()
    }

    /// Tries once to take a permit. False if none was free, or if another seat changed the number of free permits
    /// meanwhile. Nothing changed then.
    pub fn try_permit(&self, seat: &mut SlotSeat<T, N, W>) -> bool
        requires seat { IsSeatOf R.most self.now seat.old }
        requires share { 0 < (view seat.old).parts }
        requires rule { HasPermits (R.holds (key_of self.now)) (R.most (key_of self.now)) seat.old.id (view seat.old) ((view seat.old).permits + 1) }
        ensures seat { IsSeatOf R.most self.now seat.new × (seat.new.id ≡ seat.old.id) }
        ensures granted { result ≡ true → view seat.new ≡ with_permits (view seat.old) ((view seat.old).permits + 1) }
        ensures same { result ≡ false → view seat.new ≡ view seat.old }
    {
        let shared = &self.table.shared;
        let free = shared.peek(PERMITS);
        if free == 0 {
            return false;
        }
        let found = shared.compare_exchange::<Granting>(seat, PERMITS, free, free - 1);
        found == free
    }

    /// Returns a permit of the seat, so that it is free.
    pub fn give_permit(&self, seat: &mut SlotSeat<T, N, W>)
        requires seat { IsSeatOf R.most self.now seat.old }
        requires permit { 0 < (view seat.old).permits }
        requires rule { HasPermits (R.holds (key_of self.now)) (R.most (key_of self.now)) seat.old.id (view seat.old) ((view seat.old).permits - 1) }
        ensures seat { IsSeatOf R.most self.now seat.new × (seat.new.id ≡ seat.old.id) }
        ensures step { view seat.new ≡ with_permits (view seat.old) ((view seat.old).permits - 1) }
    {
        self.table.shared.fetch_add::<Returning>(seat, PERMITS, 1);
    }

    /// A step of the holder of a slot that changes its note alone. `said` is returned.
    pub fn note<M: Note<T, N, W>>(&self, seat: &mut SlotSeat<T, N, W>, slot: usize, said: W) -> W
        requires seat { IsSeatOf R.most self.now seat.old }
        requires slot { slot < count_of self.now }
        requires held { (x : T) × Holds (view seat.old) slot x }
        requires rule { Notes (R.holds (key_of self.now)) (R.most (key_of self.now)) seat.old.id (view seat.old) (M.tells (view seat.old) said) }
        ensures seat { IsSeatOf R.most self.now seat.new × (seat.new.id ≡ seat.old.id) }
        ensures step { (n : N) × (view seat.new ≡ noted (view seat.old) n) × M.tells (view seat.old) said n }
        ensures said { result ≡ said }
    {
        let told = Slot::Said(said);
        self.table
            .shared
            .compare_exchange_with::<Noting<M>>(seat, slot + LOCKS, HELD, HELD, &told);
        told.into_said()
    }

    /// How many slots were drawn, including refused draws, and what the caller's rule makes known of that number.
    pub fn look<M: Look<T, N>>(&self, seat: &mut SlotSeat<T, N, W>) -> u64
        requires seat { IsSeatOf R.most self.now seat.old }
        requires rule { Looks (R.holds (key_of self.now)) (R.most (key_of self.now)) seat.old.id (view seat.old) (M.tells (view seat.old)) }
        ensures seat { IsSeatOf R.most self.now seat.new × (seat.new.id ≡ seat.old.id) }
        ensures step { (n : N) × (view seat.new ≡ noted (view seat.old) n) × M.tells (view seat.old) result n }
    {
        self.table.shared.load::<Looking<M>>(seat, DRAWN)
    }

    /// Draws the next number: from 1 on, up to the limit. A seat may be refused once for each of its parts, so that the
    /// counter never wraps.
    pub fn draw<M: Draw<T, N>>(&self, seat: &mut SlotSeat<T, N, W>) -> Option<u32>
        requires seat { IsSeatOf R.most self.now seat.old }
        requires share { (view seat.old).refused < (view seat.old).parts }
        requires rule { Draws (R.holds (key_of self.now)) (R.most (key_of self.now)) seat.old.id (view seat.old) (M.tells (view seat.old)) }
        requires refused { IsRefused (R.holds (key_of self.now)) (R.most (key_of self.now)) seat.old.id (view seat.old) (M.tells (view seat.old)) }
        ensures seat { IsSeatOf R.most self.now seat.new × (seat.new.id ≡ seat.old.id) }
        ensures step { (n : N) × MatchOption result ((view seat.new ≡ refused (view seat.old) n) × M.tells (view seat.old) None n) (λ k. (view seat.new ≡ noted (view seat.old) n) × M.tells (view seat.old) (Some k) n) }
        ensures limit { IfSome result (λ k. (0 < k) × (k ≤ R.most (key_of self.now))) }
    {
        let seen = self.table.shared.fetch_add::<Drawing<M>>(seat, DRAWN, 1);
        if seen < self.last as u64 {
            Some(seen as u32 + 1)
        } else {
            None
        }
    }
}

// The word of the lock of a free slot.
fn free_word(is_wanted: bool) -> u64
    ensures { result ≢ 1 }
{
    if is_wanted { WANTED } else { FREE }
}
