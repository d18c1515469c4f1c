//! How a table is made, and how it is closed.
ghost use Rattle.std.specs.Prelude.{◌≡◌, ◌+◌, ◌<◌, ◌≤◌, ◌^◌, [], ◌∷◌, length, IfOk, IfErr};
ghost use Rattle.std.specs.List.{sum_by};
ghost use Rattle.ept_slots.specs.Views.{HoldsNothing, whole, first_view};
ghost use Rattle.ept_slots.specs.Seating.{view, count_of, key_of, IsSeatOf, Ended};

use crate::laying::{gather, lay_out, take_back};
use crate::rule::SlotRule;
use crate::slots::{DRAWN, Ending, LOCKS, PERMITS, Refused, SlotSeat, Slots};
use atomic_table::Table;
use std::alloc::Global;

// More slots than any memory has.
const TOO_MANY: usize = 1 << 59;

impl<T, N, W, K, R: SlotRule<T, N, K>> Slots<T, N, W, K, R> {
    /// Makes a table of these items, none of which is held, and its first seat, which has all parts. `drawn` slots of
    /// `most` are drawn already, and `free` permits are free.
    pub fn new(
        alloc: Global,
        items: Vec<T, Global>,
        drawn: u32,
        most: u32,
        free: u64,
        key: &K,
    ) -> Result<(Slots<T, N, W, K, R>, SlotSeat<T, N, W>), Refused<T>>
        requires start { (drawn ≤ most) × (most ≡ R.most key.now) }
        requires permits { (free + sum_by R.weight items.items ≡ R.permits key.now) × (R.permits key.now < 2 ^ 64) }
        requires rule { R.holds key.now drawn items.items (first_view most (R.first key.now) ∷ []) }
        ensures ok { IfOk result (λ r. (key_of r.0 ≡ key.now) × (count_of r.0 ≡ length items.items) × IsSeatOf R.most r.0 r.1 × (r.1.id ≡ 0) × (view r.1 ≡ first_view most (R.first key.now))) }
        ensures refused { IfErr result (λ r. r.items.items ≡ items.items) }
    {
        let count = items.len();
        if count >= TOO_MANY {
            return Err(Refused { items });
        }
        let Ok(mut words) = Vec::from_elem(alloc, 0u64, count + LOCKS) else {
            return Err(Refused { items });
        };
        words[DRAWN] = drawn as u64;
        words[PERMITS] = free;
        let slots = lay_out(alloc, items)?;
        match Table::new(alloc, words.as_slice(), slots, key) {
            Ok((table, seat)) => Ok((
                Slots {
                    table,
                    last: most,
                    count,
                },
                seat,
            )),
            Err(refused) => {
                let atomic_table::Refused { slots } = refused;
                Err(Refused {
                    items: take_back(slots),
                })
            }
        }
    }

    /// Ends the table. The seat has to have all parts, and no memory is allocated.
    pub fn close(self, seat: SlotSeat<T, N, W>) -> Ending<T>
        requires seat { IsSeatOf R.most self seat }
        requires idle { HoldsNothing (view seat) × ((view seat).parts ≡ whole) }
        ensures ended { Ended (R.holds (key_of self)) (R.most (key_of self)) seat.id (view seat) result.drawn result.items.items }
        ensures permits { result.free + (view seat).permits + sum_by R.weight result.items.items ≡ R.permits (key_of self) }
    {
        let Slots {
            table,
            last: _last,
            count,
        } = self;
        let closed = table.close_with(seat);
        let drawn = closed.word(DRAWN);
        let free = closed.word(PERMITS);
        Ending {
            items: gather(closed, count),
            drawn,
            free,
        }
    }
}
