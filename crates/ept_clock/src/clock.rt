//! A hand that goes around.

ghost use Rattle.std.specs.Prelude.{◌≡◌, ◌<◌, ◌≤◌, ◌↔◌, [], IfSome, IsNone, length, slice_index};
ghost use Rattle.std.specs.List.Sorted.{IsNonDecreasing};
ghost use Rattle.ept_clock.specs.Turns.{NoneBehind};

/// A hand that goes around the slots of the resident nodes, whichever these are at the moment.
#[derive(Clone, Copy, Debug, PartialEq, Eq)]
pub struct Clock {
    hand: u32,
}

impl Clock {
    ghost use Rattle.ept_clock.specs.Turns.{hand_of, IsTurn};

    /// A hand before the first slot.
    pub fn new() -> Clock
        ensures { hand_of result ≡ 0 }
    {
        Clock { hand: 0 }
    }

    /// Moves the hand to the next of the resident slots, which ascend. That is the first slot after it, or the first of
    /// all if none comes after it. Returns its place among them, or `None` if there are no slots. It takes no memory.
    pub fn next(&mut self, resident: &[u32]) -> Option<usize>
        requires { IsNonDecreasing resident.now }
        ensures some { IfSome result (IsTurn (hand_of self.old) resident.now) }
        ensures hand { IfSome result (λ at. hand_of self.new ≡ slice_index resident.now at) }
        ensures none { IsNone result ↔ (resident.now ≡ []) }
        ensures unchanged { IsNone result → hand_of self.new ≡ hand_of self.old }
    {
        let behind = place_behind(self.hand, resident);
        let at = if behind < resident.len() { behind } else { 0 };
        self.hand = *resident.get(at)?;
        Some(at)
    }
}

// The place of the first slot after the hand, or the place after all slots.
fn place_behind(hand: u32, resident: &[u32]) -> usize
    requires { IsNonDecreasing resident.now }
    ensures bound { result ≤ length resident.now }
    ensures front { NoneBehind hand resident.now result }
    ensures back { result < length resident.now → hand < slice_index resident.now result }
{
    resident.partition_point(|slot| *slot <= hand)
}
