//! What the caller's rule makes known with a step, of the seat's view before it and its note after it.
ghost use Rattle.std.specs.Prelude.{ℕ, Option};
ghost use Rattle.ept_slots.specs.declared.view.View.{View};

/// With `take`: of the view before, the slot, the item and the note after.
pub trait Take<T, N> {
    ghost tells: { View T N → ℕ → T → N → Type 0 };
}

/// With `give`: of the view before, the item returned, what is said and the note after.
pub trait Give<T, N, W> {
    ghost tells: { View T N → T → W → N → Type 0 };
}

/// With `note`: of the view before, what is said and the note after.
pub trait Note<T, N, W> {
    ghost tells: { View T N → W → N → Type 0 };
}

/// With `draw`: of the view before, the number drawn, if any, and the note after.
pub trait Draw<T, N> {
    ghost tells: { View T N → Option ℕ → N → Type 0 };
}

/// With `look`: of the view before, how many slots were drawn or refused and the note after.
pub trait Look<T, N> {
    ghost tells: { View T N → ℕ → N → Type 0 };
}
