//! Who inserts the points.

ghost use Rattle.std.specs.Prelude.{◌≤◌};

/// The workers that insert points: how many they are, the runtime that starts them, and the gate that they pass as
/// they visit nodes.
pub(crate) struct Crew<'a, R, G> {
    pub(crate) rt: &'a R,
    pub(crate) gate: &'a G,
    pub(crate) workers: u32,
    ghost few: { (1 ≤ workers) × (workers ≤ 64) },
}

impl<R, G> Drop for Crew<'_, R, G> {
    fn drop(self) {
        let Crew {
            rt: _,
            gate: _,
            workers: _,
        } = self;
    }
}
