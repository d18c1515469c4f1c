//! What may happen to the core.

use ept_space::Key;

/// What may happen next. Actors are numbered from 0, and so are the flights of each actor.
#[derive(Clone, Copy, Debug, PartialEq, Eq)]
pub enum Event {
    /// The actor takes up to `count` of the first points left into a new flight to the root.
    Draw { actor: u32, count: u32 },
    /// The actor's flight of that number arrives at its node.
    Arrive { actor: u32, number: u32 },
    /// A resident node is spilled.
    Evict { key: Key },
    /// A spilled node is resident again.
    Reload { key: Key },
}
