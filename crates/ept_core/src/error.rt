//! Why an event is refused.

ghost use Rattle.std.specs.Prelude.{◌≡◌};

use ept_point::Memory;

/// Why an event is refused: the first cause in the order of the variants.
#[derive(Clone, Copy, Debug, PartialEq, Eq)]
pub enum StepError {
    /// There is no such actor.
    NoActor,
    /// The actor has no flight of that number.
    NoFlight,
    /// The key is that of no node.
    NoNode,
    /// The node is spilled.
    NotResident,
    /// The node is resident.
    NotSpilled,
    /// Memory ran out.
    Memory,
}

impl From<Memory> for StepError {
    ghost use Rattle.ept_core.specs.declared.error.StepError.TheVariants.{Memory};

    ghost from_gives = { λ _ e. e ≡ Memory };

    fn from(_error: Memory) -> StepError {
        StepError::Memory
    }
}
