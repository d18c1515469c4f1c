//! The core.

ghost use Rattle.ept_core.specs.Law.{KeepsLaw};
ghost use Rattle.ept_core.specs.Machine.{state_of};

use crate::machine::Machine;

/// The machine of a builder: points that are left, flights of points on their way to nodes, and nodes. It keeps the law
/// for its points, whatever events happen.
#[derive(Drop)]
pub struct Core {
    pub(crate) machine: Machine,
    ghost law: { ∥ KeepsLaw machine.rules machine.points (state_of machine) ∥₁ },
}
