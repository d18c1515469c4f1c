//! Why a node does not spill or reload its points.

use ept_base::Failed;
use ept_point::Memory as OutOfMemory;
use std::alloc::{AllocError, AllocFailed};

/// Why a node does not spill or reload its points.
#[derive(Clone, Copy, Debug, PartialEq, Eq)]
pub enum NodeError {
    /// The spill file failed: its count of faults rose.
    SpillFault,
    /// The spill file returned other bytes than those of the node's tile. If `found`, the number of its bytes, differs
    /// from `kept`, the number that was kept, `at` is the first point that is not whole. If the numbers are equal, `at`
    /// is the number, from 0, of the first bad point. Such a point is no point, does not come after the one before it
    /// by its id, or does not fit the node. If each point is good alone but they are too many together, `at` is their
    /// number.
    SpillDamaged { kept: u64, found: u64, at: u64 },
    /// Memory ran out.
    Memory,
}

impl From<Failed> for NodeError {
    ghost use Rattle.std.specs.Prelude.{◌≡◌};
    ghost use Rattle.ept_node.specs.declared.error.NodeError.TheVariants.{SpillFault};

    ghost from_gives = { λ _ e. e ≡ SpillFault };

    fn from(_error: Failed) -> NodeError {
        NodeError::SpillFault
    }
}

impl From<OutOfMemory> for NodeError {
    ghost use Rattle.std.specs.Prelude.{◌≡◌};
    ghost use Rattle.ept_node.specs.declared.error.NodeError.TheVariants.{Memory};

    ghost from_gives = { λ _ e. e ≡ Memory };

    fn from(_error: OutOfMemory) -> NodeError {
        NodeError::Memory
    }
}

impl From<AllocError> for NodeError {
    ghost use Rattle.std.specs.Prelude.{◌≡◌};
    ghost use Rattle.ept_node.specs.declared.error.NodeError.TheVariants.{Memory};

    ghost from_gives = { λ _ e. e ≡ Memory };

    fn from(_error: AllocError) -> NodeError {
        NodeError::Memory
    }
}

impl<T: Drop> From<AllocFailed<T>> for NodeError {
    ghost use Rattle.std.specs.Prelude.{◌≡◌};
    ghost use Rattle.ept_node.specs.declared.error.NodeError.TheVariants.{Memory};

    ghost from_gives = { λ _ e. e ≡ Memory };

    fn from(_error: AllocFailed<T>) -> NodeError {
        NodeError::Memory
    }
}
