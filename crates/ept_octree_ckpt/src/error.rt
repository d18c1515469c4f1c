//! Why an octree is not loaded, or not saved.

use ept_node::NodeError;
use ept_point::Memory;
use ept_save::SaveError;
use std::alloc::AllocFailed;

/// Why the octree of a checkpoint is not loaded, or an octree is not saved as the next checkpoint.
#[derive(Clone, Copy, Debug, PartialEq, Eq)]
pub enum PhaseError {
    /// The store failed, a tile is damaged, or memory ran out.
    Save(SaveError),
    /// The checkpoint has more nodes than there may be.
    TooManyNodes,
    /// The spill file of a node failed: its count of faults rose. Nodes go to their files as an octree is loaded, and are read
    /// there as it is saved.
    SpillFault,
    /// The spill file of a node returned other bytes than those of the node's tile, as
    /// [`NodeError::SpillDamaged`](ept_node::NodeError) states.
    SpillDamaged { kept: u64, found: u64, at: u64 },
}

impl From<SaveError> for PhaseError {
    ghost use Rattle.std.specs.Prelude.{◌≡◌};
    ghost use Rattle.ept_octree_ckpt.specs.declared.error.PhaseError.TheVariants.{Save};

    ghost from_gives = { λ error e. e ≡ Save error };

    fn from(error: SaveError) -> PhaseError {
        PhaseError::Save(error)
    }
}

impl From<NodeError> for PhaseError {
    ghost use Rattle.std.specs.Prelude.{◌≡◌};
    ghost use Rattle.ept_octree_ckpt.specs.Errors.{of_node};

    ghost from_gives = { λ error e. e ≡ of_node error };

    fn from(error: NodeError) -> PhaseError {
        match error {
            NodeError::SpillFault => PhaseError::SpillFault,
            NodeError::SpillDamaged { kept, found, at } => {
                PhaseError::SpillDamaged { kept, found, at }
            }
            NodeError::Memory => PhaseError::Save(SaveError::Memory),
        }
    }
}

impl<T: Drop> From<AllocFailed<T>> for PhaseError {
    ghost use Rattle.std.specs.Prelude.{◌≡◌};
    ghost use Rattle.ept_save.specs.declared.error.SaveError.TheVariants as save;
    ghost use Rattle.ept_octree_ckpt.specs.declared.error.PhaseError.TheVariants.{Save};

    ghost from_gives = { λ _ e. e ≡ Save save.Memory };

    fn from(_error: AllocFailed<T>) -> PhaseError {
        PhaseError::Save(SaveError::Memory)
    }
}

impl From<Memory> for PhaseError {
    ghost use Rattle.std.specs.Prelude.{◌≡◌};
    ghost use Rattle.ept_save.specs.declared.error.SaveError.TheVariants as save;
    ghost use Rattle.ept_octree_ckpt.specs.declared.error.PhaseError.TheVariants.{Save};

    ghost from_gives = { λ _ e. e ≡ Save save.Memory };

    fn from(_error: Memory) -> PhaseError {
        PhaseError::Save(SaveError::Memory)
    }
}
