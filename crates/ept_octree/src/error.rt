//! Why a node is not added.

use ept_grid::GridError;
use std::alloc::AllocFailed;

/// Why a node is not added to an octree.
#[derive(Clone, Copy, Debug, PartialEq, Eq)]
pub enum AddError {
    /// The octree has its greatest number of nodes.
    Full,
    /// The points and the open octants are not those of a node of the key, by this first cause.
    Damaged(GridError),
    /// The spill file of the node failed.
    SpillFault,
    /// Memory ran out.
    Memory,
}

impl From<GridError> for AddError {
    ghost use Rattle.std.specs.Prelude.{◌≡◌};
    ghost use Rattle.ept_octree.specs.Adding.{of_grid};

    ghost from_gives = { λ from e. e ≡ of_grid from };

    fn from(error: GridError) -> AddError {
        match error {
            GridError::Memory => AddError::Memory,
            fault => AddError::Damaged(fault),
        }
    }
}

impl<T: Drop> From<AllocFailed<T>> for AddError {
    ghost use Rattle.std.specs.Prelude.{◌≡◌};
    ghost use Rattle.ept_octree.specs.declared.error.AddError.TheVariants.{Memory};

    ghost from_gives = { λ _ e. e ≡ Memory };

    fn from(_error: AllocFailed<T>) -> AddError {
        AddError::Memory
    }
}
