//! Why points are not inserted into a tree.

use ept_point::Memory as NoMemory;
use std::alloc::{AllocError, AllocFailed};

/// Why points are not inserted into a tree.
#[derive(Clone, Copy, Debug, PartialEq, Eq)]
pub enum TreeError {
    /// The tree has more nodes than it may have.
    TooManyNodes,
    /// Memory ran out.
    Memory,
}

impl From<NoMemory> for TreeError {
    ghost use Rattle.std.specs.Prelude.{◌≡◌};
    ghost use Rattle.ept_tree.specs.declared.tree_error.TreeError.TheVariants.{Memory};

    ghost from_gives = { λ _ e. e ≡ Memory };

    fn from(_error: NoMemory) -> TreeError {
        TreeError::Memory
    }
}

impl From<AllocError> for TreeError {
    ghost use Rattle.std.specs.Prelude.{◌≡◌};
    ghost use Rattle.ept_tree.specs.declared.tree_error.TreeError.TheVariants.{Memory};

    ghost from_gives = { λ _ e. e ≡ Memory };

    fn from(_error: AllocError) -> TreeError {
        TreeError::Memory
    }
}

impl<T: Drop> From<AllocFailed<T>> for TreeError {
    ghost use Rattle.std.specs.Prelude.{◌≡◌};
    ghost use Rattle.ept_tree.specs.declared.tree_error.TreeError.TheVariants.{Memory};

    ghost from_gives = { λ _ e. e ≡ Memory };

    fn from(_error: AllocFailed<T>) -> TreeError {
        TreeError::Memory
    }
}
