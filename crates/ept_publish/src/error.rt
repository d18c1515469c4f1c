//! Why the output is not put.

use ept_base::PutError;
use ept_point::Memory as OutOfMemory;
use ept_space::Key;
use std::alloc::{AllocError, AllocFailed};

/// Why the files of the output are not all put.
#[derive(Clone, Copy, Debug, PartialEq, Eq)]
pub enum PublishError {
    /// The store failed: its count of faults rose.
    StoreFault,
    /// The tile that the current checkpoint names for this key is missing, or has another length.
    TileDamaged { key: Key },
    /// Memory ran out.
    Memory,
}

impl From<PutError> for PublishError {
    ghost use Rattle.std.specs.Prelude.{◌≡◌};
    ghost use Rattle.ept_publish.specs.Errors.{of_put};

    ghost from_gives = { λ error e. e ≡ of_put error };

    fn from(error: PutError) -> PublishError {
        match error {
            PutError::Failed => PublishError::StoreFault,
            PutError::Memory => PublishError::Memory,
        }
    }
}

impl From<OutOfMemory> for PublishError {
    ghost use Rattle.std.specs.Prelude.{◌≡◌};
    ghost use Rattle.ept_publish.specs.declared.error.PublishError.TheVariants.{Memory};

    ghost from_gives = { λ _ e. e ≡ Memory };

    fn from(_error: OutOfMemory) -> PublishError {
        PublishError::Memory
    }
}

impl From<AllocError> for PublishError {
    ghost use Rattle.std.specs.Prelude.{◌≡◌};
    ghost use Rattle.ept_publish.specs.declared.error.PublishError.TheVariants.{Memory};

    ghost from_gives = { λ _ e. e ≡ Memory };

    fn from(_error: AllocError) -> PublishError {
        PublishError::Memory
    }
}

impl<T: Drop> From<AllocFailed<T>> for PublishError {
    ghost use Rattle.std.specs.Prelude.{◌≡◌};
    ghost use Rattle.ept_publish.specs.declared.error.PublishError.TheVariants.{Memory};

    ghost from_gives = { λ _ e. e ≡ Memory };

    fn from(_error: AllocFailed<T>) -> PublishError {
        PublishError::Memory
    }
}
