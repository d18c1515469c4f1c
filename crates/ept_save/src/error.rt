//! Why a call on checkpoints is refused.

ghost use Rattle.std.specs.Prelude.{◌≡◌};

use ept_base::{GetError, PutError};
use ept_ckpt::Letter;
use ept_point::Memory;
use ept_space::Key;
use std::alloc::AllocError;

/// Why a call on checkpoints is refused.
#[derive(Clone, Copy, Debug, PartialEq, Eq)]
pub enum SaveError {
    /// The store failed: its count of faults rose.
    StoreFault,
    /// The body of a letter that counts is missing, or is not that of a checkpoint. Or both letters count and have one
    /// generation, which is reported for letter b.
    BadCheckpoint { letter: Letter },
    /// The tile that the current checkpoint names for this key is missing, is no tile of the node, or has another number
    /// of points.
    TileDamaged { key: Key },
    /// Memory ran out.
    Memory,
}

impl From<GetError> for SaveError {
    ghost use Rattle.ept_save.specs.Errors.{of_get};

    ghost from_gives = { λ error e. e ≡ of_get error };

    fn from(error: GetError) -> SaveError {
        match error {
            GetError::Failed => SaveError::StoreFault,
            GetError::Memory => SaveError::Memory,
        }
    }
}

impl From<PutError> for SaveError {
    ghost use Rattle.ept_save.specs.Errors.{of_put};

    ghost from_gives = { λ error e. e ≡ of_put error };

    fn from(error: PutError) -> SaveError {
        match error {
            PutError::Failed => SaveError::StoreFault,
            PutError::Memory => SaveError::Memory,
        }
    }
}

impl From<AllocError> for SaveError {
    ghost use Rattle.ept_save.specs.declared.error.SaveError.TheVariants.{Memory};

    ghost from_gives = { λ _ e. e ≡ Memory };

    fn from(_error: AllocError) -> SaveError {
        SaveError::Memory
    }
}

impl From<Memory> for SaveError {
    ghost use Rattle.ept_save.specs.declared.error.SaveError.TheVariants.{Memory};

    ghost from_gives = { λ _ e. e ≡ Memory };

    fn from(_error: Memory) -> SaveError {
        SaveError::Memory
    }
}
