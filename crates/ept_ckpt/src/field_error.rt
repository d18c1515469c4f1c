//! Why a field of a body can't be read.

ghost use Rattle.std.specs.Prelude.{◌≡◌};

use ept_point::Memory;
use std::alloc::{AllocError, AllocFailed};

/// Why a field of a body can't be read.
#[derive(Clone, Copy, Debug, PartialEq, Eq)]
pub(crate) enum FieldError {
    /// The bytes end within a field, or continue after the last one.
    Length,
    /// The first bytes are not those of a version of the format.
    Version,
    /// The field that begins at this byte, from 0, is out of its range.
    Field { at: u64 },
    /// Memory ran out.
    Memory,
}

impl From<Memory> for FieldError {
    ghost use Rattle.ept_ckpt.specs.declared.field_error.FieldError.TheVariants.{Memory};

    ghost from_gives = { λ _ e. e ≡ Memory };

    fn from(_error: Memory) -> FieldError {
        FieldError::Memory
    }
}

impl From<AllocError> for FieldError {
    ghost use Rattle.ept_ckpt.specs.declared.field_error.FieldError.TheVariants.{Memory};

    ghost from_gives = { λ _ e. e ≡ Memory };

    fn from(_error: AllocError) -> FieldError {
        FieldError::Memory
    }
}

impl<T: Drop> From<AllocFailed<T>> for FieldError {
    ghost use Rattle.ept_ckpt.specs.declared.field_error.FieldError.TheVariants.{Memory};

    ghost from_gives = { λ _ e. e ≡ Memory };

    fn from(_error: AllocFailed<T>) -> FieldError {
        FieldError::Memory
    }
}
