//! Why bytes are no checkpoint.

ghost use Rattle.std.specs.Prelude.{◌≡◌};

use crate::field_error::FieldError;

/// Why bytes are no body of a checkpoint.
#[derive(Clone, Copy, Debug, PartialEq, Eq)]
pub enum CkptError {
    /// The bytes end within a field, or continue after the last one.
    Length,
    /// The first bytes are not those of a version of the format.
    Version,
    /// The field that begins at this byte, from 0, is out of its range.
    Field { at: u64 },
    /// The nodes are no whole octree of the number of points that the body states as inserted.
    Tree,
    /// Memory ran out.
    Memory,
}

impl From<FieldError> for CkptError {
    ghost use Rattle.ept_ckpt.specs.Refusals.{of_field};

    ghost from_gives = { λ error e. e ≡ of_field error };

    fn from(error: FieldError) -> CkptError {
        match error {
            FieldError::Length => CkptError::Length,
            FieldError::Version => CkptError::Version,
            FieldError::Field { at } => CkptError::Field { at },
            FieldError::Memory => CkptError::Memory,
        }
    }
}
