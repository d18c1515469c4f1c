//! Why the second reading is refused.

use ept_base::{Failed, GetError};
use ept_point::PointNumber;
use std::alloc::AllocError;

/// Why the second reading is refused.
#[derive(Clone, Copy, Debug, PartialEq, Eq)]
pub enum ReadError {
    /// A source failed, or one could not be opened.
    SourceFault,
    /// The input of this place in the list differs from what the first reading found. With the number 0, its header is
    /// refused or states another number of points. With any number, this record ends early, or its point does not lie
    /// within the extent that was found.
    SourceChanged { source: u32, number: PointNumber },
    /// Memory ran out.
    Memory,
}

impl From<Failed> for ReadError {
    ghost use Rattle.std.specs.Prelude.{◌≡◌};
    ghost use Rattle.ept_scan.specs.declared.read_error.ReadError.TheVariants.{SourceFault};

    ghost from_gives = { λ _ e. e ≡ SourceFault };

    fn from(_error: Failed) -> ReadError {
        ReadError::SourceFault
    }
}

impl From<AllocError> for ReadError {
    ghost use Rattle.std.specs.Prelude.{◌≡◌};
    ghost use Rattle.ept_scan.specs.declared.read_error.ReadError.TheVariants.{Memory};

    ghost from_gives = { λ _ e. e ≡ Memory };

    fn from(_error: AllocError) -> ReadError {
        ReadError::Memory
    }
}

impl From<GetError> for ReadError {
    ghost use Rattle.std.specs.Prelude.{◌≡◌};
    ghost use Rattle.ept_scan.specs.Changes.{read_error_of};

    ghost from_gives = { λ from e. e ≡ read_error_of from };

    fn from(error: GetError) -> ReadError {
        match error {
            GetError::Failed => ReadError::SourceFault,
            GetError::Memory => ReadError::Memory,
        }
    }
}
