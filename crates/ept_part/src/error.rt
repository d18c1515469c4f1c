//! Why a part is not made.

use ept_base::PutError;
use ept_las::LasError;
use ept_point::{Memory as NoMemory, PointNumber};
use ept_scan::{ReadError, ScanError};
use ept_tree::TreeError;
use std::alloc::AllocError;

/// Why a part is not made. The causes are tried in this order; `Memory` may come at any time.
#[derive(Clone, Copy, Debug, PartialEq, Eq)]
pub enum PartError {
    /// A source failed, or one could not be opened: the shelf's count of faults rose.
    SourceFault,
    /// The input of this place in the list is no LAS file that can be read.
    BadLas { source: u32, fault: LasError },
    /// The record of this number of this input is not in stored units, or not within the bounds.
    OutOfBounds { source: u32, number: PointNumber },
    /// This input states more points than it may have.
    TooManyPoints { source: u32 },
    /// No bounds are given, and no input has a point.
    NoBounds,
    /// The greatest depth is 0, so the root has no octants.
    Shallow,
    /// The second reading differs from the first, at this record of this input.
    SourceChanged { source: u32, number: PointNumber },
    /// The sampling of the part has more nodes than there may be.
    TooManyNodes,
    /// The store failed: its count of faults rose.
    StoreFault,
    /// Memory ran out.
    Memory,
}

impl From<ScanError> for PartError {
    ghost use Rattle.std.specs.Prelude.{◌≡◌};
    ghost use Rattle.ept_part.specs.Errors.{of_scan};

    ghost from_gives = { λ from e. e ≡ of_scan from };

    fn from(error: ScanError) -> PartError {
        match error {
            ScanError::SourceFault => PartError::SourceFault,
            ScanError::BadLas { source, fault } => PartError::BadLas { source, fault },
            ScanError::OutOfBounds { source, number } => PartError::OutOfBounds { source, number },
            ScanError::TooManyPoints { source } => PartError::TooManyPoints { source },
            ScanError::NoBounds => PartError::NoBounds,
            ScanError::Memory => PartError::Memory,
        }
    }
}

impl From<ReadError> for PartError {
    ghost use Rattle.std.specs.Prelude.{◌≡◌};
    ghost use Rattle.ept_part.specs.Errors.{of_read};

    ghost from_gives = { λ from e. e ≡ of_read from };

    fn from(error: ReadError) -> PartError {
        match error {
            ReadError::SourceFault => PartError::SourceFault,
            ReadError::SourceChanged { source, number } => {
                PartError::SourceChanged { source, number }
            }
            ReadError::Memory => PartError::Memory,
        }
    }
}

impl From<TreeError> for PartError {
    ghost use Rattle.std.specs.Prelude.{◌≡◌};
    ghost use Rattle.ept_part.specs.Errors.{of_tree};

    ghost from_gives = { λ from e. e ≡ of_tree from };

    fn from(error: TreeError) -> PartError {
        match error {
            TreeError::TooManyNodes => PartError::TooManyNodes,
            TreeError::Memory => PartError::Memory,
        }
    }
}

impl From<PutError> for PartError {
    ghost use Rattle.std.specs.Prelude.{◌≡◌};
    ghost use Rattle.ept_part.specs.Errors.{of_put};

    ghost from_gives = { λ from e. e ≡ of_put from };

    fn from(error: PutError) -> PartError {
        match error {
            PutError::Failed => PartError::StoreFault,
            PutError::Memory => PartError::Memory,
        }
    }
}

impl From<NoMemory> for PartError {
    ghost use Rattle.std.specs.Prelude.{◌≡◌};
    ghost use Rattle.ept_part.specs.declared.error.PartError.TheVariants.{Memory};

    ghost from_gives = { λ _ e. e ≡ Memory };

    fn from(_error: NoMemory) -> PartError {
        PartError::Memory
    }
}

impl From<AllocError> for PartError {
    ghost use Rattle.std.specs.Prelude.{◌≡◌};
    ghost use Rattle.ept_part.specs.declared.error.PartError.TheVariants.{Memory};

    ghost from_gives = { λ _ e. e ≡ Memory };

    fn from(_error: AllocError) -> PartError {
        PartError::Memory
    }
}
