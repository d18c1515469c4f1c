//! Why a scan is refused.

use ept_base::{Failed, GetError};
use ept_las::LasError;
use ept_point::PointNumber;
use std::alloc::{AllocError, AllocFailed};

/// Why a scan is refused. The inputs are read in order, and the first cause is returned. The causes of an input are in
/// this order: the faults of its header, then `TooManyPoints`, then the faults of each record in turn. The faults of a
/// record are that the file ends before its last byte, and then that it is out of bounds. `NoBounds` comes after all
/// inputs.
#[derive(Clone, Copy, Debug, PartialEq, Eq)]
pub enum ScanError {
    /// A source failed, or one could not be opened: the shelf's count of faults rose.
    SourceFault,
    /// The input of this place in the list is no LAS file that can be read.
    BadLas { source: u32, fault: LasError },
    /// The record of this number in this input cannot be stated in stored units, or is not within the bounds.
    OutOfBounds { source: u32, number: PointNumber },
    /// This input states more than `MAX_POINTS` points.
    TooManyPoints { source: u32 },
    /// No bounds are given, and no input has a point.
    NoBounds,
    /// Memory ran out.
    Memory,
}

impl From<Failed> for ScanError {
    ghost use Rattle.std.specs.Prelude.{◌≡◌};
    ghost use Rattle.ept_scan.specs.declared.scan_error.ScanError.TheVariants.{SourceFault};

    ghost from_gives = { λ _ e. e ≡ SourceFault };

    fn from(_error: Failed) -> ScanError {
        ScanError::SourceFault
    }
}

impl From<AllocError> for ScanError {
    ghost use Rattle.std.specs.Prelude.{◌≡◌};
    ghost use Rattle.ept_scan.specs.declared.scan_error.ScanError.TheVariants.{Memory};

    ghost from_gives = { λ _ e. e ≡ Memory };

    fn from(_error: AllocError) -> ScanError {
        ScanError::Memory
    }
}

impl<T: Drop> From<AllocFailed<T>> for ScanError {
    ghost use Rattle.std.specs.Prelude.{◌≡◌};
    ghost use Rattle.ept_scan.specs.declared.scan_error.ScanError.TheVariants.{Memory};

    ghost from_gives = { λ _ e. e ≡ Memory };

    fn from(_error: AllocFailed<T>) -> ScanError {
        ScanError::Memory
    }
}

impl From<GetError> for ScanError {
    ghost use Rattle.ept_scan.specs.Refusals.{scan_error_of};
    ghost use Rattle.std.specs.Prelude.{◌≡◌};

    ghost from_gives = { λ from e. e ≡ scan_error_of from };

    fn from(error: GetError) -> ScanError {
        match error {
            GetError::Failed => ScanError::SourceFault,
            GetError::Memory => ScanError::Memory,
        }
    }
}
