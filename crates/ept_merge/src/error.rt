//! Why parts are not merged.

use ept_base::GetError;
use ept_ckpt::Letter;
use ept_las::LasError;
use ept_point::{Memory as NoMemory, PointNumber};
use ept_save::SaveError;
use ept_scan::ScanError;
use ept_space::Key;
use std::alloc::{AllocError, AllocFailed};

/// Why parts are not merged. The causes are tried in this order, except that a store may fail at each of its calls.
/// `Memory` may come at any time.
#[derive(Clone, Copy, Debug, PartialEq, Eq)]
pub enum MergeError {
    /// The store failed: its count of faults rose.
    StoreFault,
    /// The checkpoint of this letter is bad, as [`open`](ept_save::open) reports it.
    BadCheckpoint { letter: Letter },
    /// The folder has a current checkpoint, of this generation.
    HasCheckpoint { generation: u64 },
    /// A source failed, or one could not be opened: the shelf's count of faults rose.
    SourceFault,
    /// The input of this place in the list is no LAS file that can be read.
    BadLas { source: u32, fault: LasError },
    /// The record of this number of this input is not in stored units, or not within the bounds.
    OutOfBounds { source: u32, number: PointNumber },
    /// This input states more points than it may have.
    TooManyPoints { source: u32 },
    /// No bounds are given, and no input has a point.
    NoBounds,
    /// The greatest depth is 0, so the root has no octants.
    Shallow,
    /// The gate of the part with these octants is not open. The parts are taken in turn; the first fault of one is
    /// reported.
    NoPart { octants: u8 },
    /// The body of this part keeps another configuration, or other counts of the inputs, than those of this scan.
    PartDiffers { octants: u8 },
    /// The part with these octants is damaged. With a key, the tile of that key is missing, malformed, or has a point
    /// outside the part. Without one, the part's body is missing, malformed, or that of a checkpoint with tiles of the
    /// old layout. Or the bodies do not fit together, and this is the last part. They do not fit if a key below the
    /// root is in two of them, or if they do not have all points.
    PartDamaged { octants: u8, key: Option<Key> },
    /// The parts have more nodes together than there may be.
    TooManyNodes,
    /// Memory ran out.
    Memory,
}

impl From<ScanError> for MergeError {
    ghost use Rattle.std.specs.Prelude.{◌≡◌};
    ghost use Rattle.ept_merge.specs.Errors.{of_scan};

    ghost from_gives = { λ from e. e ≡ of_scan from };

    fn from(error: ScanError) -> MergeError {
        match error {
            ScanError::SourceFault => MergeError::SourceFault,
            ScanError::BadLas { source, fault } => MergeError::BadLas { source, fault },
            ScanError::OutOfBounds { source, number } => MergeError::OutOfBounds { source, number },
            ScanError::TooManyPoints { source } => MergeError::TooManyPoints { source },
            ScanError::NoBounds => MergeError::NoBounds,
            ScanError::Memory => MergeError::Memory,
        }
    }
}

// A call that opens or puts has no damaged tile; those that load one report it with its part.
impl From<SaveError> for MergeError {
    ghost use Rattle.std.specs.Prelude.{◌≡◌};
    ghost use Rattle.ept_merge.specs.Errors.{of_save};

    ghost from_gives = { λ from e. e ≡ of_save from };

    fn from(error: SaveError) -> MergeError {
        match error {
            SaveError::StoreFault => MergeError::StoreFault,
            SaveError::BadCheckpoint { letter } => MergeError::BadCheckpoint { letter },
            SaveError::TileDamaged { key: _ } => MergeError::Memory,
            SaveError::Memory => MergeError::Memory,
        }
    }
}

impl From<GetError> for MergeError {
    ghost use Rattle.std.specs.Prelude.{◌≡◌};
    ghost use Rattle.ept_merge.specs.Errors.{of_get};

    ghost from_gives = { λ from e. e ≡ of_get from };

    fn from(error: GetError) -> MergeError {
        match error {
            GetError::Failed => MergeError::StoreFault,
            GetError::Memory => MergeError::Memory,
        }
    }
}

impl From<NoMemory> for MergeError {
    ghost use Rattle.std.specs.Prelude.{◌≡◌};
    ghost use Rattle.ept_merge.specs.declared.error.MergeError.TheVariants.{Memory};

    ghost from_gives = { λ _ e. e ≡ Memory };

    fn from(_error: NoMemory) -> MergeError {
        MergeError::Memory
    }
}

impl From<AllocError> for MergeError {
    ghost use Rattle.std.specs.Prelude.{◌≡◌};
    ghost use Rattle.ept_merge.specs.declared.error.MergeError.TheVariants.{Memory};

    ghost from_gives = { λ _ e. e ≡ Memory };

    fn from(_error: AllocError) -> MergeError {
        MergeError::Memory
    }
}

impl<T: Drop> From<AllocFailed<T>> for MergeError {
    ghost use Rattle.std.specs.Prelude.{◌≡◌};
    ghost use Rattle.ept_merge.specs.declared.error.MergeError.TheVariants.{Memory};

    ghost from_gives = { λ _ e. e ≡ Memory };

    fn from(_error: AllocFailed<T>) -> MergeError {
        MergeError::Memory
    }
}
