//! Why a build is refused.

use ept_base::PutError;
use ept_ckpt::Letter;
use ept_insert::InsertError;
use ept_las::LasError;
use ept_meta::Field;
use ept_octree_ckpt::PhaseError;
use ept_plan::PlanError;
use ept_point::PointNumber;
use ept_publish::PublishError;
use ept_save::SaveError;
use ept_scan::{ReadError, ScanError};
use ept_space::Key;

/// Why a build is refused. The causes are looked for in the order of the work: what the store holds, then the
/// configuration, then the inputs, then the nodes.
#[derive(Debug, Drop)]
pub enum BuildError {
    /// A call of the store failed: its count of faults rose.
    StoreFault,
    /// The gate of this letter is open, but its body is missing, is not a checkpoint, or has the generation of the
    /// other letter's body.
    BadCheckpoint {
        letter: Letter,
    },
    /// The tile that the current checkpoint names for this key is missing, or is not the node's.
    TileDamaged {
        key: Key,
    },
    /// The first field of the configuration that differs from what an earlier build kept. Both values are in the form
    /// of the build file. For the inputs, they are those of the first input that differs, and `given` is empty if the
    /// list ends before it.
    Differs {
        field: Field,
        kept: Vec<u8>,
        given: Vec<u8>,
    },
    /// An input can't be opened or read: the shelf's count of faults rose.
    SourceFault,
    /// The input of this place in the list is no LAS file that can be read.
    BadLas {
        source: u32,
        fault: LasError,
    },
    /// The record of this number of this input is not in stored units, or not within the bounds.
    OutOfBounds {
        source: u32,
        number: PointNumber,
    },
    /// This input states more points than can be numbered.
    TooManyPoints {
        source: u32,
    },
    /// No bounds are given, and no input has a point.
    NoBounds,
    /// This input is not as the first reading found it. Either the record of this number ends early or lies elsewhere,
    /// or the header differs, which is reported as record 0.
    SourceChanged {
        source: u32,
        number: PointNumber,
    },
    /// A spill file can't be made or failed: the room's count of faults rose.
    SpillFault,
    /// A spill file returned other bytes than those of its node's tile. Either it has `found` bytes instead of the
    /// `kept` ones, or point `at`, from 0, is the first that does not fit the node.
    SpillDamaged {
        kept: u64,
        found: u64,
        at: u64,
    },
    /// The octree has more nodes than there may be.
    TooManyNodes,
    /// Memory ran out.
    Memory,
}

impl From<PlanError> for BuildError {
    ghost use Rattle.std.specs.Prelude.{◌≡◌};
    ghost use Rattle.ept_build.specs.Errors.{of_plan};

    ghost from_gives = { λ from e. e ≡ of_plan from };

    fn from(error: PlanError) -> BuildError {
        match error {
            PlanError::Differs(difference) => BuildError::Differs {
                field: difference.field,
                kept: difference.kept,
                given: difference.given,
            },
            PlanError::Scan(error) => BuildError::from(error),
        }
    }
}

impl From<ScanError> for BuildError {
    ghost use Rattle.std.specs.Prelude.{◌≡◌};
    ghost use Rattle.ept_build.specs.Errors.{of_scan};

    ghost from_gives = { λ from e. e ≡ of_scan from };

    fn from(error: ScanError) -> BuildError {
        match error {
            ScanError::SourceFault => BuildError::SourceFault,
            ScanError::BadLas { source, fault } => BuildError::BadLas { source, fault },
            ScanError::OutOfBounds { source, number } => BuildError::OutOfBounds { source, number },
            ScanError::TooManyPoints { source } => BuildError::TooManyPoints { source },
            ScanError::NoBounds => BuildError::NoBounds,
            ScanError::Memory => BuildError::Memory,
        }
    }
}

impl From<ReadError> for BuildError {
    ghost use Rattle.std.specs.Prelude.{◌≡◌};
    ghost use Rattle.ept_build.specs.Errors.{of_read};

    ghost from_gives = { λ from e. e ≡ of_read from };

    fn from(error: ReadError) -> BuildError {
        match error {
            ReadError::SourceFault => BuildError::SourceFault,
            ReadError::SourceChanged { source, number } => {
                BuildError::SourceChanged { source, number }
            }
            ReadError::Memory => BuildError::Memory,
        }
    }
}

impl From<InsertError> for BuildError {
    ghost use Rattle.std.specs.Prelude.{◌≡◌};
    ghost use Rattle.ept_build.specs.Errors.{of_insert};

    ghost from_gives = { λ from e. e ≡ of_insert from };

    fn from(error: InsertError) -> BuildError {
        match error {
            InsertError::SourceFault => BuildError::SourceFault,
            InsertError::SourceChanged { source, number } => {
                BuildError::SourceChanged { source, number }
            }
            InsertError::SpillFault => BuildError::SpillFault,
            InsertError::SpillDamaged { kept, found, at } => {
                BuildError::SpillDamaged { kept, found, at }
            }
            InsertError::TooManyNodes => BuildError::TooManyNodes,
            InsertError::Memory => BuildError::Memory,
        }
    }
}

impl From<SaveError> for BuildError {
    ghost use Rattle.std.specs.Prelude.{◌≡◌};
    ghost use Rattle.ept_build.specs.Errors.{of_save};

    ghost from_gives = { λ from e. e ≡ of_save from };

    fn from(error: SaveError) -> BuildError {
        match error {
            SaveError::StoreFault => BuildError::StoreFault,
            SaveError::BadCheckpoint { letter } => BuildError::BadCheckpoint { letter },
            SaveError::TileDamaged { key } => BuildError::TileDamaged { key },
            SaveError::Memory => BuildError::Memory,
        }
    }
}

impl From<PhaseError> for BuildError {
    ghost use Rattle.std.specs.Prelude.{◌≡◌};
    ghost use Rattle.ept_build.specs.Errors.{of_phase};

    ghost from_gives = { λ from e. e ≡ of_phase from };

    fn from(error: PhaseError) -> BuildError {
        match error {
            PhaseError::Save(error) => BuildError::from(error),
            PhaseError::TooManyNodes => BuildError::TooManyNodes,
            PhaseError::SpillFault => BuildError::SpillFault,
            PhaseError::SpillDamaged { kept, found, at } => {
                BuildError::SpillDamaged { kept, found, at }
            }
        }
    }
}

impl From<PublishError> for BuildError {
    ghost use Rattle.std.specs.Prelude.{◌≡◌};
    ghost use Rattle.ept_build.specs.Errors.{of_publish};

    ghost from_gives = { λ from e. e ≡ of_publish from };

    fn from(error: PublishError) -> BuildError {
        match error {
            PublishError::StoreFault => BuildError::StoreFault,
            PublishError::TileDamaged { key } => BuildError::TileDamaged { key },
            PublishError::Memory => BuildError::Memory,
        }
    }
}

impl From<PutError> for BuildError {
    ghost use Rattle.std.specs.Prelude.{◌≡◌};
    ghost use Rattle.ept_build.specs.Errors.{of_put};

    ghost from_gives = { λ from e. e ≡ of_put from };

    fn from(error: PutError) -> BuildError {
        match error {
            PutError::Failed => BuildError::StoreFault,
            PutError::Memory => BuildError::Memory,
        }
    }
}
