//! Why records are not inserted.

use ept_point::PointNumber;
use ept_work::WorkError;

/// Why records are not inserted.
#[derive(Clone, Copy, Debug, PartialEq, Eq)]
pub enum InsertError {
    /// A source of the reader failed: its count of faults is not 0.
    SourceFault,
    /// This input is not what the first reading has found. Its header differs, which is reported as record 0, or the
    /// record of this number ends early or lies elsewhere.
    SourceChanged { source: u32, number: PointNumber },
    /// A spill file failed: its count of faults is not 0.
    SpillFault,
    /// A spill file returned other bytes than those of the node's tile. It has `found` bytes instead of the `kept`
    /// ones. Or the point of the number `at`, from 0, is the first that does not fit the node.
    SpillDamaged { kept: u64, found: u64, at: u64 },
    /// The octree would have more nodes than there may be.
    TooManyNodes,
    /// Memory ran out.
    Memory,
}

impl From<WorkError> for InsertError {
    ghost use Rattle.std.specs.Prelude.{◌≡◌};
    ghost use Rattle.ept_insert.specs.Errors.{of_work};

    ghost from_gives = { λ from e. e ≡ of_work from };

    fn from(error: WorkError) -> InsertError {
        match error {
            WorkError::SourceFault => InsertError::SourceFault,
            WorkError::SourceChanged { source, number } => {
                InsertError::SourceChanged { source, number }
            }
            WorkError::SpillFault => InsertError::SpillFault,
            WorkError::SpillDamaged { kept, found, at } => {
                InsertError::SpillDamaged { kept, found, at }
            }
            WorkError::TooManyNodes => InsertError::TooManyNodes,
            WorkError::Memory => InsertError::Memory,
        }
    }
}
