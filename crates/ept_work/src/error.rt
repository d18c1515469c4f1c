//! Why workers stop.

use ept_node::NodeError;
use ept_point::PointNumber;
use ept_scan::ReadError;
use std::alloc::AllocError;

/// Why a worker, or workers, stopped.
#[derive(Clone, Copy, Debug, PartialEq, Eq)]
pub enum WorkError {
    /// A source of the reader failed.
    SourceFault,
    /// This input is not what the first reading has found. Its header differs, which is reported as record 0, or the
    /// record of this number ends early or lies elsewhere.
    SourceChanged { source: u32, number: PointNumber },
    /// The sampling of the points up to the end of the allowance has more nodes than there may be.
    TooManyNodes,
    /// The spill file of a node failed, and the node has been broken since.
    SpillFault,
    /// The spill file of a node returned other bytes than those of its tile, and the node has been broken since. There
    /// are `found` bytes in place of the `kept` ones, or the point of the number `at`, from 0, is the first wrong one.
    SpillDamaged { kept: u64, found: u64, at: u64 },
    /// Memory ran out.
    Memory,
}

impl From<ReadError> for WorkError {
    ghost use Rattle.std.specs.Prelude.{◌≡◌};
    ghost use Rattle.ept_work.specs.Errors.{of_read};

    ghost from_gives = { λ from e. e ≡ of_read from };

    fn from(error: ReadError) -> WorkError {
        match error {
            ReadError::SourceFault => WorkError::SourceFault,
            ReadError::SourceChanged { source, number } => {
                WorkError::SourceChanged { source, number }
            }
            ReadError::Memory => WorkError::Memory,
        }
    }
}

impl From<NodeError> for WorkError {
    ghost use Rattle.std.specs.Prelude.{◌≡◌};
    ghost use Rattle.ept_work.specs.Errors.{of_node};

    ghost from_gives = { λ from e. e ≡ of_node from };

    fn from(error: NodeError) -> WorkError {
        match error {
            NodeError::SpillFault => WorkError::SpillFault,
            NodeError::SpillDamaged { kept, found, at } => {
                WorkError::SpillDamaged { kept, found, at }
            }
            NodeError::Memory => WorkError::Memory,
        }
    }
}

impl From<AllocError> for WorkError {
    ghost use Rattle.std.specs.Prelude.{◌≡◌};
    ghost use Rattle.ept_work.specs.declared.error.WorkError.TheVariants as errors;

    ghost from_gives = { λ _ e. e ≡ errors.Memory };

    fn from(_error: AllocError) -> WorkError {
        WorkError::Memory
    }
}
