//! Why a folder is not judged.

ghost use Rattle.std.specs.Prelude.{◌≡◌};

use ept_point::Memory;
use ept_query::{QueryError, QueryFile};
use std::alloc::{AllocError, AllocFailed};

/// Why a folder is not judged.
#[derive(Clone, Copy, Debug, PartialEq, Eq)]
pub enum CheckError {
    /// The output is not complete: the done gate is not open.
    NotComplete,
    /// The store failed: its count of faults rose.
    StoreFault,
    /// A file is missing or malformed, or a tile has another number of points than its hierarchy file says. It is the
    /// first such file in the order in which they are read.
    Damaged { file: QueryFile },
    /// Memory ran out.
    Memory,
}

impl From<QueryError> for CheckError {
    ghost use Rattle.ept_check.specs.Causes.{of_query};

    ghost from_gives = { λ error e. e ≡ of_query error };

    fn from(error: QueryError) -> CheckError {
        match error {
            QueryError::NotComplete => CheckError::NotComplete,
            QueryError::StoreFault => CheckError::StoreFault,
            QueryError::Damaged { file } => CheckError::Damaged { file },
            QueryError::SinkFault | QueryError::Memory => CheckError::Memory,
        }
    }
}

impl From<Memory> for CheckError {
    ghost use Rattle.ept_check.specs.declared.check_error.CheckError.TheVariants.{Memory};

    ghost from_gives = { λ _ e. e ≡ Memory };

    fn from(_error: Memory) -> CheckError {
        CheckError::Memory
    }
}

impl From<AllocError> for CheckError {
    ghost use Rattle.ept_check.specs.declared.check_error.CheckError.TheVariants.{Memory};

    ghost from_gives = { λ _ e. e ≡ Memory };

    fn from(_error: AllocError) -> CheckError {
        CheckError::Memory
    }
}

impl<T: Drop> From<AllocFailed<T>> for CheckError {
    ghost use Rattle.ept_check.specs.declared.check_error.CheckError.TheVariants.{Memory};

    ghost from_gives = { λ _ e. e ≡ Memory };

    fn from(_error: AllocFailed<T>) -> CheckError {
        CheckError::Memory
    }
}
