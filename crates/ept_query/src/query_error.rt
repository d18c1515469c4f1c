//! Why a query is refused.

ghost use Rattle.std.specs.Prelude.{◌≡◌};

use ept_base::{Failed, GetError};
use ept_point::Memory;
use ept_space::Key;
use std::alloc::{AllocError, AllocFailed};

/// A file that a query reads.
#[derive(Clone, Copy, Debug, PartialEq, Eq)]
pub enum QueryFile {
    /// `ept-build.json`.
    BuildJson,
    /// The hierarchy file of a key (Entwine Point Tile 1.1.0, "ept-hierarchy").
    Hierarchy(Key),
    /// The tile of a key (Entwine Point Tile 1.1.0, "ept-data").
    Tile(Key),
}

/// Why a query is refused.
#[derive(Clone, Copy, Debug, PartialEq, Eq)]
pub enum QueryError {
    /// The output is not complete: the done gate is not open.
    NotComplete,
    /// The store failed: its count of faults rose.
    StoreFault,
    /// A file is missing or malformed, or a tile has another number of points than its hierarchy file says. It is the
    /// first such file in the order in which they are read.
    Damaged { file: QueryFile },
    /// The sink failed: its count of faults rose.
    SinkFault,
    /// Memory ran out.
    Memory,
}

impl From<GetError> for QueryError {
    ghost use Rattle.ept_query.specs.Causes.{of_get};

    ghost from_gives = { λ error e. e ≡ of_get error };

    fn from(error: GetError) -> QueryError {
        match error {
            GetError::Failed => QueryError::StoreFault,
            GetError::Memory => QueryError::Memory,
        }
    }
}

/// A refusal of a sink, as [`Failed`].
impl From<Failed> for QueryError {
    ghost use Rattle.ept_query.specs.declared.query_error.QueryError.TheVariants.{SinkFault};

    ghost from_gives = { λ _ e. e ≡ SinkFault };

    fn from(_error: Failed) -> QueryError {
        QueryError::SinkFault
    }
}

impl From<AllocError> for QueryError {
    ghost use Rattle.ept_query.specs.declared.query_error.QueryError.TheVariants.{Memory};

    ghost from_gives = { λ _ e. e ≡ Memory };

    fn from(_error: AllocError) -> QueryError {
        QueryError::Memory
    }
}

impl<T: Drop> From<AllocFailed<T>> for QueryError {
    ghost use Rattle.ept_query.specs.declared.query_error.QueryError.TheVariants.{Memory};

    ghost from_gives = { λ _ e. e ≡ Memory };

    fn from(_error: AllocFailed<T>) -> QueryError {
        QueryError::Memory
    }
}

impl From<Memory> for QueryError {
    ghost use Rattle.ept_query.specs.declared.query_error.QueryError.TheVariants.{Memory};

    ghost from_gives = { λ _ e. e ≡ Memory };

    fn from(_error: Memory) -> QueryError {
        QueryError::Memory
    }
}
