//! Why a line has no result.

use ept_point::Memory as NoMemory;
use hex::FromHexError;
use std::alloc::{AllocError, AllocFailed};
use std::num::{ParseIntError, TryFromIntError};

/// Why a line has no result.
#[derive(Clone, Copy)]
pub(crate) enum Stop {
    /// The line is no call that this program knows.
    BadLine,
    /// Memory ran out.
    Memory,
}

/// The result of a line is appended to a text, unless there is none.
pub(crate) type Answered = Result<(), Stop>;

impl From<AllocError> for Stop {
    fn from(_error: AllocError) -> Stop {
        Stop::Memory
    }
}

impl<T: Drop> From<AllocFailed<T>> for Stop {
    fn from(_error: AllocFailed<T>) -> Stop {
        Stop::Memory
    }
}

impl From<NoMemory> for Stop {
    fn from(_error: NoMemory) -> Stop {
        Stop::Memory
    }
}

impl From<FromHexError> for Stop {
    fn from(error: FromHexError) -> Stop {
        match error {
            FromHexError::OutOfMemory => Stop::Memory,
            _ => Stop::BadLine,
        }
    }
}

impl From<ParseIntError> for Stop {
    fn from(_error: ParseIntError) -> Stop {
        Stop::BadLine
    }
}

impl From<TryFromIntError> for Stop {
    fn from(_error: TryFromIntError) -> Stop {
        Stop::BadLine
    }
}
