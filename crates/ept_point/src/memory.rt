//! Running out of memory.

use std::alloc::{AllocError, AllocFailed};

/// Memory ran out. A call returns it that can fail in no other way; an enum of errors has a variant of this name.
#[derive(Clone, Copy, Debug, PartialEq, Eq)]
pub struct Memory;

impl From<AllocError> for Memory {
    fn from(_error: AllocError) -> Memory {
        Memory
    }
}

impl<T: Drop> From<AllocFailed<T>> for Memory {
    fn from(_error: AllocFailed<T>) -> Memory {
        Memory
    }
}
