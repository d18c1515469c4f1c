ghost use Rattle.std.specs.Prelude.{◌≡◌};
ghost use Rattle.ept_base.specs.declared.errors.GetError.TheVariants as get;
ghost use Rattle.ept_base.specs.declared.errors.PutError.TheVariants as put;

use std::alloc::{AllocError, AllocFailed};

/// The fault of a device: its count of faults rose in the call that returns it.
#[derive(Clone, Copy, Debug, PartialEq, Eq)]
pub struct Failed;

/// Why a call that returns bytes or a source was refused.
#[derive(Clone, Copy, Debug, PartialEq, Eq)]
pub enum GetError {
    /// The device failed: its count of faults rose.
    Failed,
    /// Memory ran out.
    Memory,
}

/// Why a call that writes, or that makes a file, was refused.
#[derive(Clone, Copy, Debug, PartialEq, Eq)]
pub enum PutError {
    /// The device failed: its count of faults rose.
    Failed,
    /// Memory ran out.
    Memory,
}

impl From<Failed> for GetError {
    ghost from_gives = { λ _ error. error ≡ get.Failed };

    fn from(_: Failed) -> Self {
        GetError::Failed
    }
}

impl From<AllocError> for GetError {
    ghost from_gives = { λ _ error. error ≡ get.Memory };

    fn from(_: AllocError) -> Self {
        GetError::Memory
    }
}

impl<T: Drop> From<AllocFailed<T>> for GetError {
    ghost from_gives = { λ _ error. error ≡ get.Memory };

    fn from(_: AllocFailed<T>) -> Self {
        GetError::Memory
    }
}

impl From<Failed> for PutError {
    ghost from_gives = { λ _ error. error ≡ put.Failed };

    fn from(_: Failed) -> Self {
        PutError::Failed
    }
}

impl From<AllocError> for PutError {
    ghost from_gives = { λ _ error. error ≡ put.Memory };

    fn from(_: AllocError) -> Self {
        PutError::Memory
    }
}

impl<T: Drop> From<AllocFailed<T>> for PutError {
    ghost from_gives = { λ _ error. error ≡ put.Memory };

    fn from(_: AllocFailed<T>) -> Self {
        PutError::Memory
    }
}
