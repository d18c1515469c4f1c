//! That no slot is left.

/// Each slot is drawn.
#[derive(Clone, Copy, Debug, PartialEq, Eq)]
pub struct Full;
