//! Widths and places of the format.

use ept_space::Bounds;

/// How many bytes the name of the format and the number of the version take.
pub(crate) const MARK_LENGTH: usize = 8;

/// The place of the generation, in bytes.
pub(crate) const GENERATION_AT: u64 = 8;

/// The bounds of all places.
pub(crate) const WHOLE: Bounds = Bounds {
    min: [i32::MIN; 3],
    max: [i32::MAX; 3],
};
