//! Which points pass, and which of their dimensions are kept.

use crate::dims::Dims;
use ept_class::ClassSet;
use ept_point::GPS_WIDTH;

/// Which points pass, and which of their dimensions are kept.
#[derive(Clone, Copy, Debug, PartialEq, Eq)]
pub struct Sift {
    /// The classes of the points that pass, or `None` for any class.
    pub classes: Option<ClassSet>,
    /// The bytes of the GPS time of the points that pass, or `None` for any time.
    pub time: Option<[u8; GPS_WIDTH]>,
    /// The dimensions that are kept of a point.
    pub dims: Dims,
}
