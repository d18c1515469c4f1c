//! The dimensions that are asked for.

ghost use Rattle.ept_filter.specs.Dims.{AreDims};

use crate::rows::DIMENSIONS;

/// Dimensions in the order in which they are asked for: at least one, and none twice. Each is given by its row in the
/// table of dimensions, from 0. The entries from `len` on are 0.
#[derive(Clone, Copy, Debug, PartialEq, Eq)]
pub struct Dims {
    pub rows: [u8; DIMENSIONS],
    pub len: u8,
    ghost dims: { AreDims rows len },
}

impl Dims {
    ghost use Rattle.std.specs.Prelude.{◌≡◌};
    ghost use Rattle.ept_filter.specs.Asked.{asked_rows};
    ghost use Rattle.ept_filter.specs.Dims.{all_dims};

    /// All dimensions, in the order of their bytes.
    pub fn all() -> Dims
        ensures all { asked_rows result ≡ all_dims }
    {
        Dims {
            rows: [
                0, 1, 2, 3, 4, 5, 6, 7, 8, 9, 10, 11, 12, 13, 14, 15, 16, 17, 18, 19, 20,
            ],
            len: DIMENSIONS as u8,
        }
    }

    /// The rows that are asked for, in order.
    pub fn rows(&self) -> &[u8]
        ensures rows { result.now ≡ asked_rows self.now }
    {
        &self.rows[..usize::from(self.len)]
    }
}
