//! Where the bytes of each dimension are in a packed point.

ghost use Rattle.ept_filter.specs.Layout.{AreStarts};

use crate::rows::{DIMENSIONS, width_of};
use ept_point::PACKED_LENGTH;

/// The number of bounds: the start of each dimension, and the end of the last.
const BOUNDS: usize = DIMENSIONS + 1;

/// The start of the bytes of each dimension, and the end of the last.
#[derive(Drop)]
pub(crate) struct Layout {
    starts: [usize; BOUNDS],
    ghost are_starts: { AreStarts starts },
}

impl Layout {
    ghost use Rattle.std.specs.Prelude.{◌≡◌, ◌+◌, ◌<◌, ◌≤◌};
    ghost use Rattle.ept_point.specs.Dimensions.{packed_width};
    ghost use Rattle.ept_filter.specs.Dims.{count_of_dims};
    ghost use Rattle.ept_filter.specs.Layout.{part, start_of};

    /// The layout by the widths of the dimensions alone.
    pub(crate) fn new() -> Layout {
        let mut starts = [0; BOUNDS];
        for dim in 0..DIMENSIONS {
            starts[dim + 1] = starts[dim] + width_of(dim);
        }
        Layout { starts }
    }

    // Where the bytes of a dimension begin and end.
    fn bounds(&self, dim: u8) -> (usize, usize)
        requires { dim < count_of_dims }
        ensures begin { result.0 ≡ start_of dim }
        ensures end { result.1 ≡ start_of (dim + 1) }
        ensures ordered { result.0 ≤ result.1 }
        ensures within { result.1 ≤ packed_width }
    {
        let dim = usize::from(dim);
        (self.starts[dim], self.starts[dim + 1])
    }

    /// The bytes of a dimension.
    pub(crate) fn part<'a>(&self, packed: &'a [u8; PACKED_LENGTH], dim: u8) -> &'a [u8]
        requires { dim < count_of_dims }
        ensures { result.now ≡ part packed.now dim }
    {
        let (begin, end) = self.bounds(dim);
        &packed[begin..end]
    }
}
