//! A file of which records are left.

ghost use Rattle.std.specs.Prelude.{◌≤◌};
ghost use Rattle.ept_config.specs.Counts.{most_points};

use crate::reading::Reading;
use ept_las::Header;
use ept_point::PointNumber;

/// A file in which the first reading found points, as the second reading reads it.
#[derive(Debug)]
pub(crate) struct Part<S> {
    pub(crate) source: S,
    /// How it is read. Its points have to lie within the extent that was found.
    pub(crate) reading: Reading,
    /// The number of points that was found in it.
    pub(crate) points: u64,
    pub(crate) ghost few: { points ≤ most_points },
}

/// The place of the second reading in a file.
#[derive(Clone, Copy, Debug)]
pub(crate) struct Cursor {
    /// What the header says, if it was read already.
    pub(crate) header: Option<Header>,
    /// The record that is read next.
    pub(crate) number: PointNumber,
}

impl Cursor {
    ghost use Rattle.std.specs.Prelude.{◌≡◌, None};

    /// Before a record of a file that was not read yet.
    pub(crate) fn before(number: PointNumber) -> Cursor
        ensures header { result.header ≡ None }
        ensures number { result.number ≡ number }
    {
        Cursor {
            header: None,
            number,
        }
    }
}
