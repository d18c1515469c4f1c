//! What identifies a point.

use crate::point::PointNumber;

/// What identifies a point: the place of its scan in the list of scans, and the number of its
/// record there, both from 0.
#[derive(Clone, Copy, Debug, PartialEq, Eq, PartialOrd, Ord)]
pub struct PointId {
    pub origin: u32,
    pub number: PointNumber,
}

impl PointId {
    ghost use Rattle.std.specs.Prelude.{IsTrue, ◌↔◌};
    ghost use Rattle.ept_point.specs.Order.{IsBefore};

    /// Whether this id is the lesser one: by the scan, then by the record.
    pub fn is_before(self, other: PointId) -> bool
        ensures { IsTrue result ↔ IsBefore self other }
    {
        self.origin < other.origin || (self.origin == other.origin && self.number < other.number)
    }
}
