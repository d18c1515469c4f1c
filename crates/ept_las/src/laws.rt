//! What holds of every header and record. Each law is the contract of a function that does nothing.

ghost use Rattle.ept_las.specs.Laws.{HeaderInOneWay, RecordInOneWay, IdentityIsInUnits, PlaceHasPoint};

/// The first bytes of a file read as one header, or as one fault.
pub fn header_once_law()
    ensures once { HeaderInOneWay }
{}

/// A record reads as one point, or as out of units.
pub fn record_once_law()
    ensures once { RecordInOneWay }
{}

/// A record whose coordinates are stored unchanged is never out of units.
pub fn identity_shift_law()
    ensures fits { IdentityIsInUnits }
{}

/// A record for which [`read_place`](crate::read_place) returns a place holds a point, which lies there.
pub fn place_law()
    ensures { PlaceHasPoint }
{}
