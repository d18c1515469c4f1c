//! A point of a scan.

ghost use Rattle.ept_point.specs.Dimensions.{IsWithin, ReturnNumber, NumberOfReturns, ScanDirectionFlag, EdgeOfFlightLine, ClassFlags, ScanChannel};
ghost use Rattle.ept_point.specs.Widths.{FitWidths};

use crate::id::PointId;

/// The number of a record in its scan, from 0.
pub type PointNumber = u64;

/// How many bytes the number of a record takes.
pub const NUMBER_WIDTH: usize = 8;

/// How many bytes the GPS time takes.
pub const GPS_WIDTH: usize = 8;

/// The greatest return number and the greatest number of returns (LAS 1.4 R15, formats 6 to 10).
pub const MAX_RETURNS: u8 = 15;

/// The greatest value of a field of one bit.
pub const MAX_FLAG: u8 = 1;

/// All four classification flags together.
pub const MAX_CLASS_FLAGS: u8 = 15;

/// The greatest scanner channel.
pub const MAX_CHANNEL: u8 = 3;

/// A point: the dimensions of a LAS record (LAS 1.4 R15), then where it came from. What its record
/// format lacks is zero.
#[derive(Clone, Copy, Debug, PartialEq, Eq)]
pub struct Point {
    /// The place, in stored units.
    pub x: i32,
    pub y: i32,
    pub z: i32,
    pub intensity: u16,
    /// Which return of its pulse this is, at most `MAX_RETURNS`.
    pub return_number: u8,
    /// How many returns the pulse had, at most `MAX_RETURNS`.
    pub number_of_returns: u8,
    /// 1 if the mirror moved in the positive direction.
    pub scan_direction: u8,
    /// 1 at the edge of a flight line.
    pub edge: u8,
    pub class: u8,
    /// Bit 0 is synthetic, 1 key-point, 2 withheld, 3 overlap.
    pub class_flags: u8,
    /// The scanner channel, at most `MAX_CHANNEL`.
    pub channel: u8,
    /// The scan angle in degrees, in the formats 0 to 3.
    pub angle_rank: i8,
    /// The scan angle in steps of 0.006 degrees, in the formats 6 and 7.
    pub angle: i16,
    pub user: u8,
    pub source_id: u16,
    /// The GPS time as its eight bytes, which nothing here reads as a number.
    pub gps: [u8; GPS_WIDTH],
    pub red: u16,
    pub green: u16,
    pub blue: u16,
    /// The place of its scan in the list of scans, from 0.
    pub origin: u32,
    /// The number of its record in that scan, from 0.
    pub number: PointNumber,
    ghost return_number_bound: { IsWithin ReturnNumber return_number },
    ghost number_of_returns_bound: { IsWithin NumberOfReturns number_of_returns },
    ghost scan_direction_bound: { IsWithin ScanDirectionFlag scan_direction },
    ghost edge_bound: { IsWithin EdgeOfFlightLine edge },
    ghost class_flags_bound: { IsWithin ClassFlags class_flags },
    ghost channel_bound: { IsWithin ScanChannel channel },
    // What the widths of the fields say, since a definition sees numbers without a width.
    ghost widths: { FitWidths x y z intensity class angle_rank angle user source_id gps red green blue origin number },
}

impl Point {
    ghost use Rattle.std.specs.Prelude.{◌≡◌};
    ghost use Rattle.ept_point.specs.Order.{id};

    /// What identifies the point.
    pub fn id(&self) -> PointId
        ensures { result ≡ id self.now }
    {
        PointId {
            origin: self.origin,
            number: self.number,
        }
    }
}
