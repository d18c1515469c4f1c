//! The dimensions of a packed point, each by its row in their table, from 0.

ghost use Rattle.std.specs.Prelude.{◌≡◌, ◌≢◌, ◌<◌, ℕ, IfSome, IfNone};
ghost use Rattle.ept_filter.specs.Dims.{count_of_dims, name_of, width_of};

use ept_point::{GPS_WIDTH, NUMBER_WIDTH};

/// The number of dimensions of a packed point.
pub(crate) const DIMENSIONS: usize = 21;

/// The row of the class.
pub(crate) const CLASS_ROW: u8 = 8;

/// The row of the GPS time.
pub(crate) const TIME_ROW: u8 = 15;

/// The names of the dimensions, in the order of their bytes.
const NAMES: [&str; DIMENSIONS] = [
    "X",
    "Y",
    "Z",
    "Intensity",
    "ReturnNumber",
    "NumberOfReturns",
    "ScanDirectionFlag",
    "EdgeOfFlightLine",
    "Classification",
    "ClassFlags",
    "ScanChannel",
    "ScanAngleRank",
    "ScanAngle",
    "UserData",
    "PointSourceId",
    "GpsTime",
    "Red",
    "Green",
    "Blue",
    "OriginId",
    "PointId",
];

/// The number of bytes of each dimension, in the same order.
const WIDTHS: [usize; DIMENSIONS] = [
    4,
    4,
    4,
    2,
    1,
    1,
    1,
    1,
    1,
    1,
    1,
    1,
    2,
    1,
    2,
    GPS_WIDTH,
    2,
    2,
    2,
    4,
    NUMBER_WIDTH,
];

// The name of a dimension.
fn name_of(dim: usize) -> &'static [u8]
    requires { dim < count_of_dims }
    ensures { result.now ≡ name_of dim }
{
    NAMES[dim].as_bytes()
}

/// The number of bytes of a dimension.
pub(crate) fn width_of(dim: usize) -> usize
    requires { dim < count_of_dims }
    ensures { result ≡ width_of dim }
{
    WIDTHS[dim]
}

/// The row of the dimension with this name.
pub(crate) fn row_named(name: &[u8]) -> Option<u8>
    ensures some { IfSome result (λ dim. (dim < count_of_dims) × (name_of dim ≡ name.now)) }
    ensures none { IfNone result ((dim : ℕ) → dim < count_of_dims → name_of dim ≢ name.now) }
{
    for dim in 0..DIMENSIONS {
        if name_of(dim) == name {
            return Some(dim as u8);
        }
    }
    None
}
