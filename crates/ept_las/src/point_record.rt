//! Point data records (LAS 1.4 R15, section 2.6).

ghost use Rattle.std.specs.Prelude.{◌≡◌, ◌+◌, ◌≤◌, ◌<◌, ◌^◌, ℕ, length, slice_index, IsOk};
ghost use Rattle.std.specs.Result.{result_ok};
ghost use Rattle.std.specs.Option.{IfSome};
ghost use Rattle.ept_las.specs.Format.{IsFormat, record_length};
ghost use Rattle.ept_las.specs.Shifts.{IsIdentity};
ghost use Rattle.ept_las.specs.PointRecord.{gps_of, colour_of, RecordReadsAs};

use crate::format::{colour_place, gps_place};
use crate::place::{OutOfUnits, read_place};
use crate::pulse::Pulse;
use crate::shift::Shift;
use crate::words::{bytes_at, u16_at};
use ept_point::{GPS_WIDTH, Point, PointNumber};

// The place of each field in a record, in bytes.
const INTENSITY_AT: usize = 12;

const USER_AT: usize = 17;

const COLOUR_WIDTH: usize = 2;

fn gps_of(place: Option<usize>, bytes: &[u8]) -> [u8; GPS_WIDTH]
    requires { IfSome place (λ at. at + 8 ≤ length bytes.now) }
    ensures value { result ≡ gps_of place bytes.now }
    ensures len { length result ≡ GPS_WIDTH }
    ensures bytes { (i : ℕ) → slice_index result i < 2 ^ 8 }
{
    match place {
        None => [0; GPS_WIDTH],
        Some(at) => bytes_at(bytes, at),
    }
}

fn colour_of(place: Option<usize>, which: usize, bytes: &[u8]) -> u16
    requires colour { which < 3 }
    requires room { IfSome place (λ at. at + 6 ≤ length bytes.now) }
    ensures { result ≡ colour_of place which bytes.now }
{
    match place {
        None => 0,
        Some(at) => u16_at(bytes, at + COLOUR_WIDTH * which),
    }
}

/// Reads the point of a record of this format: record `number` of the scan `source`. It takes no memory.
///
/// # Errors
///
/// `OutOfUnits` if and only if a stored coordinate does not fit into 32 bits.
#[inline(always)]
pub fn read_record(
    format: u8,
    bytes: &[u8],
    shift: &Shift,
    source: u32,
    number: PointNumber,
) -> Result<Point, OutOfUnits>
    requires format { IsFormat format }
    requires room { record_length format ≤ length bytes.now }
    ensures reads { RecordReadsAs format shift.now source number bytes.now (result_ok result) }
    ensures identity { IsIdentity shift.now → IsOk result }
{
    let place = read_place(bytes, shift)?;
    let pulse = Pulse::of(format, bytes);
    let colours = colour_place(format);
    Ok(Point {
        x: place.x,
        y: place.y,
        z: place.z,
        intensity: u16_at(bytes, INTENSITY_AT),
        return_number: pulse.return_number,
        number_of_returns: pulse.number_of_returns,
        scan_direction: pulse.scan_direction,
        edge: pulse.edge,
        class: pulse.class,
        class_flags: pulse.class_flags,
        channel: pulse.channel,
        angle_rank: pulse.angle_rank,
        angle: pulse.angle,
        user: bytes[USER_AT],
        source_id: pulse.source_id,
        gps: gps_of(gps_place(format), bytes),
        red: colour_of(colours, 0, bytes),
        green: colour_of(colours, 1, bytes),
        blue: colour_of(colours, 2, bytes),
        origin: source,
        number,
    })
}
