//! The packed point: its fields as little-endian bytes, one after another.

ghost use Rattle.std.specs.Prelude.{◌≡◌, ◌++◌, ◌+◌, ◌≤◌, ◌<◌, ◌^◌, ℕ, length, slice_index, IsNone, IfSome, Some, ◌↔◌, take, drop};
ghost use Rattle.std.specs.Int.{cast_unsigned, w8, w16, w32};
ghost use Rattle.ept_point.specs.Packed.{little_endian, number_in, packed, old_packed, HasFieldAboveBound};
ghost use Rattle.ept_point.specs.Layout.{FitsIn, HasFieldAboveIn};
ghost use Rattle.ept_point.specs.declared.layout.Layout.TheVariants.{Old};
ghost use Rattle.ept_point.specs.declared.point.Point.{Point};

use crate::point::{MAX_CHANNEL, MAX_CLASS_FLAGS, MAX_FLAG, MAX_RETURNS, NUMBER_WIDTH, Point};

// The bytes of a packed point before the number of its record.
const FRONT_LENGTH: usize = 45;

/// The length of a packed point, in bytes.
pub const PACKED_LENGTH: usize = FRONT_LENGTH + NUMBER_WIDTH;

/// The length of a point in the old layout, in bytes: the number of its record has four.
pub const OLD_LENGTH: usize = FRONT_LENGTH + 4;

// The bytes at a place.
fn chunk_at<const N: usize>(bytes: &[u8], at: usize) -> [u8; N]
    requires { at + N ≤ length bytes.now }
    ensures value { result ≡ take N (drop at bytes.now) }
    ensures len { length result ≡ N }
    ensures bytes { (i : ℕ) → slice_index result i < 2 ^ 8 }
{
    *bytes[at..].first_chunk().unwrap()
}

fn u8_at(bytes: &[u8], at: usize) -> u8
    requires { at < length bytes.now }
    ensures { little_endian 1 result ≡ take 1 (drop at bytes.now) }
{
    bytes[at]
}

// The byte at a place, or `None` if it is above its greatest value.
fn bounded_at(bytes: &[u8], at: usize, greatest: u8) -> Option<u8>
    requires { at < length bytes.now }
    ensures value { IfSome result (λ n. little_endian 1 n ≡ take 1 (drop at bytes.now)) }
    ensures number { IfSome result (λ n. number_in (take 1 (drop at bytes.now)) ≡ n) }
    ensures within { IfSome result (λ n. n ≤ greatest) }
    ensures above { IsNone result → greatest < number_in (take 1 (drop at bytes.now)) }
{
    let number = u8_at(bytes, at);
    (number <= greatest).then_some(number)
}

fn i8_at(bytes: &[u8], at: usize) -> i8
    requires { at < length bytes.now }
    ensures { little_endian 1 (cast_unsigned w8 result) ≡ take 1 (drop at bytes.now) }
{
    u8_at(bytes, at).cast_signed()
}

fn u16_at(bytes: &[u8], at: usize) -> u16
    requires { at + 2 ≤ length bytes.now }
    ensures { little_endian 2 result ≡ take 2 (drop at bytes.now) }
{
    u16::from_le_bytes(chunk_at(bytes, at))
}

fn i16_at(bytes: &[u8], at: usize) -> i16
    requires { at + 2 ≤ length bytes.now }
    ensures { little_endian 2 (cast_unsigned w16 result) ≡ take 2 (drop at bytes.now) }
{
    u16_at(bytes, at).cast_signed()
}

fn u32_at(bytes: &[u8], at: usize) -> u32
    requires { at + 4 ≤ length bytes.now }
    ensures { little_endian 4 result ≡ take 4 (drop at bytes.now) }
{
    u32::from_le_bytes(chunk_at(bytes, at))
}

fn u64_at(bytes: &[u8], at: usize) -> u64
    requires { at + 8 ≤ length bytes.now }
    ensures { little_endian 8 result ≡ take 8 (drop at bytes.now) }
{
    u64::from_le_bytes(chunk_at(bytes, at))
}

fn i32_at(bytes: &[u8], at: usize) -> i32
    requires { at + 4 ≤ length bytes.now }
    ensures { little_endian 4 (cast_unsigned w32 result) ≡ take 4 (drop at bytes.now) }
{
    u32_at(bytes, at).cast_signed()
}

/// The point that these bytes are the packed form of. `None` if and only if one of the six bounded fields is above its
/// greatest value. It takes no memory.
pub fn unpack(bytes: &[u8; PACKED_LENGTH]) -> Option<Point>
    ensures point { IfSome result (λ p. packed p ≡ bytes.now) }
    ensures none { IsNone result ↔ HasFieldAboveBound bytes.now }
    ensures inverse { (p : Point) → packed p ≡ bytes.now → result ≡ Some p }
{
    Some(Point {
        x: i32_at(bytes, 0),
        y: i32_at(bytes, 4),
        z: i32_at(bytes, 8),
        intensity: u16_at(bytes, 12),
        return_number: bounded_at(bytes, 14, MAX_RETURNS)?,
        number_of_returns: bounded_at(bytes, 15, MAX_RETURNS)?,
        scan_direction: bounded_at(bytes, 16, MAX_FLAG)?,
        edge: bounded_at(bytes, 17, MAX_FLAG)?,
        class: u8_at(bytes, 18),
        class_flags: bounded_at(bytes, 19, MAX_CLASS_FLAGS)?,
        channel: bounded_at(bytes, 20, MAX_CHANNEL)?,
        angle_rank: i8_at(bytes, 21),
        angle: i16_at(bytes, 22),
        user: u8_at(bytes, 24),
        source_id: u16_at(bytes, 25),
        gps: chunk_at(bytes, 27),
        red: u16_at(bytes, 35),
        green: u16_at(bytes, 37),
        blue: u16_at(bytes, 39),
        origin: u32_at(bytes, 41),
        number: u64_at(bytes, 45),
    })
}

// Writes bytes over the start of `into`. What follows them stays.
fn put_front(into: &mut [u8], bytes: &[u8])
    requires { length bytes.now ≤ length into.old }
    ensures { into.new ≡ bytes.now ++ drop (length bytes.now) into.old }
{
    into[..bytes.len()].copy_from_slice(bytes);
}

/// The point that these bytes are the old packed form of. `None` if and only if one of the six bounded fields is above
/// its greatest value. It takes no memory.
pub fn unpack_old(bytes: &[u8; OLD_LENGTH]) -> Option<Point>
    ensures point { IfSome result (λ p. old_packed p ≡ bytes.now) }
    ensures fits { IfSome result (FitsIn Old) }
    ensures none { IsNone result ↔ HasFieldAboveIn Old bytes.now }
    ensures inverse { (p : Point) → FitsIn Old p → old_packed p ≡ bytes.now → result ≡ Some p }
{
    let mut packed = [0; PACKED_LENGTH];
    put_front(&mut packed, bytes);
    unpack(&packed)
}

/// The packed point. It takes no memory.
pub fn pack(point: &Point) -> [u8; PACKED_LENGTH]
    ensures bytes { result ≡ packed point.now }
{
    let x = point.x.to_le_bytes();
    let y = point.y.to_le_bytes();
    let z = point.z.to_le_bytes();
    let intensity = point.intensity.to_le_bytes();
    let angle = point.angle.to_le_bytes();
    let source_id = point.source_id.to_le_bytes();
    let gps = point.gps;
    let red = point.red.to_le_bytes();
    let green = point.green.to_le_bytes();
    let blue = point.blue.to_le_bytes();
    let origin = point.origin.to_le_bytes();
    let number = point.number.to_le_bytes();
    [
        x[0],
        x[1],
        x[2],
        x[3],
        y[0],
        y[1],
        y[2],
        y[3],
        z[0],
        z[1],
        z[2],
        z[3],
        intensity[0],
        intensity[1],
        point.return_number,
        point.number_of_returns,
        point.scan_direction,
        point.edge,
        point.class,
        point.class_flags,
        point.channel,
        point.angle_rank.cast_unsigned(),
        angle[0],
        angle[1],
        point.user,
        source_id[0],
        source_id[1],
        gps[0],
        gps[1],
        gps[2],
        gps[3],
        gps[4],
        gps[5],
        gps[6],
        gps[7],
        red[0],
        red[1],
        green[0],
        green[1],
        blue[0],
        blue[1],
        origin[0],
        origin[1],
        origin[2],
        origin[3],
        number[0],
        number[1],
        number[2],
        number[3],
        number[4],
        number[5],
        number[6],
        number[7],
    ]
}
