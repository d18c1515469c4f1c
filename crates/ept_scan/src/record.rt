//! The next record of a file.

ghost use Rattle.std.specs.Prelude.{◌≡◌, ◌<◌, ◌≤◌, ◌+◌, ◌-◌, ◌*◌, ◌^◌, ℕ, IfOk, OnOk, length, max};
ghost use Rattle.std.specs.Io.KnownBytes.{prepend_known};
ghost use Rattle.ept_base.specs.Causes.{HasCause};
ghost use Rattle.ept_las.specs.Format.{IsFormat, record_length};
ghost use Rattle.ept_scan.specs.Reach.{HasLeftOf};
ghost use Rattle.ept_scan.specs.Records.{BytesAre, FindsAllowed, FindsNumbered, ReadsNext, IsWithinReach, PlaceIs, FindsPlace};

use crate::extent::{is_allowed, may_lie};
use crate::reading::Reading;
use crate::window::{PIECE, Window};
use ept_base::{Failed, Source};
use ept_las::{Header, Place, read_place, read_record};
use ept_point::{Point, PointNumber};

/// What the next record of a file was found to be.
#[derive(Clone, Copy, Debug)]
pub(crate) enum Found<T> {
    /// The point of the record, or its place, which is where points may lie.
    At(T),
    /// Its place is not in stored units, or not within the limits.
    Outside,
    /// The file ends before its last byte.
    Early,
}

/// Reads record `number` of a file, which is the next one. The window and the source have the rest of the file from its
/// place on. It reads in pieces, and no further than the last record.
#[inline(always)]
pub(crate) fn next_point<S: Source>(
    window: &mut Window,
    source: &mut S,
    reading: &Reading,
    header: &Header,
    number: PointNumber,
) -> Result<Found<Point>, Failed>
    requires format { IsFormat header.now.format }
    requires size { record_length header.now.format ≤ header.now.length }
    requires more { number < header.now.points }
    ensures next { IfOk result (λ it. ReadsNext reading.now header.now number
        (prepend_known window.old (S.left source.old))
        (prepend_known window.new (S.left source.new)) it) }
    ensures allowed { IfOk result (FindsAllowed reading.now) }
    ensures numbered { IfOk result (FindsNumbered reading.now number) }
    ensures reach { IfOk result (λ it. IsWithinReach header.now.length (length window.new)
        (max (length window.old) (header.now.length * (header.now.points - number))) it) }
    ensures left { HasLeftOf (S.left source.old) (S.left source.new)
        (header.now.length * (header.now.points - number) - length window.old) }
    ensures given { S.given source.new ≤ S.given source.old
        + (header.now.length * (header.now.points - number) - length window.old) }
    ensures gained { OnOk result (S.given source.new + length window.old
        ≤ S.given source.old + length window.new + header.now.length) }
    ensures same { S.whole source.new ≡ S.whole source.old }
    ensures cause { HasCause (S.faults source.old) (S.faults source.new) result }
{
    let length = usize::from(header.length);
    if !window.fill(source, length, piece_of(header, number))? {
        return Ok(Found::Early);
    }
    let found = point_of(reading, header.format, &window.bytes()[..length], number);
    window.consume(length);
    Ok(found)
}

/// Reads the next record in the same way, but makes only its place and not the whole point.
#[inline(always)]
pub(crate) fn next_place<S: Source>(
    window: &mut Window,
    source: &mut S,
    reading: &Reading,
    header: &Header,
    number: PointNumber,
) -> Result<Found<Place>, Failed>
    requires format { IsFormat header.now.format }
    requires size { record_length header.now.format ≤ header.now.length }
    requires more { number < header.now.points }
    ensures next { IfOk result (FindsPlace reading.now header.now number
        (prepend_known window.old (S.left source.old))
        (prepend_known window.new (S.left source.new))) }
    ensures reach { IfOk result (λ it. IsWithinReach header.now.length (length window.new)
        (max (length window.old) (header.now.length * (header.now.points - number))) it) }
    ensures left { HasLeftOf (S.left source.old) (S.left source.new)
        (header.now.length * (header.now.points - number) - length window.old) }
    ensures given { S.given source.new ≤ S.given source.old
        + (header.now.length * (header.now.points - number) - length window.old) }
    ensures gained { OnOk result (S.given source.new + length window.old
        ≤ S.given source.old + length window.new + header.now.length) }
    ensures same { S.whole source.new ≡ S.whole source.old }
    ensures cause { HasCause (S.faults source.old) (S.faults source.new) result }
{
    let length = usize::from(header.length);
    if !window.fill(source, length, piece_of(header, number))? {
        return Ok(Found::Early);
    }
    let found = place_of(reading, &window.bytes()[..length]);
    window.consume(length);
    Ok(found)
}

// How many bytes may be read ahead from record `number` on: those of the records, at most a piece.
#[inline(always)]
fn piece_of(header: &Header, number: PointNumber) -> usize
    requires { number < header.now.points }
    ensures piece { result ≤ PIECE }
    ensures one { header.now.length ≤ result }
    ensures all { result ≤ header.now.length * (header.now.points - number) }
{
    let left = u64::from(header.length).saturating_mul(header.points - number);
    left.min(PIECE as u64) as usize
}

// The point of a record's bytes.
#[inline(always)]
fn point_of(reading: &Reading, format: u8, bytes: &[u8], number: PointNumber) -> Found<Point>
    requires format { IsFormat format }
    requires size { record_length format ≤ length bytes.now }
    ensures bytes { BytesAre reading.now format number bytes.now result }
    ensures allowed { FindsAllowed reading.now result }
    ensures numbered { FindsNumbered reading.now number result }
{
    let Ok(point) = read_record(format, bytes, &reading.shift, reading.origin, number) else {
        return Found::Outside;
    };
    if is_allowed(reading.limits, &point) {
        Found::At(point)
    } else {
        Found::Outside
    }
}

// The place of a record's bytes, of whatever format and number.
#[inline(always)]
fn place_of(reading: &Reading, bytes: &[u8]) -> Found<Place>
    requires { 20 ≤ length bytes.now }
    ensures { (format n : ℕ) → IsFormat format → record_length format ≤ length bytes.now → n < 2 ^ 64
        → PlaceIs reading.now format n bytes.now result }
{
    let Ok(place) = read_place(bytes, &reading.shift) else {
        return Found::Outside;
    };
    if may_lie(reading.limits, place) {
        Found::At(place)
    } else {
        Found::Outside
    }
}
