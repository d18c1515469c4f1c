//! The next record of the second reading.

ghost use Rattle.std.specs.Prelude.{◌≡◌, ◌≢◌, ◌<◌, ◌≤◌, ◌+◌, ◌*◌, Err, IfOk, IfErr, OnOk, OnErr, length};
ghost use Rattle.ept_base.specs.Causes.{HasCauseOf};
ghost use Rattle.ept_base.specs.Files.{Tells};
ghost use Rattle.ept_config.specs.Counts.{most_points};
ghost use Rattle.ept_scan.specs.Extents.{IsAllowed};
ghost use Rattle.ept_scan.specs.Changes.{IsChange, HasRecord, change_of};
ghost use Rattle.ept_scan.specs.Places.{IsWithinFile, StandsAt, GivenAt};
ghost use Rattle.ept_scan.specs.Reach.{ReadsNoFurther, TakesOfFile};

use crate::las_file::{begin, skip};
use crate::part::{Cursor, Part};
use crate::read_error::ReadError;
use crate::reading::Reading;
use crate::record::{Found, next_point};
use crate::scan_error::ScanError;
use crate::window::Window;
use ept_base::Source;
use ept_las::Header;
use ept_point::{Point, PointNumber};

/// Reads the next record of a file, and moves on to the one after it. The file has a next record.
#[inline(always)]
pub(crate) fn draw<S: Source>(
    window: &mut Window,
    part: &mut Part<S>,
    cursor: &mut Cursor,
) -> Result<Point, ReadError>
    requires more { cursor.old.number < part.old.points }
    requires at { StandsAt part.old.reading part.old.points (S.whole part.old.source)
        (S.left part.old.source) window.old cursor.old.number cursor.old.header }
    requires given_at { GivenAt (S.given part.old.source) window.old cursor.old.number cursor.old.header }
    ensures allowed { IfOk result (λ p. IsAllowed part.old.reading.limits p) }
    ensures origin { IfOk result (λ p. p.origin ≡ part.old.reading.origin) }
    ensures number { IfOk result (λ p. p.number ≡ cursor.old.number) }
    ensures record { IfOk result (λ p. Tells
        (λ file. HasRecord part.old.reading part.old.points file cursor.old.number p)
        (S.whole part.old.source)) }
    ensures changed { IfErr result (IsChange part.old.reading part.old.points cursor.old.number
        (S.whole part.old.source)) }
    ensures enough { result ≢ Err ReadError.Memory }
    ensures next { OnOk result (cursor.new.number ≡ cursor.old.number + 1) }
    ensures at { OnOk result (StandsAt part.old.reading part.old.points (S.whole part.old.source)
        (S.left part.new.source) window.new cursor.new.number cursor.new.header) }
    ensures given_at { OnOk result (GivenAt (S.given part.new.source) window.new cursor.new.number
        cursor.new.header) }
    ensures far { ReadsNoFurther part.old.reading (S.whole part.old.source) (S.left part.new.source) }
    ensures given { Tells (λ file. TakesOfFile part.old.reading file 0 (S.given part.new.source))
        (S.whole part.old.source) }
    ensures same { S.whole part.new.source ≡ S.whole part.old.source }
    ensures reading { part.new.reading ≡ part.old.reading }
    ensures points { part.new.points ≡ part.old.points }
    ensures cause { HasCauseOf ReadError.SourceFault (S.faults part.old.source)
        (S.faults part.new.source) result }
{
    let number = cursor.number;
    let header = header_at(
        window,
        &mut part.source,
        &part.reading,
        part.points,
        cursor.header,
        number,
    )?;
    let found = next_point(window, &mut part.source, &part.reading, &header, number)?;
    let Found::At(point) = found else {
        return Err(ReadError::SourceChanged {
            source: part.reading.origin,
            number,
        });
    };
    cursor.header = Some(header);
    cursor.number = number + 1;
    Ok(point)
}

// The header of a file. If it was not read yet, it is read now. The place is then before this record.
#[inline(always)]
fn header_at<S: Source>(
    window: &mut Window,
    source: &mut S,
    reading: &Reading,
    points: u64,
    header: Option<Header>,
    number: PointNumber,
) -> Result<Header, ReadError>
    requires more { number < points }
    requires few { points ≤ most_points }
    requires at { StandsAt reading.now points (S.whole source.old)
        (S.left source.old) window.old number header }
    requires given_at { GivenAt (S.given source.old) window.old number header }
    ensures at { IfOk result (IsWithinFile reading.now points (S.whole source.old)
        (S.left source.new) window.new number) }
    ensures given_at { IfOk result (λ h. S.given source.new
        ≤ length window.new + (h.offset + h.length * number)) }
    ensures changed { IfErr result (IsChange reading.now points number (S.whole source.old)) }
    ensures enough { result ≢ Err ReadError.Memory }
    ensures far { OnErr result (ReadsNoFurther reading.now (S.whole source.old) (S.left source.new)) }
    ensures given { OnErr result (Tells (λ file. TakesOfFile reading.now file 0 (S.given source.new))
        (S.whole source.old)) }
    ensures same { S.whole source.new ≡ S.whole source.old }
    ensures cause { HasCauseOf ReadError.SourceFault (S.faults source.old) (S.faults source.new) result }
{
    match header {
        Some(header) => Ok(header),
        None => start(window, source, reading, points, number),
    }
}

// Reads the header of a file from its first byte, and passes over the records before this one.
#[inline(never)]
fn start<S: Source>(
    window: &mut Window,
    source: &mut S,
    reading: &Reading,
    points: u64,
    number: PointNumber,
) -> Result<Header, ReadError>
    requires more { number < points }
    requires few { points ≤ most_points }
    requires front { S.left source.old ≡ S.whole source.old }
    requires unread { S.given source.old ≡ 0 }
    ensures at { IfOk result (IsWithinFile reading.now points (S.whole source.old)
        (S.left source.new) window.new number) }
    ensures given_at { IfOk result (λ h. S.given source.new
        ≤ length window.new + (h.offset + h.length * number)) }
    ensures changed { IfErr result (IsChange reading.now points number (S.whole source.old)) }
    ensures enough { result ≢ Err ReadError.Memory }
    ensures far { OnErr result (ReadsNoFurther reading.now (S.whole source.old) (S.left source.new)) }
    ensures given { OnErr result (Tells (λ file. TakesOfFile reading.now file 0 (S.given source.new))
        (S.whole source.old)) }
    ensures same { S.whole source.new ≡ S.whole source.old }
    ensures cause { HasCauseOf ReadError.SourceFault (S.faults source.old) (S.faults source.new) result }
{
    let origin = reading.origin;
    let header = match begin(window, source, reading) {
        Ok(header) => header,
        Err(refused) => return Err(change_of(refused, origin)),
    };
    if header.points != points {
        return Err(ReadError::SourceChanged {
            source: origin,
            number: 0,
        });
    }
    let before = u64::from(header.length) * number;
    skip(window, source, u64::from(header.offset) + before)?;
    Ok(header)
}

// The error for a refused header: a fault of the source, or a change of this file.
fn change_of(refused: ScanError, origin: u32) -> ReadError
    ensures { result ≡ change_of refused origin }
{
    match refused {
        ScanError::SourceFault => ReadError::SourceFault,
        _ => ReadError::SourceChanged {
            source: origin,
            number: 0,
        },
    }
}
