//! A file up to its first record, and its first reading.

ghost use Rattle.std.specs.Prelude.{◌≡◌, ◌≢◌, ◌≤◌, ◌+◌, ◌-◌, ◌*◌, Err, IfOk, IfErr, OnOk, length};
ghost use Rattle.std.specs.Io.KnownBytes.{prepend_known, Keeps};
ghost use Rattle.ept_base.specs.Causes.{HasCause, HasCauseOf};
ghost use Rattle.ept_base.specs.Files.{Tells};
ghost use Rattle.ept_las.specs.Format.{IsFormat, record_length};
ghost use Rattle.ept_las.specs.LasHeader.{HeaderReadsAs};
ghost use Rattle.ept_config.specs.Counts.{most_points};
ghost use Rattle.ept_scan.specs.Counts.{FindsExtent, FindsCount};
ghost use Rattle.ept_scan.specs.LasFile.{HasHeader, ArePointsOf};
ghost use Rattle.ept_scan.specs.Reach.{HasLeftOf, Skips, ReadsNoFurther, TakesOfFile};
ghost use Rattle.ept_scan.specs.Refusals.{HeaderIsRefused, RecordsAreRefused, FileIsRefused, NamesInput};

use crate::extent::grown;
use crate::reading::Reading;
use crate::record::{Found, next_place};
use crate::scan_error::ScanError;
use crate::window::{PIECE, Window};
use ept_base::{Failed, Source};
use ept_config::{MAX_POINTS, SourceCount};
use ept_las::{HEAD_LENGTH, Header, LasError, SCALE_WIDTH, read_header};
use ept_space::Bounds;

/// Reads a file from its first byte to its last record.
pub(crate) fn scan_file<S: Source>(
    window: &mut Window,
    source: &mut S,
    reading: &Reading,
) -> Result<SourceCount, ScanError>
    requires { S.left source.old ≡ S.whole source.old }
    ensures count { IfOk result (FindsCount reading.now.limits
        (λ points. Tells (λ file. ArePointsOf reading.now file points) (S.whole source.old))) }
    ensures refused { IfErr result (λ e. Tells (λ file. FileIsRefused reading.now file e)
        (S.whole source.old)) }
    ensures named { IfErr result (NamesInput reading.now.origin) }
    ensures far { ReadsNoFurther reading.now (S.whole source.old) (S.left source.new) }
    ensures given { Tells (λ file. TakesOfFile reading.now file (S.given source.old) (S.given source.new))
        (S.whole source.old) }
    ensures same { S.whole source.new ≡ S.whole source.old }
    ensures cause { HasCauseOf ScanError.SourceFault (S.faults source.old) (S.faults source.new) result }
{
    let header = begin(window, source, reading)?;
    if header.points > MAX_POINTS {
        return Err(ScanError::TooManyPoints {
            source: reading.origin,
        });
    }
    if header.points == 0 {
        return Ok(SourceCount {
            points: 0,
            extent: None,
        });
    }
    skip(window, source, u64::from(header.offset))?;
    let extent = scan_records(window, source, reading, &header)?;
    Ok(SourceCount {
        points: header.points,
        extent,
    })
}

/// Reads the header of a file from its first byte. The window and the source then have the whole file.
pub(crate) fn begin<S: Source>(
    window: &mut Window,
    source: &mut S,
    reading: &Reading,
) -> Result<Header, ScanError>
    ensures header { IfOk result (λ h. Tells (λ file. HasHeader reading.now file h) (S.left source.old)) }
    ensures format { IfOk result (λ h. IsFormat h.format) }
    ensures size { IfOk result (λ h. record_length h.format ≤ h.length) }
    ensures refused { IfErr result (λ e. Tells (λ file. HeaderIsRefused reading.now file e)
        (S.left source.old)) }
    ensures named { IfErr result (NamesInput reading.now.origin) }
    ensures enough { result ≢ Err ScanError.Memory }
    ensures ahead { OnOk result (Keeps (S.left source.old) (prepend_known window.new (S.left source.new))) }
    ensures reach { OnOk result (length window.new ≤ HEAD_LENGTH) }
    ensures left { HasLeftOf (S.left source.old) (S.left source.new) HEAD_LENGTH }
    ensures given { S.given source.new ≤ S.given source.old + HEAD_LENGTH }
    ensures gained { OnOk result (S.given source.new ≤ S.given source.old + length window.new) }
    ensures same { S.whole source.new ≡ S.whole source.old }
    ensures cause { HasCauseOf ScanError.SourceFault (S.faults source.old) (S.faults source.new) result }
{
    window.clear();
    window.refill(source, HEAD_LENGTH)?;
    match header_of(window.bytes(), reading.expect) {
        Ok(header) => Ok(header),
        Err(fault) => Err(ScanError::BadLas {
            source: reading.origin,
            fault,
        }),
    }
}

// The header in the first bytes of a file.
fn header_of(bytes: &[u8], expect: Option<[u8; SCALE_WIDTH]>) -> Result<Header, LasError>
    requires { length bytes.now ≤ HEAD_LENGTH }
    ensures reads { HeaderReadsAs bytes.now expect result }
    ensures format { IfOk result (λ h. IsFormat h.format) }
    ensures size { IfOk result (λ h. record_length h.format ≤ h.length) }
{
    let mut head = [0; HEAD_LENGTH];
    head[..bytes.len()].copy_from_slice(bytes);
    read_header(&head, bytes.len(), expect)
}

/// Passes over `count` of the bytes ahead, or over all if there are fewer.
pub(crate) fn skip<S: Source>(window: &mut Window, source: &mut S, count: u64) -> Result<(), Failed>
    ensures ahead { OnOk result (Skips (prepend_known window.old (S.left source.old))
        (prepend_known window.new (S.left source.new)) count) }
    ensures reach { OnOk result (length window.new ≤ length window.old - count) }
    ensures left { HasLeftOf (S.left source.old) (S.left source.new) (count - length window.old) }
    ensures given { S.given source.new ≤ S.given source.old + (count - length window.old) }
    ensures gained { OnOk result (S.given source.new + length window.old
        ≤ S.given source.old + length window.new + count) }
    ensures same { S.whole source.new ≡ S.whole source.old }
    ensures cause { HasCause (S.faults source.old) (S.faults source.new) result }
{
    let mut rest = count;
    while rest > 0 {
        if !window.fill(source, 1, rest.min(PIECE as u64) as usize)? {
            return Ok(());
        }
        let held = rest.min(window.len() as u64);
        window.consume(held as usize);
        rest -= held;
    }
    Ok(())
}

// Reads all records, which are what is ahead, and returns the extent of their points.
fn scan_records<S: Source>(
    window: &mut Window,
    source: &mut S,
    reading: &Reading,
    header: &Header,
) -> Result<Option<Bounds>, ScanError>
    requires format { IsFormat header.now.format }
    requires size { record_length header.now.format ≤ header.now.length }
    requires few { header.now.points ≤ most_points }
    ensures extent { IfOk result (FindsExtent reading.now header.now
        (prepend_known window.old (S.left source.old))) }
    ensures refused { IfErr result (λ e. Tells
        (λ records. RecordsAreRefused reading.now header.now records e)
        (prepend_known window.old (S.left source.old))) }
    ensures named { IfErr result (NamesInput reading.now.origin) }
    ensures left { HasLeftOf (S.left source.old) (S.left source.new)
        (header.now.length * header.now.points - length window.old) }
    ensures given { S.given source.new ≤ S.given source.old
        + (header.now.length * header.now.points - length window.old) }
    ensures same { S.whole source.new ≡ S.whole source.old }
    ensures cause { HasCauseOf ScanError.SourceFault (S.faults source.old) (S.faults source.new) result }
{
    let mut extent = None;
    for number in 0..header.points {
        match next_place(window, source, reading, header, number)? {
            Found::At(place) => extent = Some(grown(extent, place)),
            Found::Outside => {
                return Err(ScanError::OutOfBounds {
                    source: reading.origin,
                    number,
                });
            }
            Found::Early => {
                return Err(ScanError::BadLas {
                    source: reading.origin,
                    fault: LasError::Truncated { number },
                });
            }
        }
    }
    Ok(extent)
}
