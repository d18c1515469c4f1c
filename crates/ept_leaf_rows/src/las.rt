//! Calls of `ept_las`.

ghost use Rattle.std.specs.Prelude.{◌≤◌, ◌^◌, unsigned_abs, IfOk, slice_index_or, pos};

use crate::notation::bytes_of;
use crate::words::{Miss, Words, number, parted};
use crate::writing::{write_bytes, write_refusal};
use ept_las::{
    HEAD_LENGTH, Header, LasError, SCALE_WIDTH, Shift, is_format, read_header, read_place,
    read_record, record_length,
};
use ept_point::pack;
use std::alloc::Global;
use std::fmt::Write;

// The greatest factor and the greatest distance of a shift.
const MOST_FACTOR: i64 = 1_000_000_000;

const MOST_DISTANCE: u64 = 1_000_000_000_000_000;

/// Carries out a call, and writes its result.
pub(crate) fn answer(
    alloc: Global,
    call: &str,
    words: &mut Words<'_>,
    out: &mut String,
) -> Result<(), Miss> {
    match call {
        "header" => header(alloc, words, out),
        "record" => record(alloc, words, out),
        "place" => place(alloc, words, out),
        "truncated" => truncated(words, out),
        _ => Err(Miss::Form),
    }
}

// `las header LENGTH EXPECTED AT=HEX AT=HEX ..`: the header of the first LENGTH of these bytes, which are 0 unless a
// word sets them. If EXPECTED is `zeros`, the scales and offsets have to be bytes of 0. If it is `any`, they are free.
fn header(alloc: Global, words: &mut Words<'_>, out: &mut String) -> Result<(), Miss> {
    let len = words.number::<usize>()?;
    let expected = match words.word()? {
        "any" => None,
        "zeros" => Some([0; SCALE_WIDTH]),
        _ => return Err(Miss::Form),
    };
    let mut bytes = [0; HEAD_LENGTH];
    for word in words.rest().split_whitespace() {
        put(alloc, word, &mut bytes)?;
    }
    if len > HEAD_LENGTH {
        return Err(Miss::Form);
    }
    match read_header(&bytes, len, expected) {
        Ok(header) => write_header(&header, out),
        Err(refused) => write_fault(refused, out),
    }
}

// Puts the bytes of a word `AT=HEX` in their place.
fn put(alloc: Global, word: &str, bytes: &mut [u8; HEAD_LENGTH]) -> Result<(), Miss> {
    let (at, hex) = parted(word, "=")?;
    let at = number::<usize>(at)?;
    for (behind, byte) in bytes_of(alloc, hex)?.iter().enumerate() {
        let place = at.checked_add(behind).ok_or(Miss::Form)?;
        *bytes.get_mut(place).ok_or(Miss::Form)? = *byte;
    }
    Ok(())
}

fn write_header(header: &Header, out: &mut String) -> Result<(), Miss> {
    write!(out, "1.{} format {} ", header.minor, header.format)?;
    write!(out, "length {} offset {} ", header.length, header.offset)?;
    write!(out, "points {}", header.points)?;
    Ok(())
}

fn write_fault(refused: LasError, out: &mut String) -> Result<(), Miss> {
    write_refusal(&refused, out)?;
    write!(out, " {}", refused.code())?;
    Ok(())
}

// `las truncated NUMBER`: the fault of a file that ends within the record of that number.
fn truncated(words: &mut Words<'_>, out: &mut String) -> Result<(), Miss> {
    let number = words.number()?;
    write_fault(LasError::Truncated { number }, out)
}

// A shift `FACTOR:X,Y,Z`.
fn shift_of(word: &str) -> Result<Shift, Miss> {
    let (factor, by) = parted(word, ":")?;
    let (x, rest) = parted(by, ",")?;
    let (y, z) = parted(rest, ",")?;
    let factor = number::<i64>(factor)?;
    if factor < 1 || factor > MOST_FACTOR {
        return Err(Miss::Form);
    }
    Ok(Shift {
        factor,
        by: [distance(x)?, distance(y)?, distance(z)?],
    })
}

fn distance(word: &str) -> Result<i64, Miss>
    ensures { IfOk result (λ n. unsigned_abs n ≤ 10 ^ 15) }
{
    let n = number::<i64>(word)?;
    if n.unsigned_abs() > MOST_DISTANCE {
        return Err(Miss::Form);
    }
    Ok(n)
}

// `las record FORMAT SCAN NUMBER SHIFT HEX`: the packed point of a record.
fn record(alloc: Global, words: &mut Words<'_>, out: &mut String) -> Result<(), Miss> {
    let format = words.number::<u8>()?;
    let source = words.number()?;
    let number = words.number()?;
    let shift = shift_of(words.word()?)?;
    let bytes = bytes_of(alloc, words.word()?)?;
    if !is_format(format) || bytes.len() < usize::from(record_length(format)) {
        return Err(Miss::Form);
    }
    match read_record(format, bytes.as_slice(), &shift, source, number) {
        Ok(point) => write_bytes(alloc, &pack(&point), out),
        Err(refused) => write_refusal(&refused, out),
    }
}

// `las place SHIFT HEX`: the place of a record.
fn place(alloc: Global, words: &mut Words<'_>, out: &mut String) -> Result<(), Miss> {
    let shift = shift_of(words.word()?)?;
    let bytes = bytes_of(alloc, words.word()?)?;
    if bytes.len() < 20 {
        return Err(Miss::Form);
    }
    match read_place(bytes.as_slice(), &shift) {
        Ok(place) => write!(out, "{},{},{}", place.x, place.y, place.z)?,
        Err(refused) => write_refusal(&refused, out)?,
    }
    Ok(())
}
