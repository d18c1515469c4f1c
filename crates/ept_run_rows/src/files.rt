//! Lines that make the files of the shelf.

use crate::bench::{Bench, Faults, file};
use crate::stores::renew;
use crate::words::{Miss, first_word, number, size};
use std::alloc::Global;

// The greatest length of a file.
const LONGEST: usize = 1 << 25;

/// Carries out a line that begins a group, or that makes or changes a file of the shelf.
pub(crate) fn change(bench: &mut Bench, call: &str, rest: &str) -> Result<(), Miss> {
    let (name, rest) = first_word(rest);
    match call {
        "new" => begin(bench),
        "text" => put_file(bench, name, rest.as_bytes()),
        "scan" => scan(bench, name, rest),
        "zeros" => zeros(bench, name, size(rest)?),
        "generate" => generate(bench, number(name)?),
        "set" => {
            let (at, digits) = first_word(rest);
            set(bench, name, size(at)?, digits)
        }
        "add" => add(bench, name, rest),
        "cut" => cut(bench, name, size(rest)?),
        "pad" => pad(bench, name, size(rest)?),
        _ => Err(Miss::Form),
    }
}

// `new`: no file is on the shelf, a store has the file `other` alone, and nothing fails.
fn begin(bench: &mut Bench) -> Result<(), Miss> {
    bench.files.clear();
    bench.base.clear();
    bench.faults = Faults::NONE;
    renew(bench)
}

// Puts a file on the shelf, in place of a file of its name.
fn put_file(bench: &mut Bench, name: &str, bytes: &[u8]) -> Result<(), Miss> {
    let one = file(bench.alloc, name, bytes)?;
    bench.files.retain(|it| it.0.as_str() != name);
    bench.files.push(one)?;
    Ok(())
}

// The bytes of a file of the shelf.
fn bytes_of<'a>(bench: &'a mut Bench, name: &str) -> Result<&'a mut Vec<u8>, Miss> {
    for one in bench.files.iter_mut() {
        if one.0.as_str() == name {
            return Ok(&mut one.1);
        }
    }
    Err(Miss::Form)
}

// `scan NAME X,Y,Z ..`: a LAS 1.2 file of format 0 with points at these places, of one byte an axis, and all else
// zero.
fn scan(bench: &mut Bench, name: &str, places: &str) -> Result<(), Miss> {
    let mut bytes = Vec::new(bench.alloc);
    append_header(&mut bytes, 0)?;
    let mut count = 0u8;
    for place in places.split(' ').filter(|place| !place.is_empty()) {
        append_place(&mut bytes, place)?;
        count = count.saturating_add(1);
    }
    set_byte(&mut bytes, 107, count)?;
    put_file(bench, name, &bytes)
}

// The header of a LAS 1.2 file of format 0 that states `count` points.
fn append_header(bytes: &mut Vec<u8>, count: u32) -> Result<(), Miss> {
    bytes.extend_from_slice(b"LASF")?;
    bytes.extend_from_slice(&[0; 20])?;
    bytes.extend_from_slice(&[1, 2])?;
    bytes.extend_from_slice(&[0; 68])?;
    bytes.extend_from_slice(&[227, 0, 227, 0, 0, 0, 0, 0, 0, 0, 0, 20, 0])?;
    bytes.extend_from_slice(&count.to_le_bytes())?;
    bytes.extend_from_slice(&[0; 116])?;
    Ok(())
}

// A record of format 0 at a place of three numbers below 256.
fn append_place(bytes: &mut Vec<u8>, place: &str) -> Result<(), Miss> {
    let mut axes = 0u8;
    for axis in place.split(',') {
        let low = axis.parse::<u8>().map_err(|_| Miss::Form)?;
        bytes.extend_from_slice(&[low, 0, 0, 0])?;
        axes = axes.saturating_add(1);
    }
    if axes != 3 {
        return Err(Miss::Form);
    }
    bytes.extend_from_slice(&[0; 8])?;
    Ok(())
}

fn set_byte(bytes: &mut [u8], at: usize, byte: u8) -> Result<(), Miss> {
    *bytes.get_mut(at).ok_or(Miss::Form)? = byte;
    Ok(())
}

// `zeros NAME LENGTH`: a file of LENGTH bytes 0.
fn zeros(bench: &mut Bench, name: &str, length: usize) -> Result<(), Miss> {
    if length > LONGEST {
        return Err(Miss::Form);
    }
    let bytes = vec![in bench.alloc; 0u8; length]?;
    put_file(bench, name, &bytes)
}

// `set NAME AT HEX`: writes these bytes over those of the file from the place AT on.
fn set(bench: &mut Bench, name: &str, at: usize, digits: &str) -> Result<(), Miss> {
    let bytes = hex::decode(bench.alloc, digits)?;
    let file = bytes_of(bench, name)?;
    for (byte, to) in bytes.iter().zip(at..LONGEST) {
        set_byte(file, to, *byte)?;
    }
    Ok(())
}

// `add NAME HEX`: appends these bytes to the file.
fn add(bench: &mut Bench, name: &str, digits: &str) -> Result<(), Miss> {
    let bytes = hex::decode(bench.alloc, digits)?;
    bytes_of(bench, name)?.extend_from_slice(&bytes)?;
    Ok(())
}

// `cut NAME LENGTH`: cuts the file to at most LENGTH bytes.
fn cut(bench: &mut Bench, name: &str, length: usize) -> Result<(), Miss> {
    bytes_of(bench, name)?.truncate(length);
    Ok(())
}

// `pad NAME LENGTH`: appends blanks to the file, up to this length.
fn pad(bench: &mut Bench, name: &str, length: usize) -> Result<(), Miss> {
    if length > LONGEST {
        return Err(Miss::Form);
    }
    let mut padded = vec![in bench.alloc; b' '; length]?;
    let file = bytes_of(bench, name)?;
    for (to, from) in padded.iter_mut().zip(file.iter()) {
        *to = *from;
    }
    *file = padded;
    Ok(())
}

// `generate COUNT`: four scans `0.las` to `3.las`, to which COUNT points are dealt out in turn. The place of each is
// given by three steps of a generator of numbers.
fn generate(bench: &mut Bench, count: u64) -> Result<(), Miss> {
    let count = u32::try_from(count).map_err(|_| Miss::Form)?;
    for (input, name) in (0u32..4).zip(["0.las", "1.las", "2.las", "3.las"]) {
        let bytes = generated(bench.alloc, count, input)?;
        put_file(bench, name, &bytes)?;
    }
    Ok(())
}

// The scan of an input: each fourth of the points, from the point of this number on.
fn generated(alloc: Global, count: u32, input: u32) -> Result<Vec<u8>, Miss> {
    let mut bytes = Vec::new(alloc);
    append_header(
        &mut bytes,
        count.saturating_add(3).saturating_sub(input) / 4,
    )?;
    let mut state = u64::from(count);
    for point in 0..count {
        let (x, y, z) = drawn(&mut state);
        if point % 4 == input {
            append_point(&mut bytes, [x, y, z], point)?;
        }
    }
    Ok(bytes)
}

// The place of the next point.
fn drawn(state: &mut u64) -> (u32, u32, u32) {
    (
        drawn_below(state, 100_000),
        drawn_below(state, 100_000),
        drawn_below(state, 1_000),
    )
}

fn drawn_below(state: &mut u64, below: u32) -> u32 {
    *state = state
        .wrapping_mul(6_364_136_223_846_793_005)
        .wrapping_add(1_442_695_040_888_963_407);
    let high = *state >> 33;
    (high as u32).checked_rem(below).unwrap_or(0)
}

// A record at a place, whose intensity is the low half of the point's number.
fn append_point(bytes: &mut Vec<u8>, place: [u32; 3], point: u32) -> Result<(), Miss> {
    for axis in place {
        bytes.extend_from_slice(&axis.to_le_bytes())?;
    }
    bytes.extend_from_slice(&((point % 65_536) as u16).to_le_bytes())?;
    bytes.extend_from_slice(&[0; 6])?;
    Ok(())
}
