//! Bytes as text. `\r`, `\n`, `\0`, `\\`, `\xHH` and each other character of ASCII are a byte each. A byte after
//! `\{N}` is repeated N times. `-` alone is no byte.

use crate::row::RowError;
use std::alloc::{AllocError, Global};
use std::fmt::Write as _;

/// The most times that a byte may be repeated.
const MOST: u32 = 100_000;

/// The most equal bytes in a row that are written one by one.
const ALIKE: usize = 4;

/// The state of the reader of a text: how many times the next byte is repeated, and where in it the reader is.
#[derive(Clone, Copy)]
enum Place {
    /// Before a byte.
    Before(u32),
    /// After a backslash.
    Escape(u32),
    /// Within the braces.
    Count(u32),
    /// Before the two digits of a byte.
    High(u32),
    /// Before the second digit, after this one.
    Low(u32, u8),
}

/// The bytes of a text.
pub(crate) fn unescape(alloc: Global, text: &str) -> Result<Vec<u8>, RowError> {
    let mut bytes = Vec::new(alloc);
    if text == "-" {
        return Ok(bytes);
    }
    let mut place = Place::Before(1);
    for byte in text.as_bytes() {
        place = step(place, *byte, &mut bytes)?;
    }
    match place {
        Place::Before(1) => Ok(bytes),
        _ => Err(RowError::Form),
    }
}

// Takes one character.
fn step(place: Place, byte: u8, into: &mut Vec<u8>) -> Result<Place, RowError> {
    match place {
        Place::Before(times) if byte == b'\\' => Ok(Place::Escape(times)),
        Place::Before(times) => put(byte, times, into),
        Place::Escape(times) => escape(byte, times, into),
        Place::Count(times) => count(byte, times),
        Place::High(times) => Ok(Place::Low(times, digit(byte)?)),
        Place::Low(times, high) => put(high.wrapping_mul(16) | digit(byte)?, times, into),
    }
}

fn put(byte: u8, times: u32, into: &mut Vec<u8>) -> Result<Place, RowError> {
    for _ in 0..times {
        into.push(byte)?;
    }
    Ok(Place::Before(1))
}

// Takes the character after a backslash.
fn escape(byte: u8, times: u32, into: &mut Vec<u8>) -> Result<Place, RowError> {
    match byte {
        b'r' => put(b'\r', times, into),
        b'n' => put(b'\n', times, into),
        b'0' => put(0, times, into),
        b'\\' => put(b'\\', times, into),
        b'x' => Ok(Place::High(times)),
        b'{' => Ok(Place::Count(0)),
        _ => Err(RowError::Form),
    }
}

// Takes a character within the braces.
fn count(byte: u8, times: u32) -> Result<Place, RowError> {
    if times > MOST {
        return Err(RowError::Form);
    }
    match byte {
        b'}' => Ok(Place::Before(times)),
        b'0'..=b'9' => Ok(Place::Count(
            times
                .saturating_mul(10)
                .saturating_add(u32::from(byte - b'0')),
        )),
        _ => Err(RowError::Form),
    }
}

// The value of a digit in base 16.
fn digit(byte: u8) -> Result<u8, RowError> {
    match byte {
        b'0'..=b'9' => Ok(byte - b'0'),
        b'a'..=b'f' => Ok(byte - b'a' + 10),
        _ => Err(RowError::Form),
    }
}

/// Writes the text of these bytes. A byte that is repeated more than four times is counted.
pub(crate) fn push_escaped(answer: &mut String, bytes: &[u8]) -> Result<(), AllocError> {
    if bytes.is_empty() {
        return answer.push('-');
    }
    for run in bytes.chunk_by(|one, other| one == other) {
        push_run(answer, run)?;
    }
    Ok(())
}

fn push_run(answer: &mut String, run: &[u8]) -> Result<(), AllocError> {
    let length = run.len();
    match run.first() {
        Some(byte) if length > ALIKE => {
            write!(answer, "\\{{{length}}}")?;
            push_byte(answer, *byte)
        }
        _ => push_each(answer, run),
    }
}

fn push_each(answer: &mut String, bytes: &[u8]) -> Result<(), AllocError> {
    for byte in bytes {
        push_byte(answer, *byte)?;
    }
    Ok(())
}

fn push_byte(answer: &mut String, byte: u8) -> Result<(), AllocError> {
    match byte {
        b'\r' => answer.push_str("\\r"),
        b'\n' => answer.push_str("\\n"),
        0 => answer.push_str("\\0"),
        b'\\' => answer.push_str("\\\\"),
        b' '..=b'~' => answer.push(char::from(byte)),
        _ => write!(answer, "\\x{byte:02x}"),
    }
}
