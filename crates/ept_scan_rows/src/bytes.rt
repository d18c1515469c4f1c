//! Bytes as words.

use crate::numbers::whole;
use crate::row::Row;
use crate::stop::{Answered, Stop};
use std::str;

/// What a file is filled with up to a length.
const FILLING: u8 = 9;

/// The bytes of these words, one after the other: `'TEXT` is a text, `HEX` is bytes in hexadecimal digits, `HEX*N`
/// is these N times, and `$NAME` is what a line `let` gives that name. Then `@AT:HEX` writes other bytes at a place,
/// and `long=N` cuts or fills the bytes to a length.
pub(crate) fn bytes_of(row: Row<'_>, words: &str) -> Result<Vec<u8>, Stop> {
    let mut bytes = Vec::new(row.alloc);
    for word in words.split(' ') {
        match word.strip_prefix('$') {
            Some(name) => append_words(row, row.named(name)?, &mut bytes)?,
            None => append_word(row, word, &mut bytes)?,
        }
    }
    Ok(bytes)
}

fn append_words(row: Row<'_>, words: &str, bytes: &mut Vec<u8>) -> Answered {
    for word in words.split(' ') {
        append_word(row, word, bytes)?;
    }
    Ok(())
}

/// Appends the bytes of a word that names none.
pub(crate) fn append_word(row: Row<'_>, word: &str, bytes: &mut Vec<u8>) -> Answered {
    if let Some(text) = word.strip_prefix('\'') {
        return Ok(bytes.extend_from_slice(text.as_bytes())?);
    }
    if let Some(change) = word.strip_prefix('@') {
        return change_at(row, change, bytes);
    }
    if let Some(length) = word.strip_prefix("long=") {
        return Ok(bytes.resize(whole(length)?, FILLING)?);
    }
    match word.split_once('*') {
        Some((piece, count)) => append_hex(row, piece, whole(count)?, bytes),
        None => append_hex(row, word, 1, bytes),
    }
}

fn append_hex(row: Row<'_>, digits: &str, count: usize, bytes: &mut Vec<u8>) -> Answered {
    let piece = hex::decode(row.alloc, digits)?;
    for _ in 0..count {
        bytes.extend_from_slice(&piece)?;
    }
    Ok(())
}

// Writes the bytes of `AT:HEX`.
fn change_at(row: Row<'_>, change: &str, bytes: &mut Vec<u8>) -> Answered {
    let (at, digits) = change.split_once(':').ok_or(Stop::BadLine)?;
    let piece = hex::decode(row.alloc, digits)?;
    put(bytes, whole(at)?, &piece);
    Ok(())
}

/// Writes bytes at a place, as far as there are such places.
pub(crate) fn put(bytes: &mut [u8], at: usize, piece: &[u8]) {
    for (to, from) in bytes.iter_mut().skip(at).zip(piece) {
        *to = *from;
    }
}

/// Appends bytes as the text that they are, or else as numbers.
pub(crate) fn show(bytes: &[u8], out: &mut String) -> Answered {
    match str::from_utf8(bytes) {
        Ok(text) => Ok(out.push_str(text)?),
        Err(_) => Ok(write!(out, "{bytes:?}")?),
    }
}
