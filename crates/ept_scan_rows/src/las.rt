//! LAS files as words, by the format's own table of the header and nothing of the crate that reads it.

use crate::bytes::{append_word, put};
use crate::numbers::{count, place};
use crate::row::Row;
use crate::stop::{Answered, Stop};

/// What a header states.
#[derive(Clone, Copy)]
struct Head {
    minor: u8,
    format: u8,
    size: u16,
    start: u32,
    length: u16,
    points: u64,
}

/// A file of version 1.2 whose points have the format 0, without a point.
const PLAIN: Head = Head {
    minor: 2,
    format: 0,
    size: 227,
    start: 227,
    length: 20,
    points: 0,
};

/// The file of these words. `X,Y,Z` is a record there, with all else zero; `minor=N`, `format=N`, `size=N`,
/// `start=N`, `length=N` and `points=N` change what the header states; each other word means bytes that follow.
/// Each place counts as a point in the header, unless a later `points=N` sets another number.
pub(crate) fn las_of(row: Row<'_>, words: &str) -> Result<Vec<u8>, Stop> {
    let head = head_of(words)?;
    let mut file = vec![in row.alloc; 0u8; head.start as usize]?;
    set_head(&mut file, head);
    for word in words.split(' ') {
        append_record(row, head, word, &mut file)?;
    }
    Ok(file)
}

fn head_of(words: &str) -> Result<Head, Stop> {
    let mut head = PLAIN;
    for word in words.split(' ') {
        match word.split_once('=') {
            Some((name, value)) => state(&mut head, name, count(value)?)?,
            None if word.contains(',') => head.points = head.points.saturating_add(1),
            None => {}
        }
    }
    Ok(head)
}

// States a field of the header.
fn state(head: &mut Head, name: &str, value: u64) -> Answered {
    match name {
        "minor" => head.minor = u8::try_from(value)?,
        "format" => head.format = u8::try_from(value)?,
        "size" => head.size = u16::try_from(value)?,
        "start" => head.start = u32::try_from(value)?,
        "length" => head.length = u16::try_from(value)?,
        "points" => head.points = value,
        "long" => {}
        _ => return Err(Stop::BadLine),
    }
    Ok(())
}

fn set_head(file: &mut [u8], head: Head) {
    put(file, 0, b"LASF");
    put(file, 24, &[1, head.minor]);
    put(file, 94, &head.size.to_le_bytes());
    put(file, 96, &head.start.to_le_bytes());
    put(file, 104, &[head.format]);
    put(file, 105, &head.length.to_le_bytes());
    if head.minor == 4 {
        put(file, 247, &head.points.to_le_bytes());
    } else {
        put(file, 107, &head.points.to_le_bytes()[..4]);
    }
}

// Appends the record of a word, or the bytes that it means.
fn append_record(row: Row<'_>, head: Head, word: &str, file: &mut Vec<u8>) -> Answered {
    if word.contains(',') {
        return append_place(head, place(word)?, file);
    }
    match word.split_once('=') {
        Some((name, _)) if name != "long" => Ok(()),
        _ => append_word(row, word, file),
    }
}

fn append_place(head: Head, place: [i32; 3], file: &mut Vec<u8>) -> Answered {
    let end = file.len().saturating_add(usize::from(head.length));
    for coordinate in place {
        file.extend_from_slice(&coordinate.to_le_bytes())?;
    }
    Ok(file.resize(end, 0)?)
}
