//! Calls of `ept_class` and `ept_filter`: sets of classes, the texts of selections, and sifted points.

use crate::notation::{bytes_of, classes_of};
use crate::words::{Miss, Words};
use crate::writing::{write_bytes, write_refusal};
use ept_class::ClassSet;
use ept_filter::{Sift, SiftError, read_sift, sift_points};
use std::alloc::Global;
use std::fmt::Write;

/// Carries out a call, and writes its result.
pub(crate) fn answer(
    alloc: Global,
    call: &str,
    words: &mut Words<'_>,
    out: &mut String,
) -> Result<(), Miss> {
    match call {
        "classes" => classes(alloc, words, out),
        "read" => read(alloc, words, out),
        "sift" => sift(alloc, words, out),
        _ => Err(Miss::Form),
    }
}

// `filter classes LIST`: the bytes of the set of these classes, and its members.
fn classes(alloc: Global, words: &mut Words<'_>, out: &mut String) -> Result<(), Miss> {
    let set = classes_of(alloc, words.word()?)?;
    write_bytes(alloc, &set.bytes, out)?;
    out.push_str(" |")?;
    write_members(&set, out)
}

fn write_members(set: &ClassSet, out: &mut String) -> Result<(), Miss> {
    for class in 0..=255 {
        if set.contains(class) {
            write!(out, " {class}")?;
        }
    }
    Ok(())
}

// `filter read CLASSES TIME DIMS`: the selection of these texts.
fn read(alloc: Global, words: &mut Words<'_>, out: &mut String) -> Result<(), Miss> {
    match asked(words)? {
        Some(sift) => write_sift(alloc, &sift, out),
        None => Ok(out.push_str("none")?),
    }
}

// The selection of the three words that follow.
fn asked(words: &mut Words<'_>) -> Result<Option<Sift>, Miss> {
    let classes = words.word()?;
    let time = words.word()?;
    let dims = words.word()?;
    Ok(read_sift(classes.as_bytes(), time.as_bytes(), dims.as_bytes()))
}

// The classes, the time and the rows of the dimensions.
fn write_sift(alloc: Global, sift: &Sift, out: &mut String) -> Result<(), Miss> {
    out.push_str("classes")?;
    match &sift.classes {
        Some(set) => write_members(set, out)?,
        None => out.push_str(" any")?,
    }
    out.push_str(" time ")?;
    match &sift.time {
        Some(time) => write_bytes(alloc, time, out)?,
        None => out.push_str("any")?,
    }
    out.push_str(" dims")?;
    for row in sift.dims.rows() {
        write!(out, " {row}")?;
    }
    Ok(())
}

// `filter sift CLASSES TIME DIMS HEX HEX ..`: how many of the packed points pass, and what is kept of them.
fn sift(alloc: Global, words: &mut Words<'_>, out: &mut String) -> Result<(), Miss> {
    let Some(sift) = asked(words)? else {
        return Ok(out.push_str("none")?);
    };
    let mut bytes = Vec::new(alloc);
    for word in words.rest().split_whitespace() {
        bytes.extend_from_slice(&bytes_of(alloc, word)?)?;
    }
    let mut kept = Vec::new(alloc);
    match sift_points(&bytes, &sift, &mut kept) {
        Ok(count) => {
            write!(out, "{count} | ")?;
            write_bytes(alloc, &kept, out)
        }
        Err(SiftError::Memory) => Err(Miss::Memory),
        Err(refused) => write_refusal(&refused, out),
    }
}
