//! Shelves and stores as words.

use crate::bytes::bytes_of;
use crate::las::las_of;
use crate::numbers::count;
use crate::row::Row;
use crate::stop::{Answered, Stop};
use ept_mem::{MemRoom, MemShelf, MemStore};

/// A file with its name.
type Named = (String, Vec<u8>);

/// The files `NAME las WORDS` and `NAME BYTES` between semicolons, those that `$NAME` names, or none: `-`.
fn files_of(row: Row<'_>, words: &str) -> Result<Vec<Named>, Stop> {
    let mut files = Vec::new(row.alloc);
    let words = match words.strip_prefix('$') {
        Some(name) => row.named(name)?,
        None => words,
    };
    for file in words.split(" ; ").filter(|file| *file != "-") {
        files.push(file_of(row, file)?)?;
    }
    Ok(files)
}

fn file_of(row: Row<'_>, words: &str) -> Result<Named, Stop> {
    let (name, words) = words.split_once(' ').ok_or(Stop::BadLine)?;
    let bytes = match words.strip_prefix("las ") {
        Some(words) => las_of(row, words)?,
        None => bytes_of(row, words)?,
    };
    Ok((String::from_str(row.alloc, name)?, bytes))
}

/// The numbers of calls, or none of them: `-`.
fn calls_of(row: Row<'_>, words: &str) -> Result<Vec<u64>, Stop> {
    let mut calls = Vec::new(row.alloc);
    for word in words.split(' ').filter(|word| *word != "-") {
        calls.push(count(word)?)?;
    }
    Ok(calls)
}

/// A shelf of these files, where of each of its sources the calls of these numbers fail.
pub(crate) fn shelf_of(row: Row<'_>, files: &str, fails: &str) -> Result<MemShelf, Stop> {
    let fails = calls_of(row, fails)?;
    let files = files_of(row, files)?;
    Ok(MemShelf::new(row.alloc, files, Vec::new(row.alloc), fails))
}

/// A store of these files.
pub(crate) fn store_of(row: Row<'_>, files: &str) -> Result<MemStore, Stop> {
    failing_store_of(row, files, "-")
}

/// A store of these files, whose calls of these numbers fail.
pub(crate) fn failing_store_of(row: Row<'_>, files: &str, fails: &str) -> Result<MemStore, Stop> {
    let fails = calls_of(row, fails)?;
    let files = files_of(row, files)?;
    Ok(MemStore::new(row.alloc, files, fails))
}

/// A room for spill files, where of each the calls of these numbers fail.
pub(crate) fn room_of(row: Row<'_>, fails: &str) -> Result<MemRoom, Stop> {
    let fails = calls_of(row, fails)?;
    Ok(MemRoom::new(row.alloc, Vec::new(row.alloc), fails))
}

/// Appends of each of these files whether the store has it so.
pub(crate) fn compare_files(
    row: Row<'_>,
    store: &MemStore,
    files: &str,
    out: &mut String,
) -> Answered {
    for file in files.split(" ; ") {
        let (name, words) = file.split_once(' ').ok_or(Stop::BadLine)?;
        let bytes = bytes_of(row, words)?;
        let found = match store.file(name) {
            Some(held) if held == bytes.as_slice() => "same",
            Some(_) => "other",
            None => "absent",
        };
        write!(out, "; {name} {found}")?;
    }
    Ok(())
}

/// Whether the store has all of these files so.
pub(crate) fn has_files(row: Row<'_>, store: &MemStore, files: &str) -> Result<bool, Stop> {
    let wanted = files_of(row, files)?;
    for (name, bytes) in &wanted {
        match store.file(name.as_str()) {
            Some(held) if held == bytes.as_slice() => {}
            _ => return Ok(false),
        }
    }
    Ok(true)
}
