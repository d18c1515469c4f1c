//! Rows: their words, and why one has no result.

use ept_point::Memory;
use std::alloc::{AllocError, AllocFailed, Global};

/// Why a row has no result.
#[derive(Clone, Copy)]
pub(crate) enum RowError {
    /// The line is not a row.
    Form,
    /// Out of memory.
    Memory,
    /// The system refused what the row needs.
    System,
}

impl From<AllocError> for RowError {
    fn from(_error: AllocError) -> RowError {
        RowError::Memory
    }
}

impl<T: Drop> From<AllocFailed<T>> for RowError {
    fn from(_error: AllocFailed<T>) -> RowError {
        RowError::Memory
    }
}

impl From<Memory> for RowError {
    fn from(_error: Memory) -> RowError {
        RowError::Memory
    }
}

/// The first word, and what follows the space after it.
pub(crate) fn cut(text: &str) -> Result<(&str, &str), RowError> {
    text.split_once(' ').ok_or(RowError::Form)
}

/// The text of a word: `-` is the empty text.
pub(crate) fn plain(word: &str) -> &str {
    if word == "-" { "" } else { word }
}

/// The number of a word.
pub(crate) fn number(word: &str) -> Result<u64, RowError> {
    word.parse::<u64>().map_err(|_| RowError::Form)
}

/// The number of a word, below 2^32.
pub(crate) fn small(word: &str) -> Result<u32, RowError> {
    word.parse::<u32>().map_err(|_| RowError::Form)
}

/// The numbers of a word, separated by commas; `-` is none.
pub(crate) fn numbers(alloc: Global, word: &str) -> Result<Vec<u64>, RowError> {
    let mut list = Vec::new(alloc);
    if word != "-" {
        for part in word.split(',') {
            list.push(number(part)?)?;
        }
    }
    Ok(list)
}
