//! The words of a line, and what is wrong with one.

use hex::FromHexError;
use std::alloc::{AllocError, AllocFailed};

/// Why a line has no result.
#[derive(Clone, Copy, Debug, PartialEq, Eq)]
pub(crate) enum Miss {
    /// It is malformed.
    Form,
    /// Memory ran out.
    Memory,
}

impl From<AllocError> for Miss {
    fn from(_error: AllocError) -> Miss {
        Miss::Memory
    }
}

impl<T: Drop> From<AllocFailed<T>> for Miss {
    fn from(_error: AllocFailed<T>) -> Miss {
        Miss::Memory
    }
}

impl From<FromHexError> for Miss {
    fn from(error: FromHexError) -> Miss {
        match error {
            FromHexError::OutOfMemory => Miss::Memory,
            _ => Miss::Form,
        }
    }
}

/// The first word of a text, and the rest of it. Words are separated by single blanks.
pub(crate) fn first_word(text: &str) -> (&str, &str) {
    text.split_once(' ').unwrap_or((text, ""))
}

/// A word as a number.
pub(crate) fn number(word: &str) -> Result<u64, Miss> {
    word.parse::<u64>().map_err(|_| Miss::Form)
}

/// A word as a length or a place in a file.
pub(crate) fn size(word: &str) -> Result<usize, Miss> {
    word.parse::<usize>().map_err(|_| Miss::Form)
}

/// The range of numbers that a text begins with, and the rest of it.
pub(crate) fn range(text: &str) -> Result<((u64, u64), &str), Miss> {
    let (first, rest) = first_word(text);
    let (last, rest) = first_word(rest);
    Ok(((number(first)?, number(last)?), rest))
}
