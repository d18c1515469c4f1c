//! The words of a line, and what is wrong with one.

ghost use Rattle.std.specs.Prelude.{◌≤◌, IfOk};

use ept_point::Memory;
use std::alloc::{AllocError, AllocFailed};
use std::str::FromStr;

/// Why a line has no result.
#[derive(Clone, Copy, Debug, PartialEq, Eq)]
pub(crate) enum Miss {
    /// It is malformed, or breaks a condition of its call.
    Form,
    /// Memory ran out.
    Memory,
}

impl From<AllocError> for Miss {
    fn from(_error: AllocError) -> Miss {
        Miss::Memory
    }
}

impl<T: Drop> From<AllocFailed<T>> for Miss {
    fn from(_error: AllocFailed<T>) -> Miss {
        Miss::Memory
    }
}

impl From<Memory> for Miss {
    fn from(_error: Memory) -> Miss {
        Miss::Memory
    }
}

/// `Form`, unless this holds.
pub(crate) fn demand(holds: bool) -> Result<(), Miss> {
    if holds { Ok(()) } else { Err(Miss::Form) }
}

/// What is left of a line, whose words are separated by single blanks.
#[derive(Drop)]
pub(crate) struct Words<'a> {
    rest: &'a str,
}

impl<'a> Words<'a> {
    pub(crate) fn of(line: &'a str) -> Words<'a> {
        Words { rest: line }
    }

    /// The next word.
    pub(crate) fn word(&mut self) -> Result<&'a str, Miss> {
        let rest = self.rest;
        if rest.is_empty() {
            return Err(Miss::Form);
        }
        let (word, after) = rest.split_once(' ').unwrap_or((rest, ""));
        self.rest = after;
        Ok(word)
    }

    /// The next word as a number.
    pub(crate) fn number<N: FromStr<Err: Drop>>(&mut self) -> Result<N, Miss> {
        number(self.word()?)
    }

    /// The next word as a number up to this one.
    pub(crate) fn up_to(&mut self, most: u8) -> Result<u8, Miss>
        ensures { IfOk result (λ n. n ≤ most) }
    {
        let n = self.number::<u8>()?;
        if n <= most { Ok(n) } else { Err(Miss::Form) }
    }

    /// All that follows.
    pub(crate) fn rest(&self) -> &'a str {
        self.rest
    }
}

/// A word as a number.
pub(crate) fn number<N: FromStr<Err: Drop>>(word: &str) -> Result<N, Miss> {
    word.parse().map_err(|_| Miss::Form)
}

/// What is before a mark in a word, and what is after it.
pub(crate) fn parted<'a>(word: &'a str, mark: &str) -> Result<(&'a str, &'a str), Miss> {
    word.split_once(mark).ok_or(Miss::Form)
}
