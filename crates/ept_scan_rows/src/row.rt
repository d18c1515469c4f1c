//! A line, and the names that other lines give.

use crate::stop::Stop;
use std::alloc::Global;

/// What follows the first word of a line, and all lines, of which those with the first word `let` give names
/// to words.
#[derive(Clone, Copy)]
pub(crate) struct Row<'a> {
    pub(crate) alloc: Global,
    pub(crate) all: &'a str,
    pub(crate) rest: &'a str,
}

impl<'a> Row<'a> {
    /// The part of this number, from 0, between bars.
    pub(crate) fn part(self, at: usize) -> Result<&'a str, Stop> {
        self.rest.split(" | ").nth(at).ok_or(Stop::BadLine)
    }

    /// The words that a line `let NAME WORDS` names.
    pub(crate) fn named(self, name: &str) -> Result<&'a str, Stop> {
        for line in self.all.lines() {
            if let Some(found) = line.strip_prefix("let ")
                && let Some((first, words)) = found.split_once(' ')
                && first == name
            {
                return Ok(words);
            }
        }
        Err(Stop::BadLine)
    }
}
