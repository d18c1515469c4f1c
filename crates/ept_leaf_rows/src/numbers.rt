//! Calls of `ept_num`, `ept_json` and `ept_clock`.

ghost use Rattle.std.specs.Prelude.{◌≡◌, true};
ghost use Rattle.std.specs.List.Sorted.{IsNonDecreasing};

use crate::notation::{list_of, quoted};
use crate::words::{Miss, Words};
use crate::writing::{write_or_none, write_refusal};
use ept_clock::Clock;
use ept_json::{JsonError, document};
use ept_num::{decimal_text, lcg, read_whole};
use serde_json::Value;
use std::alloc::Global;
use std::fmt::Write;

// The most decimals of a decimal text.
const MOST_PLACES: u8 = 9;

/// Carries out a call, and writes its result.
pub(crate) fn answer(
    alloc: Global,
    call: &str,
    words: &mut Words<'_>,
    out: &mut String,
) -> Result<(), Miss> {
    match call {
        "decimal" => decimal(words, out),
        "whole" => whole(alloc, words, out),
        "next" => next(words, out),
        "member" => member(alloc, words, out),
        "turns" => turns(alloc, words, out),
        _ => Err(Miss::Form),
    }
}

// `num decimal N PLACES`: the text of N divided by 10^PLACES.
fn decimal(words: &mut Words<'_>, out: &mut String) -> Result<(), Miss> {
    let n: i64 = words.number()?;
    let places = words.up_to(MOST_PLACES)?;
    let mut into = [0; 24];
    let len = decimal_text(n, places, &mut into);
    out.push_str(str::from_utf8(&into[..len]).map_err(|_| Miss::Form)?)?;
    Ok(())
}

// `num whole "TEXT"`: the number that the text spells.
fn whole(alloc: Global, words: &Words<'_>, out: &mut String) -> Result<(), Miss> {
    let text = quoted(alloc, words.rest())?;
    write_or_none(read_whole(text.as_slice()), out)
}

// `num next N`: the number after N of the generator.
fn next(words: &mut Words<'_>, out: &mut String) -> Result<(), Miss> {
    write!(out, "{}", lcg(words.number()?))?;
    Ok(())
}

// `json member NAME "TEXT"`: the number that the member of that name has in the text.
fn member(alloc: Global, words: &mut Words<'_>, out: &mut String) -> Result<(), Miss> {
    let name = words.word()?;
    let text = quoted(alloc, words.rest())?;
    match document(alloc, text.as_slice()) {
        Ok(value) => write_or_none(value.get(name).and_then(Value::as_i64), out),
        Err(JsonError::Memory) => Err(Miss::Memory),
        Err(refused) => write_refusal(&refused, out),
    }
}

// `clock turns SLOTS SLOTS ..`: the place of the slot whose turn it is, once with each list of resident slots.
fn turns(alloc: Global, words: &Words<'_>, out: &mut String) -> Result<(), Miss> {
    let mut clock = Clock::new();
    for word in words.rest().split_whitespace() {
        turn(alloc, &mut clock, word, out)?;
    }
    Ok(())
}

fn turn(alloc: Global, clock: &mut Clock, word: &str, out: &mut String) -> Result<(), Miss> {
    let resident = list_of(alloc, word)?;
    if !ascend(&resident) {
        return Err(Miss::Form);
    }
    if !out.is_empty() {
        out.push(' ')?;
    }
    write_or_none(clock.next(&resident), out)
}

fn ascend(slots: &[u32]) -> bool
    ensures { result ≡ true → IsNonDecreasing slots.now }
{
    slots.is_sorted()
}
