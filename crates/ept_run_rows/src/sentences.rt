//! Lines that print what is said of a run that failed.

use crate::bench::{Bench, Faults, shelf_of};
use crate::words::{Miss, first_word};
use ept_command::{Failure, Refusal};
use ept_messages::{Differing, Found, message, write_difference};
use ept_meta::Field;

/// Writes the sentence that a line asks for.
pub(crate) fn answer(
    bench: &mut Bench,
    call: &str,
    rest: &str,
    out: &mut String,
) -> Result<(), Miss> {
    match call {
        "say" => say(bench, rest, out),
        "starve" => starve(bench, out),
        "differ" => differ(bench, rest, out),
        "differ-hex" => differ_hex(bench, rest, out),
        _ => Err(Miss::Form),
    }
}

// `say`: the sentence of the last run. `say unread PATH` and `say absent PATH` if that file could not be read or does
// not exist, and `say uncreated` if the folder of the build does not exist.
fn say(bench: &mut Bench, seen: &str, out: &mut String) -> Result<(), Miss> {
    let Some(failure) = &bench.left.failure else {
        return Ok(out.push_str("nothing")?);
    };
    let found = found_of(seen)?;
    let mut shelf = shelf_of(bench.alloc, &bench.files, Faults::NONE)?;
    let sentence = message(
        bench.alloc,
        &bench.left.words,
        failure,
        &found,
        &mut shelf,
        &mut bench.store,
    )?;
    append_lines(out, sentence.as_str())
}

// What was found when the files of a run were looked at.
fn found_of(seen: &str) -> Result<Found<'_>, Miss> {
    let (how, path) = first_word(seen);
    match how {
        "" => Ok(Found {
            has_out: true,
            ..Found::default()
        }),
        "unread" => Ok(Found {
            unread: Some(path),
            has_unread: true,
            has_out: true,
        }),
        "absent" => Ok(Found {
            unread: Some(path),
            has_unread: false,
            has_out: true,
        }),
        "uncreated" => Ok(Found::default()),
        _ => Err(Miss::Form),
    }
}

// Writes a text of several lines in one.
fn append_lines(out: &mut String, text: &str) -> Result<(), Miss> {
    for (number, line) in text.split('\n').enumerate() {
        if number > 0 {
            out.push_str("\\n")?;
        }
        out.push_str(line)?;
    }
    Ok(())
}

// `starve`: the last run counts as one that failed because memory ran out.
fn starve(bench: &mut Bench, out: &mut String) -> Result<(), Miss> {
    bench.left.failure = Some(Failure::Refused(Refusal::Memory));
    out.push_str("ok")?;
    Ok(())
}

// `differ FIELD KEPT|GIVEN`: the sentence of a difference of `survey.json` from what `out` keeps.
fn differ(bench: &Bench, rest: &str, out: &mut String) -> Result<(), Miss> {
    let (field, values) = first_word(rest);
    let (kept, given) = values.split_once('|').ok_or(Miss::Form)?;
    append_difference(bench, field, kept.as_bytes(), given.as_bytes(), out)
}

// `differ-hex FIELD KEPT GIVEN`: the same, with the bytes of both values in hex.
fn differ_hex(bench: &Bench, rest: &str, out: &mut String) -> Result<(), Miss> {
    let (field, values) = first_word(rest);
    let (kept, given) = first_word(values);
    let kept = hex::decode(bench.alloc, kept)?;
    let given = hex::decode(bench.alloc, given)?;
    append_difference(bench, field, &kept, &given, out)
}

fn append_difference(
    bench: &Bench,
    field: &str,
    kept: &[u8],
    given: &[u8],
    out: &mut String,
) -> Result<(), Miss> {
    let differing = Differing {
        field: field_of(field)?,
        kept,
        given,
    };
    write_difference(bench.alloc, out, &differing, "survey.json", "out")?;
    Ok(())
}

fn field_of(word: &str) -> Result<Field, Miss> {
    match word {
        "bounds" => Ok(Field::Bounds),
        "span" => Ok(Field::Span),
        "srs" => Ok(Field::Srs),
        "firstClasses" => Ok(Field::FirstClasses),
        "withheldLast" => Ok(Field::WithheldLast),
        "input" => Ok(Field::Input),
        _ => Err(Miss::Form),
    }
}
