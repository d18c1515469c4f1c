//! The sentence of a configuration that differs from what its folder keeps: both values, as they can be shown.

use crate::keys::key_of;
use ept_meta::Field;
use serde_json::Value;
use std::alloc::{AllocError, Global};
use std::fmt;
use std::fmt::Write;

/// How many characters of a value are shown.
const SHOWN: usize = 60;

/// How many characters of a long value are shown before the first that differs.
const BEFORE: usize = 20;

/// The keys of an input, in the order in which they are compared.
const INPUT_KEYS: [&str; 4] = ["path", "scale", "shift", "expect"];

// What to do if a value differs, and if an input does.
const VALUE_ADVICE: &str = "build into a new folder, or give the old value back";

const INPUT_ADVICE: &str = "build into a new folder, or put the old inputs first, in order";

/// The first field in which a configuration differs from what its folder keeps, with both values as JSON texts. If the
/// inputs differ, they are those of the first input that does. The given one is empty if the list ends before it.
#[derive(Clone, Copy)]
pub struct Differing<'a> {
    pub field: Field,
    pub kept: &'a [u8],
    pub given: &'a [u8],
}

/// Writes the sentence of a difference between the configuration of this path and what this folder keeps.
///
/// # Errors
///
/// [`AllocError`] if memory runs out.
pub fn write_difference(
    alloc: Global,
    text: &mut String,
    differing: &Differing<'_>,
    config: &str,
    out: &str,
) -> Result<(), AllocError> {
    let Differing { field, kept, given } = *differing;
    match (field, given) {
        (Field::Input, []) => write_end(alloc, text, kept, config, out),
        (Field::Input, _) => write_input(alloc, text, kept, given, config, out),
        _ => write_field(alloc, text, key_of(field).name(), kept, given, config, out),
    }
}

// Writes that a list of inputs ends before this one.
fn write_end(
    alloc: Global,
    text: &mut String,
    kept: &[u8],
    config: &str,
    out: &str,
) -> Result<(), AllocError> {
    let path = member(alloc, kept, "path")?;
    write_missing(text, Excerpt::whole(&path), config, out)
}

fn write_missing(
    text: &mut String,
    path: Excerpt<'_>,
    config: &str,
    out: &str,
) -> Result<(), AllocError> {
    write!(
        text,
        "the inputs of {config} end before {path}, with which {out} was built: {INPUT_ADVICE}"
    )
}

// Writes the first key in which an input differs.
fn write_input(
    alloc: Global,
    text: &mut String,
    kept: &[u8],
    given: &[u8],
    config: &str,
    out: &str,
) -> Result<(), AllocError> {
    for key in INPUT_KEYS {
        if differs(alloc, kept, given, key)? {
            return write_member(alloc, text, key, kept, given, config, out);
        }
    }
    write_field(alloc, text, "input", kept, given, config, out)
}

// Whether two inputs have another value of this key.
fn differs(alloc: Global, kept: &[u8], given: &[u8], key: &str) -> Result<bool, AllocError> {
    let one = member(alloc, kept, key)?;
    let other = member(alloc, given, key)?;
    Ok(one != other)
}

// Writes that the path of an input differs, or another key of the input of a path.
fn write_member(
    alloc: Global,
    text: &mut String,
    key: &str,
    kept: &[u8],
    given: &[u8],
    config: &str,
    out: &str,
) -> Result<(), AllocError> {
    let one = member(alloc, kept, key)?;
    let other = member(alloc, given, key)?;
    let values = excerpts(&one, &other);
    if key == "path" {
        return write_paths(text, values, config, out);
    }
    write_kept(text, key, values.0, out)?;
    write_of(alloc, text, kept)?;
    write_given(text, values.1, config)
}

fn write_paths(
    text: &mut String,
    values: (Excerpt<'_>, Excerpt<'_>),
    config: &str,
    out: &str,
) -> Result<(), AllocError> {
    let (kept, given) = values;
    write!(
        text,
        "{out} was built with {kept} where the inputs of {config} have {given}: {INPUT_ADVICE}"
    )
}

fn write_of(alloc: Global, text: &mut String, kept: &[u8]) -> Result<(), AllocError> {
    let path = member(alloc, kept, "path")?;
    let path = Excerpt::whole(&path);
    write!(text, " of {path}")
}

// Writes that the values of a key differ.
fn write_field(
    alloc: Global,
    text: &mut String,
    key: &str,
    kept: &[u8],
    given: &[u8],
    config: &str,
    out: &str,
) -> Result<(), AllocError> {
    let one = safe(alloc, kept)?;
    let other = safe(alloc, given)?;
    let values = excerpts(&one, &other);
    write_kept(text, key, values.0, out)?;
    write_given(text, values.1, config)
}

fn write_kept(
    text: &mut String,
    key: &str,
    kept: Excerpt<'_>,
    out: &str,
) -> Result<(), AllocError> {
    write!(text, "{out} was built with `{key}` {kept}")
}

fn write_given(text: &mut String, given: Excerpt<'_>, config: &str) -> Result<(), AllocError> {
    write!(text, ", and {config} has {given}: {VALUE_ADVICE}")
}

// The JSON text of a key of an input, as it can be shown, or what is shown in its place if there is none.
fn member(alloc: Global, input: &[u8], key: &str) -> Result<String, AllocError> {
    let found = Value::from_slice(alloc, input);
    match found.as_ref().ok().and_then(|value| value.get(key)) {
        Some(value) => {
            let text = value.to_string(alloc)?;
            safe(alloc, text.as_bytes())
        }
        None => String::from_str(alloc, "none"),
    }
}

// A text of which a part is shown: the characters from `from` on, with dots for what is left out.
#[derive(Clone, Copy)]
struct Excerpt<'a> {
    text: &'a str,
    from: usize,
}

impl<'a> Excerpt<'a> {
    // The whole text.
    fn whole(text: &'a str) -> Self {
        Excerpt { text, from: 0 }
    }

    // Whether characters are left out at its end.
    fn is_cut(&self) -> bool {
        self.text.chars().skip(self.from).nth(SHOWN).is_some()
    }
}

impl fmt::Display for Excerpt<'_> {
    fn fmt<W: fmt::Write>(&self, f: &mut fmt::Formatter<W>) -> fmt::Result {
        if self.from > 0 {
            f.write_str("..")?;
        }
        for letter in self.text.chars().skip(self.from).take(SHOWN) {
            f.write_char(letter)?;
        }
        if self.is_cut() {
            f.write_str("..")?;
        }
        Ok(())
    }
}

// Both values as they are shown. If one is long, they are shown from shortly before the first character that differs.
fn excerpts<'a>(kept: &'a str, given: &'a str) -> (Excerpt<'a>, Excerpt<'a>) {
    let from = if is_long(kept) || is_long(given) {
        alike(kept, given).saturating_sub(BEFORE)
    } else {
        0
    };
    (Excerpt { text: kept, from }, Excerpt { text: given, from })
}

// Whether a text has more characters than are shown.
fn is_long(text: &str) -> bool {
    text.chars().nth(SHOWN).is_some()
}

// How many characters at the start of both texts are the same.
fn alike(one: &str, other: &str) -> usize {
    one.chars()
        .zip(other.chars())
        .take_while(|(a, b)| a == b)
        .count()
}

// Bytes as text: without control characters, and with the numbers of bytes that are not text.
fn safe(alloc: Global, bytes: &[u8]) -> Result<String, AllocError> {
    let mut text = String::new(alloc);
    for chunk in bytes.utf8_chunks() {
        append_letters(&mut text, chunk.valid())?;
        append_numbers(&mut text, chunk.invalid())?;
    }
    Ok(text)
}

fn append_letters(text: &mut String, letters: &str) -> Result<(), AllocError> {
    for letter in letters.chars() {
        match letter {
            '"' | '\'' | '\\' => text.push(letter)?,
            _ => write!(text, "{}", letter.escape_debug())?,
        }
    }
    Ok(())
}

fn append_numbers(text: &mut String, bytes: &[u8]) -> Result<(), AllocError> {
    for byte in bytes {
        write!(text, "\\x{byte:02x}")?;
    }
    Ok(())
}
