//! The message of a run that fails: the sentence of its failure, with the names that it needs.

use crate::differences::{Differing, write_difference};
use crate::keys::KEYS;
use crate::sentences::{
    Limits, Names, write_check, write_merge, write_query, write_refusal, write_shallow, write_unfit,
};
use ept_base::{Shelf, Store};
use ept_command::{Command, Failure, Refusal, command_of, read_configuration, read_front};
use ept_config::Config;
use ept_config_diff::Difference;
use ept_config_text::{ConfigError, MAX_LENGTH};
use ept_mem::MemShelf;
use ept_plan::{PlanError, make_plan};
use ept_save::{Saved, open};
use serde_json::Value;
use std::alloc::{AllocError, Global};
use std::fmt::Write;

// What an input is called if its path is not known.
const AN_INPUT: &str = "an input";

/// What a program found of the files that a run failed at.
#[derive(Clone, Copy, Debug, Default)]
pub struct Found<'a> {
    /// The file that could not be opened or read. `None` if there is no such file, or no memory to keep its path.
    pub unread: Option<&'a str>,
    /// Whether that file exists.
    pub has_unread: bool,
    /// Whether the folder of the command exists.
    pub has_out: bool,
}

/// Why the run of these words failed, in one line, or the usage if they are no command.
///
/// If an input, a key or a value of it is to be named, the configuration is read from the shelf again. The checkpoint is
/// read from the store again if the configuration differs from what the folder of a build keeps. So it is if a record of
/// a build is out of bounds, and the configuration has none.
///
/// # Errors
///
/// [`AllocError`] if memory runs out.
pub fn message<H: Shelf, T: Store>(
    alloc: Global,
    words: &[String],
    failure: &Failure,
    found: &Found<'_>,
    shelf: &mut H,
    store: &mut T,
) -> Result<String, AllocError> {
    let mut text = String::new(alloc);
    let names = names_of(words, found);
    write_failure(alloc, &mut text, failure, &names, shelf, store)?;
    Ok(text)
}

fn write_failure<H: Shelf, T: Store>(
    alloc: Global,
    text: &mut String,
    failure: &Failure,
    names: &Names<'_>,
    shelf: &mut H,
    store: &mut T,
) -> Result<(), AllocError> {
    match failure {
        Failure::Refused(refusal) if names.config.is_empty() => write_refusal(text, refusal, names),
        Failure::Refused(refusal) => write_build(alloc, text, refusal, names, shelf, store),
        Failure::Shallow => write_shallow(text, names.config),
        Failure::MergeRefused(refusal) => write_merge(text, refusal, names),
        Failure::QueryRefused(error) => write_query(text, *error, names),
        Failure::Unfit { key, why } => write_unfit(text, key, *why, names.out),
        Failure::CheckRefused(error) => write_check(text, *error, names),
        Failure::LineNotWritten(line) => write_line(text, line),
    }
}

// The names in these words, and what was found.
fn names_of<'a>(words: &'a [String], found: &Found<'a>) -> Names<'a> {
    let names = Names {
        has_out: found.has_out,
        unread: found.unread,
        has_unread: found.has_unread,
        ..Names::default()
    };
    match command_of(words) {
        Command::Build { config, out } => Names {
            config,
            out,
            continues: true,
            ..names
        },
        Command::Part { config, out, .. } | Command::Merge { config, out, .. } => Names {
            config,
            out,
            ..names
        },
        Command::Query { out, .. } | Command::Select { out, .. } | Command::Check { out } => {
            Names { out, ..names }
        }
        Command::Info { las } => Names {
            input: las,
            ..names
        },
        Command::Trial { .. } | Command::Usage => names,
    }
}

// Writes the sentence of a line that could not be written.
fn write_line(text: &mut String, line: &[u8]) -> Result<(), AllocError> {
    let line = str::from_utf8(line).unwrap_or("").trim_end();
    write!(text, "standard output could not be written: {line}")
}

// Writes the sentence of a build, a part of one, or a merge. The configuration is read again for what is not in the
// words.
fn write_build<H: Shelf, T: Store>(
    alloc: Global,
    text: &mut String,
    refusal: &Refusal,
    names: &Names<'_>,
    shelf: &mut H,
    store: &mut T,
) -> Result<(), AllocError> {
    match *refusal {
        Refusal::Differs { .. } => write_differs(alloc, text, refusal, names, shelf, store),
        Refusal::OutOfBounds { source, .. } => {
            write_outside(alloc, text, refusal, source, names, shelf, store)
        }
        Refusal::BadLas { source, .. }
        | Refusal::SourceChanged { source, .. }
        | Refusal::TooManyPoints { source } => {
            write_of_input(alloc, text, refusal, source, names, shelf)
        }
        Refusal::BadConfiguration(ConfigError::Unknown) => {
            write_unknown(alloc, text, refusal, names, shelf)
        }
        _ => write_refusal(text, refusal, names),
    }
}

// Writes the sentence with both values of the field that differs.
fn write_differs<H: Shelf, T: Store>(
    alloc: Global,
    text: &mut String,
    refusal: &Refusal,
    names: &Names<'_>,
    shelf: &mut H,
    store: &mut T,
) -> Result<(), AllocError> {
    match difference_of(alloc, names.config, shelf, store) {
        Some(found) => {
            let differing = Differing {
                field: found.field,
                kept: &found.kept,
                given: &found.given,
            };
            write_difference(alloc, text, &differing, names.config, names.out)
        }
        None => write_refusal(text, refusal, names),
    }
}

// The first field in which the configuration of this path differs from what the store keeps. `None` if no field
// differs, or if one of them can't be read again.
fn difference_of<H: Shelf, T: Store>(
    alloc: Global,
    path: &str,
    shelf: &mut H,
    store: &mut T,
) -> Option<Difference> {
    let config = read_configuration(alloc, shelf, path).ok()?;
    let saved = open(alloc, store).ok()?;
    difference_from(alloc, &config, &saved)
}

// The first field in which a configuration differs from what the current checkpoint keeps, if one does. If a field
// differs, no input is opened, so a shelf without files is enough.
fn difference_from(alloc: Global, config: &Config, saved: &Saved) -> Option<Difference> {
    let mut empty = MemShelf::new(alloc, Vec::new(alloc), Vec::new(alloc), Vec::new(alloc));
    match make_plan(alloc, config, &mut empty, saved) {
        Err(PlanError::Differs(found)) => Some(found),
        _ => None,
    }
}

// Writes the sentence with the path of the input of this number. If the configuration can't be read again, it names no
// path.
fn write_of_input<H: Shelf>(
    alloc: Global,
    text: &mut String,
    refusal: &Refusal,
    source: u32,
    names: &Names<'_>,
    shelf: &mut H,
) -> Result<(), AllocError> {
    match read_configuration(alloc, shelf, names.config) {
        Ok(config) => {
            let names = Names {
                input: path_of(&config, source),
                ..*names
            };
            write_refusal(text, refusal, &names)
        }
        Err(_) => {
            let names = Names {
                input: AN_INPUT,
                ..*names
            };
            write_refusal(text, refusal, &names)
        }
    }
}

// Writes the sentence of a record that is not within the bounds: the path of its input, and whose bounds they are. If
// the configuration can't be read again, it says neither.
fn write_outside<H: Shelf, T: Store>(
    alloc: Global,
    text: &mut String,
    refusal: &Refusal,
    source: u32,
    names: &Names<'_>,
    shelf: &mut H,
    store: &mut T,
) -> Result<(), AllocError> {
    match read_configuration(alloc, shelf, names.config) {
        Ok(config) => {
            let names = Names {
                input: path_of(&config, source),
                limits: limits_of(alloc, &config, names, store),
                ..*names
            };
            write_refusal(text, refusal, &names)
        }
        Err(_) => {
            let names = Names {
                input: AN_INPUT,
                ..*names
            };
            write_refusal(text, refusal, &names)
        }
    }
}

// The bounds of the inputs of a configuration. `None` if the checkpoint is needed and can't be read again.
fn limits_of<T: Store>(
    alloc: Global,
    config: &Config,
    names: &Names<'_>,
    store: &mut T,
) -> Option<Limits> {
    if config.bounds.is_some() {
        return Some(Limits::Given);
    }
    if !names.continues {
        return Some(Limits::Widest);
    }
    let saved = open(alloc, store).ok()?;
    if saved.current().is_some() {
        Some(Limits::Kept)
    } else {
        Some(Limits::Widest)
    }
}

// The path of the input of this number.
fn path_of(config: &Config, source: u32) -> &str {
    match config.inputs.as_slice().get(source as usize) {
        Some(input) => input.path.as_str(),
        None => AN_INPUT,
    }
}

// Writes the sentence with the first key that no configuration has.
fn write_unknown<H: Shelf>(
    alloc: Global,
    text: &mut String,
    refusal: &Refusal,
    names: &Names<'_>,
    shelf: &mut H,
) -> Result<(), AllocError> {
    match read_object(alloc, names.config, shelf) {
        Some(value) => {
            let unknown = unknown_key(&value);
            write_refusal(text, refusal, &Names { unknown, ..*names })
        }
        None => write_refusal(text, refusal, names),
    }
}

// The value of the JSON text of this path, if it can be read again.
fn read_object<H: Shelf>(alloc: Global, path: &str, shelf: &mut H) -> Option<Value> {
    let text = read_front(alloc, shelf, path, MAX_LENGTH).ok()?;
    Value::from_slice(alloc, &text).ok()
}

fn unknown_key(value: &Value) -> Option<&str> {
    value
        .as_object()?
        .keys()
        .map(|key| key.as_str())
        .find(|key| !is_known(key))
}

fn is_known(key: &str) -> bool {
    KEYS.iter().any(|known| known.name() == key)
}
