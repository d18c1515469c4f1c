//! What is said of a run that fails.

use ept_command::{Command, Ended, Failure, Refusal, command_of};
use ept_messages::{Found, OUT_OF_MEMORY, message};
use ept_real::{RealShelf, RealStore};
use std::alloc::{AllocError, Global};
use std::fmt::Write;
use std::io::ErrorKind;
use std::rt::Files;

/// Says on standard error why the run of these words failed, if it did. `unread` is the file that could not be opened
/// or read.
pub(crate) fn report(disk: &HostRuntime, words: &[String], ended: &Ended, unread: Option<&str>) {
    let Some(failure) = &ended.failure else {
        return;
    };
    // A sentence that can't be written changes no status.
    let _ = match sentence(disk, words, failure, unread) {
        Ok(sentence) => eprintln!(disk; "ept_tool: {sentence}"),
        Err(_) => eprintln!(disk; "ept_tool: status {}, and {OUT_OF_MEMORY}", ended.status),
    };
}

// Why the run of these words failed.
fn sentence(
    disk: &HostRuntime,
    words: &[String],
    failure: &Failure,
    unread: Option<&str>,
) -> Result<String, AllocError> {
    let alloc = disk.alloc();
    let folder = folder_of(words);
    let found = Found {
        unread,
        has_unread: unread.is_some_and(|path| exists(disk, path)),
        has_out: exists(disk, folder),
    };
    let mut shelf = RealShelf::new(alloc, disk);
    let mut store = RealStore::new(alloc, disk, folder);
    let text = message(alloc, words, failure, &found, &mut shelf, &mut store)?;
    match failure {
        // The usage has a line for each command, and nothing that was given.
        Failure::Refused(Refusal::Usage) => Ok(text),
        _ => in_one_line(alloc, text.as_str()),
    }
}

// A text whose characters that would steer a terminal, or end the line, are escaped. A path may have such characters.
fn in_one_line(alloc: Global, text: &str) -> Result<String, AllocError> {
    let mut line = String::new(alloc);
    for letter in text.chars() {
        if steers(letter) {
            write!(line, "{}", letter.escape_unicode())?;
        } else {
            line.push(letter)?;
        }
    }
    Ok(line)
}

// Whether a character is a control character, ends a line, or changes the direction of the text.
fn steers(letter: char) -> bool {
    letter.is_control()
        || matches!(letter, '\u{200e}' | '\u{200f}' | '\u{2028}'..='\u{202e}' | '\u{2066}'..='\u{2069}')
}

// Whether there is a file or a folder of this path.
fn exists(disk: &HostRuntime, path: &str) -> bool {
    match disk.metadata(path) {
        Ok(_) => true,
        Err(error) => !matches!(error.kind(), ErrorKind::NotFound | ErrorKind::NotADirectory),
    }
}

/// The folder of a build, a part, a merge, a query, a selection or a check, as it is named; empty for other words.
pub(crate) fn folder_of(words: &[String]) -> &str {
    match command_of(words) {
        Command::Build { out, .. }
        | Command::Part { out, .. }
        | Command::Merge { out, .. }
        | Command::Query { out, .. }
        | Command::Select { out, .. }
        | Command::Check { out } => out,
        _ => "",
    }
}
