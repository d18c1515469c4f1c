//! The words of the server's command line.

use crate::row::{RowError, plain};
use ept_listen::{Serve, server_words};
use std::alloc::{AllocError, Global};
use std::fmt::Write as _;

/// `words WORD ..`: how many connections the server's command line asks for, and whether on one thread.
pub(crate) fn words(alloc: Global, text: &str, answer: &mut String) -> Result<(), RowError> {
    let words = words_of(alloc, text)?;
    match server_words(&words) {
        Some(serve) => push_serve(answer, serve)?,
        None => answer.push_str("none")?,
    }
    Ok(())
}

fn words_of(alloc: Global, text: &str) -> Result<Vec<String>, AllocError> {
    let mut words = Vec::new(alloc);
    for word in text.split_ascii_whitespace() {
        words.push(String::from_str(alloc, plain(word))?)?;
    }
    Ok(words)
}

fn push_serve(answer: &mut String, serve: Serve) -> Result<(), AllocError> {
    if serve.single {
        answer.push_str("single ")?;
    }
    push_count(answer, serve.connections)
}

fn push_count(answer: &mut String, connections: Option<u32>) -> Result<(), AllocError> {
    match connections {
        Some(count) => write!(answer, "{count}"),
        None => answer.push_str("all"),
    }
}
