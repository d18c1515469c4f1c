//! The turns of a connection.

use crate::escaped::unescape;
use crate::heads::push_asked;
use crate::row::{RowError, cut, number};
use ept_conn::{Conn, ConnError};
use std::alloc::Global;

/// The most turns that are taken after a piece.
const MOST: u32 = 100;

/// The bytes of a client in pieces of at most `size` bytes, which end at each `|` of the text too.
pub(crate) fn pieces_of(alloc: Global, size: &str, text: &str) -> Result<Vec<Vec<u8>>, RowError> {
    let size = number(size)?.max(1) as usize;
    let mut pieces = Vec::new(alloc);
    for part in text.split('|') {
        let bytes = unescape(alloc, part)?;
        for piece in bytes.chunks(size) {
            pieces.push(Vec::from_slice(alloc, piece)?)?;
        }
    }
    Ok(pieces)
}

/// `turns SIZE BYTES`: the turns of a connection that is fed piece by piece. After each piece it is asked for all its
/// turns. Then whether it takes more bytes after that.
pub(crate) fn turns(alloc: Global, text: &str, answer: &mut String) -> Result<(), RowError> {
    let (size, text) = cut(text)?;
    let pieces = pieces_of(alloc, size, text)?;
    let mut conn = Conn::new(alloc);
    for piece in &pieces {
        if is_closed(&mut conn, piece)? {
            break;
        }
        push_turns(&mut conn, answer)?;
    }
    let is_closed = is_closed(&mut conn, b"GET")?;
    answer.push_str(if is_closed { "closed" } else { "open" })?;
    Ok(())
}

// Feeds a piece, and returns whether it is refused because the last turn was taken.
fn is_closed(conn: &mut Conn, piece: &[u8]) -> Result<bool, RowError> {
    match conn.feed(piece) {
        Ok(()) => Ok(false),
        Err(ConnError::Closed) => Ok(true),
        Err(ConnError::Memory) => Err(RowError::Memory),
    }
}

// Takes and writes all turns that are ready.
fn push_turns(conn: &mut Conn, answer: &mut String) -> Result<(), RowError> {
    for _ in 0..MOST {
        match conn.next()? {
            Some(turn) => push_asked(answer, &turn.asked, turn.last)?,
            None => break,
        }
        answer.push_str("; ")?;
    }
    Ok(())
}
