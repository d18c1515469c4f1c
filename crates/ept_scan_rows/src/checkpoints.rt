//! Bodies of checkpoints.

use crate::bytes::bytes_of;
use crate::row::Row;
use crate::stop::Answered;
use ept_ckpt::{Checkpoint, CkptError, read_ckpt, write_ckpt};
use std::alloc::Global;

/// `checkpoint BYTES`: all that a body says.
pub(crate) fn checkpoint(row: Row<'_>, out: &mut String) -> Answered {
    let body = bytes_of(row, row.rest)?;
    match read_ckpt(row.alloc, &body) {
        Ok(checkpoint) => Ok(write!(out, "{checkpoint:?}")?),
        Err(refusal) => refuse(refusal, out),
    }
}

fn refuse(refusal: CkptError, out: &mut String) -> Answered {
    match refusal {
        CkptError::Field { at } => Ok(write!(out, "refused Field {at}")?),
        _ => Ok(write!(out, "refused {refusal:?}")?),
    }
}

/// `body BYTES`: whether what a body says is written as the same bytes again, after bytes that were there before.
pub(crate) fn body(row: Row<'_>, out: &mut String) -> Answered {
    let body = bytes_of(row, row.rest)?;
    match read_ckpt(row.alloc, &body) {
        Ok(checkpoint) => write_again(row.alloc, &checkpoint, &body, out),
        Err(refusal) => refuse(refusal, out),
    }
}

fn write_again(alloc: Global, checkpoint: &Checkpoint, body: &[u8], out: &mut String) -> Answered {
    let mut written = Vec::from_slice(alloc, b"front")?;
    write_ckpt(checkpoint, &mut written)?;
    let is_same = written.as_slice().strip_prefix(b"front") == Some(body);
    Ok(out.push_str(if is_same { "same" } else { "other" })?)
}

/// `body-parts BYTES`: how many of its shorter prefixes are refused as too short.
pub(crate) fn body_parts(row: Row<'_>, out: &mut String) -> Answered {
    let body = bytes_of(row, row.rest)?;
    let mut refused = 0u64;
    for end in 0..body.len() {
        if read_ckpt(row.alloc, &body[..end]).err() == Some(CkptError::Length) {
            refused = refused.saturating_add(1);
        }
    }
    Ok(write!(out, "{refused} of {} are refused Length", body.len())?)
}
