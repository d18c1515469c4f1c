//! The texts of an output.

use crate::bytes::{bytes_of, show};
use crate::configs::kept_of;
use crate::numbers::{bounds, count};
use crate::row::Row;
use crate::scans::counts_of;
use crate::stop::{Answered, Stop};
use ept_config::{Kept, SourceCount};
use ept_meta::{build_json, ept_json, manifest_json, read_build_json};
use std::alloc::Global;

/// What a buffer has before a text is appended.
const FRONT: &[u8] = b"> ";

/// `metadata POINTS EXTENT | CONFIG`: the metadata of an output of POINTS points, with the extent `-` if there is
/// none.
pub(crate) fn metadata(row: Row<'_>, out: &mut String) -> Answered {
    let (points, extent) = row.part(0)?.split_once(' ').ok_or(Stop::BadLine)?;
    let extent = if extent == "-" {
        None
    } else {
        Some(bounds(extent)?)
    };
    let points = count(points)?;
    let mut text = Vec::from_slice(row.alloc, FRONT)?;
    let kept = kept_of(row.alloc, row.part(1)?)?;
    ept_json(&kept, extent.as_ref(), points, &mut text)?;
    show(&text, out)
}

/// `manifest COUNTS | CONFIG`: the manifest of inputs with these counts.
pub(crate) fn manifest(row: Row<'_>, out: &mut String) -> Answered {
    let counts = counts_of(row, row.part(0)?)?;
    let kept = kept_of(row.alloc, row.part(1)?)?;
    show_manifest(row.alloc, &kept, &counts, out)
}

fn show_manifest(alloc: Global, kept: &Kept, counts: &[SourceCount], out: &mut String) -> Answered {
    if counts.len() != kept.inputs.as_slice().len() {
        return Err(Stop::BadLine);
    }
    let mut text = Vec::from_slice(alloc, FRONT)?;
    manifest_json(kept, counts, &mut text)?;
    show(&text, out)
}

/// `build CONFIG`: the build file.
pub(crate) fn build(row: Row<'_>, out: &mut String) -> Answered {
    let mut text = Vec::from_slice(row.alloc, FRONT)?;
    let kept = kept_of(row.alloc, row.rest)?;
    build_json(&kept, &mut text)?;
    show(&text, out)
}

/// `build-file TEXT`: what is read of a build file, written again.
pub(crate) fn build_file(row: Row<'_>, out: &mut String) -> Answered {
    write_again(row.alloc, row.rest.as_bytes(), out)
}

/// `build-bytes BYTES`: the same of bytes.
pub(crate) fn build_bytes(row: Row<'_>, out: &mut String) -> Answered {
    let bytes = bytes_of(row, row.rest)?;
    write_again(row.alloc, &bytes, out)
}

fn write_again(alloc: Global, bytes: &[u8], out: &mut String) -> Answered {
    let mut text = Vec::new(alloc);
    match read_build_json(alloc, bytes) {
        Ok(kept) => build_json(&kept, &mut text)?,
        Err(refusal) => return Ok(write!(out, "refused {refusal:?}")?),
    }
    show(&text, out)
}
