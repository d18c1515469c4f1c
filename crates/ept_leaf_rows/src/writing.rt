//! How values are written.

use crate::words::Miss;
use ept_point::Point;
use ept_sample::Tiles;
use ept_space::{Key, key_text};
use std::alloc::Global;
use std::fmt::{Debug, Display, Write};

/// What separates two parts of a result, if there is a part already.
pub(crate) fn part(out: &mut String) -> Result<(), Miss> {
    if !out.is_empty() {
        out.push_str(" | ")?;
    }
    Ok(())
}

/// The value, or `none`.
pub(crate) fn write_or_none<T: Display + Drop>(
    value: Option<T>,
    out: &mut String,
) -> Result<(), Miss> {
    match value {
        Some(value) => write!(out, "{value}")?,
        None => out.push_str("none")?,
    }
    Ok(())
}

/// `refused` and the cause.
pub(crate) fn write_refusal<E: Debug>(cause: &E, out: &mut String) -> Result<(), Miss> {
    write!(out, "refused {cause:?}")?;
    Ok(())
}

/// Bytes in hexadecimal.
pub(crate) fn write_bytes(alloc: Global, bytes: &[u8], out: &mut String) -> Result<(), Miss> {
    let text = hex::encode(alloc, bytes)?;
    out.push_str(text.as_str())?;
    Ok(())
}

/// `D-X-Y-Z`.
pub(crate) fn write_key(key: &Key, out: &mut String) -> Result<(), Miss> {
    let mut into = [0; 40];
    let length = key_text(key, &mut into);
    let text = into
        .get(..length)
        .and_then(|text| str::from_utf8(text).ok());
    out.push_str(text.unwrap_or("?"))?;
    Ok(())
}

/// The ids of points, `ORIGIN:NUMBER`, with commas between them, or `-` for none.
pub(crate) fn write_ids(points: &[Point], out: &mut String) -> Result<(), Miss> {
    if points.is_empty() {
        out.push('-')?;
    }
    for (at, point) in points.iter().enumerate() {
        if at > 0 {
            out.push(',')?;
        }
        write!(out, "{}:{}", point.origin, point.number)?;
    }
    Ok(())
}

/// The nodes in key order, each with the ids of its points.
pub(crate) fn write_tiles(tiles: &Tiles, out: &mut String) -> Result<(), Miss> {
    for tile in tiles.tiles.as_slice() {
        part(out)?;
        write_key(&tile.key, out)?;
        out.push(' ')?;
        write_ids(tile.points.as_slice(), out)?;
    }
    Ok(())
}
