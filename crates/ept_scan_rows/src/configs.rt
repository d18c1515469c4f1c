//! Configurations.

ghost use Rattle.ept_space.specs.CubeOfBounds.{HasPlace};

use crate::bytes::bytes_of;
use crate::numbers::ordered_bounds;
use crate::row::Row;
use crate::stop::{Answered, Stop};
use ept_config::{Config, Kept, is_path, is_srs_text};
use ept_config_text::{ConfigError, read_config};
use ept_space::Bounds;
use std::alloc::Global;
use std::str;

/// `config TEXT`: whether the text is a configuration.
pub(crate) fn config(row: Row<'_>, out: &mut String) -> Answered {
    judge(row.alloc, row.rest.as_bytes(), out)
}

/// `config-bytes BYTES`: the same of bytes.
pub(crate) fn config_bytes(row: Row<'_>, out: &mut String) -> Answered {
    let bytes = bytes_of(row, row.rest)?;
    judge(row.alloc, &bytes, out)
}

// A refusal has its number, its key and its name.
fn judge(alloc: Global, text: &[u8], out: &mut String) -> Answered {
    match read_config(alloc, text).err() {
        None => Ok(out.push_str("accepted")?),
        Some(refusal) => refuse(refusal, out),
    }
}

fn refuse(refusal: ConfigError, out: &mut String) -> Answered {
    let number = refusal.code();
    let key = refusal.key_text();
    Ok(write!(out, "refused {number} {key} {refusal:?}")?)
}

/// `settings TEXT`: all that a configuration says.
pub(crate) fn settings(row: Row<'_>, out: &mut String) -> Answered {
    match read_config(row.alloc, row.rest.as_bytes()) {
        Ok(config) => Ok(write!(out, "{config:?}")?),
        Err(refusal) => refuse(refusal, out),
    }
}

/// `kept BOUNDS | TEXT`: what is kept of a configuration with these bounds, of which a copy is shown.
pub(crate) fn kept(row: Row<'_>, out: &mut String) -> Answered {
    let bounds = ordered_bounds(row.part(0)?)?;
    match read_config(row.alloc, row.part(1)?.as_bytes()) {
        Ok(config) => show_kept(row.alloc, &config, bounds, out),
        Err(_) => Err(Stop::BadLine),
    }
}

fn show_kept(alloc: Global, config: &Config, bounds: Bounds, out: &mut String) -> Answered
    requires { HasPlace bounds }
{
    let kept = config.kept(alloc, &bounds)?;
    show_copy(alloc, &kept, out)
}

fn show_copy(alloc: Global, kept: &Kept, out: &mut String) -> Answered {
    let copy = kept.copy(alloc)?;
    Ok(write!(out, "{copy:?}")?)
}

/// What a configuration with bounds keeps.
pub(crate) fn kept_of(alloc: Global, text: &str) -> Result<Kept, Stop> {
    match read_config(alloc, text.as_bytes()) {
        Ok(config) => kept_within(alloc, &config),
        Err(_) => Err(Stop::BadLine),
    }
}

fn kept_within(alloc: Global, config: &Config) -> Result<Kept, Stop> {
    match config.bounds {
        Some(bounds) => Ok(config.kept(alloc, &bounds)?),
        None => Err(Stop::BadLine),
    }
}

/// `path BYTES`: whether a text may be a path.
pub(crate) fn path(row: Row<'_>, out: &mut String) -> Answered {
    let bytes = bytes_of(row, row.rest)?;
    tell(str::from_utf8(&bytes).ok().map(|text| is_path(text)), out)
}

/// `reference BYTES`: whether a text may be one of a spatial reference.
pub(crate) fn reference(row: Row<'_>, out: &mut String) -> Answered {
    let bytes = bytes_of(row, row.rest)?;
    tell(
        str::from_utf8(&bytes).ok().map(|text| is_srs_text(text)),
        out,
    )
}

fn tell(found: Option<bool>, out: &mut String) -> Answered {
    match found {
        Some(is_so) => Ok(write!(out, "{is_so}")?),
        None => Err(Stop::BadLine),
    }
}
