//! First readings of scans.

ghost use Rattle.ept_space.specs.CubeOfBounds.{HasPlace};

use crate::files::shelf_of;
use crate::numbers::{bounds, count, ordered_bounds, whole};
use crate::row::Row;
use crate::stop::{Answered, Stop};
use ept_config::{Config, SourceCount};
use ept_config_text::read_config;
use ept_mem::MemShelf;
use ept_scan::{ScanDone, ScanError, scan, whole_extent};
use ept_space::Bounds;
use std::alloc::Global;

/// `scan CONFIG | FILES | FAILS`: what the first reading finds.
pub(crate) fn scan_all(row: Row<'_>, out: &mut String) -> Answered {
    let mut shelf = shelf_of(row, row.part(1)?, row.part(2)?)?;
    match read_config(row.alloc, row.part(0)?.as_bytes()) {
        Ok(config) => show(scan(row.alloc, &mut shelf, &config, 0, None), out),
        Err(_) => Err(Stop::BadLine),
    }
}

/// `scan-from CONFIG | FILES | PLACE | BOUNDS`: what it finds from the input of this place on, where these bounds are
/// kept.
pub(crate) fn scan_from(row: Row<'_>, out: &mut String) -> Answered {
    let mut shelf = shelf_of(row, row.part(1)?, "-")?;
    let from = whole(row.part(2)?)?;
    let kept = ordered_bounds(row.part(3)?)?;
    match read_config(row.alloc, row.part(0)?.as_bytes()) {
        Ok(config) => scan_behind(row.alloc, &mut shelf, &config, from, kept, out),
        Err(_) => Err(Stop::BadLine),
    }
}

fn scan_behind(
    alloc: Global,
    shelf: &mut MemShelf,
    config: &Config,
    from: usize,
    kept: Bounds,
    out: &mut String,
) -> Answered
    requires { HasPlace kept }
{
    if from > config.inputs.as_slice().len() {
        return Err(Stop::BadLine);
    }
    show(scan(alloc, shelf, config, from as u32, Some(kept)), out)
}

fn show(done: Result<ScanDone, ScanError>, out: &mut String) -> Answered {
    match done {
        Ok(done) => {
            write!(out, "within ")?;
            show_bounds(&done.bounds, out)?;
            show_counts(done.counts.as_slice(), out)
        }
        Err(refusal) => Ok(write!(out, "refused {refusal:?}")?),
    }
}

/// Appends counts, each as `POINTS` or `POINTS@BOUNDS`.
pub(crate) fn show_counts(counts: &[SourceCount], out: &mut String) -> Answered {
    for count in counts {
        write!(out, " {}", count.points)?;
        if let Some(extent) = &count.extent {
            out.push('@')?;
            show_bounds(extent, out)?;
        }
    }
    Ok(())
}

/// Appends bounds as `X,Y,Z..X,Y,Z`.
pub(crate) fn show_bounds(bounds: &Bounds, out: &mut String) -> Answered {
    let [a, b, c] = bounds.min;
    let [d, e, f] = bounds.max;
    Ok(write!(out, "{a},{b},{c}..{d},{e},{f}")?)
}

/// `extent COUNTS`: the extent of all points of these counts.
pub(crate) fn extent(row: Row<'_>, out: &mut String) -> Answered {
    let counts = counts_of(row, row.rest)?;
    match whole_extent(&counts) {
        Some(extent) => show_bounds(&extent, out),
        None => Ok(out.push_str("none")?),
    }
}

/// Counts, each as `POINTS` or `POINTS@BOUNDS`.
pub(crate) fn counts_of(row: Row<'_>, words: &str) -> Result<Vec<SourceCount>, Stop> {
    let mut counts = Vec::new(row.alloc);
    for word in words.split(' ') {
        counts.push(count_of(word)?)?;
    }
    Ok(counts)
}

fn count_of(word: &str) -> Result<SourceCount, Stop> {
    match word.split_once('@') {
        Some((points, extent)) => Ok(SourceCount {
            points: count(points)?,
            extent: Some(bounds(extent)?),
        }),
        None => Ok(SourceCount {
            points: count(word)?,
            extent: None,
        }),
    }
}
