//! Parts, merged.

use crate::files::{compare_files, failing_store_of, has_files, shelf_of, store_of};
use crate::numbers::count;
use crate::row::Row;
use crate::saves::show_generation;
use crate::stop::{Answered, Stop};
use ept_config::Config;
use ept_config_text::read_config;
use ept_mem::{Crash, MemShelf, MemStore};
use ept_merge::{are_all_parts, merge};
use ept_save::open;

/// `merge PARTS | CONFIG | FAILS | FILES | FAILS | STORE | FILES`: whether the parts are merged, or why they are not; of
/// the shelf's sources and of the store the calls of these numbers fail. Then of each file whether the store has it so.
pub(crate) fn merge_parts(row: Row<'_>, out: &mut String) -> Answered {
    let mut shelf = shelf_of(row, row.part(3)?, row.part(2)?)?;
    let mut store = failing_store_of(row, row.part(5)?, row.part(4)?)?;
    merge_with(row, &mut shelf, &mut store, out)?;
    compare_files(row, &store, row.part(6)?, out)
}

/// `merge-stop PARTS | CONFIG | PASSES | FILES | STORE | FILES`: the same over a store that passes PASSES calls. It
/// reports the result. Then for each kind of crash it reports which checkpoint is current, and whether these files are
/// there. It also reports whether those of the store are as before.
pub(crate) fn merge_stopped(row: Row<'_>, out: &mut String) -> Answered {
    for how in [Crash::Old, Crash::New, Crash::Absent, Crash::Junk] {
        let mut said = String::new(row.alloc);
        let mut after = stopped(row, &mut said)?.crash(how);
        if how == Crash::Old {
            out.push_str(&said)?;
        }
        write!(out, "; {how:?}: ")?;
        show_left(row, &mut after, out)?;
    }
    Ok(())
}

// What a merge leaves of a store that passes the calls of a row.
fn stopped(row: Row<'_>, out: &mut String) -> Result<MemStore, Stop> {
    let passes = count(row.part(2)?)?;
    let mut shelf = shelf_of(row, row.part(3)?, "-")?;
    let mut store = store_of(row, row.part(4)?)?.with_fuse(passes);
    merge_with(row, &mut shelf, &mut store, out)?;
    Ok(store)
}

// Merges the parts of a row by its configuration.
fn merge_with(
    row: Row<'_>,
    shelf: &mut MemShelf,
    store: &mut MemStore,
    out: &mut String,
) -> Answered {
    let parts = parts_of(row, row.part(0)?)?;
    match read_config(row.alloc, row.part(1)?.as_bytes()) {
        Ok(config) => merged(row, &config, &parts, shelf, store, out),
        Err(_) => Err(Stop::BadLine),
    }
}

fn merged(
    row: Row<'_>,
    config: &Config,
    parts: &[u8],
    shelf: &mut MemShelf,
    store: &mut MemStore,
    out: &mut String,
) -> Answered {
    if !are_all_parts(parts) {
        return Err(Stop::BadLine);
    }
    match merge(row.alloc, config, parts, shelf, store) {
        Ok(()) => Ok(out.push_str("merged")?),
        Err(refusal) => Ok(write!(out, "refused {refusal:?}")?),
    }
}

// The octants of each part, as numbers between spaces.
fn parts_of(row: Row<'_>, words: &str) -> Result<Vec<u8>, Stop> {
    let mut parts = Vec::new(row.alloc);
    for word in words.split(' ') {
        parts.push(u8::try_from(count(word)?)?)?;
    }
    Ok(parts)
}

fn show_left(row: Row<'_>, store: &mut MemStore, out: &mut String) -> Answered {
    match open(row.alloc, store) {
        Ok(saved) => show_generation(&saved, out)?,
        Err(refusal) => write!(out, "refused {refusal:?}")?,
    }
    let there = has_files(row, store, row.part(5)?)?;
    out.push_str(if there { ", merged" } else { ", not merged" })?;
    let kept = has_files(row, store, row.part(4)?)?;
    Ok(out.push_str(if kept { ", kept" } else { ", changed" })?)
}
