//! Checkpoints of stores.

ghost use Rattle.std.specs.Prelude.{◌≡◌, ◌≢◌, ◌↔◌, None, IsTrue};
ghost use Rattle.ept_space.specs.VoxelKey.{root};
ghost use Rattle.ept_point.specs.declared.layout.Layout.TheVariants.{Old};
ghost use Rattle.ept_save.specs.Loading.{HasLine};
ghost use Rattle.ept_save.specs.Opening.{lines_of};
ghost use Rattle.ept_save.specs.Tiles.{IsOfLayout};

use crate::files::{compare_files, store_of};
use crate::row::Row;
use crate::stop::{Answered, Stop};
use ept_mem::MemStore;
use ept_point::Layout;
use ept_save::{
    SaveError, Saved, begin, close_done, is_done, load_node, load_tile, migrate, open, open_done,
    save_tile,
};
use ept_space::Key;
use std::alloc::Global;

/// `open STORE`: the generation of the current checkpoint.
pub(crate) fn open_store(row: Row<'_>, out: &mut String) -> Answered {
    let mut store = store_of(row, row.rest)?;
    match open(row.alloc, &mut store) {
        Ok(saved) => show_generation(&saved, out),
        Err(refusal) => refuse(refusal, out),
    }
}

/// Appends the generation of the current checkpoint.
pub(crate) fn show_generation(saved: &Saved, out: &mut String) -> Answered {
    match saved.current() {
        Some(checkpoint) => Ok(write!(out, "generation {}", checkpoint.generation)?),
        None => Ok(out.push_str("none")?),
    }
}

fn refuse(refusal: SaveError, out: &mut String) -> Answered {
    Ok(write!(out, "refused {refusal:?}")?)
}

/// `load STORE`: how many points the tile of the root has, and how many its node.
pub(crate) fn load(row: Row<'_>, out: &mut String) -> Answered {
    let mut store = store_of(row, row.rest)?;
    match open(row.alloc, &mut store) {
        Ok(saved) => load_root(row.alloc, &mut store, &saved, out),
        Err(refusal) => refuse(refusal, out),
    }
}

fn load_root(alloc: Global, store: &mut MemStore, saved: &Saved, out: &mut String) -> Answered {
    if saved.line(&Key::ROOT).is_none() {
        return Ok(out.push_str("no root")?);
    }
    let mut points = Vec::new(alloc);
    match load_tile(alloc, store, saved, Key::ROOT, &mut points) {
        Ok(()) => write!(out, "tile {}", points.len())?,
        Err(refusal) => refuse(refusal, out)?,
    }
    match load_node(alloc, store, saved, Key::ROOT) {
        Ok(node) => Ok(write!(out, " node {}", node.count())?),
        Err(refusal) => Ok(write!(out, " refused {refusal:?}")?),
    }
}

/// Whether the tiles of the current checkpoint are of the old layout.
pub(crate) fn is_old(saved: &Saved) -> bool
    ensures { IsTrue result ↔ IsOfLayout Old saved.now.current }
{
    match saved.current() {
        Some(checkpoint) => checkpoint.version.layout() == Layout::Old,
        None => false,
    }
}

/// `save STORE`: begins the next checkpoint and saves an empty root; then which versions of its tile there are, and
/// the generation that is current. Its tiles may not be of the old layout.
pub(crate) fn save(row: Row<'_>, out: &mut String) -> Answered {
    let mut store = store_of(row, row.rest)?;
    match open(row.alloc, &mut store) {
        Ok(mut saved) => save_root(row.alloc, &mut store, &mut saved, out),
        Err(refusal) => refuse(refusal, out),
    }
}

fn save_root(alloc: Global, store: &mut MemStore, saved: &mut Saved, out: &mut String) -> Answered {
    if is_old(saved) {
        return Err(Stop::BadLine);
    }
    if let Err(refusal) = save_empty(alloc, store, saved) {
        return refuse(refusal, out);
    }
    for name in ["ept-work/a/0-0-0-0.bin", "ept-work/b/0-0-0-0.bin"] {
        show_length(store, name, out)?;
    }
    show_generation(saved, out)
}

fn save_empty(alloc: Global, store: &mut MemStore, saved: &mut Saved) -> Result<(), SaveError>
    requires { ¬ IsOfLayout Old saved.old.current }
{
    begin(alloc, store, saved)?;
    save_tile(alloc, store, saved, Key::ROOT, 0, &[])
}

fn show_length(store: &MemStore, name: &str, out: &mut String) -> Answered {
    match store.file(name) {
        Some(bytes) => Ok(write!(out, "{name} {} ", bytes.len())?),
        None => Ok(write!(out, "{name} absent ")?),
    }
}

/// `migrate STORE | FILES`: takes over the current checkpoint, whose tiles have to be of the old layout. It reports the
/// result, the version and the generation of the one that is current then, and whether the store has these files.
pub(crate) fn take_over(row: Row<'_>, out: &mut String) -> Answered {
    let mut store = store_of(row, row.part(0)?)?;
    match open(row.alloc, &mut store) {
        Ok(mut saved) => migrate_saved(row.alloc, &mut store, &mut saved, out)?,
        Err(refusal) => refuse(refusal, out)?,
    }
    compare_files(row, &store, row.part(1)?, out)
}

fn migrate_saved(
    alloc: Global,
    store: &mut MemStore,
    saved: &mut Saved,
    out: &mut String,
) -> Answered
    requires { saved.old.lines ≡ lines_of saved.old.current }
{
    if !is_old(saved) {
        return Err(Stop::BadLine);
    }
    match migrate(alloc, store, saved) {
        Ok(()) => show_version(saved, out),
        Err(refusal) => refuse(refusal, out),
    }
}

fn show_version(saved: &Saved, out: &mut String) -> Answered {
    if let Some(checkpoint) = saved.current() {
        write!(out, "{:?}, ", checkpoint.version)?;
    }
    show_generation(saved, out)
}

/// `done STORE`: whether the output is done: first, after the gate is closed, after it is opened and after it is closed
/// again. The length of the gate comes with each.
pub(crate) fn done(row: Row<'_>, out: &mut String) -> Answered {
    let mut store = store_of(row, row.rest)?;
    show_done(row.alloc, &mut store, out)?;
    tell(close_done(row.alloc, &mut store), out)?;
    show_done(row.alloc, &mut store, out)?;
    tell(open_done(&mut store), out)?;
    show_done(row.alloc, &mut store, out)?;
    tell(close_done(row.alloc, &mut store), out)?;
    show_done(row.alloc, &mut store, out)
}

fn tell(outcome: Result<(), SaveError>, out: &mut String) -> Answered {
    match outcome {
        Ok(()) => Ok(out.push_str(", then ")?),
        Err(refusal) => refuse(refusal, out),
    }
}

fn show_done(alloc: Global, store: &mut MemStore, out: &mut String) -> Answered {
    show_length(store, "ept-work/done-2", out)?;
    match is_done(alloc, store) {
        Ok(done) => Ok(out.push_str(if done { "done" } else { "open" })?),
        Err(refusal) => refuse(refusal, out),
    }
}
