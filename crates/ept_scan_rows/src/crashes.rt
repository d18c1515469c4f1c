//! Builds over stores that stop at a call, and what each kind of crash leaves of them.

ghost use Rattle.std.specs.Prelude.{◌≡◌, ◌≤◌, ◌∷◌, []};
ghost use Rattle.std.specs.Option.{ForSome};
ghost use Rattle.ept_space.specs.VoxelKey.{root};
ghost use Rattle.ept_point.specs.declared.layout.Layout.TheVariants.{Old};
ghost use Rattle.ept_save.specs.Opening.{lines_of};
ghost use Rattle.ept_save.specs.Tiles.{IsOfLayout};

use crate::files::store_of;
use crate::numbers::count;
use crate::points::points_of;
use crate::row::Row;
use crate::saves::is_old;
use crate::stop::{Answered, Stop};
use ept_ckpt::{Checkpoint, NodeLine};
use ept_mem::{Crash, MemStore};
use ept_point::Point;
use ept_save::{
    SaveError, Saved, begin, close_done, commit, is_done, load_tile, migrate, open, open_done,
    save_tile,
};
use ept_space::Key;
use std::alloc::Global;

/// `crash PASSES | STORE | OLD | NEW`: commits the next checkpoint over a store that passes PASSES calls. Its root has
/// the points NEW. Before it the done gate is closed, and after it opened. A checkpoint with tiles of the old layout is
/// only taken over, after the done gate is closed. It reports the result. For each kind of crash it reports the
/// generation of the checkpoint that is opened. With it comes whether the root has the points OLD or NEW, and whether the
/// output is done.
pub(crate) fn crash(row: Row<'_>, out: &mut String) -> Answered {
    let passes = count(row.part(0)?)?;
    let old = points_of(row, row.part(2)?)?;
    let new = points_of(row, row.part(3)?)?;
    for how in [Crash::Old, Crash::New, Crash::Absent, Crash::Junk] {
        crash_as(row, passes, how, [&old, &new], out)?;
    }
    Ok(())
}

fn crash_as(
    row: Row<'_>,
    passes: u64,
    how: Crash,
    points: [&[Point]; 2],
    out: &mut String,
) -> Answered {
    let mut store = store_of(row, row.part(1)?)?.with_fuse(passes);
    let ended = every_call(row.alloc, &mut store, points[1]);
    let mut after = store.crash(how);
    if how == Crash::Old {
        show_end(ended, out)?;
    }
    write!(out, "; {how:?}:")?;
    show_left(row.alloc, &mut after, points, out)
}

fn show_end(ended: Result<(), SaveError>, out: &mut String) -> Answered {
    match ended {
        Ok(()) => Ok(out.push_str("ok")?),
        Err(refusal) => Ok(write!(out, "refused {refusal:?}")?),
    }
}

// Each call, in the order of a build. If the tiles are of the old layout, they are taken over, and no more.
fn every_call(alloc: Global, store: &mut MemStore, points: &[Point]) -> Result<(), SaveError> {
    let mut saved = open(alloc, store)?;
    is_done(alloc, store)?;
    close_done(alloc, store)?;
    if is_old(&saved) {
        return migrate(alloc, store, &mut saved);
    }
    commit_root(alloc, store, &mut saved, points)?;
    open_done(store)
}

// Commits the next checkpoint, whose root has these points. It is the only node, and their number is that of the
// current one.
fn commit_root(
    alloc: Global,
    store: &mut MemStore,
    saved: &mut Saved,
    points: &[Point],
) -> Result<(), SaveError>
    requires fresh { saved.old.lines ≡ lines_of saved.old.current }
    requires newest { ¬ IsOfLayout Old saved.old.current }
{
    let Some(checkpoint) = saved.current() else {
        return Ok(());
    };
    let Some(line) = only_root(checkpoint, points.len() as u64) else {
        return Ok(());
    };
    let kept = checkpoint.kept.copy(alloc)?;
    let counts = Vec::from_slice(alloc, checkpoint.counts.as_slice())?;
    let inserted = checkpoint.inserted;
    begin(alloc, store, saved)?;
    root_points(alloc, store, saved)?;
    save_tile(alloc, store, saved, Key::ROOT, line.mask, points)?;
    commit(alloc, store, saved, &kept, &counts, inserted)
}

// The line of the root, if it is the only node and has this number of points. One more commit, which adds no point, has
// to be possible.
fn only_root(checkpoint: &Checkpoint, points: u64) -> Option<NodeLine>
    ensures { ForSome result (λ line. (checkpoint.now.nodes ≡ line ∷ [])
        × (checkpoint.now.generation ≤ checkpoint.now.inserted) × (line.key ≡ root) × (line.count ≡ points)) }
{
    let [line] = checkpoint.nodes.as_slice() else {
        return None;
    };
    let fits = line.key == Key::ROOT && line.count == points;
    if fits && checkpoint.generation <= checkpoint.inserted {
        Some(*line)
    } else {
        None
    }
}

// The points of the root of the current checkpoint, if there is one.
fn root_points(
    alloc: Global,
    store: &mut MemStore,
    saved: &Saved,
) -> Result<Option<Vec<Point>>, SaveError> {
    if saved.line(&Key::ROOT).is_none() {
        return Ok(None);
    }
    let mut points = Vec::new(alloc);
    load_tile(alloc, store, saved, Key::ROOT, &mut points)?;
    Ok(Some(points))
}

fn show_left(
    alloc: Global,
    store: &mut MemStore,
    points: [&[Point]; 2],
    out: &mut String,
) -> Answered {
    match open(alloc, store) {
        Ok(saved) => show_saved(alloc, store, &saved, points, out)?,
        Err(refusal) => write!(out, " refused {refusal:?}")?,
    }
    match is_done(alloc, store) {
        Ok(done) => Ok(out.push_str(if done { " done" } else { " not done" })?),
        Err(refusal) => Ok(write!(out, " refused {refusal:?}")?),
    }
}

fn show_saved(
    alloc: Global,
    store: &mut MemStore,
    saved: &Saved,
    points: [&[Point]; 2],
    out: &mut String,
) -> Answered {
    let generation = saved
        .current()
        .map_or(0, |checkpoint| checkpoint.generation);
    write!(out, " {generation}")?;
    match root_points(alloc, store, saved) {
        Ok(Some(found)) => show_which(&found, points, out),
        Ok(None) => Err(Stop::BadLine),
        Err(refusal) => Ok(write!(out, " refused {refusal:?}")?),
    }
}

fn show_which(found: &[Point], points: [&[Point]; 2], out: &mut String) -> Answered {
    let [old, new] = points;
    let which = if found == old {
        " old"
    } else if found == new {
        " new"
    } else {
        " others"
    };
    Ok(out.push_str(which)?)
}
