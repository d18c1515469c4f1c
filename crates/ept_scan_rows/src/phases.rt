//! Octrees that are loaded from checkpoints, and saved as the next ones.

ghost use Rattle.std.specs.Prelude.{◌≡◌, ◌≤◌, ◌<◌, ◌∷◌, [], IfOk};
ghost use Rattle.ept_space.specs.VoxelKey.{root};
ghost use Rattle.ept_ckpt.specs.declared.checkpoint.Checkpoint as c;
ghost use Rattle.ept_ckpt.specs.Octree as ckpt;
ghost use Rattle.ept_meta.specs.Output as meta;
ghost use Rattle.ept_node.specs.Shown.{empty_node};
ghost use Rattle.ept_octree.specs.Octree.{rules_of, residents_of, nodes_of, IsUnbroken, AgreesWithFiles};
ghost use Rattle.ept_octree_ckpt.specs.Loaded.{OfCurrent};
ghost use Rattle.ept_point.specs.declared.layout.Layout.TheVariants.{Old};
ghost use Rattle.ept_save.specs.Opening.{lines_of};
ghost use Rattle.ept_save.specs.Tiles.{IsOfLayout};

use crate::files::{compare_files, room_of, store_of};
use crate::row::Row;
use crate::saves::is_old;
use crate::stop::{Answered, Stop};
use ept_base::SpillFile;
use ept_ckpt::NodeLine;
use ept_fixtures::small_rules;
use ept_mem::{MemRoom, MemStore};
use ept_meta::rules_of;
use ept_octree::Octree;
use ept_octree_ckpt::{PhaseError, lines_law, load_octree, save_octree};
use ept_point::Memory;
use ept_save::{Saved, open};
use ept_space::{Key, Rules};
use std::alloc::Global;

/// `phase-load MOST CACHE | FAILS | STORE`: how many nodes are loaded. There may be MOST nodes, CACHE of them in memory
/// at most. The calls of these numbers of each spill file fail.
pub(crate) fn load(row: Row<'_>, out: &mut String) -> Answered {
    let (most, cache) = row.part(0)?.split_once(' ').ok_or(Stop::BadLine)?;
    let sizes = [most.parse()?, cache.parse()?];
    let mut room = room_of(row, row.part(1)?)?;
    let mut store = store_of(row, row.part(2)?)?;
    match open(row.alloc, &mut store) {
        Ok(saved) => show_loaded(row.alloc, &mut store, &saved, &mut room, sizes, out),
        Err(_) => Err(Stop::BadLine),
    }
}

fn show_loaded(
    alloc: Global,
    store: &mut MemStore,
    saved: &Saved,
    room: &mut MemRoom,
    sizes: [u32; 2],
    out: &mut String,
) -> Answered {
    let [most, cache] = sizes;
    if most == 0 || cache == 0 {
        return Err(Stop::BadLine);
    }
    let Ok(mut octree) = Octree::new(alloc, room, most, cache, &rules_for(saved)) else {
        return Err(Stop::Memory);
    };
    let outcome = load_octree(alloc, store, saved, &mut octree);
    let nodes = octree.len();
    octree.retire_all(room);
    match outcome {
        Ok(()) => Ok(write!(out, "{nodes} nodes")?),
        Err(refusal) => Ok(write!(out, "refused {refusal:?}")?),
    }
}

// The rules that the current checkpoint keeps, where there is one.
fn rules_for(saved: &Saved) -> Rules
    ensures { OfCurrent saved.now.current (λ (c : c.Checkpoint). result ≡ meta.rules_of c.kept) }
{
    match saved.current() {
        Some(checkpoint) => rules_of(&checkpoint.kept),
        None => small_rules(0),
    }
}

/// `phase-save CACHE | FAILS | STORE | LATER | FILES`: loads the octree of the current checkpoint of the store LATER, and
/// makes it the next checkpoint of the store STORE. At most CACHE nodes are in memory. The calls of these numbers of each
/// spill file fail. It reports the result, how many nodes are in memory then, and whether the store has these files.
pub(crate) fn save(row: Row<'_>, out: &mut String) -> Answered {
    let mut store = store_of(row, row.part(2)?)?;
    save_over(row, &mut store, out)?;
    compare_files(row, &store, row.part(4)?, out)
}

fn save_over(row: Row<'_>, store: &mut MemStore, out: &mut String) -> Answered {
    let cache = row.part(0)?.parse()?;
    let mut room = room_of(row, row.part(1)?)?;
    let mut later = store_of(row, row.part(3)?)?;
    match save_next(row.alloc, store, &mut later, &mut room, cache) {
        Some((Ok(is_saved), residents)) => Ok(write!(
            out,
            "saved {is_saved}, {residents} in memory"
        )?),
        Some((Err(refusal), _)) => Ok(write!(out, "refused {refusal:?}")?),
        None => Err(Stop::BadLine),
    }
}

// What comes of it, and how many nodes are in memory then. There is no result without memory. Nor is there one if a
// store has no checkpoint that can be opened, or one with tiles of the old layout.
fn save_next(
    alloc: Global,
    store: &mut MemStore,
    later: &mut MemStore,
    room: &mut MemRoom,
    cache: u32,
) -> Option<(Result<bool, PhaseError>, u64)> {
    let mut saved = open(alloc, store).ok()?;
    let next = open(alloc, later).ok()?;
    if cache == 0 {
        return None;
    }
    if is_old(&saved) {
        return None;
    }
    let mut octree = Octree::new(alloc, room, 2, cache, &rules_for(&next)).ok()?;
    let outcome = save_later(alloc, store, &mut saved, later, &next, &mut octree);
    let forest = octree.into_forest();
    let residents = forest.residents();
    forest.retire_all(room);
    Some((outcome, residents))
}

// Loads the octree of the current checkpoint of a later store into a new one. Makes it the next checkpoint of a store
// whose current one has the same keys.
fn save_later<F: SpillFile>(
    alloc: Global,
    store: &mut MemStore,
    saved: &mut Saved,
    later: &mut MemStore,
    next: &Saved,
    octree: &mut Octree<F>,
) -> Result<bool, PhaseError>
    requires fresh { saved.old.lines ≡ lines_of saved.old.current }
    requires newest { ¬ IsOfLayout Old saved.old.current }
    requires new { nodes_of F.held octree.old ≡ (root, empty_node root (rules_of octree.old)) ∷ [] }
    requires rules { OfCurrent next.now.current (λ (c : c.Checkpoint). rules_of octree.old ≡ meta.rules_of c.kept) }
    requires agrees { AgreesWithFiles F.held F.faults F.keeps octree.old }
    requires here { 0 < residents_of octree.old }
    requires unbroken { IsUnbroken octree.old }
{
    let (Some(first), Some(second)) = (saved.current(), next.current()) else {
        return Ok(false);
    };
    load_octree(alloc, later, next, octree)?;
    let before = keys_of(alloc, first.nodes.as_slice())?;
    let keys = octree.keys(alloc)?;
    let inputs = first.kept.inputs.as_slice().len();
    if before.as_slice() == keys.as_slice()
        && first.inserted < second.inserted
        && inputs <= second.kept.inputs.as_slice().len()
    {
        lines_law();
        let counts = second.counts.as_slice();
        let inserted = second.inserted;
        save_octree(alloc, store, saved, octree, &second.kept, counts, inserted)?;
        return Ok(true);
    }
    Ok(false)
}

// The keys of lines.
fn keys_of(alloc: Global, lines: &[NodeLine]) -> Result<Vec<Key>, Memory>
    ensures { IfOk result (λ keys. keys.items ≡ ckpt.keys_of lines.now) }
{
    let mut keys = Vec::new(alloc);
    for line in lines {
        keys.push(line.key)?;
    }
    Ok(keys)
}
