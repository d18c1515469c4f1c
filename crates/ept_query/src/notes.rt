//! What is noted of the entries of a hierarchy file: the files still to be read, and the tiles of the plan.

ghost use Rattle.std.specs.Prelude.{◌≡◌, ◌≢◌, ◌≤◌, ◌↔◌, ◌∷◌, [], ℕ, pos, negsuc, All, IsTrue, OnOk, IfSome, IfNone};
ghost use Rattle.std.specs.BTreeMap.{get};
ghost use Rattle.ept_space.specs.VoxelKey.{IsKey, key_cmp};
ghost use Rattle.ept_hier.specs.Hierarchy.{Entry};
ghost use Rattle.ept_query.specs.Walk.{NotesLinks, NotesTiles};

use crate::search::Search;
use ept_point::Memory;
use ept_space::Key;
use std::collections::{BTreeMap, BTreeSet};

/// Notes the links among the entries whose boxes meet the area.
pub(crate) fn note_links(
    search: &Search,
    entries: &[(Key, i64)],
    pending: &mut BTreeSet<Key>,
) -> Result<(), Memory>
    requires { All (λ (e : Entry). e.0.depth ≤ search.now.cube.depth) entries.now }
    ensures links { OnOk result (NotesLinks search.now entries.now pending.old.keys pending.new.keys) }
    ensures are_keys { OnOk result (All IsKey pending.old.keys → All IsKey pending.new.keys) }
{
    for entry in entries {
        note_link(search, entry, pending)?;
    }
    Ok(())
}

// Notes an entry if it is a link whose box meets the area.
fn note_link(search: &Search, entry: &(Key, i64), pending: &mut BTreeSet<Key>) -> Result<(), Memory>
    requires { entry.now.0.depth ≤ search.now.cube.depth }
    ensures links { OnOk result (NotesLinks search.now (entry.now ∷ []) pending.old.keys pending.new.keys) }
    ensures are_keys { OnOk result (All IsKey pending.old.keys → All IsKey pending.new.keys) }
{
    let key = entry.0;
    key.known();
    if is_link(entry) && search.meets(&key) {
        pending.insert(key)?;
    }
    Ok(())
}

// Whether an entry is a link.
fn is_link(entry: &(Key, i64)) -> bool
    ensures { IsTrue result ↔ (entry.now.1 ≡ negsuc 0) }
{
    entry.1 == -1
}

/// Notes the entries with counts whose depths are asked for and whose boxes meet the area.
pub(crate) fn note_tiles(
    search: &Search,
    entries: &[(Key, i64)],
    tiles: &mut BTreeMap<Key, u64>,
) -> Result<(), Memory>
    requires { All (λ (e : Entry). e.0.depth ≤ search.now.cube.depth) entries.now }
    ensures { OnOk result (NotesTiles search.now entries.now (get key_cmp tiles.old) (get key_cmp tiles.new)) }
{
    for entry in entries {
        note_tile(search, entry, tiles)?;
    }
    Ok(())
}

// Notes an entry if it has a count, its depth is asked for and its box meets the area.
fn note_tile(
    search: &Search,
    entry: &(Key, i64),
    tiles: &mut BTreeMap<Key, u64>,
) -> Result<(), Memory>
    requires { entry.now.0.depth ≤ search.now.cube.depth }
    ensures { OnOk result (NotesTiles search.now (entry.now ∷ []) (get key_cmp tiles.old) (get key_cmp tiles.new)) }
{
    let key = entry.0;
    let Some(count) = count_of(entry) else {
        return Ok(());
    };
    if search.has_depth(&key) && search.meets(&key) {
        tiles.insert(key, count)?;
    }
    Ok(())
}

// The count of an entry, if it has one.
fn count_of(entry: &(Key, i64)) -> Option<u64>
    ensures count { IfSome result (λ count. entry.now.1 ≡ pos count) }
    ensures none { IfNone result ((count : ℕ) → entry.now.1 ≢ pos count) }
{
    if entry.1 < 0 {
        None
    } else {
        Some(entry.1 as u64)
    }
}
