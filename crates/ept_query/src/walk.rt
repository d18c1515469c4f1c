//! The walk over the hierarchy files of a folder, in key order.

ghost use Rattle.std.specs.Prelude.{◌≡◌, ◌+◌, ◌≤◌, List, length, All, Contains, OnOk, IfOk, IfErr};
ghost use Rattle.std.specs.BTreeMap.{get};
ghost use Rattle.std.specs.declared.cmp.Ordering.TheVariants.{Less};
ghost use Rattle.ept_base.specs.Causes.{HasCauseOf};
ghost use Rattle.ept_base.specs.Files.{SameFiles, Tells};
ghost use Rattle.ept_base.specs.Moves.{Moves};
ghost use Rattle.ept_space.specs.VoxelKey.{VoxelKey, IsKey, root, key_cmp, AreAscending};
ghost use Rattle.ept_hier.specs.Hierarchy.{Node, keys_of};
ghost use Rattle.ept_query.specs.Damage.{RefusesWalk, RefusesReading};
ghost use Rattle.ept_query.specs.Hierarchies.{HasNoHierarchy};
ghost use Rattle.ept_query.specs.Plan.{EachIsThere, IsPlan, HasNeeded};
ghost use Rattle.ept_query.specs.Search.{MeetsArea};
ghost use Rattle.ept_query.specs.Walk.{AreShallow, NotesFile};

use crate::hierarchy::entries_at;
use crate::notes::{note_links, note_tiles};
use crate::query_error::{QueryError, QueryFile};
use crate::search::Search;
use ept_base::Store;
use ept_point::Memory;
use ept_space::Key;
use std::alloc::Global;
use std::collections::{BTreeMap, BTreeSet};

/// The tiles of the plan with their counts, in key order. Reads the hierarchy files that are needed, each once and in
/// key order.
pub(crate) fn tiles_of<T: Store>(
    alloc: Global,
    store: &mut T,
    search: &Search,
) -> Result<Vec<(Key, u64)>, QueryError>
    ensures plan { IfOk result (λ tiles. Tells
        (λ all. EachIsThere search.now all × IsPlan search.now all tiles.items) (T.files store.old)) }
    ensures shallow { IfOk result (λ tiles. All (λ (n : Node). n.0.depth ≤ search.now.cube.depth) tiles.items) }
    ensures ascend { IfOk result (λ tiles. AreAscending (keys_of tiles.items)) }
    ensures refused { IfErr result (RefusesWalk search.now (T.files store.old)) }
    ensures gets { Tells (λ all. (keys : List VoxelKey) → HasNeeded search.now all keys
        → T.gets store.new ≤ T.gets store.old + length keys) (T.files store.old) }
    ensures any_moment { Moves T.files T.may_leave T.moment T.image_since SameFiles store.old store.new }
    ensures cause { HasCauseOf QueryError.StoreFault (T.faults store.old) (T.faults store.new) result }
{
    let mut pending = first_of(alloc, search)?;
    let mut tiles = BTreeMap::new(alloc);
    while let Some(top) = pending.pop_first() {
        note_file(alloc, store, search, &top, &mut pending, &mut tiles)?;
    }
    listed(alloc, tiles)
}

// Reads the hierarchy file of a key, and notes its links and counts.
fn note_file<T: Store>(
    alloc: Global,
    store: &mut T,
    search: &Search,
    top: &Key,
    pending: &mut BTreeSet<Key>,
    tiles: &mut BTreeMap<Key, u64>,
) -> Result<(), QueryError>
    ensures noted { OnOk result (Tells (NotesFile search.now top.now pending.old.keys pending.new.keys
        (get key_cmp tiles.old) (get key_cmp tiles.new)) (T.files store.old)) }
    ensures shallow { OnOk result (AreShallow search.now (get key_cmp tiles.old) → AreShallow search.now (get key_cmp tiles.new)) }
    ensures behind { OnOk result (All (λ (k : VoxelKey). key_cmp top.now k ≡ Less) pending.old.keys
        → All (λ (k : VoxelKey). key_cmp top.now k ≡ Less) pending.new.keys) }
    ensures are_keys { OnOk result (All IsKey pending.old.keys → All IsKey pending.new.keys) }
    ensures refused { IfErr result (RefusesReading (QueryFile.Hierarchy top.now)
        (λ all. HasNoHierarchy search.now all top.now) (T.files store.old)) }
    ensures any_moment { Moves T.files T.may_leave T.moment T.image_since SameFiles store.old store.new }
    ensures gets { T.gets store.new ≤ T.gets store.old + 1 }
    ensures cause { HasCauseOf QueryError.StoreFault (T.faults store.old) (T.faults store.new) result }
{
    let entries = entries_at(alloc, store, search, top)?;
    note_links(search, &entries, pending)?;
    note_tiles(search, &entries, tiles)?;
    Ok(())
}

// The keys that the walk begins with: the root's, if its box meets the area.
fn first_of(alloc: Global, search: &Search) -> Result<BTreeSet<Key>, Memory>
    ensures start { IfOk result (λ pending. MeetsArea search.now root → Contains pending.keys root) }
    ensures only { IfOk result (λ pending. (key : VoxelKey) → Contains pending.keys key
        → (key ≡ root) × MeetsArea search.now root) }
    ensures are_keys { IfOk result (λ pending. All IsKey pending.keys) }
{
    let mut pending = BTreeSet::new(alloc);
    let top = Key::ROOT;
    top.known();
    if search.meets(&top) {
        pending.insert(top)?;
    }
    Ok(pending)
}

// The entries of a map as a list.
fn listed(alloc: Global, tiles: BTreeMap<Key, u64>) -> Result<Vec<(Key, u64)>, QueryError>
    ensures same { IfOk result (λ listed. listed.items ≡ tiles.entries) }
    ensures ascend { IfOk result (λ listed. AreAscending (keys_of listed.items)) }
    ensures memory { IfErr result (λ e. e ≡ QueryError.Memory) }
{
    let listed = tiles.into_iter().collect(alloc)?;
    Ok(listed)
}
