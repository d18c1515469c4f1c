//! The form of a hierarchy file.

ghost use Rattle.std.specs.Prelude.{◌≡◌, ◌↔◌, IsTrue};
ghost use Rattle.std.specs.List.{Any};
ghost use Rattle.ept_space.specs.VoxelKey.{is_within};
ghost use Rattle.ept_hier.specs.Hierarchy.{stands_in, is_link};
ghost use Rattle.ept_query.specs.Hierarchies.{AreOf, IsEntryIn, IsOwn};

use crate::search::Search;
use ept_space::Key;

/// Whether the entries are well-formed for the hierarchy file of `top`.
pub(crate) fn are_of(search: &Search, top: &Key, entries: &[(Key, i64)]) -> bool
    ensures { IsTrue result ↔ AreOf search.now top.now entries.now }
{
    has_own(top, entries) && entries.iter().all(|entry| is_entry_in(search, top, entry))
}

// Whether one of the entries has the count of `top`.
fn has_own(top: &Key, entries: &[(Key, i64)]) -> bool
    ensures { IsTrue result ↔ Any (IsOwn top.now) entries.now }
{
    entries.iter().any(|entry| is_own(top, entry))
}

fn is_own(top: &Key, entry: &(Key, i64)) -> bool
    ensures { IsTrue result ↔ IsOwn top.now entry.now }
{
    entry.0 == *top && entry.1 != -1
}

// Whether the file of `top` may have this entry.
fn is_entry_in(search: &Search, top: &Key, entry: &(Key, i64)) -> bool
    ensures { IsTrue result ↔ IsEntryIn search.now top.now entry.now }
{
    let key = entry.0;
    let stands = stands_in(search.step, top, &key);
    let is_link = is_link(search.step, top, &key);
    stands && key.depth <= search.cube.depth && (entry.1 == -1) == is_link
}

// Whether a node is in the file of `top`.
#[tactic(auto, unfolding(ept_hier::specs::Hierarchy::stands_in))]
fn stands_in(step: u8, top: &Key, key: &Key) -> bool
    ensures { result ≡ stands_in step top.now key.now }
{
    let near = step == 0 || u16::from(key.depth) <= u16::from(top.depth) + u16::from(step);
    is_within(top, key) && near
}

// Whether a node is a link in that file.
#[tactic(auto, unfolding(ept_hier::specs::Hierarchy::is_link))]
fn is_link(step: u8, top: &Key, key: &Key) -> bool
    ensures { result ≡ is_link step top.now key.now }
{
    step > 0 && u16::from(key.depth) == u16::from(top.depth) + u16::from(step)
}

/// Whether a key is `top` or below it.
#[tactic(auto, unfolding(ept_space::specs::VoxelKey::is_within, ept_space::specs::VoxelKey::ancestor))]
pub fn is_within(top: &Key, key: &Key) -> bool
    ensures { result ≡ is_within top.now key.now }
{
    top.known();
    key.known();
    if key.depth < top.depth {
        return false;
    }
    let up = u32::from(key.depth - top.depth);
    key.x >> up == top.x && key.y >> up == top.y && key.z >> up == top.z
}
