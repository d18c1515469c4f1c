//! Which nodes of an octree are as the current checkpoint describes them, by their open octants and numbers of points.

ghost use Rattle.std.specs.Prelude.{◌≡◌, ◌<◌, ◌||◌, ◌↔◌, IsTrue, true, false, map, IfOk, OnOk};
ghost use Rattle.std.specs.BTreeSet.{contains};
ghost use Rattle.ept_forest.specs.Slots as trees;
ghost use Rattle.ept_space.specs.VoxelKey.{VoxelKey, key_cmp, parent, is_within};
ghost use Rattle.ept_table.specs.Octree.{key_of};
ghost use Rattle.ept_octree.specs.Octree.{forest_of, rules_of, cache_of, nodes_of};
ghost use Rattle.ept_octree.specs.Walking.{HasKey, IfNodeAt};
ghost use Rattle.ept_octree_ckpt.specs.Saving.{IsTold, IsStill};

use ept_base::SpillFile;
use ept_octree::Octree;
use ept_point::Memory;
use ept_save::Saved;
use ept_space::Key;
use std::alloc::Global;
use std::collections::BTreeSet;

/// The keys that are not still. At or below each is a node whose open octants and number of points are not those that
/// the current checkpoint states. `keys` are those of the nodes. No points are read.
pub(crate) fn grown_keys<F: SpillFile>(
    alloc: Global,
    saved: &Saved,
    octree: &mut Octree<F>,
    keys: &[Key],
) -> Result<BTreeSet<Key>, Memory>
    requires { keys.now ≡ map key_of (nodes_of F.held octree.old) }
    ensures still { IfOk result (λ grown. (key : VoxelKey) → contains key_cmp grown key ≡ false
        → IsStill saved.now.current (nodes_of F.held octree.old) key) }
    ensures grown { IfOk result (λ grown. (key : VoxelKey) → contains key_cmp grown key ≡ true
        → ¬ IsStill saved.now.current (nodes_of F.held octree.old) key) }
    ensures nodes { trees.nodes_of (forest_of octree.new) ≡ trees.nodes_of (forest_of octree.old) }
    ensures same { nodes_of F.held octree.new ≡ nodes_of F.held octree.old }
    ensures rules { rules_of octree.new ≡ rules_of octree.old }
    ensures cache { cache_of octree.new ≡ cache_of octree.old }
{
    let mut grown = BTreeSet::new(alloc);
    for key in keys {
        if is_told(saved, octree, key) {
            continue;
        }
        note(&mut grown, key)?;
    }
    Ok(grown)
}

// Whether the current checkpoint states the open octants and the number of points of the node of a key.
fn is_told<F: SpillFile>(saved: &Saved, octree: &mut Octree<F>, key: &Key) -> bool
    requires { HasKey (nodes_of F.held octree.old) key.now }
    ensures value { IfNodeAt (nodes_of F.held octree.old) key.now
        (λ g. IsTrue result ↔ IsTold saved.now.current key.now g.mask g.points) }
    ensures nodes { trees.nodes_of (forest_of octree.new) ≡ trees.nodes_of (forest_of octree.old) }
    ensures same { nodes_of F.held octree.new ≡ nodes_of F.held octree.old }
    ensures rules { rules_of octree.new ≡ rules_of octree.old }
    ensures cache { cache_of octree.new ≡ cache_of octree.old }
{
    let mask = octree.open_mask(key);
    let count = octree.count(key);
    match saved.line(key) {
        Some(line) => line.mask == mask && line.count == count,
        None => false,
    }
}

// Notes a key and each key above it.
fn note(grown: &mut BTreeSet<Key>, key: &Key) -> Result<(), Memory>
    ensures { OnOk result ((top : VoxelKey) → contains key_cmp grown.new top
        ≡ (contains key_cmp grown.old top || is_within top key.now)) }
{
    let mut at = *key;
    grown.insert(at)?;
    while at.depth > 0 {
        at = parent(&at);
        grown.insert(at)?;
    }
    Ok(())
}

// The key one depth above a key.
#[tactic(auto, unfolding(ept_space::specs::VoxelKey::parent))]
fn parent(key: &Key) -> Key
    requires { 0 < key.now.depth }
    ensures { result ≡ parent key.now }
{
    Key {
        depth: key.depth - 1,
        x: key.x / 2,
        y: key.y / 2,
        z: key.z / 2,
    }
}
