//! Keys above and below each other, and sets of them.

ghost use Rattle.std.specs.Prelude.{◌≡◌, ◌<◌, ◌≤◌, ◌↔◌, ◌&&◌, IsTrue, All, IfOk, nat_lt};
ghost use Rattle.std.specs.BTreeSet.{contains};
ghost use Rattle.ept_space.specs.VoxelKey.{IsKey, VoxelKey, key_cmp, parent, octant_of, is_below};
ghost use Rattle.ept_hier.specs.Hierarchy.{keys_of};
ghost use Rattle.ept_fit.specs.Fit.{is_among};

use ept_point::Memory;
use ept_query::is_within;
use ept_space::Key;
use std::alloc::Global;
use std::collections::BTreeSet;

/// The key one depth above; for the root, the root.
#[tactic(auto, unfolding(ept_space::specs::VoxelKey::parent))]
pub(crate) fn parent(key: &Key) -> Key
    ensures { result ≡ parent key.now }
{
    key.known();
    Key {
        depth: key.depth.saturating_sub(1),
        x: key.x / 2,
        y: key.y / 2,
        z: key.z / 2,
    }
}

/// The octant of its parent that a key is.
#[tactic(auto, unfolding(ept_space::specs::VoxelKey::octant_of))]
pub(crate) fn octant_of(key: &Key) -> u8
    ensures octant { result ≡ octant_of key.now }
    ensures one_of_eight { result < 8 }
{
    (key.x % 2 + 2 * (key.y % 2) + 4 * (key.z % 2)) as u8
}

/// Whether a key is below `top`.
#[tactic(auto, unfolding(ept_space::specs::VoxelKey::is_below))]
pub(crate) fn is_below(top: &Key, key: &Key) -> bool
    ensures { result ≡ is_below top.now key.now }
{
    top.depth < key.depth && is_within(top, key)
}

/// The keys of nodes as a set.
pub(crate) fn key_set(alloc: Global, nodes: &[(Key, u64)]) -> Result<BTreeSet<Key>, Memory>
    ensures keys { IfOk result (λ keys. (key : VoxelKey) → contains key_cmp keys key ≡ is_among (keys_of nodes.now) key) }
    ensures are_keys { IfOk result (λ keys. All IsKey (keys_of nodes.now)) }
{
    let mut keys = BTreeSet::new(alloc);
    for node in nodes {
        node.0.known();
        keys.insert(node.0)?;
    }
    Ok(keys)
}
