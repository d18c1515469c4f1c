//! How many points there are at each key and below it, by the counts of the hierarchy.

ghost use Rattle.std.specs.Prelude.{◌≡◌, ◌+◌, ◌-◌, ◌^◌, ◌≤◌, min, if◌then◌else◌, OnOk, IfOk};
ghost use Rattle.ept_space.specs.VoxelKey.{VoxelKey, same_key, is_within};
ghost use Rattle.ept_check.specs.Nodes.{counted_within};
ghost use Rattle.ept_check.specs.Walking.{total_at};

use crate::keys::parent;
use ept_point::Memory;
use ept_space::Key;
use std::alloc::Global;
use std::collections::BTreeMap;

/// How many points there are at each key and below it. A number saturates at 2^64 - 1.
pub(crate) fn totals_of(alloc: Global, nodes: &[(Key, u64)]) -> Result<BTreeMap<Key, u64>, Memory>
    ensures { IfOk result (λ totals. (top : VoxelKey) → total_at totals top ≡ min (counted_within nodes.now top) (2 ^ 64 - 1)) }
{
    let mut totals = BTreeMap::new(alloc);
    for node in nodes {
        add_up(&mut totals, &node.0, node.1)?;
    }
    Ok(totals)
}

// Adds to the number of a key and of each key above it.
fn add_up(totals: &mut BTreeMap<Key, u64>, key: &Key, count: u64) -> Result<(), Memory>
    requires { (top : VoxelKey) → total_at totals.old top ≤ 2 ^ 64 - 1 }
    ensures { OnOk result ((top : VoxelKey) → total_at totals.new top
        ≡ min (total_at totals.old top + (if is_within top key.now then count else 0)) (2 ^ 64 - 1)) }
{
    let mut at = *key;
    add(totals, &at, count)?;
    while at.depth > 0 {
        at = parent(&at);
        add(totals, &at, count)?;
    }
    Ok(())
}

// Adds to the number of a key.
fn add(totals: &mut BTreeMap<Key, u64>, key: &Key, count: u64) -> Result<(), Memory>
    requires { (top : VoxelKey) → total_at totals.old top ≤ 2 ^ 64 - 1 }
    ensures { OnOk result ((top : VoxelKey) → total_at totals.new top
        ≡ min (total_at totals.old top + (if same_key top key.now then count else 0)) (2 ^ 64 - 1)) }
{
    let total = total_at(totals, key);
    totals.insert(*key, total.saturating_add(count))?;
    Ok(())
}

/// The number of a key.
pub(crate) fn total_at(totals: &BTreeMap<Key, u64>, key: &Key) -> u64
    ensures { result ≡ total_at totals.now key.now }
{
    totals.get(key).copied().unwrap_or(0)
}
