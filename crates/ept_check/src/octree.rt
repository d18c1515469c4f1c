//! The hierarchy of a folder in memory.

ghost use Rattle.std.specs.Prelude.{◌≡◌, ◌<◌, ◌≤◌, ◌↔◌, ℕ, IsTrue, true};
ghost use Rattle.ept_grid.specs.Mask.{opened};
ghost use Rattle.ept_hier.specs.Hierarchy.{keys_of};
ghost use Rattle.ept_fit.specs.Fit.{has_child};
ghost use Rattle.ept_check.specs.Facts.{HasFullChildren};
ghost use Rattle.ept_check.specs.Walking.{IsOctree, total_at};

use crate::totals::total_at;
use ept_grid::OCTANTS;
use ept_space::{Key, Rules, child};
use std::collections::{BTreeMap, BTreeSet};

/// The hierarchy of a folder: the nodes with their counts, in key order, and their keys. It also has the number of
/// points at each key and below it.
#[derive(Drop)]
pub(crate) struct Octree {
    pub(crate) rules: Rules,
    pub(crate) nodes: Vec<(Key, u64)>,
    pub(crate) keys: BTreeSet<Key>,
    pub(crate) totals: BTreeMap<Key, u64>,
}

impl Octree {
    /// Whether a child of a node is a node.
    pub(crate) fn has_child(&self, key: &Key, octant: u8) -> bool
        requires sound { IsOctree self.now }
        requires one_of_eight { octant < 8 }
        ensures { result ≡ has_child (keys_of self.now.nodes.items) key.now octant }
    {
        key.depth < self.rules.cube.depth && self.keys.contains(&child(key, octant))
    }

    /// The octants of a node whose children are nodes.
    pub(crate) fn mask_of(&self, key: &Key) -> u8
        requires { IsOctree self.now }
        ensures open { (o : ℕ) → o < 8 → opened result o ≡ has_child (keys_of self.now.nodes.items) key.now o }
        ensures deepest { key.now.depth ≡ self.now.rules.cube.depth → result ≡ 0 }
    {
        let mut mask = 0;
        for octant in 0..OCTANTS {
            if self.has_child(key, octant) {
                mask |= 1 << octant;
            }
        }
        mask
    }

    /// Whether each child of a node has more points than the threshold, together with the nodes below the child.
    pub(crate) fn has_full_children(&self, key: &Key) -> bool
        requires { IsOctree self.now }
        ensures { IsTrue result ↔ HasFullChildren self.now.rules self.now.nodes.items key.now }
    {
        for octant in 0..OCTANTS {
            if self.has_child(key, octant) && !self.is_full(&child(key, octant)) {
                return false;
            }
        }
        true
    }

    // Whether there are more points than the threshold at a key and below it.
    fn is_full(&self, key: &Key) -> bool
        ensures { IsTrue result ↔ (self.now.rules.threshold < total_at self.now.totals key.now) }
    {
        self.rules.threshold < total_at(&self.totals, key)
    }
}
