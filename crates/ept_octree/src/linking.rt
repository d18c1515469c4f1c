//! The slots of the children.

ghost use Rattle.std.specs.Prelude.{◌≡◌, ◌≤◌, ◌<◌, true, None, length, map, if◌then◌else◌};
ghost use Rattle.std.specs.List.{All};
ghost use Rattle.ept_space.specs.VoxelKey.{child};
ghost use Rattle.ept_grid.specs.Mask.{opened};
ghost use Rattle.ept_forest.specs.Slots as trees;
ghost use Rattle.ept_node.specs.Shown.{file_of, state_of, node_of, fault_of, AgreesWithFile};
ghost use Rattle.ept_octree.specs.Index.{in_slots, slot_of};
ghost use Rattle.ept_octree.specs.Linking.{or_zero, HasChildren, MayLink, MayAllLink, HaveChildren};

use crate::octree::Octree;
use ept_base::SpillFile;
use ept_forest::Forest;
use ept_grid::OCTANTS;
use ept_node::Node;
use ept_space::{Key, child};
use std::collections::BTreeMap;

impl<F: SpillFile> Octree<F> {
    ghost use Rattle.ept_octree.specs.Octree.{rules_of, most_of, cache_of, residents_of, nodes_of, files_of, IsWhole, IsLinked, IsUnbroken, AgreesWithFiles};

    /// Sets the slots of the children of all nodes, once all are added. Nodes in their files stay there.
    pub fn link(&mut self)
        requires whole { IsWhole F.held self.old }
        requires unbroken { IsUnbroken self.old }
        ensures linked { IsLinked F.held self.new }
        ensures nodes { nodes_of F.held self.new ≡ nodes_of F.held self.old }
        ensures agrees { AgreesWithFiles F.held F.faults F.keeps self.old → AgreesWithFiles F.held F.faults F.keeps self.new }
        ensures unbroken { IsUnbroken self.new }
        ensures rules { rules_of self.new ≡ rules_of self.old }
        ensures most { most_of self.new ≡ most_of self.old }
        ensures cache { cache_of self.new ≡ cache_of self.old }
        ensures residents { residents_of self.new ≡ residents_of self.old }
        ensures files { files_of self.new ≡ files_of self.old }
    {
        self.rules.cube.known();
        link_all(&mut self.forest, &self.slots);
    }
}

// Sets the slots of the children of all nodes of a forest.
fn link_all<F: SpillFile>(forest: &mut Forest<F>, slots: &BTreeMap<Key, u32>)
    requires low { trees.used_of forest.old ≤ length (trees.nodes_of forest.old) }
    requires may { MayAllLink F.held (trees.nodes_of forest.old) (trees.used_of forest.old) }
    requires unbroken { All (λ node. fault_of node ≡ None) (trees.nodes_of forest.old) }
    ensures children { HaveChildren F.held slots.now.entries (trees.nodes_of forest.new) (trees.used_of forest.old) }
    ensures nodes { in_slots F.held (trees.nodes_of forest.new) ≡ in_slots F.held (trees.nodes_of forest.old) }
    ensures used { trees.used_of forest.new ≡ trees.used_of forest.old }
    ensures files { map file_of (trees.nodes_of forest.new) ≡ map file_of (trees.nodes_of forest.old) }
    ensures unbroken { All (λ node. fault_of node ≡ None) (trees.nodes_of forest.new) }
    ensures residents { trees.residents_of (trees.nodes_of forest.new) ≡ trees.residents_of (trees.nodes_of forest.old) }
    ensures agrees { All (AgreesWithFile F.held F.faults F.keeps) (trees.nodes_of forest.old)
        → All (AgreesWithFile F.held F.faults F.keeps) (trees.nodes_of forest.new) }
{
    for place in 0..forest.used() {
        link_node(forest.node(place + 1), slots);
    }
}

// Sets the slots of the children of a node.
fn link_node<F: SpillFile>(node: &mut Node<F>, slots: &BTreeMap<Key, u32>)
    requires { MayLink F.held node.old }
    ensures children { HasChildren F.held slots.now.entries node.new }
    ensures state { state_of node.new ≡ state_of node.old }
    ensures node { node_of F.held node.new ≡ node_of F.held node.old }
    ensures file { file_of node.new ≡ file_of node.old }
{
    let mask = node.open_mask();
    let key = node.key();
    for octant in 0..OCTANTS {
        node.set_child(octant, slot_of_child(slots, &key, mask, octant));
    }
}

// The slot of the child of an octant, or 0 if there is none.
fn slot_of_child(slots: &BTreeMap<Key, u32>, key: &Key, mask: u8, octant: u8) -> u32
    requires one_of_eight { octant < 8 }
    requires above { opened mask octant ≡ true → key.now.depth < 31 }
    ensures { result ≡ (if opened mask octant then or_zero (slot_of slots.now.entries (child key.now octant)) else 0) }
{
    if !is_open(mask, octant) {
        return 0;
    }
    match slots.get(&child(key, octant)) {
        Some(slot) => *slot,
        None => 0,
    }
}

// Whether the octant is in the set.
#[tactic(auto, unfolding(ept_grid::specs::Mask::opened))]
fn is_open(mask: u8, octant: u8) -> bool
    requires { octant < 8 }
    ensures { result ≡ opened mask octant }
{
    mask >> octant & 1 == 1
}
