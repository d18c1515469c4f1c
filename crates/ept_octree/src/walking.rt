//! The nodes one at a time.

ghost use Rattle.std.specs.Prelude.{◌≡◌, ◌≢◌, ◌<◌, ◌++◌, ℕ, Some, None, Err, OnOk, OnErr, IfOk, map, length};
ghost use Rattle.ept_sample.specs.Ids.{HasDistinctIds};
ghost use Rattle.ept_node.specs.declared.state.NodeState.TheVariants as states;
ghost use Rattle.ept_node.specs.Shown.{file_of, state_of, node_of, is_here, fault_of, children_of, AgreesWithFile, IsTelling};
ghost use Rattle.ept_node.specs.Filing.{AppendsAlike};
ghost use Rattle.ept_space.specs.VoxelKey.{AreAscending};
ghost use Rattle.ept_forest.specs.Slots as trees;
ghost use Rattle.ept_grid.specs.Node.{IsInIdOrder};
ghost use Rattle.ept_table.specs.Octree.{key_of};
ghost use Rattle.ept_octree.specs.Index as index;
ghost use Rattle.ept_octree.specs.Walking.{HasKey, IfNodeAt};

use crate::octree::Octree;
use ept_base::SpillFile;
use ept_node::{Node, NodeError};
use ept_point::{Memory, Point};
use ept_space::Key;
use std::alloc::Global;
use std::collections::BTreeMap;

impl<F: SpillFile> Octree<F> {
    ghost use Rattle.ept_octree.specs.Octree.{forest_of, rules_of, most_of, cache_of, residents_of, nodes_of, begun_of, IsLinked, IsUnbroken, AgreesWithFiles};

    /// The keys of the nodes, in key order.
    pub fn keys(&self, alloc: Global) -> Result<Vec<Key>, Memory>
        ensures keys { IfOk result (λ keys. keys.items ≡ map key_of (nodes_of F.held self.now)) }
        ensures ascend { IfOk result (λ keys. AreAscending keys.items) }
    {
        let mut keys = Vec::new(alloc);
        for (key, _slot) in self.slots.iter() {
            keys.push(*key)?;
        }
        Ok(keys)
    }

    /// The open octants of the node of a key: bit o is set if octant o is open.
    pub fn open_mask(&mut self, key: &Key) -> u8
        requires { HasKey (nodes_of F.held self.old) key.now }
        ensures mask { IfNodeAt (nodes_of F.held self.old) key.now (λ g. result ≡ g.mask) }
        ensures nodes { trees.nodes_of (forest_of self.new) ≡ trees.nodes_of (forest_of self.old) }
        ensures same { nodes_of F.held self.new ≡ nodes_of F.held self.old }
        ensures rules { rules_of self.new ≡ rules_of self.old }
        ensures cache { cache_of self.new ≡ cache_of self.old }
    {
        let slot = slot_of(&self.slots, key);
        self.forest.node(slot).open_mask()
    }

    /// How many points the node of a key has. A node in its file is not read.
    pub fn count(&mut self, key: &Key) -> u64
        requires { HasKey (nodes_of F.held self.old) key.now }
        ensures count { IfNodeAt (nodes_of F.held self.old) key.now (λ g. result ≡ length g.points) }
        ensures nodes { trees.nodes_of (forest_of self.new) ≡ trees.nodes_of (forest_of self.old) }
        ensures same { nodes_of F.held self.new ≡ nodes_of F.held self.old }
        ensures rules { rules_of self.new ≡ rules_of self.old }
        ensures cache { cache_of self.new ≡ cache_of self.old }
    {
        let slot = slot_of(&self.slots, key);
        self.forest.node(slot).count()
    }

    /// Appends the points of the node of a key, in id order. A node in its file stays there.
    ///
    /// # Errors
    ///
    /// `SpillFault` and `SpillDamaged` if the file of the node does not return them, or a file failed before. After a
    /// refusal the list is as it was.
    pub fn points_into(
        &mut self,
        alloc: Global,
        key: &Key,
        out: &mut Vec<Point>,
    ) -> Result<(), NodeError>
        requires key { HasKey (nodes_of F.held self.old) key.now }
        requires agrees { AgreesWithFiles F.held F.faults F.keeps self.old }

        // If the contents of files are visible, they are its points. Otherwise it is the same number of points, in id
        // order and in its box.
        ensures ok { OnOk result (IfNodeAt (nodes_of F.held self.old) key.now (λ g. AppendsAlike g out.old.items out.new.items)) }
        ensures told { OnOk result (IsTelling F.held → IfNodeAt (nodes_of F.held self.old) key.now
            (λ g. out.new.items ≡ out.old.items ++ g.points)) }
        ensures unchanged { OnErr result (out.new.items ≡ out.old.items) }
        ensures in_order { OnOk result (IfNodeAt (nodes_of F.held self.old) key.now (λ g. IsInIdOrder g.points)) }

        // The nodes stay as they are.
        ensures same { nodes_of F.held self.new ≡ nodes_of F.held self.old }
        ensures begun { begun_of F.held self.new ≡ begun_of F.held self.old }
        ensures linked { IsLinked F.held self.old → IsLinked F.held self.new }
        ensures residents { residents_of self.new ≡ residents_of self.old }
        ensures agrees { AgreesWithFiles F.held F.faults F.keeps self.new }
        ensures unbroken { OnOk result (IsUnbroken self.old → IsUnbroken self.new) }
        ensures rules { rules_of self.new ≡ rules_of self.old }
        ensures most { most_of self.new ≡ most_of self.old }
        ensures cache { cache_of self.new ≡ cache_of self.old }

        // Why it is refused. No file whose contents are visible is damaged.
        ensures spill { result ≡ Err NodeError.SpillFault
            → 0 < trees.faults_of F.faults (trees.nodes_of (forest_of self.new)) }
        ensures intact { IsUnbroken self.old → IsTelling F.held
            → IfNodeAt (nodes_of F.held self.old) key.now (λ g. HasDistinctIds g.points)
            → (kept found at : ℕ) → result ≢ Err (NodeError.SpillDamaged kept found at) }
    {
        let slot = slot_of(&self.slots, key);
        append(self.forest.node(slot), alloc, out)
    }
}

// Appends the points of the node of a key, in id order, or returns why the node is broken.
fn append<F: SpillFile>(
    node: &mut Node<F>,
    alloc: Global,
    out: &mut Vec<Point>,
) -> Result<(), NodeError>
    requires named { state_of node.old ≢ states.Blank }
    requires agrees { AgreesWithFile F.held F.faults F.keeps node.old }
    ensures ok { OnOk result (AppendsAlike (node_of F.held node.old) out.old.items out.new.items) }
    ensures told { OnOk result (IsTelling F.held → out.new.items ≡ out.old.items ++ (node_of F.held node.old).points) }
    ensures unchanged { OnErr result (out.new.items ≡ out.old.items) }
    ensures in_order { OnOk result (IsInIdOrder (node_of F.held node.old).points) }
    ensures node { node_of F.held node.new ≡ node_of F.held node.old }
    ensures children { children_of node.new ≡ children_of node.old }
    ensures named { state_of node.new ≢ states.Blank }
    ensures here { is_here node.new ≡ is_here node.old }
    ensures agrees { AgreesWithFile F.held F.faults F.keeps node.new }
    ensures sound { OnOk result (fault_of node.new ≡ None) }
    ensures spill { result ≡ Err NodeError.SpillFault → 0 < F.faults (file_of node.new) }
    ensures intact { fault_of node.old ≡ None → IsTelling F.held → HasDistinctIds (node_of F.held node.old).points
        → (kept found at : ℕ) → result ≢ Err (NodeError.SpillDamaged kept found at) }
{
    if let Some(fault) = node.fault() {
        return Err(fault);
    }
    node.points_into(alloc, out)
}

// The slot of a key that has one.
fn slot_of(slots: &BTreeMap<Key, u32>, key: &Key) -> u32
    requires { (slot : ℕ) × (index.slot_of slots.now.entries key.now ≡ Some slot) }
    ensures { index.slot_of slots.now.entries key.now ≡ Some result }
{
    match slots.get(key) {
        Some(slot) => *slot,
        None => unreachable!(),
    }
}
