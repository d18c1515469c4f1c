//! Nodes in the order of their slots.

ghost use Rattle.std.specs.Prelude.{◌≡◌, ◌≢◌, ◌≤◌, ◌<◌, ◌+◌, ◌-◌, ◌^◌, min, [], OnOk, OnErr, IfOk, IfSome, IsNone, Some, None, is_ok, if◌then◌else◌, length, slice_get, vec_capacity};
ghost use Rattle.std.specs.Borrow.{sem};
ghost use Rattle.std.specs.List.{All, Any};
ghost use Rattle.ept_base.specs.Causes.{HasCauseOf, Rose};
ghost use Rattle.ept_base.specs.Devices.{counts_on};
ghost use Rattle.ept_base.specs.declared.errors.PutError.TheVariants as put;
ghost use Rattle.ept_node.specs.Shown.{file_of, fault_of};
ghost use Rattle.ept_forest.specs.Slots.{IsBlank, faults_of, kept_by, told};

use crate::full::Full;
use ept_base::{PutError, Room, SpillFile};
use ept_node::{Node, NodeError};
use ept_space::{Key, Rules};
use std::alloc::Global;

/// All nodes of a table in the order of its slots, from slot 1 on, and how many of the slots are drawn. The root's is
/// slot 1, and the nodes of slots that are not drawn are blank.
///
/// It can't be dropped if its spill files can't: their room takes them back by `retire_all`.
#[derive(Debug)]
pub struct Forest<F> {
    nodes: Vec<Node<F>>,
    used: u32,
}

impl<F: SpillFile> Forest<F> {
    ghost use Rattle.ept_forest.specs.Slots.{nodes_of, used_of, residents_of, IsPlanted, faults_of, kept_by, told};
    ghost use Rattle.ept_forest.specs.Lending.{LendsNode};

    /// A forest with this number of slots; only the root's is drawn. The root is resident without points, and all other
    /// nodes are blank. After a refusal the room has its files back.
    ///
    /// # Errors
    ///
    /// `Failed` if the room fails to make a file.
    pub fn new<R: Room<File = F>>(
        alloc: Global,
        room: &mut R,
        slots: u32,
        rules: &Rules,
    ) -> Result<Forest<F>, PutError>
        requires { 1 ≤ slots }
        ensures planted { IfOk result (IsPlanted F.held F.faults F.keeps slots rules.now) }
        ensures counted { OnOk result (R.keeps room.new ≡ R.keeps room.old) }
        ensures unkept { OnErr result (told (R.keeps room.new) ≡ told (R.keeps room.old)) }
        ensures cause { HasCauseOf put.Failed (R.faults room.old) (R.faults room.new) result }
    {
        let mut nodes = Vec::with_capacity(alloc, slots as usize)?;
        match plant(room, slots, &mut nodes) {
            Ok(()) => {
                nodes[0].begin(Key::ROOT, rules);
                Ok(Forest { nodes, used: 1 })
            }
            Err(refused) => {
                retire_nodes(nodes, room);
                Err(refused)
            }
        }
    }

    /// How many slots are drawn: those from 1 to this number.
    pub fn used(&self) -> u32
        ensures { result ≡ used_of self.now }
    {
        self.used
    }

    /// Draws the next slot, and returns its number.
    ///
    /// # Errors
    ///
    /// `Full` if each slot is drawn.
    pub fn add(&mut self) -> Result<u32, Full>
        ensures ok { IfOk result (λ slot. (slot ≡ used_of self.old + 1) × (slot ≤ length (nodes_of self.old))) }
        ensures full { OnErr result (min (length (nodes_of self.old)) (2 ^ 32 - 1) ≤ used_of self.old) }
        ensures used { used_of self.new ≡ used_of self.old + (if is_ok result then 1 else 0) }
        ensures same { nodes_of self.new ≡ nodes_of self.old }
    {
        if self.used == u32::MAX || self.nodes.len() <= self.used as usize {
            return Err(Full);
        }
        self.used += 1;
        Ok(self.used)
    }

    /// The node of a slot.
    pub fn node(&mut self, slot: u32) -> &mut Node<F>
        requires { (1 ≤ slot) × (slot ≤ length (nodes_of self.old)) }
        ensures* lends { sem 𝓛 (LendsNode F.row self.entry slot result) }
        ensures value { slice_get (nodes_of self.old) (slot - 1) ≡ Some result.now }
    {
        &mut self.nodes[slot as usize - 1]
    }

    /// How many of the nodes have their points in memory.
    pub fn residents(&self) -> u64
        ensures { result ≡ residents_of (nodes_of self.now) }
    {
        let mut count = 0;
        for node in &self.nodes {
            count += u64::from(node.is_here());
        }
        count
    }

    /// The refusal that broke the first broken node; `None` if no node is broken.
    pub fn fault(&self) -> Option<NodeError>
        ensures none { IsNone result → All (λ node. fault_of node ≡ None) (nodes_of self.now) }
        ensures some { IfSome result (λ why. Any (λ node. fault_of node ≡ Some why) (nodes_of self.now)) }
    {
        for node in &self.nodes {
            if let Some(why) = node.fault() {
                return Some(why);
            }
        }
        None
    }

    /// The nodes in the order of their slots, and how many slots are drawn. It takes no memory.
    pub fn into_nodes(self) -> (Vec<Node<F>>, u32)
        ensures nodes { result.0.items ≡ nodes_of self }
        ensures used { result.1 ≡ used_of self }
    {
        let Forest { nodes, used } = self;
        (nodes, used)
    }

    /// The forest of nodes in the order of their slots, with this number of slots drawn. It takes no memory.
    pub fn from_nodes(nodes: Vec<Node<F>>, used: u32) -> Forest<F>
        ensures nodes { nodes_of result ≡ nodes.items }
        ensures used { used_of result ≡ used }
    {
        Forest { nodes, used }
    }

    /// Returns all spill files to their room. It takes no memory.
    pub fn retire_all<R: Room<File = F>>(self, room: &mut R)
        ensures later { R.faults room.old ≤ R.faults room.new }
        ensures failed { 0 < faults_of F.faults (nodes_of self) → Rose (R.faults room.old) (R.faults room.new) }
        ensures sound { faults_of F.faults (nodes_of self) ≡ 0 → R.faults room.new ≡ R.faults room.old }
        ensures counted { told (R.keeps room.new) ≡ counts_on (R.keeps room.old) (kept_by F.keeps (nodes_of self)) }
    {
        let Forest { nodes, used: _ } = self;
        retire_nodes(nodes, room);
    }
}

// Makes a file for each slot, with a blank node over it, and appends it to a list that has room for them.
fn plant<F: SpillFile, R: Room<File = F>>(
    room: &mut R,
    slots: u32,
    nodes: &mut Vec<Node<F>>,
) -> Result<(), PutError>
    requires empty { nodes.old.items ≡ [] }
    requires room { slots ≤ vec_capacity nodes.old }
    ensures slots { OnOk result (length nodes.new.items ≡ slots) }
    ensures blank { All IsBlank nodes.new.items }
    ensures fresh { All (λ node. F.faults (file_of node) ≡ 0) nodes.new.items }
    ensures unused { All (λ node. F.keeps (file_of node) ≡ 0) nodes.new.items }
    ensures counted { R.keeps room.new ≡ R.keeps room.old }
    ensures cause { HasCauseOf put.Failed (R.faults room.old) (R.faults room.new) result }
{
    for place in 0..slots {
        let file = room.make(place + 1)?;
        nodes.push_reserved(Node::blank(file));
    }
    Ok(())
}

// Returns the files of the nodes to their room.
fn retire_nodes<F: SpillFile, R: Room<File = F>>(mut nodes: Vec<Node<F>>, room: &mut R)
    ensures later { R.faults room.old ≤ R.faults room.new }
    ensures failed { 0 < faults_of F.faults nodes.items → Rose (R.faults room.old) (R.faults room.new) }
    ensures sound { faults_of F.faults nodes.items ≡ 0 → R.faults room.new ≡ R.faults room.old }
    ensures counted { told (R.keeps room.new) ≡ counts_on (R.keeps room.old) (kept_by F.keeps nodes.items) }
{
    while let Some(node) = nodes.pop() {
        room.retire(node.into_file());
    }
    nodes.destroy_empty();
}
