//! Nodes of a checkpoint are added.

ghost use Rattle.std.specs.Prelude.{◌≡◌, ◌≢◌, ◌⊎◌, ◌<◌, ◌≤◌, [], true, Err, OnOk, OnErr, IfOk, IfErr, Some, None, length};
ghost use Rattle.std.specs.BTreeMap.{insert_entry};
ghost use Rattle.ept_base.specs.Files.{Tells};
ghost use Rattle.ept_point.specs.Order.{IsAscending};
ghost use Rattle.ept_space.specs.VoxelKey.{root, key_cmp};
ghost use Rattle.ept_grid.specs.Tile.{IsTile, IsTileFault};
ghost use Rattle.ept_node.specs.declared.state.NodeState.TheVariants as states;
ghost use Rattle.ept_node.specs.Shown.{file_of, state_of, node_of, is_here, IsAlike, AgreesWithFile, IsTelling};
ghost use Rattle.ept_octree.specs.Index.{in_slot};
ghost use Rattle.ept_octree.specs.Adding.{filled, IsFree, HasRoomFor, IsInMemory};
ghost use Rattle.ept_forest.specs.Slots as trees;

use crate::error::AddError;
use crate::octree::Octree;
use ept_base::SpillFile;
use ept_grid::GridError;
use ept_node::{Node, NodeError};
use ept_point::Point;
use ept_space::{Key, Rules};
use std::alloc::Global;

impl<F: SpillFile> Octree<F> {
    ghost use Rattle.ept_octree.specs.Octree.{forest_of, rules_of, most_of, cache_of, residents_of, nodes_of, AreAlike, IsUnbroken, AgreesWithFiles};

    /// Adds a node of a checkpoint, whose ids ascend. If no further node could then be in memory, the node goes to its
    /// file. The slots of the children are set by `link`, once all are added.
    ///
    /// # Errors
    ///
    /// `Full` if it has its greatest number of nodes already, which never happens to the root. `Damaged` if the points
    /// and the open octants are not those of a node of the key. After both the nodes are as they were. After
    /// `SpillFault` and `Memory` the octree is of no use.
    pub fn add(
        &mut self,
        alloc: Global,
        key: Key,
        mask: u8,
        points: &[Point],
    ) -> Result<(), AddError>
        requires low { key.depth ≤ (rules_of self.old).cube.depth }
        requires free { IsFree key (nodes_of F.held self.old) }
        requires room { HasRoomFor key self.old }
        requires here { key ≡ root → 0 < residents_of self.old }
        requires ascend { IsAscending points.now }
        requires agrees { AgreesWithFiles F.held F.faults F.keeps self.old }
        requires unbroken { IsUnbroken self.old }

        // If the contents of files are visible, it has these points. Otherwise it has the same number of points.
        ensures ok { OnOk result (AreAlike (insert_entry key_cmp (nodes_of F.held self.old) key
            (filled key (rules_of self.old) mask points.now)) (nodes_of F.held self.new)) }
        ensures told { OnOk result (IsTelling F.held → nodes_of F.held self.new ≡ insert_entry key_cmp (nodes_of F.held self.old) key
            (filled key (rules_of self.old) mask points.now)) }
        ensures tile { OnOk result (IsTile key (rules_of self.old) mask points.now) }
        ensures room { OnOk result (residents_of self.new < cache_of self.new) }
        ensures unbroken { OnOk result (IsUnbroken self.new) }
        ensures unchanged { IfErr result (λ e. e ≢ AddError.SpillFault → e ≢ AddError.Memory
            → nodes_of F.held self.new ≡ nodes_of F.held self.old) }
        ensures full { result ≡ Err AddError.Full → most_of self.old ≤ length (nodes_of F.held self.old) }
        ensures spill { result ≡ Err AddError.SpillFault
            → 0 < trees.faults_of F.faults (trees.nodes_of (forest_of self.new)) }
        ensures agrees { AgreesWithFiles F.held F.faults F.keeps self.new }
        ensures root { key ≡ root → result ≢ Err AddError.Full }
        ensures damaged { (fault : GridError) → result ≡ Err (AddError.Damaged fault)
            → IsTileFault key (rules_of self.old) mask points.now fault }
        ensures rules { rules_of self.new ≡ rules_of self.old }
        ensures most { most_of self.new ≡ most_of self.old }
        ensures cache { cache_of self.new ≡ cache_of self.old }
    {
        let slot = self.place(alloc, key, mask, points)?;
        if self.here < self.cache {
            return Ok(());
        }
        match put_away(self.forest.node(slot), alloc) {
            Ok(()) => {
                self.here -= 1;
                Ok(())
            }
            Err(refused) => Err(refused),
        }
    }

    // Gives the node of a key its place and its points, in memory, and returns its slot.
    fn place(
        &mut self,
        alloc: Global,
        key: Key,
        mask: u8,
        points: &[Point],
    ) -> Result<u32, AddError>
        requires low { key.depth ≤ (rules_of self.old).cube.depth }
        requires free { IsFree key (nodes_of F.held self.old) }
        requires room { HasRoomFor key self.old }
        requires here { key ≡ root → 0 < residents_of self.old }
        requires ascend { IsAscending points.now }
        requires agrees { AgreesWithFiles F.held F.faults F.keeps self.old }
        requires unbroken { IsUnbroken self.old }
        ensures ok { OnOk result (nodes_of F.held self.new ≡ insert_entry key_cmp (nodes_of F.held self.old) key
            (filled key (rules_of self.old) mask points.now)) }
        ensures tile { OnOk result (IsTile key (rules_of self.old) mask points.now) }
        ensures slot { IfOk result (λ slot. IsInMemory slot (trees.nodes_of (forest_of self.new))) }
        ensures unchanged { OnErr result (nodes_of F.held self.new ≡ nodes_of F.held self.old) }
        ensures full { result ≡ Err AddError.Full → most_of self.old ≤ length (nodes_of F.held self.old) }
        ensures not_spilled { result ≢ Err AddError.SpillFault }
        ensures root { key ≡ root → result ≢ Err AddError.Full }
        ensures damaged { (fault : GridError) → result ≡ Err (AddError.Damaged fault)
            → IsTileFault key (rules_of self.old) mask points.now fault }
        ensures unbroken { IsUnbroken self.new }
        ensures agrees { AgreesWithFiles F.held F.faults F.keeps self.new }
        ensures rules { rules_of self.new ≡ rules_of self.old }
        ensures most { most_of self.new ≡ most_of self.old }
        ensures cache { cache_of self.new ≡ cache_of self.old }
    {
        if key == Key::ROOT {
            fill(self.forest.node(1), alloc, mask, points)?;
            return Ok(1);
        }
        if self.forest.used() == self.most {
            return Err(AddError::Full);
        }
        let slot = self.forest.used() + 1;
        self.slots.insert(key, slot)?;
        match plant(
            self.forest.node(slot),
            alloc,
            key,
            &self.rules,
            mask,
            points,
        ) {
            Ok(()) => match self.forest.add() {
                Ok(slot) => {
                    self.here += 1;
                    Ok(slot)
                }
                Err(_) => unreachable!(),
            },
            Err(refused) => {
                self.slots.remove(&key);
                Err(refused)
            }
        }
    }
}

// Gives a node without points these points and open octants.
fn fill<F: SpillFile>(
    node: &mut Node<F>,
    alloc: Global,
    mask: u8,
    points: &[Point],
) -> Result<(), AddError>
    requires resident { state_of node.old ≡ states.Resident }
    requires empty { (node_of F.held node.old).points ≡ [] }
    requires ascend { IsAscending points.now }
    ensures ok { OnOk result (in_slot F.held node.new ≡ Some (filled (node_of F.held node.old).key (node_of F.held node.old).rules mask points.now)) }
    ensures tile { OnOk result (IsTile (node_of F.held node.old).key (node_of F.held node.old).rules mask points.now) }
    ensures unchanged { OnErr result (in_slot F.held node.new ≡ in_slot F.held node.old) }
    ensures not_full { result ≢ Err AddError.Full }
    ensures not_spilled { result ≢ Err AddError.SpillFault }
    ensures damaged { (fault : GridError) → result ≡ Err (AddError.Damaged fault)
        → IsTileFault (node_of F.held node.old).key (node_of F.held node.old).rules mask points.now fault }
    ensures state { state_of node.new ≡ states.Resident }
{
    node.fill(alloc, mask, points)?;
    Ok(())
}

// Makes a blank node one of a key with these points and open octants. After a refusal it is blank.
fn plant<F: SpillFile>(
    node: &mut Node<F>,
    alloc: Global,
    key: Key,
    rules: &Rules,
    mask: u8,
    points: &[Point],
) -> Result<(), AddError>
    requires blank { state_of node.old ≡ states.Blank }
    requires low { key.depth ≤ rules.now.cube.depth }
    requires ascend { IsAscending points.now }
    ensures ok { OnOk result (in_slot F.held node.new ≡ Some (filled key rules.now mask points.now)) }
    ensures tile { OnOk result (IsTile key rules.now mask points.now) }
    ensures unchanged { OnErr result (in_slot F.held node.new ≡ None) }
    ensures not_full { result ≢ Err AddError.Full }
    ensures not_spilled { result ≢ Err AddError.SpillFault }
    ensures damaged { (fault : GridError) → result ≡ Err (AddError.Damaged fault)
        → IsTileFault key rules.now mask points.now fault }
    ensures state { OnOk result (state_of node.new ≡ states.Resident) }
    ensures blank { OnErr result (state_of node.new ≡ states.Blank) }
{
    node.begin(key, rules);
    match node.fill(alloc, mask, points) {
        Ok(()) => Ok(()),
        Err(refused) => {
            node.unbegin();
            Err(AddError::from(refused))
        }
    }
}

// Puts the points of a node in memory into its file.
fn put_away<F: SpillFile>(node: &mut Node<F>, alloc: Global) -> Result<(), AddError>
    requires { state_of node.old ≡ states.Resident }
    ensures ok { OnOk result (state_of node.new ≡ states.Spilled) }
    ensures told { OnOk result (Tells (λ _. node_of F.held node.new ≡ node_of F.held node.old) (F.held (file_of node.new))) }
    ensures alike { IsAlike (node_of F.held node.old) (node_of F.held node.new) }
    ensures unchanged { OnErr result (node_of F.held node.new ≡ node_of F.held node.old) }
    ensures here { OnErr result (is_here node.new ≡ true) }
    ensures named { state_of node.new ≢ states.Blank }
    ensures only { IfErr result (λ e. (e ≡ AddError.SpillFault) ⊎ (e ≡ AddError.Memory)) }
    ensures spill { result ≡ Err AddError.SpillFault → 0 < F.faults (file_of node.new) }
    ensures agrees { AgreesWithFile F.held F.faults F.keeps node.new }
{
    match node.spill(alloc) {
        Ok(()) => Ok(()),
        Err(NodeError::SpillFault) => Err(AddError::SpillFault),
        Err(NodeError::Memory) => Err(AddError::Memory),
        Err(NodeError::SpillDamaged { .. }) => unreachable!(),
    }
}
