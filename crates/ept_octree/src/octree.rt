//! An octree, and its nodes one at a time.

ghost use Rattle.std.specs.Prelude.{◌≡◌, ◌≤◌, ◌<◌, ◌+◌, ◌^◌, ◌∷◌, ◌++◌, [], ℕ, true, OnOk, OnErr, IfOk, length, map};
ghost use Rattle.ept_base.specs.Causes.{HasCauseOf, Rose};
ghost use Rattle.ept_base.specs.Devices.{counts_on};
ghost use Rattle.ept_base.specs.declared.errors.PutError.TheVariants as put;
ghost use Rattle.ept_space.specs.VoxelKey.{root};
ghost use Rattle.ept_forest.specs.Slots as trees;
ghost use Rattle.ept_node.specs.Shown.{empty_node};
ghost use Rattle.ept_table.specs.Octree.{key_of};
ghost use Rattle.ept_table.specs.Octree.{AreSampled};
ghost use Rattle.ept_octree.specs.Index.{IsIndex, in_slots, untold};
ghost use Rattle.ept_octree.specs.Props.{props};

use ept_base::{PutError, Room, SpillFile};
use ept_forest::Forest;
use ept_space::{Key, Rules};
use std::alloc::Global;
use std::collections::BTreeMap;

/// An octree of nodes in the slots of a forest, between the phases of a build.
///
/// It can't be dropped if its spill files can't: their room takes them back by `retire_all`.
pub struct Octree<F> {
    pub(crate) forest: Forest<F>,
    pub(crate) slots: BTreeMap<Key, u32>,
    pub(crate) rules: Rules,
    pub(crate) most: u32,
    // How many nodes may be in memory, and how many are.
    pub(crate) cache: u32,
    pub(crate) here: u32,
    // It holds whatever the files hold. It speaks only of the key, the rules, the open octants and the count of a node
    // in its file.
    ghost indexed: { IsIndex rules (trees.used_of forest) (in_slots untold (trees.nodes_of forest)) slots.entries } by { Prim.hlevel props },
    ghost limit: { most ≡ length (trees.nodes_of forest) },
    ghost some: { 1 ≤ cache },
    ghost counted: { here ≡ trees.residents_of (trees.nodes_of forest) },
    ghost cached: { here ≤ cache },
}

impl<F: SpillFile> Octree<F> {
    ghost use Rattle.ept_octree.specs.Octree.{forest_of, rules_of, most_of, cache_of, residents_of, nodes_of, HasOwnNodes, IsShallow, IsWhole, IsLinked, IsUnbroken, AgreesWithFiles};

    /// The octree of no points: its root, in memory. It may have `most` nodes at most, and at most `cache` of them in
    /// memory. After a refusal the room has its files back.
    ///
    /// # Errors
    ///
    /// `Failed` if the room fails to make a file.
    pub fn new<R: Room<File = F>>(
        alloc: Global,
        room: &mut R,
        most: u32,
        cache: u32,
        rules: &Rules,
    ) -> Result<Octree<F>, PutError>
        requires { (1 ≤ most) × (1 ≤ cache) }
        ensures rules { IfOk result (λ octree. rules_of octree ≡ rules.now) }
        ensures most { IfOk result (λ octree. most_of octree ≡ most) }
        ensures cache { IfOk result (λ octree. cache_of octree ≡ cache) }
        ensures here { IfOk result (λ octree. residents_of octree ≡ 1) }
        ensures root { IfOk result (λ octree. nodes_of F.held octree ≡ (root, empty_node root rules.now) ∷ []) }
        ensures whole { IfOk result (IsWhole F.held) }
        ensures sampled { IfOk result (λ octree. AreSampled rules.now [] (nodes_of F.held octree)) }
        ensures linked { IfOk result (IsLinked F.held) }
        ensures agrees { IfOk result (AgreesWithFiles F.held F.faults F.keeps) }
        ensures unbroken { IfOk result IsUnbroken }
        ensures fresh { IfOk result (λ octree. trees.faults_of F.faults (trees.nodes_of (forest_of octree)) ≡ 0) }
        ensures counted { OnOk result (R.keeps room.new ≡ R.keeps room.old) }
        ensures unkept { OnErr result (trees.told (R.keeps room.new) ≡ trees.told (R.keeps room.old)) }
        ensures cause { HasCauseOf put.Failed (R.faults room.old) (R.faults room.new) result }
    {
        rules.cube.known();
        let forest = Forest::new(alloc, room, most, rules)?;
        let mut slots = BTreeMap::new(alloc);
        match slots.insert(Key::ROOT, 1) {
            Ok(_) => Ok(Octree {
                forest,
                slots,
                rules: *rules,
                most,
                cache,
                here: 1,
            }),
            Err(_) => {
                forest.retire_all(room);
                Err(PutError::Memory)
            }
        }
    }

    /// The rules of the sampling.
    pub fn rules(&self) -> &Rules
        ensures { result.now ≡ rules_of self.now }
    {
        &self.rules
    }

    /// The limit of its number of nodes.
    pub fn most(&self) -> u32
        ensures { result ≡ most_of self.now }
    {
        self.most
    }

    /// How many of its nodes may be in memory at a time.
    pub fn cache(&self) -> u32
        ensures cache { result ≡ cache_of self.now }
        ensures some { 1 ≤ cache_of self.now }
        ensures few { residents_of self.now ≤ cache_of self.now }
    {
        let _here = self.here;
        self.cache
    }

    /// How many nodes it has. If none is broken, each node except those that may be in memory was kept by its file.
    pub fn len(&self) -> u64
        ensures number { result ≡ length (nodes_of F.held self.now) }
        ensures few { length (nodes_of F.held self.now) ≤ most_of self.now }
        ensures small { most_of self.now < 2 ^ 32 }
        ensures own { HasOwnNodes F.held self.now }
        ensures shallow { IsShallow F.held self.now }
        ensures kept { IsUnbroken self.now → AgreesWithFiles F.held F.faults F.keeps self.now
            → length (nodes_of F.held self.now) ≤ cache_of self.now + trees.kept_by F.keeps (trees.nodes_of (forest_of self.now)) }
    {
        let _most = self.most;
        self.slots.len() as u64
    }

    /// Returns all spill files to their room. It takes no memory.
    pub fn retire_all<R: Room<File = F>>(self, room: &mut R)
        ensures later { R.faults room.old ≤ R.faults room.new }
        ensures failed { 0 < trees.faults_of F.faults (trees.nodes_of (forest_of self)) → Rose (R.faults room.old) (R.faults room.new) }
        ensures sound { trees.faults_of F.faults (trees.nodes_of (forest_of self)) ≡ 0 → R.faults room.new ≡ R.faults room.old }
        ensures counted { trees.told (R.keeps room.new) ≡ counts_on (R.keeps room.old) (trees.kept_by F.keeps (trees.nodes_of (forest_of self))) }
    {
        let Octree {
            forest,
            slots: _slots,
            rules: _rules,
            most: _most,
            cache: _cache,
            here: _here,
        } = self;
        forest.retire_all(room);
    }

    /// The forest in whose slots the nodes are.
    pub fn into_forest(self) -> Forest<F>
        ensures { result ≡ forest_of self }
    {
        let Octree {
            forest,
            slots: _slots,
            rules: _rules,
            most: _most,
            cache: _cache,
            here: _here,
        } = self;
        forest
    }
}
