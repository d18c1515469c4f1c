//! The nodes of a table's slots, and what happens to their points in memory.

ghost use Rattle.std.specs.Prelude.{◌≡◌, ◌≢◌, ◌<◌, ◌≤◌, ◌+◌, ◌++◌, [], ℕ, Bool, List, true, length, count_by, slice_index, slice_set, OnOk, OnErr, IfErr, IsSome, ◌↔◌};
ghost use Rattle.ept_point.specs.declared.point.Point.{Point};
ghost use Rattle.ept_point.specs.Order.{IsAscending};
ghost use Rattle.ept_space.specs.VoxelKey.{child};
ghost use Rattle.ept_sample.specs.Place.{AllInBox};
ghost use Rattle.ept_sample.specs.Ids.{HasDistinctIds};
ghost use Rattle.ept_sample.specs.Sampling.{sampling, is_node};
ghost use Rattle.ept_grid.specs.Outgoing.{points_at, all_points};
ghost use Rattle.ept_grid.specs.Mask.{opened};
ghost use Rattle.ept_grid.specs.Node.{SendsOn, IsNodeOf, IsInIdOrder};
ghost use Rattle.ept_grid.specs.Tile.{IsTile, IsTileFault};
ghost use Rattle.ept_core.specs.State as core;
ghost use Rattle.ept_core.specs.Steps.{resumed_node};
ghost use Rattle.ept_node.specs.declared.state.NodeState.TheVariants.{Blank, Resident, Broken};
ghost use Rattle.ept_node.specs.Shown.{empty_node, no_children, file_of, state_of, node_of, is_here, fault_of, children_of, ShowsTheSame, HasRoom};
ghost use Rattle.ept_node.specs.Batch.{HasTaken, StandsFor, seen, Arrives};

use crate::batch::take_in;
use crate::body::{Body, boxed, empty_grid};
use crate::error::NodeError;
use crate::site::Site;
use crate::state::NodeState;
use ept_base::SpillFile;
use ept_grid::{Grid, GridError, Lists, Outgoing};
use ept_point::{Memory, Point};
use ept_space::{Key, Rules};
use std::alloc::Global;

/// A node of the octree in a slot of a table. It owns its spill file in each state.
///
/// It can't be dropped if its file can't: the room of the file takes the file back (`into_file`).
#[derive(Debug)]
pub struct Node<F> {
    pub(crate) file: F,
    children: [u32; 8],
    pub(crate) body: Body,
}

impl<F> Node<F> {
    /// The node of no key, with its spill file.
    pub fn blank(file: F) -> Node<F>
        ensures file { file_of result ≡ file }
        ensures state { state_of result ≡ Blank }
    {
        Node {
            file,
            children: [0; 8],
            body: Body::Blank,
        }
    }

    /// The spill file. The points are gone.
    pub fn into_file(self) -> F
        ensures { result ≡ file_of self }
    {
        let Node {
            file,
            children: _children,
            body: _body,
        } = self;
        file
    }

    /// Whether it is the node of a key, and where its points are.
    pub fn state(&self) -> NodeState
        ensures { result ≡ state_of self.now }
    {
        match &self.body {
            Body::Blank => NodeState::Blank,
            Body::Begun(_) | Body::Resident(_) => NodeState::Resident,
            Body::Spilled(_) => NodeState::Spilled,
            Body::Unkept(_) | Body::Lost(_, _) => NodeState::Broken,
        }
    }

    /// The refusal that broke the node; `None` if it is not broken.
    pub fn fault(&self) -> Option<NodeError>
        ensures fault { result ≡ fault_of self.now }
        ensures exactly { IsSome result ↔ (state_of self.now ≡ Broken) }
    {
        match &self.body {
            Body::Unkept(_) => Some(NodeError::SpillFault),
            Body::Lost(_, why) => Some(*why),
            _ => None,
        }
    }

    /// Whether its points are in memory. They are if it is resident, or broken because its file failed to keep them.
    pub fn is_here(&self) -> bool
        ensures { result ≡ is_here self.now }
    {
        match &self.body {
            Body::Begun(_) | Body::Resident(_) | Body::Unkept(_) => true,
            Body::Blank | Body::Spilled(_) | Body::Lost(_, _) => false,
        }
    }
}

impl<F: SpillFile> Node<F> {
    /// Makes a blank node the node of a key, without points, open octants and children. It takes no memory.
    pub fn begin(&mut self, key: Key, rules: &Rules)
        requires blank { state_of self.old ≡ Blank }
        requires low { key.depth ≤ rules.now.cube.depth }
        ensures state { state_of self.new ≡ Resident }
        ensures node { node_of F.held self.new ≡ empty_node key rules.now }
        ensures children { children_of self.new ≡ no_children }
        ensures file { file_of self.new ≡ file_of self.old }
        ensures absent { StandsFor core.blank (node_of F.held self.new) }
    {
        self.children = [0; 8];
        self.body = Body::Begun(Site { key, rules: *rules });
    }

    /// Makes a node without points, open octants and children blank again.
    pub fn unbegin(&mut self)
        requires resident { state_of self.old ≡ Resident }
        requires points { (node_of F.held self.old).points ≡ [] }
        requires mask { (node_of F.held self.old).mask ≡ 0 }
        requires children { children_of self.old ≡ no_children }
        ensures state { state_of self.new ≡ Blank }
        ensures file { file_of self.new ≡ file_of self.old }
    {
        self.body = Body::Blank;
    }

    /// The key of the node.
    pub fn key(&self) -> Key
        requires { state_of self.now ≢ Blank }
        ensures { result ≡ (node_of F.held self.now).key }
    {
        match &self.body {
            Body::Blank => unreachable!(),
            Body::Begun(site) => site.key,
            Body::Resident(grid) | Body::Unkept(grid) => grid.key(),
            Body::Spilled(filed) | Body::Lost(filed, _) => filed.site.key,
        }
    }

    // The rules of the node's sampling.
    fn rules(&self) -> Rules
        requires { state_of self.now ≢ Blank }
        ensures rules { result ≡ (node_of F.held self.now).rules }
        ensures low { (node_of F.held self.now).key.depth ≤ result.cube.depth }
    {
        match &self.body {
            Body::Blank => unreachable!(),
            Body::Begun(site) => site.rules,
            Body::Resident(grid) | Body::Unkept(grid) => {
                grid.known();
                *grid.rules()
            }
            Body::Spilled(filed) | Body::Lost(filed, _) => filed.site.rules,
        }
    }

    /// The slot of the child of an octant, or 0 if none is set.
    pub fn child(&self, octant: u8) -> u32
        requires named { state_of self.now ≢ Blank }
        requires one_of_eight { octant < 8 }
        ensures { result ≡ slice_index (children_of self.now) octant }
    {
        self.children[octant as usize]
    }

    /// Sets the slot of the child of an octant.
    pub fn set_child(&mut self, octant: u8, slot: u32)
        requires named { state_of self.old ≢ Blank }
        requires one_of_eight { octant < 8 }
        ensures children { children_of self.new ≡ slice_set (children_of self.old) octant slot }
        ensures child { slice_index (children_of self.new) octant ≡ slot }
        ensures state { state_of self.new ≡ state_of self.old }
        ensures node { node_of F.held self.new ≡ node_of F.held self.old }
        ensures file { file_of self.new ≡ file_of self.old }
    {
        self.children[octant as usize] = slot;
    }

    /// The open octants: bit o is set if octant o is open.
    pub fn open_mask(&self) -> u8
        requires { state_of self.now ≢ Blank }
        ensures { result ≡ (node_of F.held self.now).mask }
    {
        match &self.body {
            Body::Blank => unreachable!(),
            Body::Begun(_) => 0,
            Body::Resident(grid) | Body::Unkept(grid) => grid.open_mask(),
            Body::Spilled(filed) | Body::Lost(filed, _) => filed.mask,
        }
    }

    /// How many points the node has.
    pub fn count(&self) -> u64
        requires { state_of self.now ≢ Blank }
        ensures { result ≡ length (node_of F.held self.now).points }
    {
        match &self.body {
            Body::Blank => unreachable!(),
            Body::Begun(_) => 0,
            Body::Resident(grid) | Body::Unkept(grid) => grid.count(),
            Body::Spilled(filed) => filed.count,
            Body::Lost(filed, _) => filed.count,
        }
    }

    /// Gives a node without points these points and open octants, or returns the first cause why they are none of the
    /// node's key. After a refusal the node is as it was. The ids ascend.
    pub fn fill(&mut self, alloc: Global, mask: u8, points: &[Point]) -> Result<(), GridError>
        requires resident { state_of self.old ≡ Resident }
        requires empty { (node_of F.held self.old).points ≡ [] }
        requires ascend { IsAscending points.now }
        ensures ok { OnOk result (IsNodeOf (node_of F.held self.old).key (node_of F.held self.old).rules mask points.now (node_of F.held self.new)) }
        ensures tile { OnOk result (IsTile (node_of F.held self.old).key (node_of F.held self.old).rules mask points.now) }
        ensures refused { IfErr result (λ e. e ≢ GridError.Memory
            → IsTileFault (node_of F.held self.old).key (node_of F.held self.old).rules mask points.now e) }
        ensures unchanged { OnErr result (node_of F.held self.new ≡ node_of F.held self.old) }
        ensures state { state_of self.new ≡ state_of self.old }
        ensures children { children_of self.new ≡ children_of self.old }
        ensures file { file_of self.new ≡ file_of self.old }

        // With the points of a sampling at its key it is the machine's node there.
        ensures resumed { OnOk result ((all : List Point)
            → points.now ≡ sampling (node_of F.held self.old).rules all (node_of F.held self.old).key
            → ((o : ℕ) → o < 8 → opened mask o ≡ is_node (node_of F.held self.old).rules all (child (node_of F.held self.old).key o))
            → seen (node_of F.held self.new) ≡ resumed_node (node_of F.held self.old).rules all true (node_of F.held self.old).key) }
    {
        let rules = self.rules();
        let grid = Grid::from_tile(Lists::new(alloc), self.key(), &rules, mask, points)?;
        self.body = Body::Resident(boxed(alloc, grid)?);
        Ok(())
    }

    // Makes room for the points of a node at which none has arrived yet. What it shows stays, whatever the result.
    pub(crate) fn wake(&mut self, alloc: Global) -> Result<(), Memory>
        ensures same { ShowsTheSame F.held self.old self.new }
        ensures here { OnOk result (HasRoom self.old self.new) }
    {
        if let Body::Begun(site) = &self.body {
            let grid = empty_grid(alloc, site.key, &site.rules)?;
            self.body = Body::Resident(grid);
        }
        Ok(())
    }

    /// Lets points arrive, one after another. The points that leave are added to `out`, each in the list of its octant.
    /// After `Memory` the points of both are as they were.
    pub fn arrive_batch(
        &mut self,
        alloc: Global,
        points: &[Point],
        out: &mut Outgoing,
    ) -> Result<(), Memory>
        requires resident { state_of self.old ≡ Resident }
        requires inside { AllInBox (node_of F.held self.old).rules.cube (node_of F.held self.old).key points.now }
        ensures unchanged { OnErr result (node_of F.held self.new ≡ node_of F.held self.old) }
        ensures out_unchanged { OnErr result ((o : ℕ) → points_at out.new o ≡ points_at out.old o) }
        ensures state { state_of self.new ≡ state_of self.old }
        ensures key { (node_of F.held self.new).key ≡ (node_of F.held self.old).key }
        ensures rules { (node_of F.held self.new).rules ≡ (node_of F.held self.old).rules }
        ensures children { children_of self.new ≡ children_of self.old }
        ensures file { file_of self.new ≡ file_of self.old }

        // Whatever the ids, no point is lost, and each point that leaves lies in its octant, which is open.
        ensures together { OnOk result ((test : Point → Bool) →
            count_by test (node_of F.held self.new).points + count_by test (all_points out.new)
            ≡ count_by test points.now + count_by test (node_of F.held self.old).points + count_by test (all_points out.old)) }
        ensures sends_on { OnOk result ((o : ℕ) → o < 8 →
            SendsOn (node_of F.held self.old) (node_of F.held self.new) o (points_at out.old o) (points_at out.new o)) }

        // If the ids are all different, the node keeps and sends what the sampling says. That is the arrival of a
        // flight of the machine.
        ensures takes_in { OnOk result (HasDistinctIds (points.now ++ (node_of F.held self.old).points) →
            HasTaken (node_of F.held self.old) (node_of F.held self.new) points.now out.old out.new) }
        ensures arrives { OnOk result (HasDistinctIds (points.now ++ (node_of F.held self.old).points) → 0 < length points.now →
            ((o : ℕ) → o < 8 → points_at out.old o ≡ []) →
            Arrives (node_of F.held self.old) (node_of F.held self.new) points.now out.new) }
    {
        self.wake(alloc)?;
        let Body::Resident(grid) = &mut self.body else {
            unreachable!()
        };
        take_in(grid, points, out)?;
        Ok(())
    }

    /// Exposes what each node keeps to the caller's proof. Does nothing at run time.
    pub fn known(&self)
        requires { state_of self.now ≢ Blank }
        ensures low { (node_of F.held self.now).key.depth ≤ (node_of F.held self.now).rules.cube.depth }
        ensures inside { AllInBox (node_of F.held self.now).rules.cube (node_of F.held self.now).key (node_of F.held self.now).points }
        ensures ascend { HasDistinctIds (node_of F.held self.now).points → IsAscending (node_of F.held self.now).points }
        ensures deepest { (node_of F.held self.now).key.depth ≡ (node_of F.held self.now).rules.cube.depth → (node_of F.held self.now).mask ≡ 0 }
        ensures seen { StandsFor (seen (node_of F.held self.now)) (node_of F.held self.now) }
        ensures tile { state_of self.now ≡ Resident → HasDistinctIds (node_of F.held self.now).points
            → IsTile (node_of F.held self.now).key (node_of F.held self.now).rules (node_of F.held self.now).mask (node_of F.held self.now).points }
    {
        match &self.body {
            Body::Blank => unreachable!(),
            Body::Begun(_) => {}
            Body::Resident(grid) | Body::Unkept(grid) => grid.known(),
            Body::Spilled(filed) | Body::Lost(filed, _) => filed.known(),
        }
    }
}
