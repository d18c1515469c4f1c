//! The nodes of the octree while points are inserted.

ghost use Rattle.std.specs.Prelude.{◌≡◌, ◌<◌, ◌≤◌, ◌+◌, ◌∷◌, ◌++◌, [], ℕ, Bool, List, Err, None, length, count_by, OnOk, IfOk};
ghost use Rattle.std.specs.BTreeMap.{is_at};
ghost use Rattle.std.specs.Map.{lookup};
ghost use Rattle.ept_point.specs.declared.point.Point.{Point};
ghost use Rattle.ept_space.specs.VoxelKey.{key_cmp};
ghost use Rattle.ept_space.specs.OctreeCube.{InBox, InCube};
ghost use Rattle.ept_sample.specs.Place.{place, AllInCube};
ghost use Rattle.ept_sample.specs.Ids.{HasDistinctIds};
ghost use Rattle.ept_sample.specs.SamplingLaws.{CanBeSampled};
ghost use Rattle.ept_sample.specs.Nodes.{sampled};
ghost use Rattle.ept_grid.specs.Node.{TakesIn};
ghost use Rattle.ept_grid.specs.Outgoing.{points_at, all_points};
ghost use Rattle.ept_table.specs.Octree.{AreNodes};
ghost use Rattle.ept_tree.specs.Tree.{on_the_way, IsPlaced, ArePlaced, GoDown, Becomes, AreAtDepth};
ghost use Rattle.ept_tree.specs.Landing.{HasLanded, HasArrived};
ghost use Rattle.ept_tree.specs.Whole.{StaysWhole, HasOpened};
ghost use Rattle.ept_tree.specs.Grown.{rules_of, nodes_of, points_of, IsAtRest, IsWhole, GrowsWhole, HasTaken};
ghost use Rattle.ept_tree.specs.declared.arrival.Arrival.{Arrival};

use crate::arrival::{Arrival, send_on};
use crate::tree_error::TreeError;
use ept_grid::{Grid, Outgoing};
use ept_point::{Memory, Point};
use ept_space::{Key, Rules};
use std::alloc::Global;
use std::collections::BTreeMap;

/// An octree into which points are inserted one by one, from the root down. Each node keeps the points that win their
/// cells, and the losers of an octant until there are too many. These then move down to its child.
#[derive(Drop)]
pub struct Tree {
    alloc: Global,
    rules: Rules,
    nodes: BTreeMap<Key, Grid>,
    // What leaves a node while a point arrives at it.
    leaving: Outgoing,
}

impl Tree {
    /// The octree of no points: its root.
    pub fn new(alloc: Global, rules: &Rules) -> Result<Tree, Memory>
        ensures rules { IfOk result (λ tree. rules_of tree ≡ rules.now) }
        ensures rest { IfOk result IsAtRest }
        ensures one { IfOk result (λ tree. length (nodes_of tree) ≡ 1) }
        ensures none { IfOk result (λ tree. points_of tree ≡ []) }
        ensures whole { IfOk result IsWhole }
        ensures begun { IfOk result (λ tree. (points : List Point) → CanBeSampled rules.now points
            → HasTaken points points tree) }
    {
        let mut nodes = BTreeMap::new(alloc);
        nodes.insert(Key::ROOT, Grid::new(alloc, Key::ROOT, rules))?;
        Ok(Tree {
            alloc,
            rules: *rules,
            nodes,
            leaving: Outgoing::new(alloc),
        })
    }

    /// The nodes by their keys.
    pub fn nodes(&self) -> &BTreeMap<Key, Grid>
        ensures nodes { result.now.entries ≡ nodes_of self.now }
    {
        &self.nodes
    }

    /// Inserts points, one after the other, while the octree has at most `most` nodes.
    ///
    /// # Errors
    ///
    /// `TooManyNodes` if the sampling of the points has more nodes than `most`, and `Memory`. After an error the tree
    /// is of no further use.
    pub fn insert_all(&mut self, given: &[Point], most: u64) -> Result<(), TreeError>
        requires rest { IsAtRest self.old }
        requires inside { AllInCube (rules_of self.old).cube given.now }
        requires few { length (nodes_of self.old) ≤ most }
        ensures rules { rules_of self.new ≡ rules_of self.old }
        ensures rest { OnOk result (IsAtRest self.new) }
        ensures few { OnOk result (length (nodes_of self.new) ≤ most) }

        // Whatever the ids, the points of all nodes are the points from before and the given ones. The nodes are a
        // whole octree if they were one.
        ensures together { OnOk result ((test : Point → Bool) → count_by test (points_of self.new)
            ≡ count_by test given.now + count_by test (points_of self.old)) }
        ensures whole { OnOk result (GrowsWhole self.old self.new) }

        // If the points have different ids, the tree has taken the given ones too, or its sampling has too many nodes.
        ensures taken { OnOk result ((points left : List Point) → HasTaken points (given.now ++ left) self.old
            → HasTaken points left self.new) }
        ensures too_many { result ≡ Err TreeError.TooManyNodes → (points left : List Point)
            → HasTaken points (given.now ++ left) self.old
            → most < length (sampled (rules_of self.old) points) }
    {
        for point in given {
            self.insert(*point)?;
            if self.nodes.len() as u64 > most {
                return Err(TreeError::TooManyNodes);
            }
        }
        Ok(())
    }

    // Inserts a point, and moves down the points that it displaces.
    fn insert(&mut self, point: Point) -> Result<(), Memory>
        requires rest { IsAtRest self.old }
        requires inside { InCube self.old.rules.cube (place point) }
        ensures rules { self.new.rules ≡ self.old.rules }
        ensures rest { OnOk result (IsAtRest self.new) }
        ensures together { OnOk result ((test : Point → Bool) → count_by test (points_of self.new)
            ≡ count_by test (point ∷ points_of self.old)) }
        ensures whole { OnOk result (GrowsWhole self.old self.new) }
        ensures taken { OnOk result ((points left : List Point) → HasTaken points (point ∷ left) self.old
            → HasTaken points left self.new) }
    {
        let mut arrivals = Vec::from_slice(
            self.alloc,
            &[Arrival {
                key: Key::ROOT,
                point,
            }],
        )?;
        // In each turn the points move down one depth, and none moves below the greatest depth.
        self.rules.cube.known();
        for _depth in 0..self.rules.cube.depth + 1 {
            arrivals = self.descend(&arrivals)?;
        }
        Ok(())
    }

    // Adds points to the nodes of one depth, and returns the points that are then on their way to the next.
    fn descend(&mut self, arrivals: &[Arrival]) -> Result<Vec<Arrival>, Memory>
        requires rest { IsAtRest self.old }
        requires placed { ArePlaced self.old.rules arrivals.now }
        ensures rules { self.new.rules ≡ self.old.rules }
        ensures rest { OnOk result (IsAtRest self.new) }
        ensures placed { IfOk result (λ next. ArePlaced self.old.rules next.items) }
        ensures deeper { IfOk result (λ next. (depth : ℕ) → AreAtDepth depth arrivals.now
            → AreAtDepth (depth + 1) next.items) }
        ensures together { IfOk result (λ next. (test : Point → Bool)
            → count_by test (points_of self.new) + count_by test (on_the_way next.items)
            ≡ count_by test (on_the_way arrivals.now) + count_by test (points_of self.old)) }
        ensures whole { IfOk result (λ next. StaysWhole
            arrivals.now self.old.nodes.entries next.items self.new.nodes.entries) }
        ensures becomes { IfOk result (λ next. Becomes
            self.old.rules arrivals.now self.old.nodes.entries next.items self.new.nodes.entries) }
    {
        let mut next = Vec::new(self.alloc);
        for arrival in arrivals {
            self.arrive(arrival, &mut next)?;
        }
        Ok(next)
    }

    // Adds a point to its node. The points that leave the node are then on their way.
    fn arrive(&mut self, arrival: &Arrival, next: &mut Vec<Arrival>) -> Result<(), Memory>
        requires rest { IsAtRest self.old }
        requires placed { IsPlaced self.old.rules arrival.now }
        ensures rules { self.new.rules ≡ self.old.rules }
        ensures rest { OnOk result (IsAtRest self.new) }
        ensures arrived { OnOk result (HasArrived self.old.rules arrival.now
            self.old.nodes.entries self.new.nodes.entries next.old.items next.new.items) }
    {
        // Each node that has a point to send has children.
        self.rules.cube.known();
        self.land(arrival)?;
        self.leaving.known();
        send_on(&arrival.key, &mut self.leaving, next)
    }

    // Adds a point to its node, and makes the node if it is missing.
    fn land(&mut self, arrival: &Arrival) -> Result<(), Memory>
        requires rest { IsAtRest self.old }
        requires placed { IsPlaced self.old.rules arrival.now }
        ensures rules { self.new.rules ≡ self.old.rules }
        ensures own { OnOk result (AreNodes self.old.rules self.new.nodes.entries) }
        ensures landed { OnOk result (HasLanded self.old.rules arrival.now
            self.old.nodes.entries self.new.nodes.entries self.new.leaving) }
    {
        match self.nodes.get_mut(&arrival.key) {
            Some(node) => take_in(node, arrival.point, &mut self.leaving),
            None => self.plant(arrival),
        }
    }

    // Makes the missing node of a point, and adds the point to it. It is a function of its own, since otherwise each
    // arrival would clear room for a whole node.
    #[cold]
    #[inline(never)]
    fn plant(&mut self, arrival: &Arrival) -> Result<(), Memory>
        requires rest { IsAtRest self.old }
        requires placed { IsPlaced self.old.rules arrival.now }
        requires absent { None ≡ lookup (is_at (key_cmp arrival.now.key)) self.old.nodes.entries }
        ensures rules { self.new.rules ≡ self.old.rules }
        ensures own { OnOk result (AreNodes self.old.rules self.new.nodes.entries) }
        ensures landed { OnOk result (HasLanded self.old.rules arrival.now
            self.old.nodes.entries self.new.nodes.entries self.new.leaving) }
    {
        let mut node = Grid::new(self.alloc, arrival.key, &self.rules);
        take_in(&mut node, arrival.point, &mut self.leaving)?;
        self.nodes.insert(arrival.key, node)?;
        Ok(())
    }
}

// Adds a point to a node, from which other points may then leave.
fn take_in(node: &mut Grid, point: Point, leaving: &mut Outgoing) -> Result<(), Memory>
    requires empty { (o : ℕ) → points_at leaving.old o ≡ [] }
    requires inside { InBox node.old.rules.cube node.old.key (place point) }
    ensures key { node.new.key ≡ node.old.key }
    ensures rules { node.new.rules ≡ node.old.rules }
    ensures down { OnOk result (GoDown node.old.rules node.old.key leaving.new) }
    ensures together { OnOk result ((test : Point → Bool) → count_by test node.new.points
        + count_by test (all_points leaving.new) ≡ count_by test (point ∷ node.old.points)) }
    ensures opened { OnOk result (HasOpened node.old.mask node.new.mask leaving.new) }
    ensures taken { OnOk result (HasDistinctIds (point ∷ node.old.points)
        → TakesIn node.old node.new point leaving.old leaving.new) }
{
    node.known();
    node.rules().cube.known();
    node.reserve(&[point], leaving)?;
    node.arrive(point, leaving);
    Ok(())
}
