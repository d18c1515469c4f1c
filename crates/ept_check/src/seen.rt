//! What is kept of the nodes so far, and what is wrong with the next one.

ghost use Rattle.std.specs.Prelude.{◌≡◌, ◌≢◌, ◌<◌, ◌↔◌, ◌||◌, IsTrue, Some, None, IfOk, OnOk, IfSome, IfNone, MatchOption, All, [], false};
ghost use Rattle.ept_point.specs.declared.id.PointId.{PointId};
ghost use Rattle.ept_point.specs.Order.{IsAscending};
ghost use Rattle.ept_sample.specs.Members.{IsMember};
ghost use Rattle.ept_hier.specs.Hierarchy.{keys_of};
ghost use Rattle.ept_fit.specs.Fit.{HasParent, LiesInBox, IsFilled};
ghost use Rattle.ept_check.specs.declared.fault.Fault.{Fault};
ghost use Rattle.ept_check.specs.Facts.{tile_of, number_of, IsFirstLack};
ghost use Rattle.ept_check.specs.Walking.{IsOctree, AreOfRules, IsStack, HasCome, has_id, is_of};
ghost use Rattle.ept_check.specs.Looking.{Finds, AreFound, IsFirstLate, HasTaken, fault_of};

use crate::above::lose_to;
use crate::fault::Fault;
use crate::ids::Ids;
use crate::octree::Octree;
use ept_grid::{Grid, GridError, Lists};
use ept_point::{Memory, Point};
use ept_space::Key;
use std::alloc::Global;

/// The nodes above the next one, perhaps with others, and the ids of the points of all nodes so far.
#[derive(Drop)]
pub(crate) struct Seen {
    pub(crate) above: Vec<Grid>,
    pub(crate) ids: Ids,
}

impl Seen {
    /// Nothing yet. It takes no memory.
    pub(crate) fn new(alloc: Global) -> Seen
        ensures above { result.above.items ≡ [] }
        ensures ids { (q : PointId) → has_id result.ids q ≡ false }
    {
        Seen {
            above: Vec::new(alloc),
            ids: Ids::new(alloc),
        }
    }

    /// What is wrong with the next node, which has these points: the first fact of it that does not hold. If nothing is
    /// wrong, the node is added to those so far.
    pub(crate) fn look(
        &mut self,
        alloc: Global,
        octree: &Octree,
        key: &Key,
        points: &[Point],
    ) -> Result<Option<Fault>, Memory>
        requires sound { IsOctree octree.now }
        requires listed { IsMember key.now (keys_of octree.now.nodes.items) }
        requires parent { HasParent (keys_of octree.now.nodes.items) key.now }
        requires ascend { IsAscending points.now }
        requires of_rules { AreOfRules octree.now.rules self.old.above.items }
        requires stack { IsStack self.old.above.items }
        ensures found { IfOk result (λ found. MatchOption found
            (AreFound octree.now self.old key.now points.now)
            (IsFirstLack (Finds octree.now self.old key.now points.now))) }
        ensures taken { IfOk result (λ found. found ≡ None → HasTaken key.now points.now self.old self.new) }
        ensures of_rules { IfOk result (λ found. found ≡ None → AreOfRules octree.now.rules self.new.above.items) }
        ensures stack { IfOk result (λ found. found ≡ None → IsStack self.new.above.items) }
    {
        let mask = octree.mask_of(key);
        let grid = match Grid::from_tile(Lists::new(alloc), *key, &octree.rules, mask, points) {
            Ok(grid) => grid,
            Err(error) => return fault_of(error),
        };
        match self.late_fault(octree, key, points) {
            Some(fault) => return Ok(Some(fault)),
            None => {}
        }
        self.take(alloc, grid, points)?;
        Ok(None)
    }

    // What is wrong with a node whose points are those of a node.
    fn late_fault(&self, octree: &Octree, key: &Key, points: &[Point]) -> Option<Fault>
        requires sound { IsOctree octree.now }
        requires listed { IsMember key.now (keys_of octree.now.nodes.items) }
        requires inside { LiesInBox octree.now.rules (tile_of key.now points.now) }
        requires of_rules { AreOfRules octree.now.rules self.now.above.items }
        ensures none { IfNone result ((f : Fault) → 5 < number_of f → Finds octree.now self.now key.now points.now f) }
        ensures some { IfSome result (IsFirstLate (Finds octree.now self.now key.now points.now)) }
    {
        if !lose_to(&self.above, key, points) {
            return Some(Fault::Above);
        }
        if !octree.has_full_children(key) {
            return Some(Fault::Few);
        }
        if !is_filled(key, points) {
            return Some(Fault::Empty);
        }
        if !self.ids.has_none_of(points) {
            return Some(Fault::Twice);
        }
        None
    }

    // Adds a node. It keeps the first nodes of the list, at most the number that are above the new one. A node above is
    // no deeper in the list than in the octree, so all nodes above stay.
    fn take(&mut self, alloc: Global, grid: Grid, points: &[Point]) -> Result<(), Memory>
        requires { IsStack self.old.above.items }
        ensures stack { OnOk result (IsStack self.new.above.items) }
        ensures above { OnOk result (HasCome grid self.old.above.items self.new.above.items) }
        ensures ids { OnOk result ((q : PointId) → has_id self.new.ids q ≡ (has_id self.old.ids q || is_of points.now q)) }
    {
        self.ids.insert_all(alloc, points)?;
        self.above.truncate(usize::from(grid.key().depth));
        self.above.push(grid)?;
        Ok(())
    }
}

// Whether a node is the root or has a point.
fn is_filled(key: &Key, points: &[Point]) -> bool
    ensures { IsTrue result ↔ IsFilled (tile_of key.now points.now) }
{
    key.depth == 0 || !points.is_empty()
}

// What is wrong with points that are not those of a node, unless memory ran out.
fn fault_of(error: GridError) -> Result<Option<Fault>, Memory>
    requires { error ≢ GridError.Deep }
    ensures { IfOk result (λ found. (found ≡ fault_of error) × (error ≢ GridError.Memory)) }
{
    match error {
        GridError::Outside { .. } => Ok(Some(Fault::Outside)),
        GridError::OpenLoser { .. } => Ok(Some(Fault::OpenLoser)),
        GridError::TooMany { .. } => Ok(Some(Fault::TooMany)),
        GridError::Deep => unreachable!(),
        GridError::Memory => Err(Memory),
    }
}
