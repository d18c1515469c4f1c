//! The points that leave a node, by octant.

ghost use Rattle.std.specs.Prelude.{◌≡◌, ◌≢◌, ◌<◌, ◌≤◌, ◌+◌, ◌∷◌, [], ◌++◌, ℕ, List, length, map, OnOk, IsPermutation};
ghost use Rattle.ept_point.specs.declared.point.Point as at;
ghost use Rattle.ept_sample.specs.Ids.{HasDistinctIds, in_id_order};

use crate::making::make_room_for;
use ept_point::{Memory, Point, PointId};
use std::alloc::Global;
use std::marker::Model;
use std::mem::replace;

/// The points that leave for one octant.
#[derive(Debug, Drop)]
pub(crate) struct Lane {
    points: Vec<Point>,
}

impl Model for Lane {
    ghost use Rattle.std.specs.Prelude.{◌-◌, vec_len, vec_capacity};
    ghost use Rattle.ept_grid.specs.Outgoing.{Leaving};

    ghost Value = { Leaving };

    ghost view = { λ lane. record {
      points = lane.points.items;
      room = vec_capacity lane.points - vec_len lane.points;
    } };
}

impl Lane {
    fn new(alloc: Global) -> Lane
        ensures { result.points ≡ [] }
    {
        Lane {
            points: Vec::new(alloc),
        }
    }

    fn as_slice(&self) -> &[Point]
        ensures { result.now ≡ self.now.points }
    {
        self.points.as_slice()
    }

    // Makes room for `more` points.
    fn reserve(&mut self, more: usize) -> Result<(), Memory>
        ensures points { self.new.points ≡ self.old.points }
        ensures room { OnOk result (more ≤ self.new.room) }
    {
        make_room_for(&mut self.points, more)
    }

    // Adds a point, which takes no memory.
    fn push(&mut self, point: Point)
        requires { 0 < self.old.room }
        ensures points { self.new.points ≡ self.old.points ++ point ∷ [] }
        ensures room { self.old.room ≡ self.new.room + 1 }
    {
        self.points.push_reserved(point);
    }

    fn add(&mut self, point: Point) -> Result<(), Memory>
        ensures { OnOk result (self.new.points ≡ self.old.points ++ point ∷ []) }
    {
        self.points.push(point)?;
        Ok(())
    }

    fn count(&self) -> usize
        ensures count { result ≡ length self.now.points }
        ensures small { result < 288230376151711744 }
    {
        self.points.as_slice().len()
    }

    // Appends the points with their ids.
    fn append_ids<'a>(&'a self, out: &mut Vec<(PointId, &'a Point)>) -> Result<(), Memory>
        ensures { OnOk result (map (λ e. e.1.now) out.new.items ≡ map (λ e. e.1.now) out.old.items ++ self.now.points) }
    {
        let points = self.points.as_slice();
        out.reserve(points.len())?;
        for point in points {
            out.push_reserved((point.id(), point));
        }
        Ok(())
    }

    // Puts the points in id order, in place.
    fn sort(&mut self)
        ensures moved { IsPermutation self.old.points self.new.points }
        ensures sorted { HasDistinctIds self.old.points → self.new.points ≡ in_id_order self.old.points }
        ensures len { length self.new.points ≡ length self.old.points }
        ensures room { self.new.room ≡ self.old.room }
    {
        self.points.sort_unstable_by_key(|point| point.id());
    }

    // Moves its points to another list, which has room for them, and frees their memory. So this takes no memory.
    fn give(&mut self, to: &mut Lane)
        requires { length self.old.points ≤ to.old.room }
        ensures none { self.new.points ≡ [] }
        ensures added { to.new.points ≡ to.old.points ++ self.old.points }
        ensures left { to.old.room ≤ to.new.room + length self.old.points }
    {
        let alloc = *self.points.allocator();
        let mut points = replace(&mut self.points, Vec::new(alloc));
        let _ = to.points.append(&mut points);
    }

    fn clear(&mut self)
        ensures points { self.new.points ≡ [] }
        ensures room { self.old.room ≤ self.new.room }
    {
        self.points.clear();
    }

    // Takes the points with their place in memory.
    fn take(&mut self, alloc: Global) -> Vec<Point>
        ensures taken { result.items ≡ self.old.points }
        ensures none { self.new.points ≡ [] }
    {
        replace(&mut self.points, Vec::new(alloc))
    }
}

/// The points that leave a node: a list for each octant.
#[derive(Debug, Drop)]
pub struct Outgoing {
    lanes: [Lane; 8],
}

impl Model for Outgoing {
    ghost use Rattle.std.specs.Prelude.{◌≡◌, List, length};
    ghost use Rattle.ept_grid.specs.Outgoing.{Leaving};

    ghost Value = { List Leaving };

    ghost view = { λ out. out.lanes };

    ghost invariant = { λ out. length out.lanes ≡ 8 };
}

impl Outgoing {
    ghost use Rattle.ept_grid.specs.Outgoing.{leaving_at, points_at, all_points};
    ghost use Rattle.ept_grid.specs.Node.{Node, HasRoomFor};

    /// No points. It takes no memory.
    pub fn new(alloc: Global) -> Outgoing
        ensures { (o : ℕ) → points_at result o ≡ [] }
    {
        Outgoing {
            lanes: [
                Lane::new(alloc),
                Lane::new(alloc),
                Lane::new(alloc),
                Lane::new(alloc),
                Lane::new(alloc),
                Lane::new(alloc),
                Lane::new(alloc),
                Lane::new(alloc),
            ],
        }
    }

    /// The points that leave for an octant, in the order in which they came.
    pub fn points(&self, octant: u8) -> &[Point]
        requires { octant < 8 }
        ensures { result.now ≡ points_at self.now octant }
    {
        self.lanes[octant as usize].as_slice()
    }

    /// Exposes to the caller's proof that there is a list for each octant. Does nothing at run time.
    pub fn known(&self)
        ensures { length self.now ≡ 8 }
    {
        let _lanes = &self.lanes;
    }

    /// Adds a point to the list of an octant that has room for it. It takes no memory.
    pub(crate) fn push(&mut self, octant: u8, point: Point)
        requires one_of_eight { octant < 8 }
        requires room { 0 < (leaving_at self.old octant).room }
        ensures added { points_at self.new octant ≡ points_at self.old octant ++ point ∷ [] }
        ensures room { (leaving_at self.old octant).room ≡ (leaving_at self.new octant).room + 1 }
        ensures others { (o : ℕ) → o ≢ octant → leaving_at self.new o ≡ leaving_at self.old o }
        ensures eight { length self.new ≡ length self.old }
    {
        self.lanes[octant as usize].push(point);
    }

    /// Adds a point to the list of an octant. After `Memory` the points are as they were.
    pub(crate) fn add(&mut self, octant: u8, point: Point) -> Result<(), Memory>
        requires one_of_eight { octant < 8 }
        ensures added { OnOk result (points_at self.new octant ≡ points_at self.old octant ++ point ∷ []) }
        ensures others { (o : ℕ) → o ≢ octant → points_at self.new o ≡ points_at self.old o }
        ensures eight { length self.new ≡ length self.old }
    {
        self.lanes[octant as usize].add(point)
    }

    /// How many points leave for an octant.
    pub(crate) fn count(&self, octant: u8) -> usize
        requires { octant < 8 }
        ensures count { result ≡ length (points_at self.now octant) }
        ensures small { result < 288230376151711744 }
    {
        self.lanes[octant as usize].count()
    }

    /// How many points leave for any octant.
    pub(crate) fn total(&self) -> usize
        ensures total { result ≡ length (all_points self.now) }
        ensures small { result < 2305843009213693952 }
    {
        let mut total = 0;
        for lane in self.lanes.iter() {
            total += lane.count();
        }
        total
    }

    /// Appends the points, octant by octant.
    pub(crate) fn append_to(&self, out: &mut Vec<Point>) -> Result<(), Memory>
        ensures { OnOk result (out.new.items ≡ out.old.items ++ all_points self.now) }
    {
        for lane in self.lanes.iter() {
            out.extend_from_slice(lane.as_slice())?;
        }
        Ok(())
    }

    /// Appends the points with their ids, octant by octant.
    pub(crate) fn append_ids<'a>(
        &'a self,
        out: &mut Vec<(PointId, &'a Point)>,
    ) -> Result<(), Memory>
        ensures { OnOk result (map (λ e. e.1.now) out.new.items ≡ map (λ e. e.1.now) out.old.items ++ all_points self.now) }
    {
        for lane in self.lanes.iter() {
            lane.append_ids(out)?;
        }
        Ok(())
    }

    /// Puts the points of an octant in id order. It takes no memory.
    pub(crate) fn sort(&mut self, octant: u8)
        requires one_of_eight { octant < 8 }
        ensures moved { IsPermutation (points_at self.old octant) (points_at self.new octant) }
        ensures sorted { HasDistinctIds (points_at self.old octant) →
            points_at self.new octant ≡ in_id_order (points_at self.old octant) }
        ensures len { length (points_at self.new octant) ≡ length (points_at self.old octant) }
        ensures room { (leaving_at self.new octant).room ≡ (leaving_at self.old octant).room }
        ensures others { (o : ℕ) → o ≢ octant → leaving_at self.new o ≡ leaving_at self.old o }
        ensures eight { length self.new ≡ length self.old }
    {
        self.lanes[octant as usize].sort();
    }

    /// Moves the points of an octant to the list of that octant in `out`, which has room for them, and frees their
    /// memory. It takes no memory.
    pub(crate) fn give(&mut self, octant: u8, out: &mut Outgoing)
        requires one_of_eight { octant < 8 }
        requires room { length (points_at self.old octant) ≤ (leaving_at out.old octant).room }
        ensures none { points_at self.new octant ≡ [] }
        ensures others { (o : ℕ) → o ≢ octant → leaving_at self.new o ≡ leaving_at self.old o }
        ensures eight { length self.new ≡ length self.old }
        ensures added { points_at out.new octant ≡ points_at out.old octant ++ points_at self.old octant }
        ensures left { (leaving_at out.old octant).room
            ≤ (leaving_at out.new octant).room + length (points_at self.old octant) }
        ensures out_others { (o : ℕ) → o ≢ octant → leaving_at out.new o ≡ leaving_at out.old o }
        ensures out_eight { length out.new ≡ length out.old }
    {
        self.lanes[octant as usize].give(&mut out.lanes[octant as usize]);
    }

    /// Makes room in the list of an octant for `more` points. The points stay, whatever the result.
    pub(crate) fn reserve(&mut self, octant: u8, more: usize) -> Result<(), Memory>
        requires one_of_eight { octant < 8 }
        ensures points { points_at self.new octant ≡ points_at self.old octant }
        ensures others { (o : ℕ) → o ≢ octant → leaving_at self.new o ≡ leaving_at self.old o }
        ensures eight { length self.new ≡ length self.old }
        ensures room { OnOk result (more ≤ (leaving_at self.new octant).room) }
    {
        self.lanes[octant as usize].reserve(more)
    }

    /// Takes the points that leave for an octant, with their place in memory. It takes no memory.
    pub fn take(&mut self, alloc: Global, octant: u8) -> Vec<Point>
        requires { octant < 8 }
        ensures taken { result.items ≡ points_at self.old octant }
        ensures none { points_at self.new octant ≡ [] }
        ensures others { (o : ℕ) → o ≢ octant → points_at self.new o ≡ points_at self.old o }
    {
        self.lanes[octant as usize].take(alloc)
    }

    /// Removes the points. The room stays, and this takes no memory.
    pub fn clear(&mut self)
        ensures points { (o : ℕ) → points_at self.new o ≡ [] }
        ensures all { all_points self.new ≡ [] }
        ensures room { (node : Node) (points : List at.Point) →
            HasRoomFor node self.old points → HasRoomFor node self.new points }
    {
        for lane in self.lanes.iter_mut() {
            lane.clear();
        }
    }
}
