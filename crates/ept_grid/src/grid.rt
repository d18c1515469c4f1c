//! A node of the octree with its points.

ghost use Rattle.std.specs.Prelude.{◌≡◌, ◌≢◌, ◌<◌, ◌≤◌, ◌+◌, ◌∷◌, [], ◌++◌, ◌↔◌, ℕ, Bool, List, IsTrue, OnOk, OnErr, IfOk, IfErr, length, count_by, MatchOption, slice_index};
ghost use Rattle.ept_point.specs.declared.point.Point.{Point};
ghost use Rattle.std.specs.List.{All};
ghost use Rattle.ept_point.specs.Order.{IsAscending};
ghost use Rattle.ept_space.specs.OctreeCube.{InBox};
ghost use Rattle.ept_sample.specs.Place.{place, AllInBox};
ghost use Rattle.ept_sample.specs.Ids.{HasDistinctIds};
ghost use Rattle.ept_grid.specs.Outgoing.{points_at, all_points};
ghost use Rattle.ept_grid.specs.Tile.{IsTile, IsTileFault};
ghost use Rattle.ept_grid.specs.Winner.{IsCellOf, NoneIn, IsBestIn, column_cells};
ghost use Rattle.ept_grid.specs.Node.{IsNodeOf, IsInIdOrder, SendsOn, TakesIn, HasRoomFor};

use crate::by_id::{append_by_id, count};
use crate::error::GridError;
use crate::lists::Lists;
use crate::outgoing::Outgoing;
use crate::pool::Cell;
use crate::reserving::make_room;
use crate::seeking::winner_of;
use crate::steps::Steps;
use crate::taking::take_in;
use crate::tile::{is_inside, node_of_tile};
use ept_point::{Memory, Point};
use ept_space::{Key, Rules};
use std::alloc::Global;
use std::marker::Model;
use std::sync::ledger::Ledger;

/// A node of the octree: the points that it keeps, and which of its octants are open.
///
/// The best of its points in each cell wins, and the others lose. An octant opens once it has more losers than the
/// threshold. From then on its losers leave for the octant's child.
#[derive(Debug, Drop)]
pub struct Grid {
    key: Key,
    rules: Rules,
    // For each column of cells the number of its lowest cell plus one, or 0 if it has none.
    heads: Vec<u32>,
    // The cells that have a point.
    cells: Vec<Cell>,
    losers: Outgoing,
    mask: u8,
}

impl Model for Grid {
    ghost use Rattle.std.specs.Prelude.{map, vec_len, vec_capacity};
    ghost use Rattle.ept_sample.specs.Ids.{in_id_order};
    ghost use Rattle.ept_grid.specs.Node.{Node};
    ghost use Rattle.ept_grid.specs.Settling.{winners};
    ghost use Rattle.ept_grid.specs.Contents.{contents, cell_room, lane_of, IsNode};

    ghost Value = { Node };

    ghost view = { λ g. record {
      key = g.key;
      rules = g.rules;
      points = in_id_order (contents (winners g.cells.items) g.losers);
      mask = g.mask;
      room = record { cells = cell_room (vec_capacity g.cells) (vec_len g.cells); lanes = map lane_of g.losers };
    } };

    ghost invariant = { λ g. IsNode g.key g.rules g.heads.items g.cells.items (vec_capacity g.cells) g.losers g.mask };
}

impl Grid {
    /// The node of a key, without points. It takes no memory.
    pub fn new(alloc: Global, key: Key, rules: &Rules) -> Grid
        requires { key.depth ≤ rules.now.cube.depth }
        ensures key { result.key ≡ key }
        ensures rules { result.rules ≡ rules.now }
        ensures points { result.points ≡ [] }
        ensures mask { result.mask ≡ 0 }
    {
        let losers = Outgoing::new(alloc);
        losers.known();
        Grid {
            key,
            rules: *rules,
            heads: Vec::new(alloc),
            cells: Vec::new(alloc),
            losers,
            mask: 0,
        }
    }

    /// The node of a key with these points and open octants, or the first cause why they are no node. The ids ascend.
    /// It is made in these lists, whatever they had.
    pub fn from_tile(
        lists: Lists,
        key: Key,
        rules: &Rules,
        mask: u8,
        points: &[Point],
    ) -> Result<Grid, GridError>
        requires low { key.depth ≤ rules.now.cube.depth }
        requires ascend { IsAscending points.now }
        ensures node { IfOk result (λ grid. IsNodeOf key rules.now mask points.now grid) }
        ensures tile { OnOk result (IsTile key rules.now mask points.now) }
        ensures refused { IfErr result (λ e. e ≢ GridError.Memory → IsTileFault key rules.now mask points.now e) }
    {
        let node = node_of_tile(lists, &key, rules, mask, points)?;
        Ok(Grid {
            key,
            rules: *rules,
            heads: node.heads,
            cells: node.cells,
            losers: node.losers,
            mask,
        })
    }

    /// Takes in a point, and passes the points that leave to `out`. It takes no memory.
    pub fn arrive(&mut self, point: Point, out: &mut Outgoing)
        requires room { HasRoomFor self.old out.old (point ∷ []) }
        requires inside { InBox self.old.rules.cube self.old.key (place point) }

        // Whatever the ids, no point is lost, and each point that leaves lies in its octant, which is open.
        ensures key { self.new.key ≡ self.old.key }
        ensures rules { self.new.rules ≡ self.old.rules }
        ensures together { (test : Point → Bool) →
            count_by test self.new.points + count_by test (all_points out.new)
            ≡ count_by test (point ∷ self.old.points) + count_by test (all_points out.old) }
        ensures sends_on { (o : ℕ) → o < 8 →
            SendsOn self.old self.new o (points_at out.old o) (points_at out.new o) }
        ensures room { (later : List Point) →
            HasRoomFor self.old out.old (point ∷ later) → HasRoomFor self.new out.new later }

        // If the ids are all different, the node keeps and sends what the sampling says.
        ensures takes_in { HasDistinctIds (point ∷ self.old.points) →
            TakesIn self.old self.new point out.old out.new }
    {
        out.known();
        self.mask = take_in(
            &self.key,
            &self.rules,
            &mut self.heads,
            &mut self.cells,
            &mut self.losers,
            self.mask,
            point,
            out,
        );
    }

    /// The open octants: bit o is set if octant o is open.
    pub fn open_mask(&self) -> u8
        ensures mask { result ≡ self.now.mask }
    {
        self.mask
    }

    /// How many points the node has.
    pub fn count(&self) -> u64
        ensures { result ≡ length self.now.points }
    {
        count(self.cells.as_slice(), &self.losers) as u64
    }

    /// The key of the node.
    pub fn key(&self) -> Key
        ensures { result ≡ self.now.key }
    {
        self.key
    }

    /// The rules of the node's sampling.
    pub fn rules(&self) -> &Rules
        ensures { result.now ≡ self.now.rules }
    {
        &self.rules
    }

    /// Whether a point lies in the node's box.
    pub fn is_inside(&self, point: &Point) -> bool
        ensures { IsTrue result ↔ InBox self.now.rules.cube self.now.key (place point.now) }
    {
        is_inside(&self.key, &self.rules, point)
    }

    /// Makes room in the node and in what leaves it for these points to arrive. The points of each octant get room
    /// wherever they may be put. The points of both stay, whatever the result.
    pub fn reserve(&mut self, arrivals: &[Point], out: &mut Outgoing) -> Result<(), Memory>
        requires inside { AllInBox self.old.rules.cube self.old.key arrivals.now }
        ensures room { OnOk result (HasRoomFor self.new out.new arrivals.now) }
        ensures node { self.new ≡ record self.old { room = self.new.room } }
        ensures points { (o : ℕ) → points_at out.new o ≡ points_at out.old o }
        ensures all { all_points out.new ≡ all_points out.old }
    {
        out.known();
        make_room(
            &self.key,
            &self.rules,
            &mut self.heads,
            &mut self.cells,
            &mut self.losers,
            self.mask,
            arrivals,
            out,
        )
    }

    /// Appends the points of the node, in id order. After `Memory` the list is as it was.
    pub fn points_into(&self, out: &mut Vec<Point>) -> Result<(), Memory>
        ensures ok { OnOk result (out.new.items ≡ out.old.items ++ self.now.points) }
        ensures unchanged { OnErr result (out.new.items ≡ out.old.items) }
        ensures in_order { IsInIdOrder self.now.points }
        ensures ascend { HasDistinctIds self.now.points → IsAscending self.now.points }
    {
        append_by_id(self.cells.as_slice(), &self.losers, out)
    }

    /// The best of the node's points in a cell of its box. The cell is given by its index on each axis, counted from
    /// the cube's corner. A step is one cell with a point that is read. It takes no memory.
    pub fn winner<L: Ledger>(&self, cell: [u32; 3], steps: &mut Steps<L>) -> Option<Point>
        requires { IsCellOf self.now.rules self.now.key cell }
        ensures best { MatchOption result
            (NoneIn self.now.rules self.now.key.depth cell self.now.points)
            (IsBestIn self.now.rules self.now.key.depth cell self.now.points) }
        ensures cost { steps.new ≤ steps.old
            + column_cells self.now.rules self.now.key self.now.points (slice_index cell 0) (slice_index cell 1) }
    {
        winner_of(
            &self.key,
            &self.rules,
            self.heads.as_slice(),
            self.cells.as_slice(),
            cell,
            steps,
        )
    }

    /// Exposes what each node keeps to the caller's proof. Does nothing at run time.
    pub fn known(&self)
        ensures low { self.now.key.depth ≤ self.now.rules.cube.depth }
        ensures inside { All (λ q. InBox self.now.rules.cube self.now.key (place q)) self.now.points }
        ensures ascend { HasDistinctIds self.now.points → IsAscending self.now.points }
        ensures deepest { self.now.key.depth ≡ self.now.rules.cube.depth → self.now.mask ≡ 0 }
        ensures tile { HasDistinctIds self.now.points → IsTile self.now.key self.now.rules self.now.mask self.now.points }
    {
        let _mask = self.mask;
    }
}
