//! The plan of a query: which tiles it reads.

ghost use Rattle.std.specs.Prelude.{◌≡◌, ◌<◌, ◌↔◌, [], Some, length, slice_get, IsTrue};
ghost use Rattle.ept_hier.specs.Hierarchy.{keys_of};
ghost use Rattle.ept_query.specs.Parts.{node_at};

use ept_space::{Box3, Key};
use std::marker::Model;

/// The tiles that a query reads, in key order, each with the count of its hierarchy file; and the area that is asked
/// for.
#[derive(Debug, Drop)]
pub struct QueryPlan {
    pub(crate) area: Box3,
    pub(crate) tiles: Vec<(Key, u64)>,
}

impl Model for QueryPlan {
    ghost use Rattle.ept_query.specs.Parts.{Plan};

    ghost Value = { Plan };

    ghost view = { λ plan. record { area = plan.area; tiles = plan.tiles.items } };
}

impl QueryPlan {
    /// The number of tiles.
    pub fn len(&self) -> usize
        ensures { result ≡ length self.now.tiles }
    {
        self.tiles.len()
    }

    /// Whether there is no tile.
    pub fn is_empty(&self) -> bool
        ensures { IsTrue result ↔ (self.now.tiles ≡ []) }
    {
        self.tiles.is_empty()
    }

    /// The key of the tile of this number, from 0 and in key order.
    pub fn key(&self, number: usize) -> Key
        requires { number < length self.now.tiles }
        ensures { slice_get (keys_of self.now.tiles) number ≡ Some result }
    {
        self.tiles[number].0
    }

    /// The key and the count of the tile of this number.
    pub(crate) fn node(&self, number: usize) -> (Key, u64)
        requires { number < length self.now.tiles }
        ensures { result ≡ node_at self.now number }
    {
        let (key, count) = self.tiles[number];
        (key, count)
    }
}
