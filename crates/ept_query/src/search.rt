//! What a query looks for.

ghost use Rattle.std.specs.Prelude.{◌≡◌, ◌≤◌, ◌↔◌, IsTrue};
ghost use Rattle.ept_query.specs.Search.{search_of, rules_in, MeetsArea, HasDepth};

use ept_class::ClassSet;
use ept_config::Kept;
use ept_space::{Box3, Cube, Key, Rules, meets, node_box};

/// What a query looks for: the points of an area, in the nodes from one depth to another of an octree. A hierarchy file
/// has `step` depths of it. The first four fields are the rules of the octree.
#[derive(Clone, Copy)]
pub(crate) struct Search {
    pub(crate) cube: Cube,
    pub(crate) threshold: u64,
    pub(crate) first_classes: ClassSet,
    pub(crate) withheld_last: bool,
    pub(crate) step: u8,
    pub(crate) area: Box3,
    pub(crate) first: u8,
    pub(crate) last: u8,
}

impl Search {
    /// The search for the points of these places and depths in a dataset.
    pub(crate) fn of(kept: &Kept, area: &Box3, depths: (u8, u8)) -> Search
        ensures { result ≡ search_of kept.now area.now depths.0 depths.1 }
    {
        Search {
            cube: Cube::over(&kept.bounds, kept.s, kept.max_depth),
            threshold: kept.threshold,
            first_classes: kept.first,
            withheld_last: kept.withheld_last,
            step: kept.step,
            area: *area,
            first: depths.0,
            last: depths.1,
        }
    }

    /// The rules of the octree.
    pub(crate) fn rules(&self) -> Rules
        ensures { result ≡ rules_in self.now }
    {
        Rules {
            cube: self.cube,
            threshold: self.threshold,
            first: self.first_classes,
            withheld_last: self.withheld_last,
        }
    }

    /// Whether the box of a key meets the area.
    pub(crate) fn meets(&self, key: &Key) -> bool
        requires { key.now.depth ≤ self.now.cube.depth }
        ensures { IsTrue result ↔ MeetsArea self.now key.now }
    {
        meets(&node_box(&self.cube, key), &self.area)
    }

    /// Whether the depth of a key is asked for.
    pub(crate) fn has_depth(&self, key: &Key) -> bool
        ensures { IsTrue result ↔ HasDepth self.now key.now }
    {
        self.first <= key.depth && key.depth <= self.last
    }
}
