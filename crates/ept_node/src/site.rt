//! The place of a node in the octree, and what is known of a node whose points are in its spill file.

ghost use Rattle.std.specs.Prelude.{◌≡◌, ◌<◌, ◌≤◌, ◌*◌, ◌^◌};
ghost use Rattle.ept_point.specs.Dimensions.{packed_width};
ghost use Rattle.ept_node.specs.Told.{HasPlaces};

use ept_space::{Key, Rules};

/// The place of a node in the octree: its key, and the rules of its sampling.
#[derive(Debug, Drop)]
pub(crate) struct Site {
    pub(crate) key: Key,
    pub(crate) rules: Rules,
    ghost low: { key.depth ≤ rules.cube.depth },
}

/// What is known of a node whose points are in its spill file: its place, how many points it has, and its open octants.
#[derive(Debug, Drop)]
pub(crate) struct Filed {
    pub(crate) site: Site,
    pub(crate) count: u64,
    pub(crate) mask: u8,
    ghost deepest: { site.key.depth ≡ site.rules.cube.depth → mask ≡ 0 },
    // Its tile fits in memory.
    ghost fits: { packed_width * count < 2 ^ 64 },
    ghost places: { 0 < count → HasPlaces site.rules.cube site.key },
}

impl Filed {
    ghost use Rattle.std.specs.Prelude.{ℕ, List, Option, length};
    ghost use Rattle.ept_point.specs.Order.{IsAscending};
    ghost use Rattle.ept_sample.specs.Place.{AllInBox};
    ghost use Rattle.ept_sample.specs.Ids.{HasDistinctIds};
    ghost use Rattle.ept_grid.specs.Node.{IsInIdOrder};
    ghost use Rattle.ept_node.specs.Shown.{filed_node};

    /// Exposes what the node shows to the caller's proof, whatever its file holds. Does nothing at run time.
    pub(crate) fn known(&self)
        ensures low { self.now.site.key.depth ≤ self.now.site.rules.cube.depth }
        ensures inside { (told : Option (List ℕ)) → AllInBox self.now.site.rules.cube self.now.site.key (filed_node told self.now).points }
        ensures in_order { (told : Option (List ℕ)) → IsInIdOrder (filed_node told self.now).points }
        ensures ascend { (told : Option (List ℕ)) → HasDistinctIds (filed_node told self.now).points → IsAscending (filed_node told self.now).points }
        ensures deepest { self.now.site.key.depth ≡ self.now.site.rules.cube.depth → self.now.mask ≡ 0 }
        ensures count { (told : Option (List ℕ)) → length (filed_node told self.now).points ≡ self.now.count }
    {
        let _mask = self.mask;
    }
}
