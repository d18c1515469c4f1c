//! Keys of nodes.

ghost use Rattle.std.specs.Prelude.{◌≡◌, ◌<◌, ◌↔◌, IsTrue};
ghost use Rattle.ept_space.specs.VoxelKey.{IsKey, IsBefore, child};

use std::marker::Model;

/// The key of a node, `D-X-Y-Z` (Entwine Point Tile 1.1.0, "Keys"). It has the node's depth, and the index of its box
/// on each axis among the boxes of that depth.
///
/// The depth is at most 31 and each index is below 2^depth. Keys are ordered by depth, then x, y and z.
#[derive(Clone, Copy, Debug, PartialEq, Eq, PartialOrd, Ord, Hash)]
pub struct Key {
    pub depth: u8,
    pub x: u32,
    pub y: u32,
    pub z: u32,
}

impl Model for Key {
    ghost use Rattle.ept_space.specs.VoxelKey.{VoxelKey, IsKey};

    ghost Value = { VoxelKey };

    ghost view = { λ k. record { depth = k.depth; x = k.x; y = k.y; z = k.z } };

    ghost invariant = { λ k. IsKey (record { depth = k.depth; x = k.x; y = k.y; z = k.z }) };

    ghost inverse = { λ k. record { depth = k.depth; x = k.x; y = k.y; z = k.z } };
}

impl Key {
    /// The greatest depth that a key has.
    pub const MAX_DEPTH: u8 = 31;

    /// The key `0-0-0-0`, whose box is the whole cube.
    pub const ROOT: Key = Key {
        depth: 0,
        x: 0,
        y: 0,
        z: 0,
    };

    /// Whether the key comes before another in the order of keys: by depth, then x, y and z.
    pub fn is_before(&self, other: &Key) -> bool
        ensures before { IsTrue result ↔ IsBefore self.now other.now }
    {
        self < other
    }

    /// Exposes the type's invariant to the caller's proof. Does nothing at run time.
    pub fn known(&self)
        ensures { IsKey self.now }
    {
        let _depth = self.depth;
    }
}

/// The key of an octant of the key's box, one depth below it.
pub fn child(key: &Key, octant: u8) -> Key
    requires shallow { key.now.depth < 31 }
    requires one_of_eight { octant < 8 }
    ensures key { result ≡ child key.now octant }
{
    Key {
        depth: key.depth + 1,
        x: 2 * key.x + u32::from(octant & 1),
        y: 2 * key.y + u32::from(octant >> 1 & 1),
        z: 2 * key.z + u32::from(octant >> 2 & 1),
    }
}
