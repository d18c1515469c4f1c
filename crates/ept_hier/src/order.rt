//! The order of nodes by their keys.

ghost use Rattle.std.specs.Prelude.{◌↔◌, IsTrue};
ghost use Rattle.ept_hier.specs.Hierarchy.{KeysAscend};

use ept_space::Key;

/// Whether the keys of the nodes ascend.
pub fn keys_ascend(nodes: &[(Key, u64)]) -> bool
    ensures ascend { IsTrue result ↔ KeysAscend nodes.now }
{
    nodes.is_sorted_by(|a, b| a.0 < b.0)
}
