//! Nodes whose parents are no nodes.

ghost use Rattle.std.specs.Prelude.{◌≡◌, ◌<◌, ◌↔◌, IsTrue, IfSome, IfNone, true};
ghost use Rattle.std.specs.BTreeSet.{contains};
ghost use Rattle.ept_space.specs.VoxelKey.{VoxelKey, AreAscending, key_cmp, parent};
ghost use Rattle.ept_hier.specs.Hierarchy.{keys_of};
ghost use Rattle.ept_fit.specs.Fit.{is_among};
ghost use Rattle.ept_check.specs.Folder.{IsFirstOrphan, HaveParents};

use crate::keys::parent;
use ept_space::Key;
use std::collections::BTreeSet;

/// The key of the first node, in key order, whose parent is no node; `keys` are those of the nodes.
pub(crate) fn first_orphan(keys: &BTreeSet<Key>, nodes: &[(Key, u64)]) -> Option<Key>
    requires keys { (key : VoxelKey) → contains key_cmp keys.now key ≡ is_among (keys_of nodes.now) key }
    requires ascend { AreAscending (keys_of nodes.now) }
    ensures found { IfSome result (IsFirstOrphan nodes.now) }
    ensures none { IfNone result (HaveParents nodes.now) }
{
    for node in nodes {
        if !has_parent(keys, &node.0) {
            return Some(node.0);
        }
    }
    None
}

// Whether a key is that of the root, or its parent is one of the keys.
fn has_parent(keys: &BTreeSet<Key>, key: &Key) -> bool
    ensures { IsTrue result ↔ (0 < key.now.depth → contains key_cmp keys.now (parent key.now) ≡ true) }
{
    key.depth == 0 || keys.contains(&parent(key))
}
