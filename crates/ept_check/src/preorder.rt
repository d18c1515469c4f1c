//! The nodes in preorder.

ghost use Rattle.std.specs.Prelude.{◌≡◌, ◌≤◌, IfOk, All, IsPermutation};
ghost use Rattle.ept_space.specs.VoxelKey.{IsKey, AreAscending};
ghost use Rattle.ept_hier.specs.Hierarchy.{keys_of};
ghost use Rattle.ept_fit.specs.Walk.{path};
ghost use Rattle.ept_check.specs.Walking.{AreInPreorder, padded};

use crate::keys::{octant_of, parent};
use ept_point::Memory;
use ept_space::Key;
use std::alloc::Global;

/// The nodes in preorder: a node before its children, and children by octant.
pub(crate) fn preorder(alloc: Global, nodes: &[(Key, u64)]) -> Result<Vec<(Key, u64)>, Memory>
    requires ascend { AreAscending (keys_of nodes.now) }
    requires are_keys { All IsKey (keys_of nodes.now) }
    ensures each { IfOk result (λ order. IsPermutation nodes.now order.items) }
    ensures order { IfOk result (λ order. AreInPreorder order.items) }
{
    let mut order = nodes.to_vec(alloc)?;
    order.sort_by_key(
        |node| -> [u8; 32]
            ensures { result ≡ padded 32 (path node.now.0) }
        { steps_to(&node.0) },
    )?;
    Ok(order)
}

// The octants on the way from the root down to a key, each counted from 1, and zeros up to the greatest depth. So the
// steps to a key come before those to a key below it.
fn steps_to(key: &Key) -> [u8; 32]
    ensures { result ≡ padded 32 (path key.now) }
{
    let mut steps = [0; 32];
    let mut at = *key;
    while at.depth > 0 {
        steps[usize::from(at.depth) - 1] = octant_of(&at) + 1;
        at = parent(&at);
    }
    steps
}
