//! The walk over the nodes of a folder, in preorder.

ghost use Rattle.std.specs.Prelude.{◌≡◌, ◌+◌, ◌≤◌, length, IsPermutation};
ghost use Rattle.ept_base.specs.Causes.{HasCauseOf};
ghost use Rattle.ept_base.specs.Files.{SameFiles};
ghost use Rattle.ept_base.specs.Moves.{Moves};
ghost use Rattle.ept_space.specs.VoxelKey.{AreAscending};
ghost use Rattle.ept_hier.specs.Hierarchy.{keys_of};
ghost use Rattle.ept_check.specs.Folder.{HaveParents};
ghost use Rattle.ept_check.specs.Walking.{IsOctree, AreInPreorder};
ghost use Rattle.ept_check.specs.Verdicts.{AnswersWalk};

use crate::check_error::CheckError;
use crate::octree::Octree;
use crate::seen::Seen;
use crate::verdict::Verdict;
use ept_base::Store;
use ept_query::{complete_law, tile_points};
use ept_space::Key;
use std::alloc::Global;

/// What the folder with these nodes, in preorder, is found to be. Reads each tile once, up to the first node with which
/// anything is wrong.
pub(crate) fn walk<T: Store>(
    alloc: Global,
    store: &mut T,
    octree: &Octree,
    order: &[(Key, u64)],
) -> Result<Verdict, CheckError>
    requires sound { IsOctree octree.now }
    requires ascend { AreAscending (keys_of octree.now.nodes.items) }
    requires parents { HaveParents octree.now.nodes.items }
    requires each { IsPermutation octree.now.nodes.items order.now }
    requires order { AreInPreorder order.now }
    ensures answers { AnswersWalk octree.now.rules octree.now.nodes.items (T.files store.old) result }
    ensures gets { T.gets store.new ≤ T.gets store.old + length order.now }
    ensures any_moment { Moves T.files T.may_leave T.moment T.image_since SameFiles store.old store.new }
    ensures cause { HasCauseOf CheckError.StoreFault (T.faults store.old) (T.faults store.new) result }
{
    complete_law();
    let mut seen = Seen::new(alloc);
    let mut total: u64 = 0;
    for node in order {
        let points = tile_points(alloc, store, &node.0, node.1)?;
        let found = seen.look(alloc, octree, &node.0, &points)?;
        match found {
            Some(why) => return Ok(Verdict::Unfit { key: node.0, why }),
            None => {}
        }
        let Some(sum) = total.checked_add(node.1) else {
            return Err(CheckError::Memory);
        };
        total = sum;
    }
    Ok(Verdict::Fit {
        points: total,
        nodes: octree.nodes.len() as u64,
    })
}
