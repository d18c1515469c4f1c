//! The nodes of a tree as the lines of a checkpoint.

ghost use Rattle.std.specs.Prelude.{◌≡◌, ◌≤◌, ◌<◌, ◌^◌, IfOk, OnOk, map};
ghost use Rattle.ept_space.specs.VoxelKey.{IsKey};
ghost use Rattle.ept_octree_ckpt.specs.Saving.{AreKnown};
ghost use Rattle.ept_tree.specs.Grown.{nodes_of};
ghost use Rattle.ept_part.specs.Filling.{line_for};

use ept_ckpt::{Letter, NodeLine};
use ept_grid::Grid;
use ept_point::Memory;
use ept_space::Key;
use ept_tree::Tree;
use std::alloc::Global;

/// The line of each node, in key order.
pub(crate) fn lines_of(alloc: Global, tree: &Tree) -> Result<Vec<NodeLine>, Memory>
    ensures lines { IfOk result (λ lines. lines.items ≡ map line_for (nodes_of tree.now)) }
    ensures known { OnOk result (AreKnown (nodes_of tree.now)) }
{
    let nodes = tree.nodes();
    let mut lines = Vec::with_capacity(alloc, nodes.len())?;
    for (key, node) in nodes.iter() {
        lines.push(line_of(key, node))?;
    }
    Ok(lines)
}

// The line of a node.
fn line_of(key: &Key, node: &Grid) -> NodeLine
    ensures line { result ≡ line_for (key.now, node.now) }
    ensures is_key { IsKey key.now }
    ensures shallow { node.now.key.depth ≤ node.now.rules.cube.depth }
    ensures byte { node.now.mask < 2 ^ 8 }
{
    key.known();
    node.known();
    NodeLine {
        key: *key,
        count: node.count(),
        mask: node.open_mask(),
        letter: Letter::A,
    }
}
