//! Whether nodes are a whole octree.

ghost use Rattle.std.specs.Prelude.{◌≡◌, ◌<◌, ◌↔◌, IsTrue, All, AllPairs};
ghost use Rattle.std.specs.declared.cmp.Ordering.TheVariants.{Less};
ghost use Rattle.ept_space.specs.VoxelKey.{IsKey, key_cmp, parent, child};
ghost use Rattle.ept_ckpt.specs.Octree.{keys_of, is_among, HasParent, TellsChildren, AreWholeOctree, points_in, AreNodesOf};

use crate::bits::has_bit;
use crate::node_line::NodeLine;
use ept_space::{Key, child};

/// Whether the nodes are a whole octree of `points` points. Their keys ascend, the root is one of them, and each other
/// node has its parent. The masks mark exactly the children. The nodes have `points` points together.
pub(crate) fn are_nodes_of(points: u64, nodes: &[NodeLine]) -> bool
    ensures { IsTrue result ↔ AreNodesOf points nodes.now }
{
    is_octree(nodes) && has_points(points, nodes)
}

/// Whether the nodes are a whole octree.
fn is_octree(nodes: &[NodeLine]) -> bool
    ensures { IsTrue result ↔ AreWholeOctree nodes.now }
{
    keys_ascend(nodes) && has_key(nodes, &Key::ROOT) && have_parents(nodes) && tell_children(nodes)
}

/// Whether the keys of the nodes ascend.
fn keys_ascend(nodes: &[NodeLine]) -> bool
    ensures { IsTrue result ↔ AllPairs (λ a b. key_cmp a b ≡ Less) (keys_of nodes.now) }
{
    nodes.is_sorted_by(|a, b| a.key < b.key)
}

/// Whether one of the nodes has this key. The keys of the nodes ascend.
fn has_key(nodes: &[NodeLine], key: &Key) -> bool
    requires { AllPairs (λ a b. key_cmp a b ≡ Less) (keys_of nodes.now) }
    ensures { result ≡ is_among (keys_of nodes.now) key.now }
{
    nodes.binary_search_by_key(key, |line| line.key).is_ok()
}

/// Whether each node except the root has its parent.
fn have_parents(nodes: &[NodeLine]) -> bool
    requires { AllPairs (λ a b. key_cmp a b ≡ Less) (keys_of nodes.now) }
    ensures parents { IsTrue result ↔ All (HasParent (keys_of nodes.now)) (keys_of nodes.now) }
    ensures known { IsTrue result → All IsKey (keys_of nodes.now) }
{
    for line in nodes {
        line.key.known();
        if line.key.depth > 0 && !has_key(nodes, &parent(&line.key)) {
            return false;
        }
    }
    true
}

/// The key one depth above a key.
fn parent(key: &Key) -> Key
    requires { 0 < key.now.depth }
    ensures { result ≡ parent key.now }
{
    Key {
        depth: key.depth - 1,
        x: key.x / 2,
        y: key.y / 2,
        z: key.z / 2,
    }
}

/// Whether the mask of each node marks exactly the children that it has.
fn tell_children(nodes: &[NodeLine]) -> bool
    requires ascend { AllPairs (λ a b. key_cmp a b ≡ Less) (keys_of nodes.now) }
    requires known { All IsKey (keys_of nodes.now) }
    ensures { IsTrue result ↔ All (TellsChildren (keys_of nodes.now)) nodes.now }
{
    for line in nodes {
        if !tells_children(nodes, line) {
            return false;
        }
    }
    true
}

/// Whether the mask of a node marks exactly the children that it has among the nodes.
fn tells_children(nodes: &[NodeLine], line: &NodeLine) -> bool
    requires ascend { AllPairs (λ a b. key_cmp a b ≡ Less) (keys_of nodes.now) }
    requires known { All IsKey (keys_of nodes.now) }
    ensures { IsTrue result ↔ TellsChildren (keys_of nodes.now) line.now }
{
    for octant in 0..8 {
        if has_bit(line.mask, octant) != has_child(nodes, &line.key, octant) {
            return false;
        }
    }
    true
}

/// Whether the child of a key at an octant is one of the nodes. A key of the greatest depth has no child.
fn has_child(nodes: &[NodeLine], key: &Key, octant: u8) -> bool
    requires ascend { AllPairs (λ a b. key_cmp a b ≡ Less) (keys_of nodes.now) }
    requires known { All IsKey (keys_of nodes.now) }
    requires one_of_eight { octant < 8 }
    ensures { result ≡ is_among (keys_of nodes.now) (child key.now octant) }
{
    key.depth < Key::MAX_DEPTH && has_key(nodes, &child(key, octant))
}

/// Whether the nodes have this number of points together.
fn has_points(points: u64, nodes: &[NodeLine]) -> bool
    ensures { IsTrue result ↔ points_in nodes.now ≡ points }
{
    let mut left = points;
    for line in nodes {
        if line.count > left {
            return false;
        }
        left -= line.count;
    }
    left == 0
}
