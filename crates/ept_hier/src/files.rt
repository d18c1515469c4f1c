//! Hierarchy files from the nodes of an octree.

ghost use Rattle.std.specs.Prelude.{◌≡◌, ◌<◌, map, OnOk, IfOk};
ghost use Rattle.ept_hier.specs.Hierarchy.{has_file, hierarchy, KeysAscend};
ghost use Rattle.ept_hier.specs.OpenFiles.{file_depth, file_above, with_node, with_entry, closed};

use crate::file::HierFile;
use crate::open_text::OpenText;
use ept_point::Memory;
use ept_space::Key;
use std::alloc::Global;
use std::collections::BTreeMap;

/// Returns the hierarchy files of the nodes, in key order (Entwine Point Tile 1.1.0, "ept-hierarchy").
///
/// Each node is given by its key and the number of its points, and the keys ascend. With step 0 the root's file has all
/// nodes. With another step, each node whose depth is a multiple of it has a file. The file has the node and the nodes
/// below it that are at most `step` depths deeper. A node that is `step` depths deeper has -1 there in place of its
/// count, because it has a file of its own. If the nodes are an octree, so that the parent of each is there, each count
/// is in one file ([`hierarchy_law`](crate::hierarchy_law)).
///
/// Each node is looked up at most twice in an ordered map of the files so far, and written into at most two of them. So
/// the time grows with the number of nodes times the logarithm of the number of files.
pub fn hierarchy_files(
    alloc: Global,
    nodes: &[(Key, u64)],
    step: u8,
) -> Result<Vec<HierFile>, Memory>
    requires { KeysAscend nodes.now }
    ensures files { IfOk result (λ v. v.items ≡ hierarchy step nodes.now) }
{
    let mut files = BTreeMap::new(alloc);
    for (key, count) in nodes {
        add_node(alloc, &mut files, step, key, *count)?;
    }
    closed_files(alloc, files)
}

// Adds a node to the file above it, and begins its own file if it has one.
fn add_node(
    alloc: Global,
    files: &mut BTreeMap<Key, OpenText>,
    step: u8,
    key: &Key,
    count: u64,
) -> Result<(), Memory>
    ensures { OnOk result (files.new.entries ≡ with_node step (key.now, count) files.old.entries) }
{
    if key.depth > 0 {
        add_above(files, step, key, count)?;
    }
    if has_file(step, key) {
        files.insert(*key, OpenText::begin(alloc, key, count)?)?;
    }
    Ok(())
}

// Adds a node below the root to the file above it.
fn add_above(
    files: &mut BTreeMap<Key, OpenText>,
    step: u8,
    key: &Key,
    count: u64,
) -> Result<(), Memory>
    requires { 0 < key.now.depth }
    ensures { OnOk result (files.new.entries ≡ map (with_entry step (key.now, count)) files.old.entries) }
{
    let above = file_above(step, key);
    let number = if has_file(step, key) {
        None
    } else {
        Some(count)
    };
    match files.get_mut(&above) {
        Some(text) => text.add(key, number)?,
        None => {}
    }
    Ok(())
}

// Whether a node has a file of its own.
fn has_file(step: u8, key: &Key) -> bool
    ensures { result ≡ has_file step key.now }
{
    key.known();
    if step == 0 {
        key.depth == 0
    } else {
        key.depth % step == 0
    }
}

// The key of the file above a node below the root. This file has an entry of the node and is not the node's own.
fn file_above(step: u8, key: &Key) -> Key
    requires { 0 < key.now.depth }
    ensures { result ≡ file_above step key.now }
{
    key.known();
    let depth = file_depth(step, key.depth);
    let up = u32::from(key.depth - depth);
    Key {
        depth,
        x: key.x >> up,
        y: key.y >> up,
        z: key.z >> up,
    }
}

// The depth of the file above a node of this depth.
fn file_depth(step: u8, depth: u8) -> u8
    requires { 0 < depth }
    ensures value { result ≡ file_depth step depth }
    ensures above { result < depth }
{
    if step == 0 {
        return 0;
    }
    (depth - 1) / step * step
}

// The files, each with the brace that ends it.
fn closed_files(alloc: Global, begun: BTreeMap<Key, OpenText>) -> Result<Vec<HierFile>, Memory>
    ensures { IfOk result (λ v. v.items ≡ map closed begun.entries) }
{
    let mut files = Vec::new(alloc);
    for (key, text) in begun {
        files.push(HierFile {
            key,
            text: text.close()?,
        })?;
    }
    Ok(files)
}
