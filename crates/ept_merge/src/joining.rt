//! The nodes of all parts, in key order.

ghost use Rattle.std.specs.Prelude.{◌≡◌, ◌≢◌, ◌⊎◌, ◌++◌, ◌↔◌, [], None, Some, Ok, IfOk, IfErr, IfSome, OnOk, IsTrue, sum_by};
ghost use Rattle.ept_space.specs.VoxelKey.{AreAscending};
ghost use Rattle.ept_ckpt.specs.declared.checkpoint.Checkpoint as c;
ghost use Rattle.ept_merge.specs.Joining.{bodies_in, below_root, all_below, keys_of, AreInOrder, AreDistinctKeys};
ghost use Rattle.ept_merge.specs.Putting.{FitTogether, IsMisfit, IsLastPart};

use crate::bodies::PartBody;
use crate::error::MergeError;
use ept_ckpt::NodeLine;
use ept_point::Memory;
use std::alloc::Global;

/// A node of a part.
#[derive(Clone, Copy)]
pub(crate) struct PartNode {
    pub(crate) octants: u8,
    pub(crate) line: NodeLine,
}

/// The nodes of the parts below the root, in key order.
///
/// # Errors
///
/// `PartDamaged` for the last part if a key is in two parts, or if they do not have this number of points together.
pub(crate) fn together(
    alloc: Global,
    parts: &[PartBody],
    points: u64,
) -> Result<Vec<PartNode>, MergeError>
    requires { parts.now ≢ [] }
    ensures fit { IfOk result (λ nodes. FitTogether parts.now nodes.items points) }
    ensures refused { IfErr result (λ e. (e ≡ MergeError.Memory) ⊎ IsMisfit parts.now points e) }
{
    let misfit = MergeError::PartDamaged {
        octants: last_of(parts),
        key: None,
    };
    match nodes_in_order(alloc, parts) {
        Ok(Some(nodes)) => {
            if have_points(parts, points) {
                Ok(nodes)
            } else {
                Err(misfit)
            }
        }
        Ok(None) => Err(misfit),
        Err(_) => Err(MergeError::Memory),
    }
}

// The octants of the last part.
fn last_of(parts: &[PartBody]) -> u8
    requires { parts.now ≢ [] }
    ensures { IsLastPart parts.now result }
{
    parts[parts.len() - 1].octants
}

// The nodes of all parts below the root, in key order; `None` if a key is in two parts.
fn nodes_in_order(alloc: Global, parts: &[PartBody]) -> Result<Option<Vec<PartNode>>, Memory>
    ensures order { IfOk result (λ found. IfSome found (λ nodes. AreInOrder parts.now nodes.items)) }
    ensures twice { result ≡ Ok None → ¬ AreDistinctKeys (keys_of (all_below parts.now)) }
{
    let mut nodes = nodes_below(alloc, parts)?;
    nodes.sort_unstable_by_key(|node| node.line.key);
    if keys_ascend(&nodes) {
        Ok(Some(nodes))
    } else {
        Ok(None)
    }
}

// The nodes of all parts below the root, part after part.
fn nodes_below(alloc: Global, parts: &[PartBody]) -> Result<Vec<PartNode>, Memory>
    ensures { IfOk result (λ nodes. nodes.items ≡ all_below parts.now) }
{
    let mut nodes = Vec::new(alloc);
    for part in parts {
        append_below(part, &mut nodes)?;
    }
    Ok(nodes)
}

// Appends the nodes of a part below its root.
fn append_below(part: &PartBody, nodes: &mut Vec<PartNode>) -> Result<(), Memory>
    ensures { OnOk result (nodes.new.items ≡ nodes.old.items ++ below_root part.now) }
{
    let lines = part.body.nodes.as_slice();
    let below = &lines[1..];
    for line in below {
        nodes.push(PartNode {
            octants: part.octants,
            line: *line,
        })?;
    }
    Ok(())
}

// Whether the keys ascend.
fn keys_ascend(nodes: &[PartNode]) -> bool
    ensures { IsTrue result ↔ AreAscending (keys_of nodes.now) }
{
    nodes.is_sorted_by(|a, b| a.line.key < b.line.key)
}

// Whether the parts have this number of points together.
fn have_points(parts: &[PartBody], points: u64) -> bool
    ensures { IsTrue result ↔ (sum_by (λ (body : c.Checkpoint). body.inserted) (bodies_in parts.now) ≡ points) }
{
    let mut left = points;
    for part in parts {
        if part.body.inserted > left {
            return false;
        }
        left -= part.body.inserted;
    }
    left == 0
}
