//! Whether a folder is the sampling of its own points.

ghost use Rattle.std.specs.Prelude.{◌≡◌, ◌≤◌, ◌+◌, List, length, All, Some, Ok};
ghost use Rattle.ept_base.specs.Causes.{HasCauseOf};
ghost use Rattle.ept_base.specs.Files.{Files, SameFiles, Tells};
ghost use Rattle.ept_base.specs.Moves.{Moves};
ghost use Rattle.ept_point.specs.declared.point.Point.{Point};
ghost use Rattle.ept_space.specs.VoxelKey.{AreAscending};
ghost use Rattle.ept_sample.specs.Nodes.{node_keys};
ghost use Rattle.ept_config.specs.declared.kept.Kept.{Kept};
ghost use Rattle.ept_hier.specs.Hierarchy.{Node, keys_of};
ghost use Rattle.ept_meta.specs.Output.{rules_of};
ghost use Rattle.ept_save.specs.Complete.{IsComplete};
ghost use Rattle.ept_query.specs.Planning.{GetsAll};
ghost use Rattle.ept_check.specs.declared.verdict.Verdict.TheVariants.{Fit};
ghost use Rattle.ept_check.specs.Answers.{IsCalledFor, ComesAsCalled, ComesOrFails};
ghost use Rattle.ept_check.specs.Verdicts.{AnswersFolder, AnswersNodes};

use crate::check_error::CheckError;
use crate::fault::Fault;
use crate::keys::key_set;
use crate::octree::Octree;
use crate::orphans::first_orphan;
use crate::preorder::preorder;
use crate::totals::totals_of;
use crate::verdict::Verdict;
use crate::walk::walk;
use ept_base::Store;
use ept_fit::fit_law;
use ept_meta::output_once_law;
use ept_query::{AllNodes, EVERYWHERE, all_nodes, complete_law, nodes_law};
use ept_sample::point_law;
use std::alloc::Global;

/// Whether a finished folder is the sampling of its own points. Reads the build file and the hierarchy, then each tile
/// once, in preorder: a node before its children, and children by octant.
///
/// `Fit` means that the keys and counts of the hierarchy and the tiles are the sampling of the points in the tiles. It
/// does not say whose points they are, nor anything of `ept.json` and the manifest. That they are the points of the
/// flights is what a build promises. `Unfit` has the first node with which anything is wrong. `Orphan` is tried for all
/// keys, in key order, before any tile.
///
/// # Errors
///
/// `NotComplete` if the done gate is not open. Otherwise `Damaged` with the first file that is missing or malformed, in
/// the order of reading. `Damaged` is not returned if a node before it is unfit.
pub fn check<T: Store>(alloc: Global, store: &mut T) -> Result<Verdict, CheckError>
    ensures answers { IsCalledFor (T.files store.old) result }
    ensures comes { ComesAsCalled (T.files store.old) result }
    ensures complete { (kept : Kept) (points : List Point) (all : Files) → T.files store.old ≡ Some all → IsComplete kept points all
        → ComesOrFails (Ok (Fit (length points) (length (node_keys (rules_of kept) points)))) result }
    ensures gets { Tells (GetsAll EVERYWHERE 0 32 (T.gets store.old) (T.gets store.new)) (T.files store.old) }
    ensures any_moment { Moves T.files T.may_leave T.moment T.image_since SameFiles store.old store.new }
    ensures cause { HasCauseOf CheckError.StoreFault (T.faults store.old) (T.faults store.new) result }
{
    complete_law();
    nodes_law();
    fit_law();
    output_once_law();
    point_law();
    judge(alloc, store)
}

// What the files call for, without the laws.
fn judge<T: Store>(alloc: Global, store: &mut T) -> Result<Verdict, CheckError>
    ensures answers { AnswersFolder (T.files store.old) result }
    ensures gets { Tells (GetsAll EVERYWHERE 0 32 (T.gets store.old) (T.gets store.new)) (T.files store.old) }
    ensures any_moment { Moves T.files T.may_leave T.moment T.image_since SameFiles store.old store.new }
    ensures cause { HasCauseOf CheckError.StoreFault (T.faults store.old) (T.faults store.new) result }
{
    nodes_law();
    let all = all_nodes(alloc, store)?;
    judge_nodes(alloc, store, all)
}

// The verdict on the nodes of a folder: the first node without a parent; if there is none, what the walk finds.
fn judge_nodes<T: Store>(alloc: Global, store: &mut T, all: AllNodes) -> Result<Verdict, CheckError>
    requires shallow { All (λ (n : Node). n.0.depth ≤ all.rules.cube.depth) all.nodes.items }
    requires threshold { all.rules.threshold ≤ 2147483648 }
    requires ascend { AreAscending (keys_of all.nodes.items) }
    ensures answers { AnswersNodes all.rules all.nodes.items (T.files store.old) result }
    ensures gets { T.gets store.new ≤ T.gets store.old + length all.nodes.items }
    ensures any_moment { Moves T.files T.may_leave T.moment T.image_since SameFiles store.old store.new }
    ensures cause { HasCauseOf CheckError.StoreFault (T.faults store.old) (T.faults store.new) result }
{
    let AllNodes { rules, nodes } = all;
    rules.cube.known();
    let keys = key_set(alloc, &nodes)?;
    if let Some(key) = first_orphan(&keys, &nodes) {
        let why = Fault::Orphan;
        return Ok(Verdict::Unfit { key, why });
    }
    let totals = totals_of(alloc, &nodes)?;
    let order = preorder(alloc, &nodes)?;
    let octree = Octree {
        rules,
        nodes,
        keys,
        totals,
    };
    walk(alloc, store, &octree, &order)
}
