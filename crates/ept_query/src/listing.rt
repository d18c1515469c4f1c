//! All nodes of a folder, as its hierarchy files state them.

ghost use Rattle.std.specs.Prelude.{◌≤◌, List, All, IfOk, IfErr};
ghost use Rattle.ept_base.specs.Causes.{HasCauseOf};
ghost use Rattle.ept_base.specs.Files.{SameFiles, Tells};
ghost use Rattle.ept_base.specs.Moves.{Moves};
ghost use Rattle.ept_space.specs.VoxelKey.{AreAscending};
ghost use Rattle.ept_hier.specs.Hierarchy.{Node, keys_of};
ghost use Rattle.ept_query.specs.Listed.{HasNodes};
ghost use Rattle.ept_query.specs.Planning.{GetsFiles};
ghost use Rattle.ept_query.specs.Refusals.{RefusesPlan, CallsOfPlan, RefusesAsCalled};

use crate::query_error::QueryError;
use crate::start::search_at;
use crate::walk::tiles_of;
use ept_base::Store;
use ept_space::{Box3, Key, Rules};
use std::alloc::Global;

/// All places whose numbers are of 64 bits: the box of each key has places there.
pub const EVERYWHERE: Box3 = Box3 {
    min: [i64::MIN, i64::MIN, i64::MIN],
    max: [i64::MAX, i64::MAX, i64::MAX],
};

/// All nodes of a folder.
#[derive(Debug, Drop)]
pub struct AllNodes {
    /// The rules of the sampling, as the build file states them.
    pub rules: Rules,
    /// The keys of the nodes, in key order, each with the count of its hierarchy file.
    pub nodes: Vec<(Key, u64)>,
}

/// All nodes of a folder, as the build file and the hierarchy files state them. There are at most two calls of `get`
/// and one for each hierarchy file.
///
/// # Errors
///
/// `NotComplete` if the done gate is not open. Otherwise `Damaged` with the first file that is missing or malformed:
/// the build file, then the hierarchy files in key order.
pub fn all_nodes<T: Store>(alloc: Global, store: &mut T) -> Result<AllNodes, QueryError>
    ensures nodes { IfOk result (λ all. Tells (HasNodes all.rules all.nodes.items) (T.files store.old)) }
    ensures shallow { IfOk result (λ all. All (λ (n : Node). n.0.depth ≤ all.rules.cube.depth) all.nodes.items) }
    ensures threshold { IfOk result (λ all. all.rules.threshold ≤ 2147483648) }
    ensures ascend { IfOk result (λ all. AreAscending (keys_of all.nodes.items)) }
    ensures refused { IfErr result (RefusesPlan EVERYWHERE 0 32 (T.files store.old)) }
    ensures comes { RefusesAsCalled (CallsOfPlan EVERYWHERE 0 32) (T.files store.old) result }
    ensures gets { Tells (GetsFiles EVERYWHERE 0 32 (T.gets store.old) (T.gets store.new)) (T.files store.old) }
    ensures any_moment { Moves T.files T.may_leave T.moment T.image_since SameFiles store.old store.new }
    ensures cause { HasCauseOf QueryError.StoreFault (T.faults store.old) (T.faults store.new) result }
{
    nodes_of(alloc, store)
}

// The nodes, from the build file and the hierarchy files.
fn nodes_of<T: Store>(alloc: Global, store: &mut T) -> Result<AllNodes, QueryError>
    ensures nodes { IfOk result (λ all. Tells (HasNodes all.rules all.nodes.items) (T.files store.old)) }
    ensures shallow { IfOk result (λ all. All (λ (n : Node). n.0.depth ≤ all.rules.cube.depth) all.nodes.items) }
    ensures threshold { IfOk result (λ all. all.rules.threshold ≤ 2147483648) }
    ensures ascend { IfOk result (λ all. AreAscending (keys_of all.nodes.items)) }
    ensures refused { IfErr result (RefusesPlan EVERYWHERE 0 32 (T.files store.old)) }
    ensures gets { Tells (GetsFiles EVERYWHERE 0 32 (T.gets store.old) (T.gets store.new)) (T.files store.old) }
    ensures any_moment { Moves T.files T.may_leave T.moment T.image_since SameFiles store.old store.new }
    ensures cause { HasCauseOf QueryError.StoreFault (T.faults store.old) (T.faults store.new) result }
{
    let search = search_at(alloc, store, &EVERYWHERE, (0, 32))?;
    let nodes = tiles_of(alloc, store, &search)?;
    Ok(AllNodes {
        rules: search.rules(),
        nodes,
    })
}
