//! Making the plan of a query.

ghost use Rattle.std.specs.Prelude.{◌≡◌, List, Some, IfOk, IfErr};
ghost use Rattle.ept_base.specs.Causes.{HasCauseOf};
ghost use Rattle.ept_base.specs.Files.{Files, SameFiles, Tells};
ghost use Rattle.ept_base.specs.Moves.{Moves};
ghost use Rattle.ept_point.specs.declared.point.Point.{Point};
ghost use Rattle.ept_config.specs.declared.kept.Kept.{Kept};
ghost use Rattle.ept_query.specs.Causes.{IsStores};
ghost use Rattle.ept_save.specs.Complete.{IsComplete};
ghost use Rattle.ept_query.specs.Complete.{IsWholePlan};
ghost use Rattle.ept_query.specs.Planning.{IsPlanFor, GetsFiles};
ghost use Rattle.ept_query.specs.Refusals.{RefusesPlan, CallsOfPlan, RefusesAsCalled};

use crate::plan::QueryPlan;
use crate::query_error::QueryError;
use crate::start::search_at;
use crate::walk::tiles_of;
use ept_base::Store;
use ept_hier::reading_law;
use ept_meta::output_once_law;
use ept_space::Box3;
use std::alloc::Global;

/// The plan of the query for the points of an area, in the nodes from the first of `depths` to the second.
///
/// Hierarchy files are read from the root's on, and each link whose box meets the area is followed. So there are at
/// most two calls of `get` and one for each hierarchy file whose box meets the area.
///
/// # Errors
///
/// `NotComplete` if the done gate is not open. Otherwise `Damaged` with the first file that is missing or malformed:
/// the build file, then the hierarchy files in key order.
pub fn query_plan<T: Store>(
    alloc: Global,
    store: &mut T,
    area: &Box3,
    depths: (u8, u8),
) -> Result<QueryPlan, QueryError>
    ensures area { IfOk result (λ plan. plan.area ≡ area.now) }
    ensures plan { IfOk result (λ plan. Tells (IsPlanFor area.now depths.0 depths.1 plan) (T.files store.old)) }
    ensures complete { (kept : Kept) (points : List Point) (all : Files) → T.files store.old ≡ Some all → IsComplete kept points all
        → IfOk result (λ plan. IsWholePlan kept points area.now depths.0 depths.1 plan.tiles) × IfErr result IsStores }
    ensures refused { IfErr result (RefusesPlan area.now depths.0 depths.1 (T.files store.old)) }
    ensures comes { RefusesAsCalled (CallsOfPlan area.now depths.0 depths.1) (T.files store.old) result }
    ensures gets { Tells (GetsFiles area.now depths.0 depths.1 (T.gets store.old) (T.gets store.new)) (T.files store.old) }
    ensures any_moment { Moves T.files T.may_leave T.moment T.image_since SameFiles store.old store.new }
    ensures cause { HasCauseOf QueryError.StoreFault (T.faults store.old) (T.faults store.new) result }
{
    reading_law();
    output_once_law();
    plan_of(alloc, store, area, depths)
}

// The plan, from the build file and the hierarchy files.
fn plan_of<T: Store>(
    alloc: Global,
    store: &mut T,
    area: &Box3,
    depths: (u8, u8),
) -> Result<QueryPlan, QueryError>
    ensures area { IfOk result (λ plan. plan.area ≡ area.now) }
    ensures plan { IfOk result (λ plan. Tells (IsPlanFor area.now depths.0 depths.1 plan) (T.files store.old)) }
    ensures refused { IfErr result (RefusesPlan area.now depths.0 depths.1 (T.files store.old)) }
    ensures gets { Tells (GetsFiles area.now depths.0 depths.1 (T.gets store.old) (T.gets store.new)) (T.files store.old) }
    ensures any_moment { Moves T.files T.may_leave T.moment T.image_since SameFiles store.old store.new }
    ensures cause { HasCauseOf QueryError.StoreFault (T.faults store.old) (T.faults store.new) result }
{
    let search = search_at(alloc, store, area, depths)?;
    let tiles = tiles_of(alloc, store, &search)?;
    Ok(QueryPlan { area: *area, tiles })
}
