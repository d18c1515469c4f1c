//! Queries over the folder.

ghost use Rattle.std.specs.Prelude.{◌≡◌, ◌≤◌, Some, None, ⊤, IfOk, IfErr, MatchOption};
ghost use Rattle.ept_base.specs.Causes.{HasCauseOf};
ghost use Rattle.ept_base.specs.Files.{SameFiles, Tells};
ghost use Rattle.ept_base.specs.Moves.{Moves};
ghost use Rattle.ept_http.specs.QueryWords.{IsOrdered};
ghost use Rattle.ept_save.specs.Done.{IsDone};
ghost use Rattle.ept_query.specs.Planning.{IsPlanFor, GetsFiles};
ghost use Rattle.ept_conn.specs.Planning.{Refuses, told_as};

use crate::end::Fault;
use ept_base::Store;
use ept_query::{QueryError, QueryPlan, query_plan};
use ept_space::Box3;
use std::alloc::Global;

/// The plan of a query; no plan if the done gate is not open.
pub fn plan_of<T: Store>(
    alloc: Global,
    store: &mut T,
    area: &Box3,
    depths: (u8, u8),
) -> Result<Option<QueryPlan>, Fault>
    requires ordered { IsOrdered area.now }
    requires depths { depths.0 ≤ depths.1 }
    ensures area { IfOk result (λ found. MatchOption found ⊤ (λ plan. plan.area ≡ area.now)) }
    ensures plan { IfOk result (λ found. MatchOption found (Tells (λ all. ¬ IsDone all) (T.files store.old))
        (λ plan. Tells (IsPlanFor area.now depths.0 depths.1 plan) (T.files store.old))) }
    ensures gets { Tells (GetsFiles area.now depths.0 depths.1 (T.gets store.old) (T.gets store.new)) (T.files store.old) }
    ensures refused { IfErr result (Refuses area.now depths.0 depths.1 (T.files store.old)) }
    ensures any_moment { Moves T.files T.may_leave T.moment T.image_since SameFiles store.old store.new }
    ensures cause { HasCauseOf Fault.Store (T.faults store.old) (T.faults store.new) result }
{
    match query_plan(alloc, store, area, depths) {
        Ok(plan) => Ok(Some(plan)),
        Err(QueryError::NotComplete) => Ok(None),
        Err(error) => Err(fault_of(error)),
    }
}

/// Why a session ends if a query is refused. `query_tile` never reports an incomplete output or a failed sink.
pub fn fault_of(error: QueryError) -> Fault
    ensures { result ≡ told_as error }
{
    match error {
        QueryError::StoreFault => Fault::Store,
        QueryError::Damaged { file } => Fault::Damaged { file },
        QueryError::NotComplete | QueryError::SinkFault | QueryError::Memory => Fault::Memory,
    }
}
