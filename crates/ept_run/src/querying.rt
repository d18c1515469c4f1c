//! The query of a run, and its selection.

ghost use Rattle.std.specs.Prelude.{◌≡◌, Err};
ghost use Rattle.ept_base.specs.Causes.{Rose};
ghost use Rattle.ept_base.specs.Files.{SameFiles};
ghost use Rattle.ept_base.specs.Moves.{Moves};
ghost use Rattle.ept_run.specs.Queries.{query_status, query_failure, EndsQuery, EndsSelect};

use ept_base::{Sink, Store};
use ept_command::status::{DAMAGED, DEVICE, MEMORY, NOT_COMPLETE};
use ept_command::{Ended, Failure};
use ept_filter::Sift;
use ept_query::{QueryError, query, select};
use ept_space::Box3;
use std::alloc::Global;

/// Appends the points of an area and depths of the dataset in a store to the sink. A refusal writes no line.
pub(crate) fn answer_query<T: Store, O: Sink>(
    alloc: Global,
    area: &Box3,
    depths: (u8, u8),
    store: &mut T,
    out: &mut O,
) -> Ended
    ensures ends { (ends : EndsQuery area.now depths.0 depths.1 result.status (T.files store.old) (O.written out.old) (O.written out.new)
        (Rose (T.faults store.old) (T.faults store.new)) (Rose (O.faults out.old) (O.faults out.new)))
        × (result.failure ≡ query_failure ends.answer) }
    ensures any_moment { Moves T.files T.may_leave T.moment T.image_since SameFiles store.old store.new }
{
    ended_by(query(alloc, store, area, depths, out))
}

/// Appends what a selection keeps of the points of an area and depths to the sink. A refusal writes no line.
pub(crate) fn answer_select<T: Store, O: Sink>(
    alloc: Global,
    area: &Box3,
    depths: (u8, u8),
    sift: &Sift,
    store: &mut T,
    out: &mut O,
) -> Ended
    ensures ends { (ends : EndsSelect sift.now area.now depths.0 depths.1 result.status (T.files store.old) (O.written out.old) (O.written out.new)
        (Rose (T.faults store.old) (T.faults store.new)) (Rose (O.faults out.old) (O.faults out.new)))
        × (result.failure ≡ query_failure ends.answer) }
    ensures any_moment { Moves T.files T.may_leave T.moment T.image_since SameFiles store.old store.new }
{
    ended_by(select(alloc, store, area, depths, sift, out))
}

// How a query or a selection with this result ends.
fn ended_by(answer: Result<u64, QueryError>) -> Ended
    ensures status { result.status ≡ query_status answer }
    ensures failure { result.failure ≡ query_failure answer }
{
    match answer {
        Ok(_) => Ended::done(),
        Err(error) => Ended {
            status: status_of(&error),
            failure: Some(Failure::QueryRefused(error)),
        },
    }
}

// The status of a query or a selection that is refused.
fn status_of(error: &QueryError) -> u8
    ensures { result ≡ query_status (Err error.now) }
{
    match error {
        QueryError::NotComplete => NOT_COMPLETE,
        QueryError::StoreFault | QueryError::SinkFault => DEVICE,
        QueryError::Damaged { .. } => DAMAGED,
        QueryError::Memory => MEMORY,
    }
}
