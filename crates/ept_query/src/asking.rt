//! Whole queries, and selections of what they find.

ghost use Rattle.std.specs.Prelude.{◌≡◌, List, Some, IfOk, IfErr};
ghost use Rattle.ept_base.specs.Causes.{HasCauseOf};
ghost use Rattle.ept_base.specs.Files.{Files, SameFiles, Tells};
ghost use Rattle.ept_base.specs.Moves.{Moves};
ghost use Rattle.ept_point.specs.declared.point.Point.{Point};
ghost use Rattle.ept_config.specs.declared.kept.Kept.{Kept};
ghost use Rattle.ept_query.specs.Answers.{Answers, LeavesQuery, Selects, LeavesSelection};
ghost use Rattle.ept_save.specs.Complete.{IsComplete};
ghost use Rattle.ept_query.specs.Complete.{AnswersWhole, SelectsWhole};
ghost use Rattle.ept_query.specs.Planning.{GetsAll};
ghost use Rattle.ept_query.specs.Refusals.{RefusesQuery, CallsOfQuery, RefusesAsCalled, GetsBefore};

use crate::planning::query_plan;
use crate::query_error::QueryError;
use crate::writing::write_tiles;
use ept_base::{Sink, Store};
use ept_filter::Sift;
use ept_hier::reading_law;
use ept_meta::output_once_law;
use ept_space::Box3;
use std::alloc::Global;

/// Appends the packed points of a finished dataset in an area, by key and then by id. The nodes are those from the
/// first of `depths` to the second. Returns the number of points, which saturates at 2^64 - 1.
///
/// The sink gets the points tile by tile: the bytes of one tile are in memory at a time.
///
/// # Errors
///
/// `NotComplete` if the done gate is not open. Otherwise `Damaged` with the first file that is missing or malformed.
/// The order is: the build file, the hierarchy files in key order, the tiles in key order. No byte of a refused tile is
/// appended.
pub fn query<T: Store, O: Sink>(
    alloc: Global,
    store: &mut T,
    area: &Box3,
    depths: (u8, u8),
    out: &mut O,
) -> Result<u64, QueryError>
    ensures answer { IfOk result (λ count. Tells (Answers area.now depths.0 depths.1
        (O.written out.old) (O.written out.new) count) (T.files store.old)) }
    ensures complete { (kept : Kept) (points : List Point) (all : Files) → T.files store.old ≡ Some all → IsComplete kept points all
        → AnswersWhole kept points area.now depths.0 depths.1 (O.written out.old) (O.written out.new) result }
    ensures refused { IfErr result (RefusesQuery area.now depths.0 depths.1 (T.files store.old)) }
    ensures comes { RefusesAsCalled (CallsOfQuery area.now depths.0 depths.1) (T.files store.old) result }
    ensures leaves { IfErr result (LeavesQuery area.now depths.0 depths.1 (T.files store.old)
        (O.written out.old) (O.written out.new)) }
    ensures gets { Tells (GetsAll area.now depths.0 depths.1 (T.gets store.old) (T.gets store.new)) (T.files store.old) }
    ensures up_to { IfErr result (λ e. Tells
        (GetsBefore area.now depths.0 depths.1 (T.gets store.old) (T.gets store.new) e) (T.files store.old)) }
    ensures any_moment { Moves T.files T.may_leave T.moment T.image_since SameFiles store.old store.new }
    ensures stores { HasCauseOf QueryError.StoreFault (T.faults store.old) (T.faults store.new) result }
    ensures sinks { HasCauseOf QueryError.SinkFault (O.faults out.old) (O.faults out.new) result }
{
    reading_law();
    output_once_law();
    answer(alloc, store, area, depths, &None, out)
}

/// Appends what a selection keeps of the points that `query` appends, point by point in the same order. Returns how
/// many points pass, a number that saturates at 2^64 - 1.
///
/// The sink gets it tile by tile: the bytes of one tile are in memory at a time.
///
/// # Errors
///
/// Those of `query`.
pub fn select<T: Store, O: Sink>(
    alloc: Global,
    store: &mut T,
    area: &Box3,
    depths: (u8, u8),
    sift: &Sift,
    out: &mut O,
) -> Result<u64, QueryError>
    ensures answer { IfOk result (λ count. Tells (Selects (Some sift.now) area.now depths.0 depths.1
        (O.written out.old) (O.written out.new) count) (T.files store.old)) }
    ensures complete { (kept : Kept) (points : List Point) (all : Files) → T.files store.old ≡ Some all → IsComplete kept points all
        → SelectsWhole sift.now kept points area.now depths.0 depths.1 (O.written out.old) (O.written out.new) result }
    ensures refused { IfErr result (RefusesQuery area.now depths.0 depths.1 (T.files store.old)) }
    ensures comes { RefusesAsCalled (CallsOfQuery area.now depths.0 depths.1) (T.files store.old) result }
    ensures leaves { IfErr result (LeavesSelection (Some sift.now) area.now depths.0 depths.1 (T.files store.old)
        (O.written out.old) (O.written out.new)) }
    ensures gets { Tells (GetsAll area.now depths.0 depths.1 (T.gets store.old) (T.gets store.new)) (T.files store.old) }
    ensures up_to { IfErr result (λ e. Tells
        (GetsBefore area.now depths.0 depths.1 (T.gets store.old) (T.gets store.new) e) (T.files store.old)) }
    ensures any_moment { Moves T.files T.may_leave T.moment T.image_since SameFiles store.old store.new }
    ensures stores { HasCauseOf QueryError.StoreFault (T.faults store.old) (T.faults store.new) result }
    ensures sinks { HasCauseOf QueryError.SinkFault (O.faults out.old) (O.faults out.new) result }
{
    reading_law();
    output_once_law();
    answer(alloc, store, area, depths, &Some(*sift), out)
}

// Makes the plan and writes what is kept of its tiles.
fn answer<T: Store, O: Sink>(
    alloc: Global,
    store: &mut T,
    area: &Box3,
    depths: (u8, u8),
    sift: &Option<Sift>,
    out: &mut O,
) -> Result<u64, QueryError>
    ensures answer { IfOk result (λ count. Tells (Selects sift.now area.now depths.0 depths.1
        (O.written out.old) (O.written out.new) count) (T.files store.old)) }
    ensures refused { IfErr result (RefusesQuery area.now depths.0 depths.1 (T.files store.old)) }
    ensures leaves { IfErr result (LeavesSelection sift.now area.now depths.0 depths.1 (T.files store.old)
        (O.written out.old) (O.written out.new)) }
    ensures gets { Tells (GetsAll area.now depths.0 depths.1 (T.gets store.old) (T.gets store.new)) (T.files store.old) }
    ensures up_to { IfErr result (λ e. Tells
        (GetsBefore area.now depths.0 depths.1 (T.gets store.old) (T.gets store.new) e) (T.files store.old)) }
    ensures any_moment { Moves T.files T.may_leave T.moment T.image_since SameFiles store.old store.new }
    ensures stores { HasCauseOf QueryError.StoreFault (T.faults store.old) (T.faults store.new) result }
    ensures sinks { HasCauseOf QueryError.SinkFault (O.faults out.old) (O.faults out.new) result }
{
    let plan = query_plan(alloc, store, area, depths)?;
    write_tiles(alloc, store, &plan, sift, out)
}
