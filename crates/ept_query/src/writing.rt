//! Writing the tiles of a plan.

ghost use Rattle.std.specs.Prelude.{◌≡◌, ◌+◌, ◌<◌, ◌≤◌, length, Err, IfOk, IfErr};
ghost use Rattle.ept_base.specs.Causes.{HasCauseOf};
ghost use Rattle.ept_base.specs.Files.{SameFiles, Tells};
ghost use Rattle.ept_base.specs.Moves.{Moves};
ghost use Rattle.ept_query.specs.Parts.{node_at};
ghost use Rattle.ept_query.specs.Writing.{WritesTile, LeavesTile, WritesAll, LeavesTiles, GetsTo};
ghost use Rattle.ept_space.specs.VoxelKey.{VoxelKey};
ghost use Rattle.ept_query.specs.declared.query_error.QueryFile.TheVariants.{Tile};

use crate::plan::QueryPlan;
use crate::query_error::QueryError;
use crate::tile::query_tile;
use crate::trimming::trim;
use ept_base::{Sink, Store, write_full};
use ept_filter::Sift;
use std::alloc::Global;

/// Appends what is kept of the points in the area of the tiles of the plan, tile by tile. Returns of how many points, a
/// number that saturates at 2^64 - 1.
pub(crate) fn write_tiles<T: Store, O: Sink>(
    alloc: Global,
    store: &mut T,
    plan: &QueryPlan,
    sift: &Option<Sift>,
    out: &mut O,
) -> Result<u64, QueryError>
    ensures written { IfOk result (λ count. Tells
        (WritesAll sift.now plan.now (O.written out.old) (O.written out.new) count) (T.files store.old)) }
    ensures leaves { IfErr result (LeavesTiles sift.now plan.now (T.files store.old) (O.written out.old) (O.written out.new)) }
    ensures gets { T.gets store.new ≤ T.gets store.old + length plan.now.tiles }
    ensures up_to { (key : VoxelKey) → result ≡ Err (QueryError.Damaged (Tile key)) → GetsTo plan.now key (T.gets store.old) (T.gets store.new) }
    ensures any_moment { Moves T.files T.may_leave T.moment T.image_since SameFiles store.old store.new }
    ensures stores { HasCauseOf QueryError.StoreFault (T.faults store.old) (T.faults store.new) result }
    ensures sinks { HasCauseOf QueryError.SinkFault (O.faults out.old) (O.faults out.new) result }
{
    let mut bytes = Vec::new(alloc);
    let mut total: u64 = 0;
    for number in 0..plan.len() {
        let count = write_tile(alloc, store, plan, sift, number, &mut bytes, out)?;
        total = total.saturating_add(count);
    }
    Ok(total)
}

// Appends what is kept of the points in the area of one tile, and returns of how many.
fn write_tile<T: Store, O: Sink>(
    alloc: Global,
    store: &mut T,
    plan: &QueryPlan,
    sift: &Option<Sift>,
    number: usize,
    bytes: &mut Vec<u8>,
    out: &mut O,
) -> Result<u64, QueryError>
    requires { number < length plan.now.tiles }
    ensures written { IfOk result (λ count. Tells (WritesTile sift.now plan.now.area (node_at plan.now number)
        (O.written out.old) (O.written out.new) count) (T.files store.old)) }
    ensures leaves { IfErr result (LeavesTile sift.now plan.now.area (node_at plan.now number)
        (T.files store.old) (O.written out.old) (O.written out.new)) }
    ensures gets { T.gets store.new ≤ T.gets store.old + 1 }
    ensures any_moment { Moves T.files T.may_leave T.moment T.image_since SameFiles store.old store.new }
    ensures stores { HasCauseOf QueryError.StoreFault (T.faults store.old) (T.faults store.new) result }
    ensures sinks { HasCauseOf QueryError.SinkFault (O.faults out.old) (O.faults out.new) result }
{
    let count = query_tile(alloc, store, plan, number, bytes)?;
    let count = trim(alloc, sift, count, bytes)?;
    write_full(out, bytes)?;
    Ok(count)
}
