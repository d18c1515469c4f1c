//! What the files of a trial come to.

ghost use Rattle.std.specs.Prelude.{◌≡◌, ◌+◌, ◌%◌, ◌^◌, sum_by, Some, IfOk};
ghost use Rattle.ept_base.specs.Files.{SameFiles};
ghost use Rattle.ept_sample.specs.Nodes.{node_keys};
ghost use Rattle.ept_hier.specs.Hierarchy.{keys_of};
ghost use Rattle.ept_query.specs.declared.query_error.QueryError.{QueryError};
ghost use Rattle.ept_mem_infallible.specs.Objects.{store_files_of};
ghost use Rattle.ept_trial.specs.Trials.{IsTrialOf, trial_rules};
ghost use Rattle.ept_trial.specs.Results.{HasTrial, IsTallyOf, bytes_at};

use crate::trial::Trial;
use ept_mem_infallible::SureStore;
use ept_meta::{output_once_law, tile_name};
use ept_point::Memory;
use ept_query::{QueryError, QueryPlan, query_plan};
use ept_sample::{id_law, node_law};
use ept_space::{Box3, Key};
use std::alloc::Global;

/// What the files of a trial of this number of points come to.
pub(crate) fn tallied(alloc: Global, store: &mut SureStore, points: u32) -> Result<Trial, Memory>
    requires { HasTrial points (store_files_of store.old) }
    ensures { IfOk result (IsTrialOf points) }
{
    id_law();
    node_law();
    output_once_law();
    let plan = nodes(alloc, store, points)?;
    tally(alloc, store, &plan, points)
}

// All nodes.
fn nodes(alloc: Global, store: &mut SureStore, points: u32) -> Result<QueryPlan, Memory>
    requires { HasTrial points (store_files_of store.old) }
    ensures keys { (is : HasTrial points (store_files_of store.old))
        → IfOk result (λ plan. keys_of plan.tiles ≡ node_keys trial_rules is.points) }
    ensures files { SameFiles (store_files_of store.old) (store_files_of store.new) }
{
    id_law();
    node_law();
    output_once_law();
    let area = Box3 {
        min: [0, 0, 0],
        max: [131_071, 131_071, 131_071],
    };
    match query_plan(alloc, store, &area, (0, 32)) {
        Ok(plan) => Ok(plan),
        Err(error) => Err(only_memory(error)),
    }
}

// The only refusal that there is.
fn only_memory(error: QueryError) -> Memory
    requires { error ≡ QueryError.Memory }
{
    match error {
        QueryError::Memory => Memory,
        _ => unreachable!(),
    }
}

// What the tiles of a plan come to.
fn tally(alloc: Global, store: &SureStore, plan: &QueryPlan, points: u32) -> Result<Trial, Memory>
    ensures points { IfOk result (λ trial. trial.points ≡ points) }
    ensures tally { IfOk result (IsTallyOf (store_files_of store.now) (keys_of plan.now.tiles)) }
{
    let mut depth = 0;
    let mut sum = 0;
    for number in 0..plan.len() {
        let key = plan.key(number);
        depth = key.depth.max(depth);
        sum = with_tile(alloc, store, &key, sum)?;
    }
    Ok(Trial {
        points: u64::from(points),
        nodes: plan.len() as u64,
        depth: u32::from(depth),
        sum,
    })
}

// This sum plus the bytes of the tile of a key.
fn with_tile(alloc: Global, store: &SureStore, key: &Key, sum: u64) -> Result<u64, Memory>
    ensures { IfOk result (λ total. total
        ≡ (sum + sum_by (λ byte. byte) (bytes_at (store_files_of store.now) key.now)) % 2 ^ 64) }
{
    let name = tile_name(alloc, key)?;
    match store.file(name.as_str()) {
        Some(bytes) => Ok(with_bytes(bytes, sum)),
        None => Ok(sum),
    }
}

// This sum plus these bytes.
fn with_bytes(bytes: &[u8], sum: u64) -> u64
    ensures { result ≡ (sum + sum_by (λ byte. byte) bytes.now) % 2 ^ 64 }
{
    let mut total = sum;
    for byte in bytes {
        total = total.wrapping_add(u64::from(*byte));
    }
    total
}
