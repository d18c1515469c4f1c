//! A trial: generated scans, and the build of their octree in memory.

ghost use Rattle.std.specs.Prelude.{◌≡◌, ◌≤◌, Some, IfOk, OnOk};
ghost use Rattle.ept_base.specs.Moves.{IsSettled};
ghost use Rattle.ept_build.specs.declared.error.BuildError.{BuildError};
ghost use Rattle.ept_mem_infallible.specs.Objects.{no_files, shelf_files_of, store_files_of, store_images_of};
ghost use Rattle.ept_trial.specs.Trials.{IsTrialOf};
ghost use Rattle.ept_trial.specs.Scans.{HasScans};
ghost use Rattle.ept_trial.specs.Settings.{IsTrialConfig};
ghost use Rattle.ept_trial.specs.Results.{HasTrial};

use crate::settings::{config_of, shelf_of};
use crate::tallying::tallied;
use crate::trial::Trial;
use ept_base::OpenGate;
use ept_build::{BuildError, build};
use ept_config::Config;
use ept_mem_infallible::{SureRoom, SureShelf, SureStore};
use ept_meta::output_once_law;
use ept_node_bound::few_nodes_law;
use ept_point::Memory;
use ept_sample::id_law;
use ept_save::sound_law;
use ept_scan::{ascending_law, placed_law};
use std::alloc::Global;
use std::sync::Wait;
use std::thread::Threads;

/// Builds the octree of the generated scans of `points` points in memory, and returns what it comes to. The build has
/// `workers` threads, and while these run at most `cache` nodes are in memory at a time. The result depends on the
/// number of points alone.
///
/// # Errors
///
/// [`Memory`] if memory runs out, and nothing else.
pub fn build_trial<R: Threads + Wait + Sync>(
    rt: &R,
    alloc: Global,
    points: u32,
    workers: u32,
    cache: u32,
) -> Result<Trial, Memory>
    requires few { points ≤ 10000000 }
    requires some { 1 ≤ workers }
    requires threads { workers ≤ 64 }
    requires room { workers ≤ cache }
    requires cache { cache ≤ 65536 }
    ensures found { IfOk result (IsTrialOf points) }
{
    let config = config_of(alloc, workers, cache)?;
    let mut shelf = shelf_of(alloc, points)?;
    let mut store = SureStore::new(alloc);
    build_files(rt, alloc, &config, &mut shelf, &mut store, points)?;
    tallied(alloc, &mut store, points)
}

// Builds the files of a trial. The devices never fail, the scans are good, and their octree has few enough nodes. So
// the build is refused only if memory runs out.
fn build_files<R: Threads + Wait + Sync>(
    rt: &R,
    alloc: Global,
    config: &Config,
    shelf: &mut SureShelf,
    store: &mut SureStore,
    points: u32,
) -> Result<(), Memory>
    requires few { points ≤ 10000000 }
    requires config { IsTrialConfig config.now }
    requires scans { HasScans points (shelf_files_of shelf.old) }
    requires empty { store_files_of store.old ≡ no_files }
    requires settled { IsSettled (Some (store_files_of store.old)) (store_images_of store.old) }
    ensures { OnOk result (HasTrial points (store_files_of store.new)) }
{
    sound_law();
    id_law();
    ascending_law();
    placed_law();
    output_once_law();
    few_nodes_law();
    let mut room = SureRoom::new(alloc);
    match build(rt, alloc, config, shelf, store, &mut room, &OpenGate) {
        Ok(_) => Ok(()),
        Err(error) => Err(only_memory(error)),
    }
}

// The only refusal that there is.
fn only_memory(error: BuildError) -> Memory
    requires { error ≡ BuildError.Memory }
{
    match error {
        BuildError::Memory => Memory,
        _ => unreachable!(),
    }
}
