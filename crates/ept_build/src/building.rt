//! A build.

ghost use Rattle.std.specs.Prelude.{◌≡◌, ◌⊎◌, ◌≤◌, ◌<◌, ◌+◌, ℕ, take, true, false, Some, Ok, Err, IsOk, IfOk, IfErr, OnOk, Vec};
ghost use Rattle.std.specs.declared.alloc.Global as allocators;
ghost use Rattle.ept_base.specs.Causes.{HasCauseOf};
ghost use Rattle.ept_base.specs.Files.{Files, SameFiles, Tells};
ghost use Rattle.ept_base.specs.Moves.{Moves, IsSettled};
ghost use Rattle.ept_space.specs.VoxelKey.{VoxelKey};
ghost use Rattle.ept_scan.specs.declared.scan_error.ScanError.{ScanError};
ghost use Rattle.ept_scan.specs.Asking.{AsksFor, paths_left};
ghost use Rattle.ept_ckpt.specs.declared.letter.Letter.{Letter};
ghost use Rattle.ept_forest.specs.Slots as trees;
ghost use Rattle.ept_octree.specs.Octree.{most_of, cache_of};
ghost use Rattle.ept_save.specs.Current.{Current, HasCurrent};
ghost use Rattle.ept_save.specs.Done.{IsDone};
ghost use Rattle.ept_save.specs.Loading.{IsDamaged};
ghost use Rattle.ept_save.specs.Opening.{IsBad};
ghost use Rattle.ept_save.specs.Tiles.{IsOfLayout};
ghost use Rattle.ept_save.specs.View.{StandsFor};
ghost use Rattle.ept_point.specs.declared.layout.Layout.TheVariants.{Old};
ghost use Rattle.ept_octree_ckpt.specs.Loaded.{IsFirstDamaged};
ghost use Rattle.ept_meta.specs.declared.fields.Field.{Field};
ghost use Rattle.ept_plan.specs.Plans.{IsPlan, IsDefinite, GoesOn, DiffersBy};
ghost use Rattle.ept_node_bound.specs.Few.{TilesAreFew};
ghost use Rattle.ept_build.specs.Building.{BeginsWith, Starts, InputsAreRefused, HasTooManyNodes, HasTooManyAlready, TellsDifference, IsBuilt, IsUnderWay, IsStopped, AsksInOrder, ComesToDamage, TellsDamage, IsDoneAlready, HasKeptBut, IsAccepted, IsRefused, IsEarly, Fails};
ghost use Rattle.ept_build.specs.Ends.{EndsSoundly, FindsDamage};
ghost use Rattle.ept_build.specs.Errors.{of_scan};
ghost use Rattle.ept_build.specs.Phases.{HasAll, IsBegun, HasRoom, HasDamage, IsPhaseFault, IsStoreFault};

use crate::crew::Crew;
use crate::error::BuildError;
use crate::finishing::finish;
use crate::growing::{grow, has_all};
use crate::progress::{Progress, Stopped};
use crate::starting::{is_old, lines_in, start, take_up};
use crate::summary::Summary;
use ept_base::{Gate, Room, Shelf, SpillFile, Store};
use ept_config::Config;
use ept_forest::Forest;
use ept_meta::{output_names_law, output_once_law};
use ept_node_bound::few_nodes_law;
use ept_octree_ckpt::saved_law;
use ept_plan::{Plan, make_plan};
use ept_sample::node_law;
use ept_save::{Saved, is_done, open, sound_law, sound_steps_law};
use ept_scan::whole_extent;
use std::alloc::Global;
use std::sync::Wait;
use std::thread::Threads;

/// Builds the octree of the points of all inputs of the configuration, and puts its files into the store. These are the
/// tile of each node, the hierarchy, the metadata, the manifest and the build file.
///
/// At most `config.cache` nodes are in memory at a time; the others are in spill files of the room.
///
/// The build resumes from the current checkpoint of the store. An input that this checkpoint has is read again only for
/// the records that are not inserted yet. After each `config.checkpoint` records the octree becomes the next
/// checkpoint. The done gate is closed meanwhile, and is opened once all files of the output are flushed. If the gate
/// is open and the current checkpoint has all inputs and no tiles of the old layout, nothing is put.
///
/// If the tiles of the current checkpoint have the old layout, the build's first checkpoint has the same points in
/// tiles of the new one.
///
/// # Errors
///
/// The first cause, in the order that [`BuildError`] states. After any refusal the store can be opened again and the
/// build run again.
pub fn build<H: Shelf, T: Store, M: Room, G: Gate + Sync, R: Threads + Wait + Sync>(
    rt: &R,
    alloc: Global,
    config: &Config,
    shelf: &mut H,
    store: &mut T,
    room: &mut M,
    gate: &G,
) -> Result<Summary, BuildError>
where
    H::Source: Send,
    M::File: Send + Sync,
    // What it leaves of a settled store with sound files.
    ensures built { (all start : Files) → BeginsWith M.File.held (H.files shelf.old) (T.files store.old) (T.may_leave store.old) all start
        → IfOk result (λ summary. Tells (IsBuilt all config.now start summary) (T.files store.new)) }
    ensures settled { OnOk result (IsSettled (T.files store.new) (T.may_leave store.new)) }

    // At any moment each image is sound, and some phases after the start.
    ensures sound { (all start : Files) → BeginsWith M.File.held (H.files shelf.old) (T.files store.old) (T.may_leave store.old) all start
        → Moves T.files T.may_leave T.moment T.image_since (λ (a b : Files). IsUnderWay all config.now start b) store.old store.new }

    // What it leaves if there are too many nodes. If there were too many already, nothing is put. Otherwise the phases
    // before the one that has too many are kept.
    ensures stops { result ≡ Err BuildError.TooManyNodes
        → (all start : Files) → BeginsWith M.File.held (H.files shelf.old) (T.files store.old) (T.may_leave store.old) all start
        → IsSettled (T.files store.new) (T.may_leave store.new)
        × ((HasTooManyAlready all config.now start × Moves T.files T.may_leave T.moment T.image_since SameFiles store.old store.new)
        ⊎ Tells (IsStopped all config.now start) (T.files store.new)) }

    // Nothing is put if nothing is to be done, or if the inputs are refused.
    ensures done_already { (all start : Files) → BeginsWith M.File.held (H.files shelf.old) (T.files store.old) (T.may_leave store.old) all start
        → IsDoneAlready config.now start
        → Moves T.files T.may_leave T.moment T.image_since SameFiles store.old store.new }
    ensures early { IfErr result (λ e. IsEarly e
        → Moves T.files T.may_leave T.moment T.image_since SameFiles store.old store.new) }

    // Why it is refused, and when.
    ensures refused { (all start : Files) → BeginsWith M.File.held (H.files shelf.old) (T.files store.old) (T.may_leave store.old) all start
        → IfErr result (IsRefused all config.now start) }
    ensures accepted { (all start : Files) → BeginsWith M.File.held (H.files shelf.old) (T.files store.old) (T.may_leave store.old) all start
        → IsAccepted all config.now start → IsOk result ⊎ Fails result }
    ensures done_comes { (all start : Files) → BeginsWith M.File.held (H.files shelf.old) (T.files store.old) (T.may_leave store.old) all start
        → IsDoneAlready config.now start → IsOk result ⊎ Fails result }
    ensures refusal_comes { (all start : Files) → BeginsWith M.File.held (H.files shelf.old) (T.files store.old) (T.may_leave store.old) all start
        → (current : Current) (e : ScanError) → HasCurrent current start → IsDefinite e
        → InputsAreRefused all config.now current e → (result ≡ Err (of_scan e)) ⊎ Fails result }
    ensures differs { (field : Field) (kept given : Vec ℕ allocators.Global) → result ≡ Err (BuildError.Differs field kept given)
        → (start : Files) (current : Current) → T.files store.old ≡ Some start → HasCurrent current start
        → DiffersBy config.now current (record { field = field; kept = kept; given = given }) }
    ensures differs_comes { (start : Files) (current : Current) → T.files store.old ≡ Some start → HasCurrent current start
        → ¬ GoesOn config.now current → TellsDifference result ⊎ Fails result }
    ensures too_many_comes { (all start : Files) → BeginsWith M.File.held (H.files shelf.old) (T.files store.old) (T.may_leave store.old) all start
        → (current : Current) → HasCurrent current start → GoesOn config.now current → ¬ IsDoneAlready config.now start
        → HasTooManyNodes all config.now current → (result ≡ Err BuildError.TooManyNodes) ⊎ Fails result }
    ensures damaged { (key : VoxelKey) → result ≡ Err (BuildError.TileDamaged key) → (start : Files) → T.files store.old ≡ Some start
        → IsSettled (T.files store.old) (T.may_leave store.old)
        → (current : Current) × HasDamage current key (T.files store.new) }
    ensures damaged_first { (start : Files) (current : Current) (key other : VoxelKey) → T.files store.old ≡ Some start
        → HasCurrent current start → IsDamaged current key start → result ≡ Err (BuildError.TileDamaged other)
        → IsFirstDamaged current config.now.max_nodes other start
        × Moves T.files T.may_leave T.moment T.image_since SameFiles store.old store.new }
    ensures damaged_comes { (all start : Files) (current : Current) → H.files shelf.old ≡ Some all → T.files store.old ≡ Some start
        → HasCurrent current start → ComesToDamage all config.now start current → TellsDamage result ⊎ Fails result }
    ensures bad { (letter : Letter) → result ≡ Err (BuildError.BadCheckpoint letter)
        → Tells (λ start. IsBad start letter) (T.files store.old) }
    ensures bad_comes { (letter : Letter) → (start : Files) → T.files store.old ≡ Some start → IsBad start letter
        → (result ≡ Err (BuildError.BadCheckpoint letter)) ⊎ Fails result }
    ensures sources { HasCauseOf BuildError.SourceFault (H.faults shelf.old) (H.faults shelf.new) result }
    ensures stores { HasCauseOf BuildError.StoreFault (T.faults store.old) (T.faults store.new) result }

    // What it opens, in order: the new inputs, and then those with records left to read. Visible files of the shelf
    // stay as they are.
    ensures asked { (start : Files) (current : Current) → T.files store.old ≡ Some start → HasCurrent current start
        → AsksInOrder (H.files shelf.old) config.now start current (H.asked shelf.old) (H.asked shelf.new) }
    ensures files { H.files shelf.new ≡ H.files shelf.old }
    ensures spills { HasCauseOf BuildError.SpillFault (M.faults room.old) (M.faults room.new) result }

    // The spill files were asked to keep something at least once for each node beyond those that may be in memory.
    ensures kept { (start : Files) → T.files store.old ≡ Some start → ¬ IsDoneAlready config.now start
        → IfOk result (λ summary. HasKeptBut config.now.cache summary.nodes (M.keeps room.old) (M.keeps room.new)) }
{
    sound_law();
    sound_steps_law();
    let saved = open(alloc, store)?;
    let plan = make_plan(alloc, config, shelf, &saved)?;
    if is_finished(alloc, store, &saved, &plan)? {
        store.sync()?;
        return Ok(Summary {
            points: plan.points,
            nodes: lines_in(&saved),
        });
    }
    let at = start(alloc, config, room, saved, &plan)?;
    let crew = Crew {
        rt,
        gate,
        workers: config.threads,
    };
    let (forest, answer) = built(&crew, alloc, config, shelf, store, at, &plan);
    forest.retire_all(room);
    answer
}

// Whether nothing is to be done. Then the done gate is open, and the current checkpoint has all points of all inputs
// and no tiles of the old layout.
fn is_finished<T: Store>(
    alloc: Global,
    store: &mut T,
    saved: &Saved,
    plan: &Plan,
) -> Result<bool, BuildError>
    ensures finished { result ≡ Ok true
        → HasAll plan.now saved.now.current × Tells IsDone (T.files store.old) × ¬ IsOfLayout Old saved.now.current }
    ensures not { result ≡ Ok false → HasAll plan.now saved.now.current → ¬ IsOfLayout Old saved.now.current
        → Tells (λ all. ¬ IsDone all) (T.files store.old) }
    ensures any_moment { Moves T.files T.may_leave T.moment T.image_since SameFiles store.old store.new }
    ensures only { IfErr result IsStoreFault }
    ensures stores { HasCauseOf BuildError.StoreFault (T.faults store.old) (T.faults store.new) result }
{
    if is_old(saved) || !has_all(saved, plan) {
        return Ok(false);
    }
    Ok(is_done(alloc, store)?)
}

// The slots for a number of points can hold all nodes of their sampling.
fn room_law()
    ensures { TilesAreFew }
{
    few_nodes_law();
}

// Inserts what is left into the octree, and puts the files of the output. The nodes are returned, to be retired.
fn built<H, T, F, G, R>(
    crew: &Crew<R, G>,
    alloc: Global,
    config: &Config,
    shelf: &mut H,
    store: &mut T,
    mut at: Progress<F>,
    plan: &Plan,
) -> (Forest<F>, Result<Summary, BuildError>)
where
    H: Shelf,
    H::Source: Send,
    T: Store,
    F: SpillFile + Send + Sync,
    G: Gate + Sync,
    R: Threads + Wait + Sync,
    requires plan { IsPlan config.now at.saved.current plan.now }
    requires begun { IsBegun F.held F.faults F.keeps plan.now at.inserted at.octree at.saved }
    requires room { HasRoom plan.now at.saved.current config.now.max_nodes (most_of at.octree) }
    ensures ends { (all start : Files) → H.files shelf.old ≡ Some all
        → Starts F.held all config.now at.saved plan.now start (T.files store.old) (T.may_leave store.old)
        → EndsSoundly T.files T.may_leave T.moment T.image_since all config.now at.saved.current start result.1 store.old store.new }
    ensures few { IfOk result.1 (λ summary. summary.nodes ≤ config.now.max_nodes) }
    ensures settled { OnOk result.1 (IsSettled (T.files store.new) (T.may_leave store.new)) }
    ensures only { IfErr result.1 IsPhaseFault }
    ensures damaged { (key : VoxelKey) → result.1 ≡ Err (BuildError.TileDamaged key)
        → StandsFor at.saved (T.files store.old) (T.may_leave store.old)
        → (current : Current) × HasDamage current key (T.files store.new) }
    ensures damage { (start : Files) → T.files store.old ≡ Some start
        → FindsDamage T.files T.may_leave T.moment T.image_since config.now at.saved.current start result.1 store.old store.new }
    ensures asked { (n : ℕ) × AsksFor (take n (paths_left plan.now.kept.inputs plan.now.counts plan.now.inserted))
        (H.asked shelf.old) (H.asked shelf.new) }
    ensures files { H.files shelf.new ≡ H.files shelf.old }
    ensures sources { HasCauseOf BuildError.SourceFault (H.faults shelf.old) (H.faults shelf.new) result.1 }
    ensures stores { HasCauseOf BuildError.StoreFault (T.faults store.old) (T.faults store.new) result.1 }
    ensures spill { result.1 ≡ Err BuildError.SpillFault
        → 0 < trees.faults_of F.faults (trees.nodes_of result.0) }
    ensures kept { IfOk result.1 (λ summary.
        summary.nodes ≤ cache_of at.octree + trees.kept_by F.keeps (trees.nodes_of result.0)) }
{
    output_names_law();
    output_once_law();
    saved_law();
    node_law();
    room_law();
    let extent = whole_extent(plan.counts.as_slice());
    if let Err(refused) = take_up(alloc, store, &mut at, plan) {
        return (at.into_forest(), Err(refused));
    }
    match grow(crew, alloc, shelf, store, at, plan, config.checkpoint) {
        Ok(end) => match finish(alloc, store, &end.saved, plan, &extent) {
            Ok(()) => {
                let summary = Summary {
                    points: plan.points,
                    nodes: end.octree.len() as u32,
                };
                (end.into_forest(), Ok(summary))
            }
            Err(refused) => (end.into_forest(), Err(refused)),
        },
        Err(stopped) => {
            let Stopped {
                saved: _,
                forest,
                error,
            } = stopped;
            (forest, Err(error))
        }
    }
}
