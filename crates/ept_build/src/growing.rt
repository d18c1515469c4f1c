//! The phases: each inserts at most a given number of records into the octree, which then becomes the next checkpoint.

ghost use Rattle.std.specs.Prelude.{◌≡◌, ◌≢◌, ◌≤◌, ◌<◌, ◌+◌, ◌↔◌, ℕ, List, IsTrue, IfOk, IfErr, length, take};
ghost use Rattle.ept_base.specs.Causes.{Rose};
ghost use Rattle.ept_base.specs.Files.{Files, Tells};
ghost use Rattle.ept_base.specs.Moves.{IsSettled, Moves};
ghost use Rattle.ept_point.specs.declared.point.Point.{Point};
ghost use Rattle.ept_space.specs.VoxelKey.{VoxelKey};
ghost use Rattle.ept_space.specs.CubeOfBounds.{IsCubeOf};
ghost use Rattle.ept_sample.specs.Nodes.{sampled};
ghost use Rattle.ept_sample.specs.SamplingLaws.{CanBeSampled};
ghost use Rattle.ept_scan.specs.Asking.{AsksFor, paths_left};
ghost use Rattle.ept_scan.specs.Opening.{IsKeptScan};
ghost use Rattle.ept_scan.specs.Reader.{HasFault};
ghost use Rattle.ept_table.specs.Octree.{AreSampled};
ghost use Rattle.ept_node.specs.Shown.{IsTelling};
ghost use Rattle.ept_forest.specs.Slots as trees;
ghost use Rattle.ept_octree.specs.Octree.{nodes_of, most_of, cache_of};
ghost use Rattle.ept_meta.specs.Output.{File, rules_of};
ghost use Rattle.ept_save.specs.Current.{Current};
ghost use Rattle.ept_save.specs.View.{StandsFor};
ghost use Rattle.ept_plan.specs.Plans.{IsOf, inputs_by, inserted_by};
ghost use Rattle.ept_build.specs.Errors.{of_insert};
ghost use Rattle.ept_build.specs.Reached.{IsThrough, HasGone, HasThisOrNext, generation_by};
ghost use Rattle.ept_build.specs.Phases.{IsFit, IsTreeOf, ReadsRest, HasAll, HasInserted, IsSoundUndone, AreOfShelf, IsOnWay, HasDamage, IsPhaseFault, AreMany};

use crate::crew::Crew;
use crate::error::BuildError;
use crate::progress::{Progress, Stopped};
use ept_base::{Gate, Shelf, Source, SpillFile, Store};
use ept_grow::stay_law;
use ept_insert::{Refused, insert};
use ept_meta::output_once_law;
use ept_octree_ckpt::{save_octree, saved_law};
use ept_plan::Plan;
use ept_save::{Saved, sound_steps_law};
use ept_scan::{Reader, reader};
use std::alloc::Global;
use std::sync::Wait;
use std::thread::Threads;

/// Whether the current checkpoint is of all inputs, with all their points inserted.
pub(crate) fn has_all(saved: &Saved, plan: &Plan) -> bool
    ensures { IsTrue result ↔ HasAll plan.now saved.now.current }
{
    let inputs = plan.kept.inputs.as_slice().len();
    match saved.current() {
        Some(checkpoint) => {
            checkpoint.inserted == plan.points && checkpoint.kept.inputs.as_slice().len() == inputs
        }
        None => plan.points == 0 && inputs == 0,
    }
}

/// Reads the points that are not inserted yet, and inserts them into the octree, at most `step` of them in a phase.
/// After each phase the octree is the current checkpoint.
pub(crate) fn grow<H, T, F, G, R>(
    crew: &Crew<R, G>,
    alloc: Global,
    shelf: &mut H,
    store: &mut T,
    at: Progress<F>,
    plan: &Plan,
    step: u64,
) -> Result<Progress<F>, Stopped<F>>
where
    H: Shelf,
    H::Source: Send,
    T: Store,
    F: SpillFile + Send + Sync,
    G: Gate + Sync,
    R: Threads + Wait + Sync,
    requires step { 1 ≤ step }
    requires fit { IsFit plan.now }
    requires of_bounds { IsCubeOf plan.now.kept.bounds plan.now.kept.s plan.now.kept.max_depth (rules_of plan.now.kept).cube }
    requires inserted { at.inserted ≤ plan.now.points }
    requires tree { IsTreeOf F.held F.faults F.keeps plan.now at.inserted at.octree at.saved }
    requires same { inputs_by at.saved.current ≡ length plan.now.kept.inputs → IsOf plan.now at.saved.current }
    ensures tree { IfOk result (λ end. IsTreeOf F.held F.faults F.keeps plan.now plan.now.points end.octree end.saved) }
    ensures most { IfOk result (λ end. most_of end.octree ≡ most_of at.octree) }
    ensures cache { IfOk result (λ end. cache_of end.octree ≡ cache_of at.octree) }
    ensures all { IfOk result (λ end. IsOf plan.now end.saved.current) }
    ensures through { IfOk result (λ end.
        IsThrough at.saved.current plan.now.kept step plan.now.points (length plan.now.kept.inputs) end.saved.current) }
    ensures reached { IsTelling F.held → StandsFor at.saved (T.files store.old) (T.may_leave store.old)
        → Moves T.files T.may_leave T.moment T.image_since
        (λ (a b : Files). HasGone at.saved.current plan.now.kept step plan.now.points b) store.old store.new }
    ensures stands_after { IfOk result (λ end. StandsFor at.saved (T.files store.old) (T.may_leave store.old)
        → StandsFor end.saved (T.files store.new) (T.may_leave store.new)) }

    // If the contents of the devices and spill files are visible, the octree is then that of all points. Meanwhile each
    // image is sound.
    ensures sampled { IsTelling F.held → IfOk result (λ end. Tells (λ all. (points : List Point)
        → IsKeptScan all plan.now.kept plan.now.counts points → CanBeSampled (rules_of plan.now.kept) points
        → AreSampled (rules_of plan.now.kept) (take at.inserted points) (nodes_of F.held at.octree)
        → AreSampled (rules_of plan.now.kept) points (nodes_of F.held end.octree)) (H.files shelf.old)) }
    ensures on_way { IsTelling F.held → IfOk result (λ end. Tells (λ all. (points : List Point) (output : List File)
        → AreOfShelf all plan.now points output
        → AreSampled (rules_of plan.now.kept) (take at.inserted points) (nodes_of F.held at.octree)
        → IsOnWay all points output at.saved (T.files store.old) (T.may_leave store.old)
        → IsOnWay all points output end.saved (T.files store.new) (T.may_leave store.new)) (H.files shelf.old)) }
    ensures sound { IsTelling F.held → Tells (λ all. (points : List Point) (output : List File)
        → AreOfShelf all plan.now points output
        → AreSampled (rules_of plan.now.kept) (take at.inserted points) (nodes_of F.held at.octree)
        → IsOnWay all points output at.saved (T.files store.old) (T.may_leave store.old)
        → Moves T.files T.may_leave T.moment T.image_since
        (λ (a b : Files). IsSoundUndone all b) store.old store.new) (H.files shelf.old) }

    // Why it is refused.
    ensures only { IfErr result (λ stopped. IsPhaseFault stopped.error) }
    ensures damaged { IfErr result (λ stopped. (key : VoxelKey) → stopped.error ≡ BuildError.TileDamaged key
        → StandsFor at.saved (T.files store.old) (T.may_leave store.old)
        → (current : Current) × HasDamage current key (T.files store.new)) }
    ensures undamaged { IsTelling F.held → IfErr result (λ stopped. Tells (λ all. (points : List Point) (output : List File)
        → AreOfShelf all plan.now points output
        → AreSampled (rules_of plan.now.kept) (take at.inserted points) (nodes_of F.held at.octree)
        → IsOnWay all points output at.saved (T.files store.old) (T.may_leave store.old)
        → (key : VoxelKey) → stopped.error ≢ BuildError.TileDamaged key) (H.files shelf.old)) }
    ensures too_many { IsTelling F.held → IfErr result (λ stopped. stopped.error ≡ BuildError.TooManyNodes → Tells
        (λ all. (points : List Point) → IsKeptScan all plan.now.kept plan.now.counts points
        → CanBeSampled (rules_of plan.now.kept) points
        → AreSampled (rules_of plan.now.kept) (take at.inserted points) (nodes_of F.held at.octree)
        → AreMany plan.now at.saved.current step (most_of at.octree) points stopped.saved.current) (H.files shelf.old)) }
    ensures stands { IfErr result (λ stopped. stopped.error ≡ BuildError.TooManyNodes
        → StandsFor at.saved (T.files store.old) (T.may_leave store.old)
        → StandsFor stopped.saved (T.files store.new) (T.may_leave store.new)) }
    ensures settled { IfErr result (λ stopped. stopped.error ≡ BuildError.TooManyNodes
        → IsSettled (T.files store.old) (T.may_leave store.old)
        → IsSettled (T.files store.new) (T.may_leave store.new)) }
    ensures no_change { IsTelling F.held → IfErr result (λ stopped. (source number : ℕ)
        → stopped.error ≡ BuildError.SourceChanged source number → Tells
        (λ all. (points : List Point) → IsKeptScan all plan.now.kept plan.now.counts points
        → CanBeSampled (rules_of plan.now.kept) points
        → AreSampled (rules_of plan.now.kept) (take at.inserted points) (nodes_of F.held at.octree)
        → ⊥) (H.files shelf.old)) }
    ensures no_damage { IsTelling F.held → IfErr result (λ stopped. (kept found number : ℕ)
        → stopped.error ≡ BuildError.SpillDamaged kept found number → Tells
        (λ all. (points : List Point) → IsKeptScan all plan.now.kept plan.now.counts points
        → CanBeSampled (rules_of plan.now.kept) points
        → AreSampled (rules_of plan.now.kept) (take at.inserted points) (nodes_of F.held at.octree)
        → ⊥) (H.files shelf.old)) }
    ensures spill { IfErr result (λ stopped. stopped.error ≡ BuildError.SpillFault
        → 0 < trees.faults_of F.faults (trees.nodes_of stopped.forest)) }
    ensures asked { (n : ℕ) × AsksFor (take n (paths_left plan.now.kept.inputs plan.now.counts at.inserted))
        (H.asked shelf.old) (H.asked shelf.new) }
    ensures files { H.files shelf.new ≡ H.files shelf.old }
    ensures sources_later { H.faults shelf.old ≤ H.faults shelf.new }
    ensures sources { IfErr result (λ stopped. stopped.error ≡ BuildError.SourceFault
        → Rose (H.faults shelf.old) (H.faults shelf.new)) }
    ensures stores_later { T.faults store.old ≤ T.faults store.new }
    ensures stores { IfErr result (λ stopped. stopped.error ≡ BuildError.StoreFault
        → Rose (T.faults store.old) (T.faults store.new)) }
{
    let counts = plan.counts.as_slice();
    match reader(alloc, shelf, &plan.kept, counts, at.inserted) {
        Ok(reader) => match phases(crew, alloc, reader, store, at, plan, step) {
            Ok((end, reader)) => {
                reader.retire_all(shelf);
                Ok(end)
            }
            Err((stopped, reader)) => {
                reader.retire_all(shelf);
                Err(stopped)
            }
        },
        Err(refused) => Err(at.stop(BuildError::from(refused))),
    }
}

// Runs phase after phase, until the current checkpoint has all points of all inputs. The reader is returned in any
// case.
fn phases<S, T, F, G, R>(
    crew: &Crew<R, G>,
    alloc: Global,
    mut reader: Reader<S>,
    store: &mut T,
    mut at: Progress<F>,
    plan: &Plan,
    step: u64,
) -> Result<(Progress<F>, Reader<S>), (Stopped<F>, Reader<S>)>
where
    S: Source + Send,
    T: Store,
    F: SpillFile + Send + Sync,
    G: Gate + Sync,
    R: Threads + Wait + Sync,
    requires step { 1 ≤ step }
    requires fit { IsFit plan.now }
    requires tree { IsTreeOf F.held F.faults F.keeps plan.now at.inserted at.octree at.saved }
    requires same { inputs_by at.saved.current ≡ length plan.now.kept.inputs → IsOf plan.now at.saved.current }
    requires reader { ReadsRest S.whole S.left S.given S.faults plan.now at.inserted reader }
    ensures tree { IfOk result (λ r. IsTreeOf F.held F.faults F.keeps plan.now plan.now.points r.0.octree r.0.saved) }
    ensures most { IfOk result (λ r. most_of r.0.octree ≡ most_of at.octree) }
    ensures cache { IfOk result (λ r. cache_of r.0.octree ≡ cache_of at.octree) }
    ensures all { IfOk result (λ r. IsOf plan.now r.0.saved.current) }
    ensures through { IfOk result (λ r.
        IsThrough at.saved.current plan.now.kept step plan.now.points (length plan.now.kept.inputs) r.0.saved.current) }
    ensures reached { IsTelling F.held → StandsFor at.saved (T.files store.old) (T.may_leave store.old)
        → Moves T.files T.may_leave T.moment T.image_since
        (λ (a b : Files). HasGone at.saved.current plan.now.kept step plan.now.points b) store.old store.new }
    ensures stands_after { IfOk result (λ r. StandsFor at.saved (T.files store.old) (T.may_leave store.old)
        → StandsFor r.0.saved (T.files store.new) (T.may_leave store.new)) }
    ensures sampled { IfOk result (λ r. (points : List Point) → CanBeSampled (rules_of plan.now.kept) points
        → length points ≡ plan.now.points → HasInserted F.held S.whole plan.now points at.inserted reader at.octree
        → AreSampled (rules_of plan.now.kept) points (nodes_of F.held r.0.octree)) }
    ensures on_way { IfOk result (λ r. (shelf : Files) (points : List Point) (output : List File)
        → AreOfShelf shelf plan.now points output → HasInserted F.held S.whole plan.now points at.inserted reader at.octree
        → IsOnWay shelf points output at.saved (T.files store.old) (T.may_leave store.old)
        → IsOnWay shelf points output r.0.saved (T.files store.new) (T.may_leave store.new)) }
    ensures sound { (shelf : Files) (points : List Point) (output : List File)
        → AreOfShelf shelf plan.now points output → HasInserted F.held S.whole plan.now points at.inserted reader at.octree
        → IsOnWay shelf points output at.saved (T.files store.old) (T.may_leave store.old)
        → Moves T.files T.may_leave T.moment T.image_since (λ (a b : Files). IsSoundUndone shelf b) store.old store.new }
    ensures only { IfErr result (λ r. IsPhaseFault r.0.error) }
    ensures damaged { IfErr result (λ r. (key : VoxelKey) → r.0.error ≡ BuildError.TileDamaged key
        → StandsFor at.saved (T.files store.old) (T.may_leave store.old)
        → (current : Current) × HasDamage current key (T.files store.new)) }
    ensures undamaged { IfErr result (λ r. (shelf : Files) (points : List Point) (output : List File)
        → AreOfShelf shelf plan.now points output → HasInserted F.held S.whole plan.now points at.inserted reader at.octree
        → IsOnWay shelf points output at.saved (T.files store.old) (T.may_leave store.old)
        → (key : VoxelKey) → r.0.error ≢ BuildError.TileDamaged key) }
    ensures too_many { IfErr result (λ r. r.0.error ≡ BuildError.TooManyNodes → (points : List Point)
        → CanBeSampled (rules_of plan.now.kept) points → length points ≡ plan.now.points
        → HasInserted F.held S.whole plan.now points at.inserted reader at.octree
        → AreMany plan.now at.saved.current step (most_of at.octree) points r.0.saved.current) }
    ensures stands { IfErr result (λ r. r.0.error ≡ BuildError.TooManyNodes
        → StandsFor at.saved (T.files store.old) (T.may_leave store.old)
        → StandsFor r.0.saved (T.files store.new) (T.may_leave store.new)) }
    ensures settled { IfErr result (λ r. r.0.error ≡ BuildError.TooManyNodes
        → IsSettled (T.files store.old) (T.may_leave store.old)
        → IsSettled (T.files store.new) (T.may_leave store.new)) }
    ensures no_change { IfErr result (λ r. (source number : ℕ) → r.0.error ≡ BuildError.SourceChanged source number
        → (points : List Point) → CanBeSampled (rules_of plan.now.kept) points
        → HasInserted F.held S.whole plan.now points at.inserted reader at.octree → ⊥) }
    ensures no_damage { IfErr result (λ r. (kept found number : ℕ)
        → r.0.error ≡ BuildError.SpillDamaged kept found number
        → (points : List Point) → CanBeSampled (rules_of plan.now.kept) points
        → HasInserted F.held S.whole plan.now points at.inserted reader at.octree → ⊥) }
    ensures spill { IfErr result (λ r. r.0.error ≡ BuildError.SpillFault
        → 0 < trees.faults_of F.faults (trees.nodes_of r.0.forest)) }
    ensures fault { IfErr result (λ r. r.0.error ≡ BuildError.SourceFault → HasFault S.faults r.1) }
    ensures stores_later { T.faults store.old ≤ T.faults store.new }
    ensures stores { IfErr result (λ r. r.0.error ≡ BuildError.StoreFault
        → Rose (T.faults store.old) (T.faults store.new)) }
{
    while !has_all(&at.saved, plan) {
        let count = step.min(plan.points - at.inserted);
        (at, reader) = phase(crew, alloc, reader, store, at, plan, count)?;
    }
    Ok((at, reader))
}

// Inserts the next `count` records into the octree, and makes this the next checkpoint. The reader is returned in any
// case. `Octree::len` says that the octree has no more nodes than there may be.
fn phase<S, T, F, G, R>(
    crew: &Crew<R, G>,
    alloc: Global,
    reader: Reader<S>,
    store: &mut T,
    at: Progress<F>,
    plan: &Plan,
    count: u64,
) -> Result<(Progress<F>, Reader<S>), (Stopped<F>, Reader<S>)>
where
    S: Source + Send,
    T: Store,
    F: SpillFile + Send + Sync,
    G: Gate + Sync,
    R: Threads + Wait + Sync,
    requires fit { IsFit plan.now }
    requires tree { IsTreeOf F.held F.faults F.keeps plan.now at.inserted at.octree at.saved }
    requires reader { ReadsRest S.whole S.left S.given S.faults plan.now at.inserted reader }
    requires count { at.inserted + count ≤ plan.now.points }
    requires further { inserted_by at.saved.current + inputs_by at.saved.current
        < at.inserted + count + length plan.now.kept.inputs }
    ensures inserted { IfOk result (λ r. r.0.inserted ≡ at.inserted + count) }
    ensures tree { IfOk result (λ r. IsTreeOf F.held F.faults F.keeps plan.now r.0.inserted r.0.octree r.0.saved) }
    ensures most { IfOk result (λ r. most_of r.0.octree ≡ most_of at.octree) }
    ensures cache { IfOk result (λ r. cache_of r.0.octree ≡ cache_of at.octree) }
    ensures reader { IfOk result (λ r. ReadsRest S.whole S.left S.given S.faults plan.now r.0.inserted r.1) }
    ensures checkpoint { IfOk result (λ r. IsOf plan.now r.0.saved.current) }
    ensures generation { IfOk result (λ r. generation_by r.0.saved.current ≡ generation_by at.saved.current + 1) }
    ensures either { IsTelling F.held → StandsFor at.saved (T.files store.old) (T.may_leave store.old)
        → Moves T.files T.may_leave T.moment T.image_since
        (λ (a b : Files). HasThisOrNext at.saved.current plan.now.kept (at.inserted + count) b) store.old store.new }
    ensures stands { IfOk result (λ r. StandsFor at.saved (T.files store.old) (T.may_leave store.old)
        → StandsFor r.0.saved (T.files store.new) (T.may_leave store.new)) }
    ensures settled { IfOk result (λ r. IsSettled (T.files store.new) (T.may_leave store.new)) }
    ensures has { IfOk result (λ r. (points : List Point) → CanBeSampled (rules_of plan.now.kept) points
        → HasInserted F.held S.whole plan.now points at.inserted reader at.octree
        → HasInserted F.held S.whole plan.now points r.0.inserted r.1 r.0.octree) }
    ensures on_way { IfOk result (λ r. (shelf : Files) (points : List Point) (output : List File)
        → AreOfShelf shelf plan.now points output → HasInserted F.held S.whole plan.now points at.inserted reader at.octree
        → IsOnWay shelf points output at.saved (T.files store.old) (T.may_leave store.old)
        → IsOnWay shelf points output r.0.saved (T.files store.new) (T.may_leave store.new)) }
    ensures sound { (shelf : Files) (points : List Point) (output : List File)
        → AreOfShelf shelf plan.now points output → HasInserted F.held S.whole plan.now points at.inserted reader at.octree
        → IsOnWay shelf points output at.saved (T.files store.old) (T.may_leave store.old)
        → Moves T.files T.may_leave T.moment T.image_since (λ (a b : Files). IsSoundUndone shelf b) store.old store.new }
    ensures only { IfErr result (λ r. IsPhaseFault r.0.error) }
    ensures damaged { IfErr result (λ r. (key : VoxelKey) → r.0.error ≡ BuildError.TileDamaged key
        → StandsFor at.saved (T.files store.old) (T.may_leave store.old)
        → HasDamage at.saved.current key (T.files store.new)) }
    ensures undamaged { IfErr result (λ r. (shelf : Files) (points : List Point) (output : List File)
        → AreOfShelf shelf plan.now points output
        → IsOnWay shelf points output at.saved (T.files store.old) (T.may_leave store.old)
        → (key : VoxelKey) → r.0.error ≢ BuildError.TileDamaged key) }
    ensures few { length (nodes_of F.held at.octree) ≤ most_of at.octree }
    ensures too_many { IfErr result (λ r. r.0.error ≡ BuildError.TooManyNodes → (points : List Point)
        → CanBeSampled (rules_of plan.now.kept) points
        → HasInserted F.held S.whole plan.now points at.inserted reader at.octree
        → most_of at.octree < length (sampled (rules_of plan.now.kept) (take (at.inserted + count) points))) }
    ensures untouched { IfErr result (λ r. r.0.error ≡ BuildError.TooManyNodes
        → (r.0.saved ≡ at.saved) × (store.new ≡ store.old)) }
    ensures no_change { IfErr result (λ r. (source number : ℕ) → r.0.error ≡ BuildError.SourceChanged source number
        → (points : List Point) → CanBeSampled (rules_of plan.now.kept) points
        → HasInserted F.held S.whole plan.now points at.inserted reader at.octree → ⊥) }
    ensures no_damage { IfErr result (λ r. (kept found number : ℕ)
        → r.0.error ≡ BuildError.SpillDamaged kept found number
        → (points : List Point) → CanBeSampled (rules_of plan.now.kept) points
        → HasInserted F.held S.whole plan.now points at.inserted reader at.octree → ⊥) }
    ensures spill { IfErr result (λ r. r.0.error ≡ BuildError.SpillFault
        → 0 < trees.faults_of F.faults (trees.nodes_of r.0.forest)) }
    ensures fault { IfErr result (λ r. r.0.error ≡ BuildError.SourceFault → HasFault S.faults r.1) }
    ensures stores_later { T.faults store.old ≤ T.faults store.new }
    ensures stores { IfErr result (λ r. r.0.error ≡ BuildError.StoreFault
        → Rose (T.faults store.old) (T.faults store.new)) }
{
    let Progress {
        saved,
        octree,
        inserted,
    } = at;
    octree.len();
    let (octree, reader) = match insert(
        crew.rt,
        alloc,
        octree,
        reader,
        count,
        crew.workers,
        crew.gate,
    ) {
        Ok(grown) => grown,
        Err(refused) => return Err(not_inserted(saved, refused)),
    };
    let mut next = Progress {
        saved,
        octree,
        inserted: inserted + count,
    };
    saved_law();
    sound_steps_law();
    output_once_law();
    stay_law();
    let counts = plan.counts.as_slice();
    match save_octree(
        alloc,
        store,
        &mut next.saved,
        &mut next.octree,
        &plan.kept,
        counts,
        next.inserted,
    ) {
        Ok(()) => Ok((next, reader)),
        Err(refused) => Err((next.stop(BuildError::from(refused)), reader)),
    }
}

// What is left if the records are not inserted.
fn not_inserted<F, S>(saved: Saved, refused: Refused<F, S>) -> (Stopped<F>, Reader<S>)
    ensures saved { result.0.saved ≡ saved }
    ensures forest { result.0.forest ≡ refused.forest }
    ensures error { result.0.error ≡ of_insert refused.error }
    ensures reader { result.1 ≡ refused.reader }
{
    let Refused {
        forest,
        reader,
        error,
    } = refused;
    let error = BuildError::from(error);
    (
        Stopped {
            saved,
            forest,
            error,
        },
        reader,
    )
}
