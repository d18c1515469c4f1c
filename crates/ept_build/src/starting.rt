//! The start of the remaining work: the nodes of the current checkpoint are loaded, and the done gate is closed.

ghost use Rattle.std.specs.Prelude.{◌≡◌, ◌<◌, ◌≤◌, ◌↔◌, List, Some, Err, IsTrue, IfOk, IfErr, OnOk, length};
ghost use Rattle.ept_base.specs.Causes.{HasCauseOf};
ghost use Rattle.ept_base.specs.Files.{Files, SameBut, StepsBy, Tells};
ghost use Rattle.ept_base.specs.Moves.{IsSettled, Moves};
ghost use Rattle.ept_meta.specs.Output as meta;
ghost use Rattle.ept_meta.specs.Output.{File, names_of};
ghost use Rattle.ept_point.specs.declared.point.Point.{Point};
ghost use Rattle.ept_node.specs.Shown.{IsTelling};
ghost use Rattle.ept_forest.specs.Slots as trees;
ghost use Rattle.ept_octree.specs.Octree.{forest_of, nodes_of, most_of, cache_of};
ghost use Rattle.ept_save.specs.Done.{IsDone};
ghost use Rattle.ept_save.specs.Names.{done_name};
ghost use Rattle.ept_save.specs.Opening.{lines_of};
ghost use Rattle.ept_save.specs.SoundLaws.{HasNamesOf};
ghost use Rattle.ept_point.specs.declared.layout.Layout.TheVariants.{Old};
ghost use Rattle.ept_save.specs.Tiles.{IsOfLayout};
ghost use Rattle.ept_save.specs.View.{View, StandsFor};
ghost use Rattle.ept_save.specs.Loading.{HasNoDamage};
ghost use Rattle.ept_plan.specs.Plans.{IsPlan};
ghost use Rattle.ept_build.specs.Phases.{IsBegun, HasRoom, IsTreeOf, AreLoaded, IsReady, HasInsertedFirst, IsOnWay, IsSoundAt, IsSoundTaken, TakesUp, Renews, IsStartFault, IsRenewFault, IsRoomFault, IsStoreFault};
ghost use Rattle.ept_build.specs.Starting.{FindsCause};

use crate::error::BuildError;
use crate::progress::Progress;
use ept_base::{PutError, Room, SpillFile, Store};
use ept_config::Config;
use ept_meta::rules_of;
use ept_octree::Octree;
use ept_octree_ckpt::load_octree;
use ept_plan::Plan;
use ept_point::Layout;
use ept_save::{Saved, close_done, migrate, sound_law, sound_steps_law};
use ept_space::Rules;
use std::alloc::Global;

/// The octree of no points, with a slot for each node that it can come to have. Each slot has a spill file of the room.
/// At most `config.cache` of its nodes may be in memory at a time. After a refusal the room has its files back.
pub(crate) fn start<M: Room>(
    alloc: Global,
    config: &Config,
    room: &mut M,
    saved: Saved,
    plan: &Plan,
) -> Result<Progress<M::File>, BuildError>
    requires plan { IsPlan config.now saved.current plan.now }
    requires fresh { saved.lines ≡ lines_of saved.current }
    ensures saved { IfOk result (λ at. at.saved ≡ saved) }
    ensures begun { IfOk result (λ at.
        IsBegun M.File.held M.File.faults M.File.keeps plan.now at.inserted at.octree at.saved) }
    ensures room { IfOk result (λ at. HasRoom plan.now at.saved.current config.now.max_nodes (most_of at.octree)) }
    ensures cache { IfOk result (λ at. cache_of at.octree ≡ config.now.cache) }
    ensures counted { OnOk result (M.keeps room.new ≡ M.keeps room.old) }
    ensures only { IfErr result IsRoomFault }
    ensures spills { HasCauseOf BuildError.SpillFault (M.faults room.old) (M.faults room.new) result }
{
    let rules = rules_of(&plan.kept);
    let slots = slots_for(&rules, &saved, plan, config.max_nodes);
    match Octree::new(alloc, room, slots, config.cache, &rules) {
        Ok(octree) => Ok(Progress {
            saved,
            octree,
            inserted: plan.inserted,
        }),
        Err(PutError::Failed) => Err(BuildError::SpillFault),
        Err(PutError::Memory) => Err(BuildError::Memory),
    }
}

// How many slots the nodes can need: the most nodes that the checkpoint or the points of the plan can have, but at most
// `max`. Slots take memory, and each phase goes through all of them.
fn slots_for(rules: &Rules, saved: &Saved, plan: &Plan, max: u32) -> u32
    requires rules { rules.now ≡ meta.rules_of plan.now.kept }
    requires some { 1 ≤ max }
    ensures some { 1 ≤ result }
    ensures room { HasRoom plan.now saved.now.current max result }
{
    let group = u128::from(rules.threshold) + 1;
    let by_points = 1 + u128::from(rules.cube.depth) * (u128::from(plan.points) / group);
    let needed = by_points.max(u128::from(lines_in(saved)));
    needed.min(u128::from(max)) as u32
}

/// How many nodes the current checkpoint has.
pub(crate) fn lines_in(saved: &Saved) -> u32
    ensures { result ≡ length (lines_of saved.now.current) }
{
    match saved.current() {
        Some(checkpoint) => checkpoint.nodes.as_slice().len() as u32,
        None => 0,
    }
}

/// Takes up the work at the current checkpoint: loads its nodes, and closes the done gate. If its tiles are of the old
/// layout, the checkpoint is migrated.
pub(crate) fn take_up<F: SpillFile, T: Store>(
    alloc: Global,
    store: &mut T,
    at: &mut Progress<F>,
    plan: &Plan,
) -> Result<(), BuildError>
    requires begun { IsBegun F.held F.faults F.keeps plan.now at.old.inserted at.old.octree at.old.saved }
    ensures taken_up { OnOk result (TakesUp at.old.saved at.new.saved) }
    ensures inserted { at.new.inserted ≡ at.old.inserted }
    ensures most { most_of at.new.octree ≡ most_of at.old.octree }
    ensures cache { cache_of at.new.octree ≡ cache_of at.old.octree }
    ensures tree { OnOk result (IsTreeOf F.held F.faults F.keeps plan.now at.new.inserted at.new.octree at.new.saved) }
    ensures loaded { IsTelling F.held
        → OnOk result (AreLoaded plan.now at.old.saved.current (nodes_of F.held at.new.octree) (T.files store.old)) }
    ensures on_way { OnOk result ((shelf start : Files) (points : List Point) (output : List File)
        → IsReady shelf start at.old.saved (T.files store.old) (T.may_leave store.old)
        → HasInsertedFirst shelf at.old.saved.current points
        → HasNamesOf shelf at.old.saved.current (names_of output)
        → IsOnWay shelf points output at.new.saved (T.files store.new) (T.may_leave store.new)) }
    ensures stands { OnOk result (StandsFor at.old.saved (T.files store.old) (T.may_leave store.old)
        → StandsFor at.new.saved (T.files store.new) (T.may_leave store.new)) }
    ensures settled { OnOk result (IsSettled (T.files store.new) (T.may_leave store.new)) }
    ensures sound { (shelf start : Files)
        → IsReady shelf start at.old.saved (T.files store.old) (T.may_leave store.old)
        → Moves T.files T.may_leave T.moment T.image_since
        (λ (a b : Files). IsSoundTaken shelf at.old.saved.current b) store.old store.new }

    // Why it is refused.
    ensures only { IfErr result IsStartFault }
    ensures refused { FindsCause T.files T.may_leave T.moment T.image_since at.old.saved (most_of at.old.octree) result
        store.old store.new }
    ensures damaged_comes { OnOk result (Tells (HasNoDamage at.old.saved.current) (T.files store.old)) }
    ensures spill { result ≡ Err BuildError.SpillFault
        → 0 < trees.faults_of F.faults (trees.nodes_of (forest_of at.new.octree)) }
    ensures stores { HasCauseOf BuildError.StoreFault (T.faults store.old) (T.faults store.new) result }
{
    sound_steps_law();
    load(alloc, store, at, plan)?;
    renew(alloc, store, &mut at.saved)?;
    Ok(())
}

// Loads the nodes of the current checkpoint, and closes the done gate.
fn load<F: SpillFile, T: Store>(
    alloc: Global,
    store: &mut T,
    at: &mut Progress<F>,
    plan: &Plan,
) -> Result<(), BuildError>
    requires begun { IsBegun F.held F.faults F.keeps plan.now at.old.inserted at.old.octree at.old.saved }
    ensures saved { at.new.saved ≡ at.old.saved }
    ensures inserted { at.new.inserted ≡ at.old.inserted }
    ensures most { most_of at.new.octree ≡ most_of at.old.octree }
    ensures cache { cache_of at.new.octree ≡ cache_of at.old.octree }
    ensures tree { OnOk result ((view : View) → TakesUp at.old.saved view → ¬ IsOfLayout Old view.current
        → IsTreeOf F.held F.faults F.keeps plan.now at.new.inserted at.new.octree view) }
    ensures loaded { IsTelling F.held
        → OnOk result (AreLoaded plan.now at.old.saved.current (nodes_of F.held at.new.octree) (T.files store.old)) }
    ensures gate { OnOk result (StepsBy (SameBut done_name) (T.files store.old) (T.files store.new)) }
    ensures shut { OnOk result (Tells (λ all. ¬ IsDone all) (T.files store.new)) }
    ensures nodes { OnOk result (Tells (HasNoDamage at.old.saved.current) (T.files store.new)) }
    ensures stands { OnOk result (StandsFor at.old.saved (T.files store.old) (T.may_leave store.old)
        → StandsFor at.old.saved (T.files store.new) (T.may_leave store.new)) }
    ensures settled { OnOk result (IsSettled (T.files store.new) (T.may_leave store.new)) }
    ensures sound { (shelf start : Files)
        → IsReady shelf start at.old.saved (T.files store.old) (T.may_leave store.old)
        → Moves T.files T.may_leave T.moment T.image_since
        (λ (a b : Files). IsSoundAt shelf at.old.saved.current b) store.old store.new }

    // Why it is refused.
    ensures only { IfErr result IsStartFault }
    ensures refused { FindsCause T.files T.may_leave T.moment T.image_since at.old.saved (most_of at.old.octree) result
        store.old store.new }
    ensures damaged_comes { OnOk result (Tells (HasNoDamage at.old.saved.current) (T.files store.old)) }
    ensures spill { result ≡ Err BuildError.SpillFault
        → 0 < trees.faults_of F.faults (trees.nodes_of (forest_of at.new.octree)) }
    ensures stores { HasCauseOf BuildError.StoreFault (T.faults store.old) (T.faults store.new) result }
{
    sound_law();
    sound_steps_law();
    load_octree(alloc, store, &at.saved, &mut at.octree)?;
    close_done(alloc, store)?;
    Ok(())
}

// Migrates the current checkpoint, if its tiles are of the old layout.
fn renew<T: Store>(alloc: Global, store: &mut T, saved: &mut Saved) -> Result<(), BuildError>
    requires fresh { saved.old.lines ≡ lines_of saved.old.current }
    ensures taken_up { OnOk result (TakesUp saved.old saved.new) }
    ensures newest { OnOk result (¬ IsOfLayout Old saved.new.current) }
    ensures renews { (stands : StandsFor saved.old (T.files store.old) (T.may_leave store.old))
        → Moves T.files T.may_leave T.moment T.image_since (Renews saved.old.current stands.all) store.old store.new }
    ensures stands { OnOk result (StandsFor saved.old (T.files store.old) (T.may_leave store.old)
        → StandsFor saved.new (T.files store.new) (T.may_leave store.new)) }
    ensures settled { OnOk result (IsSettled (T.files store.old) (T.may_leave store.old)
        → IsSettled (T.files store.new) (T.may_leave store.new)) }
    ensures only { IfErr result IsRenewFault }
    ensures undamaged { (all : Files) → T.files store.old ≡ Some all → HasNoDamage saved.old.current all
        → IfErr result IsStoreFault }
    ensures stores { HasCauseOf BuildError.StoreFault (T.faults store.old) (T.faults store.new) result }
{
    if !is_old(saved) {
        return Ok(());
    }
    migrate(alloc, store, saved)?;
    Ok(())
}

// Whether the tiles of the current checkpoint are of the old layout.
pub(crate) fn is_old(saved: &Saved) -> bool
    ensures { IsTrue result ↔ IsOfLayout Old saved.now.current }
{
    match saved.current() {
        Some(checkpoint) => checkpoint.version.layout() == Layout::Old,
        None => false,
    }
}
