//! Parts of a build, merged.

ghost use Rattle.std.specs.Prelude.{◌≡◌, ◌≢◌, ◌⊎◌, ◌<◌, ◌++◌, [], List, Some, Err, IsOk, IfOk, IfErr, OnOk, length};
ghost use Rattle.ept_base.specs.Causes.{HasCauseOf};
ghost use Rattle.ept_base.specs.Files.{Files, SameFiles, Tells};
ghost use Rattle.ept_base.specs.Moves.{Moves, IsSettled};
ghost use Rattle.ept_point.specs.declared.point.Point as p;
ghost use Rattle.ept_meta.specs.Output as meta;
ghost use Rattle.ept_save.specs.Current.{HasCurrent};
ghost use Rattle.ept_save.specs.Sound.{IsSound};
ghost use Rattle.ept_plan.specs.Plans.{IsPlan, HasPoints};
ghost use Rattle.ept_merge.specs.Errors.{IsOfTiles};
ghost use Rattle.ept_merge.specs.Merging.{AreAllParts, HasMerged, WereMerged, IsRefused, IsDefinite, Fails, Reports, AreReady, AreOwnParts, IsPartFault, KeepsParts, AreSoundParts};
ghost use Rattle.ept_merge.specs.Steps.{IsFresh};
ghost use Rattle.ept_merge.specs.Joining.{roots_of};
ghost use Rattle.ept_merge.specs.Putting.{AreIntact, AreLike, IsPartsFault, WereMergeable, IsMergeFault, IsNodesFault, AreMergeable, FitTogether, IsCommitted, AreOfParts};

use crate::bodies::{PartBody, bodies_of};
use crate::error::MergeError;
use crate::joining::{PartNode, together};
use crate::planning::{open_fresh, plan_of};
use crate::putting::{judge, put_nodes};
use ept_base::{Shelf, Store};
use ept_ckpt::body_once_law;
use ept_config::Config;
use ept_meta::{output_once_law, rules_of};
use ept_parts::{merge_law, parts_law};
use ept_plan::Plan;
use ept_point::tile_once_law;
use ept_save::{Saved, begin, commit, sound_law, sound_steps_law};
use ept_scan::whole_extent;
use ept_space::Rules;
use std::alloc::Global;

/// Merges the parts of a build. Each part is given by its octants, bit o for octant o. The tiles of the parts become
/// those of the first checkpoint, which has all points of the inputs. A build with the same configuration then
/// publishes it.
///
/// The inputs are scanned first, as for a build. The nodes below the root are taken one at a time, and the root is
/// joined from those of all parts. The parts stay as they are.
///
/// # Errors
///
/// The first cause in the order in which [`MergeError`] lists them. A fault of the store may come at each of its calls,
/// and `Memory` at any time.
pub fn merge<H: Shelf, T: Store>(
    alloc: Global,
    config: &Config,
    parts: &[u8],
    shelf: &mut H,
    store: &mut T,
) -> Result<(), MergeError>
    requires { AreAllParts parts.now }

    // On success the current checkpoint has all points of the inputs, and nothing refused the parts.
    ensures merged { OnOk result (Tells (λ all. Tells (HasMerged all config.now) (T.files store.new)) (H.files shelf.old)) }
    ensures accepted { OnOk result (Tells (λ all. Tells (λ start. WereMerged all start config.now parts.now)
        (T.files store.old)) (H.files shelf.old)) }
    ensures settled { OnOk result (IsSettled (T.files store.new) (T.may_leave store.new)) }

    // At every moment the files of the parts are as before, and the files are sound, if they and the parts were so.
    ensures parts_stay { Moves T.files T.may_leave T.moment T.image_since KeepsParts store.old store.new }
    ensures sound { (all start : Files) → H.files shelf.old ≡ Some all → T.files store.old ≡ Some start
        → IsSettled (T.files store.old) (T.may_leave store.old) → IsSound all start → AreSoundParts all start parts.now
        → Moves T.files T.may_leave T.moment T.image_since
        (λ (old : Files) (new : Files). IsSound all new) store.old store.new }

    // What comes of it: parts that nothing refuses are merged, and so are those that were made from these inputs with
    // this configuration. What refuses them is reported. Each unless a device fails or memory runs out.
    ensures complete { Tells (λ all. Tells (λ start. WereMerged all start config.now parts.now → IsOk result ⊎ Fails result)
        (T.files store.old)) (H.files shelf.old) }
    ensures ready { Tells (λ all. Tells (λ start. AreReady all start config.now parts.now → IsOk result ⊎ Fails result)
        (T.files store.old)) (H.files shelf.old) }
    ensures comes { Tells (λ all. Tells (λ start. (e : MergeError) → IsDefinite e
        → IsRefused all start config.now parts.now e → Reports e result ⊎ Fails result) (T.files store.old)) (H.files shelf.old) }

    // Why it is refused: never for parts that are sound and made from these inputs with this configuration. Nothing is
    // put before a refusal, except one of the store, out of memory, or a damaged tile.
    ensures refused { IfErr result (λ e. Tells (λ all. Tells (λ start. IsRefused all start config.now parts.now e)
        (T.files store.old)) (H.files shelf.old)) }
    ensures own { (all start : Files) → H.files shelf.old ≡ Some all → T.files store.old ≡ Some start
        → AreOwnParts all config.now start parts.now → IfErr result (λ e. ¬ IsPartFault e) }
    ensures early { IfErr result (λ e. ¬ IsOfTiles e
        → Moves T.files T.may_leave T.moment T.image_since SameFiles store.old store.new) }
    ensures files { H.files shelf.new ≡ H.files shelf.old }
    ensures sources { HasCauseOf MergeError.SourceFault (H.faults shelf.old) (H.faults shelf.new) result }
    ensures stores { HasCauseOf MergeError.StoreFault (T.faults store.old) (T.faults store.new) result }
{
    sound_law();
    sound_steps_law();
    body_once_law();
    tile_once_law();
    output_once_law();
    let mut saved = open_fresh(alloc, store)?;
    let plan = plan_of(alloc, config, shelf)?;
    merge_plan(alloc, config, parts, store, &mut saved, &plan)
}

// Merges the parts of a plan, in a folder without a checkpoint.
fn merge_plan<T: Store>(
    alloc: Global,
    config: &Config,
    parts: &[u8],
    store: &mut T,
    saved: &mut Saved,
    plan: &Plan,
) -> Result<(), MergeError>
    requires parts { AreAllParts parts.now }
    requires plan { IsPlan config.now None plan.now }
    requires deep { 0 < (meta.rules_of plan.now.kept).cube.depth }
    requires fresh { IsFresh saved.old }
    requires none { Tells (HasCurrent None) (T.files store.old) }
    ensures merged { OnOk result (Tells (IsCommitted plan.now) (T.files store.new)) }
    ensures accepted { OnOk result (Tells (WereMergeable plan.now config.now.max_nodes parts.now) (T.files store.old)) }
    ensures settled { OnOk result (IsSettled (T.files store.new) (T.may_leave store.new)) }
    ensures parts_stay { Moves T.files T.may_leave T.moment T.image_since KeepsParts store.old store.new }
    ensures sound { (all start : Files) (points : List p.Point) → T.files store.old ≡ Some start
        → IsSettled (T.files store.old) (T.may_leave store.old) → IsSound all start
        → HasPoints all config.now None plan.now points → AreSoundParts all start parts.now
        → Moves T.files T.may_leave T.moment T.image_since
        (λ (old : Files) (new : Files). IsSound all new) store.old store.new }
    ensures refused { IfErr result (λ e. Tells (IsPartsFault plan.now config.now.max_nodes parts.now e) (T.files store.old)) }
    ensures early { IfErr result (λ e. ¬ IsOfTiles e
        → Moves T.files T.may_leave T.moment T.image_since SameFiles store.old store.new) }
    ensures no_source { result ≢ Err MergeError.SourceFault }
    ensures cause { HasCauseOf MergeError.StoreFault (T.faults store.old) (T.faults store.new) result }
{
    sound_steps_law();
    body_once_law();
    let bodies = bodies_of(alloc, store, parts, plan)?;
    let rules = rules_of(&plan.kept);
    merge_bodies(alloc, config, store, saved, plan, &rules, bodies.as_slice())
}

// Merges parts whose bodies are like the plan.
fn merge_bodies<T: Store>(
    alloc: Global,
    config: &Config,
    store: &mut T,
    saved: &mut Saved,
    plan: &Plan,
    rules: &Rules,
    parts: &[PartBody],
) -> Result<(), MergeError>
    requires some { parts.now ≢ [] }
    requires plan { IsPlan config.now None plan.now }
    requires rules { rules.now ≡ meta.rules_of plan.now.kept }
    requires deep { 0 < rules.now.cube.depth }
    requires fresh { IsFresh saved.old }
    requires none { Tells (HasCurrent None) (T.files store.old) }
    requires like { AreLike plan.now parts.now }
    ensures merged { OnOk result (Tells (IsCommitted plan.now) (T.files store.new)) }
    ensures accepted { OnOk result (Tells (λ all. AreMergeable rules.now all config.now.max_nodes parts.now plan.now.points)
        (T.files store.old)) }
    ensures settled { OnOk result (IsSettled (T.files store.new) (T.may_leave store.new)) }
    ensures parts_stay { Moves T.files T.may_leave T.moment T.image_since KeepsParts store.old store.new }
    ensures sound { (all start : Files) (points : List p.Point) → T.files store.old ≡ Some start
        → IsSettled (T.files store.old) (T.may_leave store.old) → IsSound all start
        → AreOfParts all start plan.now rules.now parts.now points
        → Moves T.files T.may_leave T.moment T.image_since
        (λ (old : Files) (new : Files). IsSound all new) store.old store.new }
    ensures refused { IfErr result (λ e. Tells (λ all. IsMergeFault rules.now all config.now.max_nodes parts.now
        plan.now.points e) (T.files store.old)) }
    ensures early { IfErr result (λ e. ¬ IsOfTiles e
        → Moves T.files T.may_leave T.moment T.image_since SameFiles store.old store.new) }
    ensures no_source { result ≢ Err MergeError.SourceFault }
    ensures cause { HasCauseOf MergeError.StoreFault (T.faults store.old) (T.faults store.new) result }
{
    sound_steps_law();
    let nodes = together(alloc, parts, plan.points)?;
    place(
        alloc,
        config,
        store,
        saved,
        plan,
        rules,
        parts,
        nodes.as_slice(),
    )
}

// Puts the nodes of the parts, or judges their tiles if there are too many.
fn place<T: Store>(
    alloc: Global,
    config: &Config,
    store: &mut T,
    saved: &mut Saved,
    plan: &Plan,
    rules: &Rules,
    parts: &[PartBody],
    nodes: &[PartNode],
) -> Result<(), MergeError>
    requires some { parts.now ≢ [] }
    requires plan { IsPlan config.now None plan.now }
    requires rules { rules.now ≡ meta.rules_of plan.now.kept }
    requires deep { 0 < rules.now.cube.depth }
    requires fresh { IsFresh saved.old }
    requires none { Tells (HasCurrent None) (T.files store.old) }
    requires like { AreLike plan.now parts.now }
    requires fit { FitTogether parts.now nodes.now plan.now.points }
    ensures merged { OnOk result (Tells (IsCommitted plan.now) (T.files store.new)) }
    ensures accepted { OnOk result (Tells (λ all. AreMergeable rules.now all config.now.max_nodes parts.now plan.now.points)
        (T.files store.old)) }
    ensures settled { OnOk result (IsSettled (T.files store.new) (T.may_leave store.new)) }
    ensures parts_stay { Moves T.files T.may_leave T.moment T.image_since KeepsParts store.old store.new }
    ensures sound { (all start : Files) (points : List p.Point) → T.files store.old ≡ Some start
        → IsSettled (T.files store.old) (T.may_leave store.old) → IsSound all start
        → AreOfParts all start plan.now rules.now parts.now points
        → Moves T.files T.may_leave T.moment T.image_since
        (λ (old : Files) (new : Files). IsSound all new) store.old store.new }
    ensures refused { IfErr result (λ e. Tells (λ all. IsMergeFault rules.now all config.now.max_nodes parts.now
        plan.now.points e) (T.files store.old)) }
    ensures early { IfErr result (λ e. ¬ IsOfTiles e
        → Moves T.files T.may_leave T.moment T.image_since SameFiles store.old store.new) }
    ensures no_source { result ≢ Err MergeError.SourceFault }
    ensures cause { HasCauseOf MergeError.StoreFault (T.faults store.old) (T.faults store.new) result }
{
    let count = nodes.len() as u64;
    let most = u64::from(config.max_nodes);
    if count < most {
        return put_all(alloc, config, store, saved, plan, rules, parts, nodes);
    }
    sound_steps_law();
    judge(alloc, store, rules, parts, nodes)?;
    Err(MergeError::TooManyNodes)
}

// Puts all nodes, and makes them those of the current checkpoint.
fn put_all<T: Store>(
    alloc: Global,
    config: &Config,
    store: &mut T,
    saved: &mut Saved,
    plan: &Plan,
    rules: &Rules,
    parts: &[PartBody],
    nodes: &[PartNode],
) -> Result<(), MergeError>
    requires some { parts.now ≢ [] }
    requires plan { IsPlan config.now None plan.now }
    requires rules { rules.now ≡ meta.rules_of plan.now.kept }
    requires deep { 0 < rules.now.cube.depth }
    requires fresh { IsFresh saved.old }
    requires none { Tells (HasCurrent None) (T.files store.old) }
    requires like { AreLike plan.now parts.now }
    requires fit { FitTogether parts.now nodes.now plan.now.points }
    requires few { length nodes.now < config.now.max_nodes }
    ensures merged { OnOk result (Tells (IsCommitted plan.now) (T.files store.new)) }
    ensures intact { OnOk result (Tells (λ all. AreIntact rules.now all (roots_of parts.now ++ nodes.now)) (T.files store.old)) }
    ensures settled { OnOk result (IsSettled (T.files store.new) (T.may_leave store.new)) }
    ensures parts_stay { Moves T.files T.may_leave T.moment T.image_since KeepsParts store.old store.new }
    ensures sound { (all start : Files) (points : List p.Point) → T.files store.old ≡ Some start
        → IsSettled (T.files store.old) (T.may_leave store.old) → IsSound all start
        → AreOfParts all start plan.now rules.now parts.now points
        → Moves T.files T.may_leave T.moment T.image_since
        (λ (old : Files) (new : Files). IsSound all new) store.old store.new }
    ensures refused { IfErr result (λ e. Tells (λ all. IsNodesFault rules.now all (roots_of parts.now ++ nodes.now) e)
        (T.files store.old)) }
    ensures only { IfErr result IsOfTiles }
    ensures cause { HasCauseOf MergeError.StoreFault (T.faults store.old) (T.faults store.new) result }
{
    sound_law();
    sound_steps_law();
    body_once_law();
    output_once_law();
    parts_law();
    merge_law();
    let counts = plan.counts.as_slice();
    whole_extent(counts);
    begin(alloc, store, saved)?;
    put_nodes(alloc, store, saved, rules, parts, nodes)?;
    commit(alloc, store, saved, &plan.kept, counts, plan.points)?;
    Ok(())
}
