//! The merge of a run, and the build that follows it.

ghost use Rattle.std.specs.Prelude.{◌≡◌, ◌≢◌, ◌⊎◌, ◌↔◌, ◌≤◌, ◌+◌, ◌^◌, ℕ, List, None, Some, Ok, Err, IsOk, IfOk, IfErr, OnOk};
ghost use Rattle.ept_base.specs.Causes.{Rose, HasCauseOf};
ghost use Rattle.ept_base.specs.Files.{Files, SameFiles, Tells};
ghost use Rattle.ept_base.specs.Moves.{Moves, IsSettled};
ghost use Rattle.ept_config_text.specs.declared.config_error.ConfigError.{ConfigError};
ghost use Rattle.ept_save.specs.Sound.{IsSound};
ghost use Rattle.ept_build.specs.declared.error.BuildError as b;
ghost use Rattle.ept_build.specs.Building as building;
ghost use Rattle.ept_build.specs.Building.{BeginsWith};
ghost use Rattle.ept_merge.specs.declared.error.MergeError as merge;
ghost use Rattle.ept_merge.specs.Merging as merging;
ghost use Rattle.ept_merge.specs.Merging.{AreAllParts, AreSoundParts};
ghost use Rattle.ept_command.specs.declared.ended.Failure.TheVariants as failure;
ghost use Rattle.ept_command.specs.declared.refusal.Refusal.TheVariants as refusal;
ghost use Rattle.ept_command.specs.declared.refusal.MergeRefusal.TheVariants.{HasCheckpoint};
ghost use Rattle.ept_run.specs.Errors.{of_build};
ghost use Rattle.ept_run.specs.Answers.{Says};
ghost use Rattle.ept_run.specs.Merges.{of_merge, as_build, part_text, IsFaultOfParts, IsEarlyMerge, FailsMerge, ReportsMerge, ComesToMerge, IsMergeReported, EndsMerge, FailsAsMerge};

use crate::answers::{refuse, refuse_memory, say, write_line};
use crate::lines::{HAS_CHECKPOINT_LINE, octants_line, summary_line};
use crate::parting::refuse_shallow;
use crate::refusal::{merge_refusal_of, refusal_of};
use ept_base::{Gate, Room, Shelf, Sink, Store};
use ept_build::{Summary, build};
use ept_command::status::{DAMAGED, NOT_MERGED};
use ept_command::{Ended, Failure, MergeRefusal, PartRefusal, read_configuration};
use ept_config::Config;
use ept_merge::merge;
use ept_save::sound_steps_law;
use std::alloc::Global;
use std::sync::Wait;
use std::thread::Threads;

/// Merges these parts of the build of the configuration of this path, finishes the build, and writes the line that says
/// so, or why not.
pub(crate) fn answer_merge<
    H: Shelf,
    T: Store,
    M: Room,
    O: Sink,
    G: Gate + Sync,
    R: Threads + Wait + Sync,
>(
    rt: &R,
    alloc: Global,
    path: &str,
    parts: &[u8],
    shelf: &mut H,
    store: &mut T,
    room: &mut M,
    out: &mut O,
    gate: &G,
) -> Ended
where
    H::Source: Send,
    M::File: Send + Sync,
    requires all { AreAllParts parts.now }
    ensures ends { (ends : EndsMerge path.now parts.now result.status (H.files shelf.old) (T.files store.old)
        (BeginsWith M.File.held (H.files shelf.old) (T.files store.old) (T.may_leave store.old)) (T.files store.new)
        (IsSettled (T.files store.new) (T.may_leave store.new)) (Moves T.files T.may_leave T.moment T.image_since SameFiles store.old store.new)
        (O.written out.old) (O.written out.new) (Rose (H.faults shelf.old) (H.faults shelf.new))
        (Rose (T.faults store.old) (T.faults store.new)) (Rose (M.faults room.old) (M.faults room.new))
        (Rose (O.faults out.old) (O.faults out.new)))
        × FailsAsMerge ends.outcome result.failure }
    ensures failure { (result.status ≡ 0) ↔ (result.failure ≡ None) }
    ensures not_usage { result.status ≢ 2 }
    ensures fault { result.status ≡ 7 → Rose (H.faults shelf.old) (H.faults shelf.new)
        ⊎ Rose (T.faults store.old) (T.faults store.new) ⊎ Rose (M.faults room.old) (M.faults room.new)
        ⊎ Rose (O.faults out.old) (O.faults out.new) }
    ensures sound { (all start : Files) → BeginsWith M.File.held (H.files shelf.old) (T.files store.old) (T.may_leave store.old) all start
        → AreSoundParts all start parts.now
        → Moves T.files T.may_leave T.moment T.image_since (λ (a b : Files). IsSound all b) store.old store.new }
    ensures given { result.status ≡ 3 → H.given shelf.new ≤ H.given shelf.old + (2 ^ 24 + 1) }
    ensures files { H.files shelf.new ≡ H.files shelf.old }
{
    let outcome = merge_and_build(rt, alloc, path, parts, shelf, store, room, gate);
    report(alloc, out, outcome)
}

// Merges these parts of the build of the configuration of this path, and finishes the build.
fn merge_and_build<H: Shelf, T: Store, M: Room, G: Gate + Sync, R: Threads + Wait + Sync>(
    rt: &R,
    alloc: Global,
    path: &str,
    parts: &[u8],
    shelf: &mut H,
    store: &mut T,
    room: &mut M,
    gate: &G,
) -> Result<Summary, MergeRefusal>
where
    H::Source: Send,
    M::File: Send + Sync,
    requires all { AreAllParts parts.now }
    ensures comes_to { ComesToMerge path.now parts.now result (H.files shelf.old) (T.files store.old)
        (BeginsWith M.File.held (H.files shelf.old) (T.files store.old) (T.may_leave store.old)) (T.files store.new)
        (IsSettled (T.files store.new) (T.may_leave store.new)) (Moves T.files T.may_leave T.moment T.image_since SameFiles store.old store.new)
        (Rose (H.faults shelf.old) (H.faults shelf.new)) (Rose (T.faults store.old) (T.faults store.new))
        (Rose (M.faults room.old) (M.faults room.new)) }
    ensures named { IfErr result (λ r. r ≢ as_build refusal.Usage) }
    ensures sound { (all start : Files) → BeginsWith M.File.held (H.files shelf.old) (T.files store.old) (T.may_leave store.old) all start
        → AreSoundParts all start parts.now
        → Moves T.files T.may_leave T.moment T.image_since (λ (a b : Files). IsSound all b) store.old store.new }
    ensures given { (error : ConfigError) → result ≡ Err (as_build (refusal.BadConfiguration error))
        → H.given shelf.new ≤ H.given shelf.old + (2 ^ 24 + 1) }
    ensures files { H.files shelf.new ≡ H.files shelf.old }
{
    sound_steps_law();
    let config = read_configuration(alloc, shelf, path)?;
    merge_parts(alloc, &config, parts, shelf, store)?;
    build_merged(rt, alloc, &config, shelf, store, room, gate)
}

// Merges these parts of the build of a configuration.
fn merge_parts<H: Shelf, T: Store>(
    alloc: Global,
    config: &Config,
    parts: &[u8],
    shelf: &mut H,
    store: &mut T,
) -> Result<(), MergeRefusal>
    requires all { AreAllParts parts.now }
    ensures merged { OnOk result (Tells (λ all. Tells (merging.HasMerged all config.now) (T.files store.new)) (H.files shelf.old)) }
    ensures accepted { OnOk result (Tells (λ all. Tells (λ start. merging.WereMerged all start config.now parts.now)
        (T.files store.old)) (H.files shelf.old)) }
    ensures settled { OnOk result (IsSettled (T.files store.new) (T.may_leave store.new)) }
    ensures sound { (all start : Files) → H.files shelf.old ≡ Some all → T.files store.old ≡ Some start
        → IsSettled (T.files store.old) (T.may_leave store.old) → IsSound all start → AreSoundParts all start parts.now
        → Moves T.files T.may_leave T.moment T.image_since (λ (a b : Files). IsSound all b) store.old store.new }
    ensures refused { IfErr result (λ r. (error : merge.MergeError) × (r ≡ of_merge error)
        × Tells (λ all. Tells (λ start. merging.IsRefused all start config.now parts.now error) (T.files store.old)) (H.files shelf.old)) }
    ensures ready { Tells (λ all. Tells (λ start. merging.AreReady all start config.now parts.now
        → IsOk result ⊎ FailsMerge result) (T.files store.old)) (H.files shelf.old) }
    ensures comes { Tells (λ all. Tells (λ start. (error : merge.MergeError) → merging.IsDefinite error
        → merging.IsRefused all start config.now parts.now error
        → ReportsMerge (of_merge error) result ⊎ FailsMerge result) (T.files store.old)) (H.files shelf.old) }
    ensures own { (all start : Files) → H.files shelf.old ≡ Some all → T.files store.old ≡ Some start
        → merging.AreOwnParts all config.now start parts.now → IfErr result (λ r. ¬ IsFaultOfParts r) }
    ensures early { IfErr result (λ r. IsEarlyMerge r
        → Moves T.files T.may_leave T.moment T.image_since SameFiles store.old store.new) }
    ensures files { H.files shelf.new ≡ H.files shelf.old }
    ensures sources { HasCauseOf (as_build refusal.SourceFault) (H.faults shelf.old) (H.faults shelf.new) result }
    ensures stores { HasCauseOf (as_build refusal.StoreFault) (T.faults store.old) (T.faults store.new) result }
{
    match merge(alloc, config, parts, shelf, store) {
        Ok(()) => Ok(()),
        Err(error) => Err(merge_refusal_of(error)),
    }
}

// Finishes the build of a configuration, the parts of which are merged.
fn build_merged<H: Shelf, T: Store, M: Room, G: Gate + Sync, R: Threads + Wait + Sync>(
    rt: &R,
    alloc: Global,
    config: &Config,
    shelf: &mut H,
    store: &mut T,
    room: &mut M,
    gate: &G,
) -> Result<Summary, MergeRefusal>
where
    H::Source: Send,
    M::File: Send + Sync,
    ensures built { (all start : Files) → BeginsWith M.File.held (H.files shelf.old) (T.files store.old) (T.may_leave store.old) all start
        → IfOk result (λ summary. Tells (building.IsBuilt all config.now start summary) (T.files store.new)) }
    ensures settled { OnOk result (IsSettled (T.files store.new) (T.may_leave store.new)) }
    ensures sound { (all start : Files) → BeginsWith M.File.held (H.files shelf.old) (T.files store.old) (T.may_leave store.old) all start
        → Moves T.files T.may_leave T.moment T.image_since (λ (a b : Files). IsSound all b) store.old store.new }
    ensures refused { IfErr result (λ r. (error : b.BuildError) × (r ≡ as_build (of_build error))
        × ((all start : Files) → BeginsWith M.File.held (H.files shelf.old) (T.files store.old) (T.may_leave store.old) all start
        → building.IsRefused all config.now start error)) }
    ensures accepted { (all start : Files) → BeginsWith M.File.held (H.files shelf.old) (T.files store.old) (T.may_leave store.old) all start
        → building.IsAccepted all config.now start → IsOk result ⊎ FailsMerge result }
    ensures files { H.files shelf.new ≡ H.files shelf.old }
    ensures sources { HasCauseOf (as_build refusal.SourceFault) (H.faults shelf.old) (H.faults shelf.new) result }
    ensures stores { HasCauseOf (as_build refusal.StoreFault) (T.faults store.old) (T.faults store.new) result }
    ensures spills { HasCauseOf (as_build refusal.SpillFault) (M.faults room.old) (M.faults room.new) result }
{
    match build(rt, alloc, config, shelf, store, room, gate) {
        Ok(summary) => Ok(summary),
        Err(error) => Err(MergeRefusal::from(refusal_of(error))),
    }
}

// Writes the line of what a merge comes to. If there is no memory to make it, the merge ends as one that ran out of it.
fn report<O: Sink>(alloc: Global, out: &mut O, outcome: Result<Summary, MergeRefusal>) -> Ended
    ensures { IsMergeReported outcome result.status result.failure (O.written out.old) (O.written out.new) (Rose (O.faults out.old) (O.faults out.new))
        ⊎ IsMergeReported (Err (as_build refusal.Memory)) result.status result.failure (O.written out.old) (O.written out.new) (Rose (O.faults out.old) (O.faults out.new)) }
{
    match outcome {
        Ok(summary) => report_built(alloc, out, summary),
        Err(refused) => report_refused(alloc, out, refused),
    }
}

// Writes the line of a build that is finished.
fn report_built<O: Sink>(alloc: Global, out: &mut O, summary: Summary) -> Ended
    ensures { IsMergeReported (Ok summary) result.status result.failure (O.written out.old) (O.written out.new) (Rose (O.faults out.old) (O.faults out.new))
        ⊎ IsMergeReported (Err (as_build refusal.Memory)) result.status result.failure (O.written out.old) (O.written out.new) (Rose (O.faults out.old) (O.faults out.new)) }
{
    match summary_line(alloc, summary) {
        Ok(line) => say(out, line),
        Err(_) => refuse_memory(out),
    }
}

// Writes the line of parts that are not merged.
fn report_refused<O: Sink>(alloc: Global, out: &mut O, refused: MergeRefusal) -> Ended
    ensures { IsMergeReported (Err refused) result.status result.failure (O.written out.old) (O.written out.new) (Rose (O.faults out.old) (O.faults out.new))
        ⊎ IsMergeReported (Err (as_build refusal.Memory)) result.status result.failure (O.written out.old) (O.written out.new) (Rose (O.faults out.old) (O.faults out.new)) }
{
    match refused {
        MergeRefusal::AsPart(PartRefusal::AsBuild(cause)) => refuse(alloc, out, cause),
        MergeRefusal::AsPart(PartRefusal::Shallow) => refuse_shallow(out),
        MergeRefusal::HasCheckpoint => refuse_checkpoint(out),
        MergeRefusal::NoPart { octants } => {
            refuse_for(alloc, out, refused, NOT_MERGED, b"error 6 part ", octants)
        }
        MergeRefusal::PartDiffers { octants } => {
            refuse_for(
                alloc,
                out,
                refused,
                NOT_MERGED,
                b"error 6 differs ",
                octants,
            )
        }
        MergeRefusal::PartDamaged { octants, .. } => {
            refuse_for(alloc, out, refused, DAMAGED, b"error 8 part ", octants)
        }
    }
}

// Writes the line of a folder that has a checkpoint. It takes no memory.
fn refuse_checkpoint<O: Sink>(out: &mut O) -> Ended
    ensures { IsMergeReported (Err HasCheckpoint) result.status result.failure (O.written out.old) (O.written out.new) (Rose (O.faults out.old) (O.faults out.new)) }
{
    write_line(out, HAS_CHECKPOINT_LINE);
    Ended {
        status: NOT_MERGED,
        failure: Some(Failure::MergeRefused(MergeRefusal::HasCheckpoint)),
    }
}

// Ends with this status, and writes this word and the octants of the part that a refusal names.
fn refuse_for<O: Sink>(
    alloc: Global,
    out: &mut O,
    refused: MergeRefusal,
    status: u8,
    word: &[u8],
    octants: u8,
) -> Ended
    ensures { ((result.status ≡ status) × (result.failure ≡ Some (failure.MergeRefused refused))
        × Says (part_text word.now octants) (O.written out.old) (O.written out.new) (Rose (O.faults out.old) (O.faults out.new)))
        ⊎ IsMergeReported (Err (as_build refusal.Memory)) result.status result.failure (O.written out.old) (O.written out.new) (Rose (O.faults out.old) (O.faults out.new)) }
{
    match octants_line(alloc, word, octants) {
        Ok(line) => {
            write_line(out, &line);
            Ended {
                status,
                failure: Some(Failure::MergeRefused(refused)),
            }
        }
        Err(_) => refuse_memory(out),
    }
}
