//! The commands: each returns the line that it ends with, or why it is refused.

ghost use Rattle.std.specs.Prelude.{◌≡◌, ◌⊎◌, ◌≤◌, ◌+◌, ◌^◌, ℕ, [], ◌∷◌, take, Err, Some, IsOk, IfOk, IfErr, OnOk};
ghost use Rattle.ept_base.specs.Causes.{HasCauseOf};
ghost use Rattle.ept_base.specs.Files.{Files, SameFiles, Tells};
ghost use Rattle.ept_base.specs.Moves.{Moves, IsSettled};
ghost use Rattle.ept_config_text.specs.declared.config_error.ConfigError.{ConfigError};
ghost use Rattle.ept_scan.specs.Asking.{AsksFor};
ghost use Rattle.ept_las.specs.declared.header.Header as found;
ghost use Rattle.ept_save.specs.Sound.{IsSound};
ghost use Rattle.ept_build.specs.Building.{BeginsWith};
ghost use Rattle.ept_run.specs.Builds.{ComesToBuild};
ghost use Rattle.ept_run.specs.Lines.{summary_text, header_text};
ghost use Rattle.ept_run.specs.Requests.{IsBuiltAt, HasBuilt, AsksForBuild, IsDoneAt, HasSpilled, HasTold, HasHeader, InfoIsRefused, IsOfHeader, IsDefinite, Fails, HasTrial};

use crate::files::read_file_header;
use crate::lines::{header_line, outcome_line, summary_line};
use crate::refusal::refusal_of;
use ept_base::{Gate, Room, Shelf, Store};
use ept_build::{Summary, build};
use ept_command::{Refusal, read_configuration};
use ept_save::sound_steps_law;
use ept_trial::build_trial;
use std::alloc::Global;
use std::sync::Wait;
use std::thread::Threads;

/// Builds the octree of the configuration of this path, and returns the line that says so.
///
/// # Errors
///
/// Those of the configuration, and then those of [`build`]. `Memory` may also come after all is built, if the
/// line can't be made.
pub(crate) fn build_line<H: Shelf, T: Store, M: Room, G: Gate + Sync, R: Threads + Wait + Sync>(
    rt: &R,
    alloc: Global,
    path: &str,
    shelf: &mut H,
    store: &mut T,
    room: &mut M,
    gate: &G,
) -> Result<Vec<u8>, Refusal>
where
    H::Source: Send,
    M::File: Send + Sync,
    ensures built { IfOk result (λ line. Tells
        (λ all. HasBuilt all (BeginsWith M.File.held (H.files shelf.old) (T.files store.old) (T.may_leave store.old)) path.now line.items (T.files store.new))
        (H.files shelf.old)) }
    ensures said { IfOk result (λ line. (points nodes : ℕ) × (line.items ≡ summary_text points nodes)) }
    ensures settled { OnOk result (IsSettled (T.files store.new) (T.may_leave store.new)) }
    ensures kept { (all start : Files) → BeginsWith M.File.held (H.files shelf.old) (T.files store.old) (T.may_leave store.old) all start
        → OnOk result (HasSpilled all start (M.keeps room.old) (M.keeps room.new) path.now) }
    ensures comes_to { ComesToBuild path.now result (H.files shelf.old) (T.files store.old)
        (BeginsWith M.File.held (H.files shelf.old) (T.files store.old) (T.may_leave store.old)) (T.files store.new)
        (IsSettled (T.files store.old) (T.may_leave store.old))
        (Moves T.files T.may_leave T.moment T.image_since SameFiles store.old store.new) }
    ensures sources { HasCauseOf Refusal.SourceFault (H.faults shelf.old) (H.faults shelf.new) result }
    ensures stores { HasCauseOf Refusal.StoreFault (T.faults store.old) (T.faults store.new) result }
    ensures spills { HasCauseOf Refusal.SpillFault (M.faults room.old) (M.faults room.new) result }
    ensures sound { (all start : Files) → BeginsWith M.File.held (H.files shelf.old) (T.files store.old) (T.may_leave store.old) all start
        → Moves T.files T.may_leave T.moment T.image_since (λ (a b : Files). IsSound all b) store.old store.new }
    ensures done_already { (all start : Files) → BeginsWith M.File.held (H.files shelf.old) (T.files store.old) (T.may_leave store.old) all start
        → IsDoneAt all start path.now
        → Moves T.files T.may_leave T.moment T.image_since SameFiles store.old store.new }
    ensures asked { (start : Files) → T.files store.old ≡ Some start
        → AsksForBuild (H.files shelf.old) start path.now (H.asked shelf.old) (H.asked shelf.new) }
    ensures given { (error : ConfigError) → result ≡ Err (Refusal.BadConfiguration error)
        → H.given shelf.new ≤ H.given shelf.old + (2 ^ 24 + 1) }
    ensures files { H.files shelf.new ≡ H.files shelf.old }
{
    let summary = carry_out_build(rt, alloc, path, shelf, store, room, gate)?;
    let line = summary_line(alloc, summary)?;
    Ok(line)
}

// Builds the octree of the configuration of this path.
fn carry_out_build<H: Shelf, T: Store, M: Room, G: Gate + Sync, R: Threads + Wait + Sync>(
    rt: &R,
    alloc: Global,
    path: &str,
    shelf: &mut H,
    store: &mut T,
    room: &mut M,
    gate: &G,
) -> Result<Summary, Refusal>
where
    H::Source: Send,
    M::File: Send + Sync,
    ensures built { IfOk result (λ summary. Tells
        (λ all. IsBuiltAt all (BeginsWith M.File.held (H.files shelf.old) (T.files store.old) (T.may_leave store.old)) path.now summary (T.files store.new))
        (H.files shelf.old)) }
    ensures settled { OnOk result (IsSettled (T.files store.new) (T.may_leave store.new)) }
    ensures kept { (all start : Files) → BeginsWith M.File.held (H.files shelf.old) (T.files store.old) (T.may_leave store.old) all start
        → OnOk result (HasSpilled all start (M.keeps room.old) (M.keeps room.new) path.now) }
    ensures comes_to { ComesToBuild path.now result (H.files shelf.old) (T.files store.old)
        (BeginsWith M.File.held (H.files shelf.old) (T.files store.old) (T.may_leave store.old)) (T.files store.new)
        (IsSettled (T.files store.old) (T.may_leave store.old))
        (Moves T.files T.may_leave T.moment T.image_since SameFiles store.old store.new) }
    ensures sources { HasCauseOf Refusal.SourceFault (H.faults shelf.old) (H.faults shelf.new) result }
    ensures stores { HasCauseOf Refusal.StoreFault (T.faults store.old) (T.faults store.new) result }
    ensures spills { HasCauseOf Refusal.SpillFault (M.faults room.old) (M.faults room.new) result }
    ensures sound { (all start : Files) → BeginsWith M.File.held (H.files shelf.old) (T.files store.old) (T.may_leave store.old) all start
        → Moves T.files T.may_leave T.moment T.image_since (λ (a b : Files). IsSound all b) store.old store.new }
    ensures done_already { (all start : Files) → BeginsWith M.File.held (H.files shelf.old) (T.files store.old) (T.may_leave store.old) all start
        → IsDoneAt all start path.now
        → Moves T.files T.may_leave T.moment T.image_since SameFiles store.old store.new }
    ensures asked { (start : Files) → T.files store.old ≡ Some start
        → AsksForBuild (H.files shelf.old) start path.now (H.asked shelf.old) (H.asked shelf.new) }
    ensures given { (error : ConfigError) → result ≡ Err (Refusal.BadConfiguration error)
        → H.given shelf.new ≤ H.given shelf.old + (2 ^ 24 + 1) }
    ensures files { H.files shelf.new ≡ H.files shelf.old }
{
    sound_steps_law();
    let config = read_configuration(alloc, shelf, path)?;
    match build(rt, alloc, &config, shelf, store, room, gate) {
        Ok(summary) => Ok(summary),
        Err(error) => Err(refusal_of(error)),
    }
}

/// The line that reports what the header of the LAS file of this path says.
///
/// # Errors
///
/// Those of the header, and `Memory`.
pub(crate) fn info_line<H: Shelf>(
    alloc: Global,
    shelf: &mut H,
    path: &str,
) -> Result<Vec<u8>, Refusal>
    ensures told { IfOk result (λ line. Tells (λ all. HasTold all path.now line.items) (H.files shelf.old)) }
    ensures said { IfOk result (λ line. (header : found.Header) × (line.items ≡ header_text header)) }
    ensures refused { IfErr result (λ r. Tells (λ all. InfoIsRefused all path.now r) (H.files shelf.old)) }
    ensures refusal_comes { Tells (λ all. (r : Refusal) → IsDefinite r → InfoIsRefused all path.now r
        → (result ≡ Err r) ⊎ Fails result) (H.files shelf.old) }
    ensures accepted { Tells (λ all. (header : found.Header) → HasHeader all path.now header
        → IsOk result ⊎ Fails result) (H.files shelf.old) }
    ensures causes { IfErr result IsOfHeader }
    ensures sources { HasCauseOf Refusal.SourceFault (H.faults shelf.old) (H.faults shelf.new) result }
    ensures asked { (n : ℕ) × AsksFor (take n (path.now ∷ [])) (H.asked shelf.old) (H.asked shelf.new) }
    ensures given { H.given shelf.new ≤ H.given shelf.old + 375 }
    ensures files { H.files shelf.new ≡ H.files shelf.old }
{
    let header = read_file_header(shelf, path)?;
    let line = header_line(alloc, header)?;
    Ok(line)
}

/// Builds the octree of the generated scans of `points` points in memory, with `workers` workers and `cache` nodes
/// at a time. Returns the line that reports what it comes to.
///
/// # Errors
///
/// `Memory`, and nothing else.
pub(crate) fn trial_line<R: Threads + Wait + Sync>(
    rt: &R,
    alloc: Global,
    points: u32,
    workers: u32,
    cache: u32,
) -> Result<Vec<u8>, Refusal>
    requires few { points ≤ 10000000 }
    requires some { 1 ≤ workers }
    requires threads { workers ≤ 64 }
    requires room { workers ≤ cache }
    requires bounded { cache ≤ 65536 }
    ensures told { IfOk result (λ line. HasTrial points line.items) }
    ensures refused { IfErr result (λ r. r ≡ Refusal.Memory) }
{
    let trial = build_trial(rt, alloc, points, workers, cache)?;
    let line = outcome_line(alloc, trial)?;
    Ok(line)
}
