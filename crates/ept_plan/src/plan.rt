//! The plan of a build.

ghost use Rattle.std.specs.Prelude.{◌≡◌, ◌⊎◌, List, Err, Some, None, IsOk, IfOk, IfErr};
ghost use Rattle.ept_base.specs.Causes.{HasCauseOf};
ghost use Rattle.ept_base.specs.Files.{Tells};
ghost use Rattle.ept_point.specs.declared.point.Point.{Point};
ghost use Rattle.ept_ckpt.specs.declared.letter.Letter.{Letter};
ghost use Rattle.ept_config_diff.specs.declared.differing.Difference as differing;
ghost use Rattle.ept_scan.specs.declared.scan_error.ScanError as cause;
ghost use Rattle.ept_scan.specs.declared.scan_done.ScanDone.{ScanDone};
ghost use Rattle.ept_scan.specs.Asking.{OpensThese};
ghost use Rattle.ept_scan.specs.Scans.{IsScan};
ghost use Rattle.ept_plan.specs.Plans.{limits_by, IsPlan, ScansAll, GoesOn, DiffersBy, AreRefused, IsRefused, IsDefinite, Stops, TellsDifference, new_paths};
ghost use Rattle.ept_plan.specs.Steps.{IsFound, WhyNot};

use crate::error::PlanError;
use crate::extents::extents_known;
use crate::given::given_of;
use crate::new_inputs::all_counts;
use ept_base::Shelf;
use ept_ckpt::Checkpoint;
use ept_config::{Config, Kept, SourceCount, total_of};
use ept_point::List;
use ept_save::Saved;
use ept_scan::{ScanError, scan};
use std::alloc::Global;

/// What a build has to do: the octree of all inputs, some of whose points may be inserted already.
#[derive(Drop)]
pub struct Plan {
    /// What the output depends on.
    pub kept: Kept,
    /// What was found of each input.
    pub counts: List<SourceCount>,
    /// The number of all points.
    pub points: u64,
    /// How many points are inserted already.
    pub inserted: u64,
}

/// Compares the configuration with what the current checkpoint keeps, and scans the inputs that the checkpoint does not
/// have. The inputs that it has are not opened.
///
/// # Errors
///
/// `Differs` with the first field that differs, before an input is opened. Then the errors of [`scan`](ept_scan::scan).
pub fn make_plan<H: Shelf>(
    alloc: Global,
    config: &Config,
    shelf: &mut H,
    saved: &Saved,
) -> Result<Plan, PlanError>
    ensures plan { IfOk result (IsPlan config.now saved.now.current) }
    ensures scan { IfOk result (λ found. Tells
        (λ all. ScansAll all config.now saved.now.current found) (H.files shelf.old)) }

    // Why there is no plan, and when. Which field differs does not depend on the shelf.
    ensures refused { IfErr result (λ e. Tells (λ all. IsRefused all config.now saved.now.current e) (H.files shelf.old)) }
    ensures differs { (d : differing.Difference) → result ≡ Err (PlanError.Differs d)
        → DiffersBy config.now saved.now.current d }
    ensures differs_comes { ¬ GoesOn config.now saved.now.current → TellsDifference result }
    ensures refusal_comes { Tells (λ all. (e : cause.ScanError) → GoesOn config.now saved.now.current
        → IsDefinite e → AreRefused all config.now saved.now.current e
        → (result ≡ Err (PlanError.Scan e)) ⊎ Stops result) (H.files shelf.old) }
    ensures accepted { Tells (λ all. (points : List Point) (done : ScanDone) → GoesOn config.now saved.now.current
        → IsScan all config.now.scale (limits_by config.now.bounds saved.now.current) config.now.inputs 0 points done
        → IsOk result ⊎ Stops result) (H.files shelf.old) }

    // What the shelf is asked for: the new inputs in order, each once, and nothing if a field differs.
    ensures asked { OpensThese (new_paths config.now saved.now.current) result (H.asked shelf.old) (H.asked shelf.new) }
    ensures differs_first { ¬ GoesOn config.now saved.now.current → shelf.new ≡ shelf.old }
    ensures files { H.files shelf.new ≡ H.files shelf.old }
    ensures cause { HasCauseOf (PlanError.Scan ScanError.SourceFault) (H.faults shelf.old) (H.faults shelf.new) result }
{
    match saved.current() {
        None => first_plan(alloc, config, shelf),
        Some(checkpoint) => next_plan(alloc, config, shelf, checkpoint),
    }
}

/// Makes the plan of a first build, in a folder without a checkpoint. It scans all inputs.
///
/// # Errors
///
/// Those of [`scan`](ept_scan::scan), and never `Differs`.
pub fn first_plan<H: Shelf>(
    alloc: Global,
    config: &Config,
    shelf: &mut H,
) -> Result<Plan, PlanError>
    ensures found { IfOk result (IsFound (H.files shelf.old) config.now None) }
    ensures refused { IfErr result (WhyNot (H.files shelf.old) config.now None) }
    ensures asked { OpensThese (new_paths config.now None) result (H.asked shelf.old) (H.asked shelf.new) }
    ensures files { H.files shelf.new ≡ H.files shelf.old }
    ensures cause { HasCauseOf (PlanError.Scan ScanError.SourceFault) (H.faults shelf.old) (H.faults shelf.new) result }
{
    let done = scan(alloc, shelf, config, 0, None)?;
    let kept = config.kept(alloc, &done.bounds)?;
    extents_known(&kept.bounds, done.counts.as_slice());
    let points = total_of(done.counts.as_slice());
    Ok(Plan {
        kept,
        counts: done.counts,
        points,
        inserted: 0,
    })
}

// The plan of a build that continues from a checkpoint, whatever the letter of its body.
fn next_plan<H: Shelf>(
    alloc: Global,
    config: &Config,
    shelf: &mut H,
    checkpoint: &Checkpoint,
) -> Result<Plan, PlanError>
    ensures found { (l : Letter) → IfOk result (IsFound (H.files shelf.old) config.now (Some (l, checkpoint.now))) }
    ensures refused { (l : Letter) → IfErr result (WhyNot (H.files shelf.old) config.now (Some (l, checkpoint.now))) }
    ensures asked { (l : Letter) → OpensThese (new_paths config.now (Some (l, checkpoint.now))) result
        (H.asked shelf.old) (H.asked shelf.new) }
    ensures differs_first { (l : Letter) → ¬ GoesOn config.now (Some (l, checkpoint.now)) → shelf.new ≡ shelf.old }
    ensures files { H.files shelf.new ≡ H.files shelf.old }
    ensures cause { HasCauseOf (PlanError.Scan ScanError.SourceFault) (H.faults shelf.old) (H.faults shelf.new) result }
{
    let kept = given_of(alloc, config, &checkpoint.kept)?;
    let counts = all_counts(alloc, config, shelf, checkpoint)?;
    let points = total_of(counts.as_slice());
    Ok(Plan {
        kept,
        counts,
        points,
        inserted: checkpoint.inserted,
    })
}
