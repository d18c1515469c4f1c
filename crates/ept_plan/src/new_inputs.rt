//! The inputs that a checkpoint does not have.

ghost use Rattle.std.specs.Prelude.{◌≡◌, ◌++◌, Some, IfOk, IfErr, length};
ghost use Rattle.ept_base.specs.Causes.{HasCauseOf};
ghost use Rattle.ept_base.specs.Files.{Tells};
ghost use Rattle.ept_config_diff.specs.Differing.{ArePrefix};
ghost use Rattle.ept_scan.specs.Asking.{OpensThese, paths_from};
ghost use Rattle.ept_scan.specs.Scans.{ScanIsRefused};
ghost use Rattle.ept_plan.specs.Steps.{AddsCounts};

use crate::extents::extents_known;
use ept_base::Shelf;
use ept_ckpt::Checkpoint;
use ept_config::{Config, SourceCount};
use ept_point::List;
use ept_scan::{ScanError, scan};
use std::alloc::{AllocError, Global};

/// The counts of all inputs: those of the checkpoint, and after them those of the inputs that it does not have. The
/// latter are scanned within its bounds.
pub(crate) fn all_counts<H: Shelf>(
    alloc: Global,
    config: &Config,
    shelf: &mut H,
    checkpoint: &Checkpoint,
) -> Result<List<SourceCount>, ScanError>
    requires { ArePrefix checkpoint.now.kept.inputs config.now.inputs }
    ensures counts { IfOk result (AddsCounts (H.files shelf.old) config.now checkpoint.now) }
    ensures refused { IfErr result (λ e. Tells
        (λ all. ScanIsRefused all config.now.scale (Some checkpoint.now.kept.bounds) config.now.inputs
        (length checkpoint.now.kept.inputs) e) (H.files shelf.old)) }
    ensures asked { OpensThese (paths_from config.now.inputs (length checkpoint.now.kept.inputs)) result
        (H.asked shelf.old) (H.asked shelf.new) }
    ensures files { H.files shelf.new ≡ H.files shelf.old }
    ensures cause { HasCauseOf ScanError.SourceFault (H.faults shelf.old) (H.faults shelf.new) result }
{
    let from = checkpoint.kept.inputs.as_slice().len() as u32;
    let bounds = checkpoint.kept.bounds;
    let done = scan(alloc, shelf, config, from, Some(bounds))?;
    extents_known(&bounds, done.counts.as_slice());
    let counts = joined(alloc, checkpoint.counts.as_slice(), done.counts.as_slice())?;
    Ok(List::of(counts))
}

// The first counts and then the others.
fn joined(
    alloc: Global,
    first: &[SourceCount],
    others: &[SourceCount],
) -> Result<Vec<SourceCount>, AllocError>
    ensures { IfOk result (λ all. all.items ≡ first.now ++ others.now) }
{
    let mut all = Vec::from_slice(alloc, first)?;
    all.extend_from_slice(others)?;
    Ok(all)
}
