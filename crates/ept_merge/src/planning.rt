//! What a merge begins from: a folder without a checkpoint, and a scan of the inputs.

ghost use Rattle.std.specs.Prelude.{◌≡◌, ◌≢◌, ◌<◌, List, None, Some, Err, IfOk, IfErr, OnOk};
ghost use Rattle.ept_base.specs.Causes.{HasCauseOf};
ghost use Rattle.ept_base.specs.Files.{Files, SameFiles, Tells};
ghost use Rattle.ept_base.specs.Moves.{Moves, IsSettled};
ghost use Rattle.ept_point.specs.declared.point.Point as p;
ghost use Rattle.ept_meta.specs.Output as meta;
ghost use Rattle.ept_save.specs.Current.{HasCurrent};
ghost use Rattle.ept_save.specs.View.{StandsFor};
ghost use Rattle.ept_plan.specs.Plans.{IsPlan, HasPoints};
ghost use Rattle.ept_merge.specs.Steps.{IsFresh, IsOpenFault, IsPlanFault};

use crate::error::MergeError;
use ept_base::{Shelf, Store};
use ept_config::Config;
use ept_meta::rules_of;
use ept_plan::{Plan, PlanError, first_plan};
use ept_save::{Saved, open};
use std::alloc::Global;

/// What is known of a folder that has no current checkpoint. Nothing is put.
///
/// # Errors
///
/// `BadCheckpoint`, and `HasCheckpoint` if there is a current one.
pub(crate) fn open_fresh<T: Store>(alloc: Global, store: &mut T) -> Result<Saved, MergeError>
    ensures fresh { IfOk result IsFresh }
    ensures none { OnOk result (Tells (HasCurrent None) (T.files store.old)) }
    ensures stands { IfOk result (λ saved. (all : Files) → T.files store.old ≡ Some all
        → IsSettled (T.files store.old) (T.may_leave store.old)
        → StandsFor saved (T.files store.new) (T.may_leave store.new)) }
    ensures refused { IfErr result (λ e. Tells (λ all. IsOpenFault all e) (T.files store.old)) }
    ensures any_moment { Moves T.files T.may_leave T.moment T.image_since SameFiles store.old store.new }
    ensures no_source { result ≢ Err MergeError.SourceFault }
    ensures cause { HasCauseOf MergeError.StoreFault (T.faults store.old) (T.faults store.new) result }
{
    let saved = open(alloc, store)?;
    match saved.current() {
        Some(checkpoint) => Err(MergeError::HasCheckpoint {
            generation: checkpoint.generation,
        }),
        None => Ok(saved),
    }
}

/// What a build of the inputs would keep, and what is found of each. The root has octants.
///
/// # Errors
///
/// Those of the scan, and then `Shallow`.
pub(crate) fn plan_of<H: Shelf>(
    alloc: Global,
    config: &Config,
    shelf: &mut H,
) -> Result<Plan, MergeError>
    ensures plan { IfOk result (IsPlan config.now None) }
    ensures scan { IfOk result (λ plan. Tells (λ all. (points : List p.Point) × HasPoints all config.now None plan points)
        (H.files shelf.old)) }
    ensures deep { IfOk result (λ plan. 0 < (meta.rules_of plan.kept).cube.depth) }
    ensures refused { IfErr result (λ e. Tells (λ all. IsPlanFault all config.now e) (H.files shelf.old)) }
    ensures no_store { result ≢ Err MergeError.StoreFault }
    ensures files { H.files shelf.new ≡ H.files shelf.old }
    ensures cause { HasCauseOf MergeError.SourceFault (H.faults shelf.old) (H.faults shelf.new) result }
{
    let plan = match first_plan(alloc, config, shelf) {
        Ok(plan) => plan,
        Err(PlanError::Scan(error)) => return Err(MergeError::from(error)),
        Err(PlanError::Differs(_)) => unreachable!(),
    };
    let rules = rules_of(&plan.kept);
    if rules.cube.depth == 0 {
        return Err(MergeError::Shallow);
    }
    Ok(plan)
}
