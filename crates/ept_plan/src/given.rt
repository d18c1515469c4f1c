//! What a configuration gives, compared with what is kept.

ghost use Rattle.std.specs.Prelude.{◌≡◌, IfOk, IfErr};
ghost use Rattle.ept_space.specs.CubeOfBounds.{HasPlace};
ghost use Rattle.ept_config_diff.specs.Differing.{GoesOnFrom};
ghost use Rattle.ept_plan.specs.Plans.{bounds_or, IsGiven};
ghost use Rattle.ept_plan.specs.Steps.{DoesNotGoOn};

use crate::error::PlanError;
use ept_config::{Config, Kept};
use ept_config_diff::first_difference;
use ept_space::Bounds;
use std::alloc::Global;

/// Returns what a build of the configuration would keep, if the configuration continues what is kept.
pub(crate) fn given_of(alloc: Global, config: &Config, kept: &Kept) -> Result<Kept, PlanError>
    ensures given { IfOk result (IsGiven config.now kept.now) }
    ensures goes_on { IfOk result (GoesOnFrom kept.now) }
    ensures refused { IfErr result (DoesNotGoOn config.now kept.now) }
{
    let bounds = bounds_or(config, kept);
    let given = config.kept(alloc, &bounds)?;
    match first_difference(alloc, kept, &given)? {
        Some(found) => Err(PlanError::Differs(found)),
        None => Ok(given),
    }
}

// The given bounds, or if there are none the kept ones.
fn bounds_or(config: &Config, kept: &Kept) -> Bounds
    ensures value { result ≡ bounds_or config.now.bounds kept.now.bounds }
    ensures ordered { HasPlace result }
{
    match config.bounds {
        Some(given) => given,
        None => kept.bounds,
    }
}
