//! Why there is no plan.

use ept_config_diff::Difference;
use ept_point::Memory as NoMemory;
use ept_scan::ScanError;

/// Why there is no plan for a build.
#[derive(Debug, Drop)]
pub enum PlanError {
    /// The configuration differs from what the current checkpoint keeps.
    Differs(Difference),
    /// The inputs that the current checkpoint does not have are refused, or memory ran out.
    Scan(ScanError),
}

impl From<ScanError> for PlanError {
    ghost use Rattle.std.specs.Prelude.{◌≡◌};
    ghost use Rattle.ept_plan.specs.declared.error.PlanError.TheVariants.{Scan};

    ghost from_gives = { λ from e. e ≡ Scan from };

    fn from(error: ScanError) -> PlanError {
        PlanError::Scan(error)
    }
}

impl From<NoMemory> for PlanError {
    ghost use Rattle.std.specs.Prelude.{◌≡◌};
    ghost use Rattle.ept_plan.specs.declared.error.PlanError.TheVariants.{Scan};
    ghost use Rattle.ept_scan.specs.declared.scan_error.ScanError.TheVariants as scan;

    ghost from_gives = { λ _ e. e ≡ Scan scan.Memory };

    fn from(_error: NoMemory) -> PlanError {
        PlanError::Scan(ScanError::Memory)
    }
}
