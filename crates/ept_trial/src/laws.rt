//! What holds of all trials, on the contract of a function that does nothing.

ghost use Rattle.ept_trial.specs.Trials.{TrialIsOne};

use ept_point::packed_once_law;

/// Trials of the same number of points have the same result, whatever else they are run with.
pub fn trial_once_law()
    ensures { TrialIsOne }
{
    packed_once_law();
}
