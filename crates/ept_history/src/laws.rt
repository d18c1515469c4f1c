//! The headline. Each law is the contract of a function that does nothing.

ghost use Rattle.ept_history.specs.HeadlineLaws.{LeavesSteps, HistoriesAreSound, HistoryHasAllPoints, HistoryIsOneBuild};

use ept_base::Store;
use ept_meta::output_once_law;
use ept_save::{sound_law, sound_steps_law};
use ept_scan::{joined_law, kept_law, placed_law, scan_once_law};

/// A build moved a store from `old` to `new`. What it left at any moment, by the clause `sound` of `build`, is a step
/// of a history.
pub fn step_law<T: Store>(old: &T, new: &T)
    ensures { LeavesSteps T.files T.may_leave T.moment T.image_since old.now new.now }
{}

/// Builds of a folder that was empty leave files that are sound for the next build. Any of them may have been stopped,
/// at any moment, and scans may have been added. The build that succeeds leaves files that are complete for the points
/// of all inputs. They are those of one build of all, which returns the same summary.
pub fn headline_law()
    ensures sound { HistoriesAreSound }
    ensures complete { HistoryHasAllPoints }
    ensures one { HistoryIsOneBuild }
{
    sound_law();
    sound_steps_law();
    output_once_law();
    scan_once_law();
    kept_law();
    placed_law();
    joined_law();
}
