//! How far a build has come.

ghost use Rattle.std.specs.Prelude.{◌≡◌};
ghost use Rattle.ept_octree.specs.Octree.{forest_of};

use crate::error::BuildError;
use ept_base::SpillFile;
use ept_forest::Forest;
use ept_octree::Octree;
use ept_save::Saved;

/// How far a build has come: the first points of its inputs are in an octree, some or all of these in the current
/// checkpoint.
///
/// It can't be dropped if the octree's spill files can't.
pub(crate) struct Progress<F> {
    /// What is known of the checkpoints.
    pub(crate) saved: Saved,
    /// The octree of the points that are inserted.
    pub(crate) octree: Octree<F>,
    /// How many these are.
    pub(crate) inserted: u64,
}

/// What is left of a build that is refused.
pub(crate) struct Stopped<F> {
    /// What is known of the checkpoints.
    pub(crate) saved: Saved,
    /// The nodes, whose spill files go back to their room.
    pub(crate) forest: Forest<F>,
    /// Why it is refused.
    pub(crate) error: BuildError,
}

impl<F: SpillFile> Progress<F> {
    /// What is left if the build is refused for this cause.
    pub(crate) fn stop(self, error: BuildError) -> Stopped<F>
        ensures saved { result.saved ≡ self.saved }
        ensures forest { result.forest ≡ forest_of self.octree }
        ensures error { result.error ≡ error }
    {
        let Progress {
            saved,
            octree,
            inserted: _,
        } = self;
        Stopped {
            saved,
            forest: octree.into_forest(),
            error,
        }
    }

    /// The nodes, whose spill files go back to their room.
    pub(crate) fn into_forest(self) -> Forest<F>
        ensures { result ≡ forest_of self.octree }
    {
        let Progress {
            saved: _,
            octree,
            inserted: _,
        } = self;
        octree.into_forest()
    }
}
