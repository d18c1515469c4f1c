//! What the first reading finds.

use ept_config::SourceCount;
use ept_point::List;
use ept_space::Bounds;

/// What the first reading finds in the inputs that it reads.
#[derive(Debug, Drop)]
pub struct ScanDone {
    /// The number of points of each input, in order, and their extent.
    pub counts: List<SourceCount>,
    /// The bounds of the build: the kept bounds; otherwise the given ones; otherwise the extent of all points.
    pub bounds: Bounds,
}
