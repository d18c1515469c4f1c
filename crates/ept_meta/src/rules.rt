//! The rules of the sampling, from what is kept.

ghost use Rattle.std.specs.Prelude.{◌≡◌};
ghost use Rattle.ept_space.specs.OctreeCube.{IsCube};
ghost use Rattle.ept_space.specs.CubeOfBounds.{IsCubeOf};
ghost use Rattle.ept_meta.specs.Output.{rules_of};

use ept_config::Kept;
use ept_space::{Cube, Rules};

/// The rules by which the points of an output are sampled: the cube over the bounds, the threshold, and
/// which points come first and last.
pub fn rules_of(kept: &Kept) -> Rules
    ensures value { result ≡ rules_of kept.now }
    ensures cube { IsCube result.cube }
    ensures of_bounds { IsCubeOf kept.now.bounds kept.now.s kept.now.max_depth result.cube }
{
    let cube = Cube::over(&kept.bounds, kept.s, kept.max_depth);
    cube.known();
    Rules {
        cube,
        threshold: kept.threshold,
        first: kept.first,
        withheld_last: kept.withheld_last,
    }
}
