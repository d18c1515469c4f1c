//! The ranges of counts.

ghost use Rattle.std.specs.List.{All};
ghost use Rattle.ept_config.specs.Counts.{IsCount};
ghost use Rattle.ept_ckpt.specs.Valid.{ExtentInRange};

use ept_config::{SourceCount, bounds_known};
use ept_space::Bounds;

/// Makes known to the caller's proof that the numbers of the extents have 32 bits. Does nothing at run time.
pub(crate) fn extents_known(bounds: &Bounds, counts: &[SourceCount])
    requires { All (IsCount bounds.now) counts.now }
    ensures { All ExtentInRange counts.now }
{
    for count in counts {
        extent_known(bounds, count);
    }
}

fn extent_known(bounds: &Bounds, count: &SourceCount)
    requires { IsCount bounds.now count.now }
    ensures { ExtentInRange count.now }
{
    if let Some(extent) = &count.extent {
        bounds_known(extent);
    }
}
