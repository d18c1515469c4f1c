//! The ranges of bounds.

ghost use Rattle.ept_space.specs.CubeOfBounds.{HasPlace};
ghost use Rattle.ept_config.specs.Ranges.{BoundsInRange};

use ept_space::Bounds;

/// Makes known to the caller's proof that the numbers of bounds have 32 bits. Does nothing at run time.
pub fn bounds_known(bounds: &Bounds)
    requires { HasPlace bounds.now }
    ensures in_range { BoundsInRange bounds.now }
{
    let [_a, _b, _c] = bounds.min;
    let [_d, _e, _f] = bounds.max;
}
