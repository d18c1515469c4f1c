//! The inputs of a configuration, and how each is read.

ghost use Rattle.std.specs.Prelude.{◌≡◌, ◌≤◌, ◌≤ℤ◌, pos, ◌^◌};
ghost use Rattle.ept_scan.specs.Scans.{IsReadingOf};
ghost use Rattle.ept_config.specs.declared.limits.TheConstants.{MAX_SCALE};

use crate::reading::Reading;
use ept_config::Input;
use ept_las::Shift;
use ept_space::Bounds;

/// How the input of this place is read, if a stored unit is 10^-`scale` native units.
pub(crate) fn reading_of(input: &Input, scale: u8, origin: u32, limits: Option<Bounds>) -> Reading
    requires most { scale ≤ MAX_SCALE }
    requires scale { input.now.scale ≤ scale }
    ensures { IsReadingOf scale limits origin input.now result }
{
    let factor = power_of_ten(scale - input.scale);
    let shift = Shift {
        factor,
        by: input.shift,
    };
    Reading {
        origin,
        shift,
        expect: input.expect,
        limits,
    }
}

fn power_of_ten(exponent: u8) -> i64
    requires { exponent ≤ MAX_SCALE }
    ensures power { result ≡ pos (10 ^ exponent) }
    ensures least { pos 1 ≤ℤ result }
    ensures greatest { result ≤ℤ pos (10 ^ 9) }
{
    10_i64.pow(u32::from(exponent))
}
