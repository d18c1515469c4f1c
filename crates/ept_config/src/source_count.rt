//! What a scan's first reading finds.

ghost use Rattle.std.specs.Prelude.{◌≡◌, ◌≤◌, ◌<◌, ◌^◌, length};
ghost use Rattle.std.specs.List.{All};
ghost use Rattle.ept_config.specs.Counts.{total, most_points};

use ept_space::Bounds;

/// What the first reading of an input finds: the number of its points, and their extent in stored units. The extent is
/// there if and only if there are points, but the type does not keep this.
#[derive(Clone, Copy, Debug, PartialEq, Eq)]
pub struct SourceCount {
    pub points: u64,
    pub extent: Option<Bounds>,
}

/// The greatest number of points of an input, 2^40 - 1.
pub const MAX_POINTS: u64 = 1_099_511_627_775;

/// The number of points of all counts together.
pub fn total_of(counts: &[SourceCount]) -> u64
    requires inputs { length counts.now ≤ 65535 }
    requires few { All (λ count. count.points ≤ most_points) counts.now }
    ensures { result ≡ total counts.now }
{
    let mut sum: u64 = 0;
    for count in counts {
        sum += count.points;
    }
    sum
}
