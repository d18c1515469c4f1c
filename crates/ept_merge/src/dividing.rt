//! Whether parts have each octant once.

ghost use Rattle.std.specs.Prelude.{◌≡◌, ◌<◌, ◌↔◌, IsTrue, count_by};
ghost use Rattle.ept_grid.specs.Mask.{opened};
ghost use Rattle.ept_merge.specs.Merging.{AreAllParts};

use ept_part::has_octant;

/// Whether each of the eight octants is in exactly one of these parts, each given by its octants, bit o for octant o.
/// If so, [`merge`](crate::merge) can be called with them.
pub fn are_all_parts(parts: &[u8]) -> bool
    ensures { IsTrue result ↔ AreAllParts parts.now }
{
    for octant in 0..8 {
        if parts_with(parts, octant) != 1 {
            return false;
        }
    }
    true
}

// How many of the parts have the octant.
fn parts_with(parts: &[u8], octant: u8) -> usize
    requires { octant < 8 }
    ensures { result ≡ count_by (λ part. opened part octant) parts.now }
{
    let mut count = 0;
    for part in parts {
        if has_octant(*part, octant) {
            count += 1;
        }
    }
    count
}
