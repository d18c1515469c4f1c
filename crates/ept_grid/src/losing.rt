//! What becomes of a point that loses in a node.

ghost use Rattle.std.specs.Prelude.{◌≡◌, ◌<◌, ◌≤◌, ◌+◌, false, length};
ghost use Rattle.ept_space.specs.OctreeCube.{InCube};
ghost use Rattle.ept_sample.specs.Place.{place};
ghost use Rattle.ept_sample.specs.Arrivals.{octant};
ghost use Rattle.ept_grid.specs.Mask.{opened};
ghost use Rattle.ept_grid.specs.Outgoing.{leaving_at, points_at};
ghost use Rattle.ept_grid.specs.Contents.{AreFew, HasSent, joined, opens_with};

use crate::octants::{is_open, octant_of, with_open};
use crate::outgoing::Outgoing;
use ept_point::Point;
use ept_space::Rules;

/// Sends on a point that loses if its octant is open, and keeps it among the losers otherwise. An octant that then has
/// too many losers opens, and sends them on in id order. Returns the open octants.
pub(crate) fn lose(
    rules: &Rules,
    depth: u8,
    mask: u8,
    point: Point,
    losers: &mut Outgoing,
    out: &mut Outgoing,
) -> u8
    requires low { depth ≤ rules.now.cube.depth }
    requires inside { InCube rules.now.cube (place point) }
    requires few { AreFew rules.now depth mask losers.old }
    requires place { opened mask (octant rules.now depth point) ≡ false →
        0 < (leaving_at losers.old (octant rules.now depth point)).room }
    requires list { length (points_at losers.old (octant rules.now depth point)) + 1
        ≤ (leaving_at out.old (octant rules.now depth point)).room }
    ensures sent { HasSent rules.now depth mask result
        (joined losers.old (octant rules.now depth point) point) losers.new out.old out.new }
    ensures deepest { rules.now.cube.depth ≤ depth → result ≡ mask }
{
    losers.known();
    out.known();
    let octant = octant_of(rules, depth, &point);
    if is_open(mask, octant) {
        out.push(octant, point);
        return mask;
    }
    losers.push(octant, point);
    if !is_too_many(rules, depth, losers.count(octant)) {
        return mask;
    }
    losers.sort(octant);
    losers.give(octant, out);
    with_open(mask, octant)
}

/// Whether `count` losers open an octant of a node of that depth.
pub(crate) fn is_too_many(rules: &Rules, depth: u8, count: usize) -> bool
    ensures { result ≡ opens_with rules.now depth count }
{
    depth < rules.cube.depth && count as u64 > rules.threshold
}
