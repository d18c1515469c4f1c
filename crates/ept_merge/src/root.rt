//! The roots of the parts, joined.

ghost use Rattle.std.specs.Prelude.{◌≡◌, ◌<◌, ◌^◌, IfOk};
ghost use Rattle.std.specs.List.Sorted.{IsPermutation};
ghost use Rattle.ept_sample.specs.Ids.{HasDistinctIds, in_id_order};
ghost use Rattle.ept_merge.specs.Joining.{IsRootOf, IsUnion};

use crate::bodies::PartBody;
use crate::joining::PartNode;
use ept_point::{Memory, Point};

/// The root of a part.
pub(crate) fn root_of(part: &PartBody) -> PartNode
    ensures { IsRootOf part.now result }
{
    PartNode {
        octants: part.octants,
        line: part.body.nodes.as_slice()[0],
    }
}

/// The octants that are open in one of the parts' roots.
pub(crate) fn open_octants(parts: &[PartBody]) -> u8
    ensures { IsUnion parts.now result }
{
    let mut mask = 0;
    for part in parts {
        mask |= root_of(part).line.mask;
    }
    mask
}

/// The points, sorted by their ids.
pub(crate) fn in_order(mut points: Vec<Point>) -> Result<Vec<Point>, Memory>
    ensures same { IfOk result (λ sorted. IsPermutation points.items sorted.items) }
    ensures order { IfOk result (λ sorted. HasDistinctIds points.items → sorted.items ≡ in_id_order points.items) }
{
    points.sort_by_key(|point| point.id())?;
    Ok(points)
}
