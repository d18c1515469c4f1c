//! Points on their way to nodes.

ghost use Rattle.std.specs.Prelude.{◌≡◌, ◌<◌, ◌++◌, [], ℕ, length, OnOk};
ghost use Rattle.ept_grid.specs.Outgoing.{points_at};
ghost use Rattle.ept_tree.specs.Sending.{arrivals_to, sending};

use ept_grid::{OCTANTS, Outgoing};
use ept_point::{Memory, Point};
use ept_space::{Key, child};

/// A point on its way to the node of a key.
#[derive(Clone, Copy, Debug)]
pub(crate) struct Arrival {
    pub(crate) key: Key,
    pub(crate) point: Point,
}

// Sends points to the node of a key.
fn send(key: Key, points: &[Point], arrivals: &mut Vec<Arrival>) -> Result<(), Memory>
    ensures { OnOk result (arrivals.new.items ≡ arrivals.old.items ++ arrivals_to key points.now) }
{
    for point in points {
        arrivals.push(Arrival { key, point: *point })?;
    }
    Ok(())
}

/// Sends the points that leave the node of a key to its children.
pub(crate) fn send_on(
    key: &Key,
    leaving: &mut Outgoing,
    arrivals: &mut Vec<Arrival>,
) -> Result<(), Memory>
    requires above { (o : ℕ) → o < 8 → 0 < length (points_at leaving.old o) → key.now.depth < 31 }
    ensures sent { OnOk result (arrivals.new.items ≡ arrivals.old.items ++ sending key.now leaving.old) }
    ensures none { OnOk result ((o : ℕ) → points_at leaving.new o ≡ []) }
{
    for octant in 0..OCTANTS {
        let points = leaving.points(octant);
        if !points.is_empty() {
            send(child(key, octant), points, arrivals)?;
        }
    }
    leaving.clear();
    Ok(())
}
