//! Points that arrive at a grid one after another.

ghost use Rattle.std.specs.Prelude.{◌≡◌, ◌≤◌, ◌<◌, ◌+◌, ◌++◌, [], ℕ, Bool, length, count_by, OnOk, OnErr};
ghost use Rattle.ept_point.specs.declared.point.Point.{Point};
ghost use Rattle.ept_sample.specs.Place.{AllInBox};
ghost use Rattle.ept_sample.specs.Ids.{HasDistinctIds};
ghost use Rattle.ept_grid.specs.Outgoing.{points_at, all_points};
ghost use Rattle.ept_grid.specs.Node.{HasRoomFor, SendsOn};
ghost use Rattle.ept_node.specs.Shown.{bare};
ghost use Rattle.ept_node.specs.Batch.{HasTaken, Arrives};

use ept_grid::{Grid, Outgoing};
use ept_point::{Memory, Point};
use ept_sample::batch_law;

/// Lets points arrive, one after another. After `Memory` the points of both are as they were.
pub(crate) fn take_in(grid: &mut Grid, points: &[Point], out: &mut Outgoing) -> Result<(), Memory>
    requires inside { AllInBox grid.old.rules.cube grid.old.key points.now }
    ensures grid_unchanged { OnErr result (bare grid.new ≡ bare grid.old) }
    ensures out_unchanged { OnErr result ((o : ℕ) → points_at out.new o ≡ points_at out.old o) }
    ensures key { grid.new.key ≡ grid.old.key }
    ensures rules { grid.new.rules ≡ grid.old.rules }
    ensures together { OnOk result ((test : Point → Bool) →
        count_by test grid.new.points + count_by test (all_points out.new)
        ≡ count_by test points.now + count_by test grid.old.points + count_by test (all_points out.old)) }
    ensures sends_on { OnOk result ((o : ℕ) → o < 8 →
        SendsOn (bare grid.old) (bare grid.new) o (points_at out.old o) (points_at out.new o)) }
    ensures taken { OnOk result (HasDistinctIds (points.now ++ grid.old.points) →
        HasTaken (bare grid.old) (bare grid.new) points.now out.old out.new) }
    ensures arrives { OnOk result (HasDistinctIds (points.now ++ grid.old.points) → 0 < length points.now →
        ((o : ℕ) → o < 8 → points_at out.old o ≡ []) → Arrives (bare grid.old) (bare grid.new) points.now out.new) }
{
    grid.reserve(points, out)?;
    arrive_all(grid, points, out);
    Ok(())
}

// Lets points arrive for which there is room.
fn arrive_all(grid: &mut Grid, points: &[Point], out: &mut Outgoing)
    requires room { HasRoomFor grid.old out.old points.now }
    requires inside { AllInBox grid.old.rules.cube grid.old.key points.now }
    ensures key { grid.new.key ≡ grid.old.key }
    ensures rules { grid.new.rules ≡ grid.old.rules }
    ensures together { (test : Point → Bool) →
        count_by test grid.new.points + count_by test (all_points out.new)
        ≡ count_by test points.now + count_by test grid.old.points + count_by test (all_points out.old) }
    ensures sends_on { (o : ℕ) → o < 8 →
        SendsOn (bare grid.old) (bare grid.new) o (points_at out.old o) (points_at out.new o) }
    ensures taken { HasDistinctIds (points.now ++ grid.old.points) →
        HasTaken (bare grid.old) (bare grid.new) points.now out.old out.new }
{
    batch_law();
    grid.known();
    for point in points {
        grid.arrive(*point, out);
    }
}
