//! Points and the nodes above them.

ghost use Rattle.std.specs.Prelude.{◌≡◌, ◌<◌, ◌≤◌, ◌↔◌, IsTrue, All, true};
ghost use Rattle.ept_space.specs.OctreeCube.{InBox, InCube};
ghost use Rattle.ept_space.specs.VoxelKey.{is_below};
ghost use Rattle.ept_sample.specs.Arrivals.{loses};
ghost use Rattle.ept_sample.specs.Place.{place, AllInBox};
ghost use Rattle.ept_grid.specs.Node.{Node as GridNode};
ghost use Rattle.ept_check.specs.Walking.{LoseTo};

use crate::keys::is_below;
use ept_grid::{Grid, Steps};
use ept_point::Point;
use ept_sample::{is_better, place_of};
use ept_space::{Key, Rules, cell};
use std::marker::Brand;
use std::sync::ledger::{Blank, Ledger};

/// Whether each point loses to the points of each of some nodes that is above the key.
pub(crate) fn lose_to(above: &[Grid], key: &Key, points: &[Point]) -> bool
    requires { All (λ (g : GridNode). is_below g.key key.now ≡ true → AllInBox g.rules.cube g.key points.now) above.now }
    ensures { IsTrue result ↔ LoseTo above.now key.now points.now }
{
    for grid in above {
        if is_below(&grid.key(), key) && !all_lose(grid, points) {
            return false;
        }
    }
    true
}

// Whether each point loses to the points of a node.
fn all_lose(grid: &Grid, points: &[Point]) -> bool
    requires { AllInBox grid.now.rules.cube grid.now.key points.now }
    ensures { IsTrue result ↔ All (λ p. loses grid.now.rules grid.now.key.depth grid.now.points p ≡ true) points.now }
{
    for point in points {
        if !loses(grid, point) {
            return false;
        }
    }
    true
}

// Whether a point loses to the points of a node: the best of them in its cell beats it.
fn loses(grid: &Grid, point: &Point) -> bool
    requires { InBox grid.now.rules.cube grid.now.key (place point.now) }
    ensures { result ≡ loses grid.now.rules grid.now.key.depth grid.now.points point.now }
{
    loses_in::<Brand>(grid, point, Blank::new(1))
}

// The same, with steps that are counted by a ledger.
fn loses_in<L: Ledger>(grid: &Grid, point: &Point, blank: Blank) -> bool
    requires inside { InBox grid.now.rules.cube grid.now.key (place point.now) }
    requires name { blank.name ≡ L.name }
    requires parts { blank.parts ≡ L.parts }
    requires some { 0 < blank.parts }
    ensures { result ≡ loses grid.now.rules grid.now.key.depth grid.now.points point.now }
{
    grid.known();
    let key = grid.key();
    let rules = grid.rules();
    rules.cube.known();
    let cell = cell(&rules.cube, key.depth, place_of(point));
    let mut steps = Steps::<L>::new(blank);
    match grid.winner(cell, &mut steps) {
        Some(best) => is_better(rules, key.depth, &best, point),
        None => false,
    }
}
