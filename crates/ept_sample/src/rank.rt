//! Which of two points ranks before the other at a depth, and which points beat which.

ghost use Rattle.std.specs.Prelude.{◌≡◌, ◌≤◌};
ghost use Rattle.ept_space.specs.OctreeCube.{InCube, same_cell};
ghost use Rattle.ept_sample.specs.Place.{place};
ghost use Rattle.ept_sample.specs.Rank.{rank_at, is_better, beats};

use crate::place::place_of;
use ept_point::Point;
use ept_space::{Rules, cell, centre_distance, group, group_law, has_groups};

/// Whether the rank of the first point is the better one at a depth. The second may lie in another cell.
pub fn is_better(rules: &Rules, depth: u8, first: &Point, second: &Point) -> bool
    requires low { depth ≤ rules.now.cube.depth }
    requires first_inside { InCube rules.now.cube (place first.now) }
    requires second_inside { InCube rules.now.cube (place second.now) }
    ensures { result ≡ is_better (rank_at rules.now depth first.now) (rank_at rules.now depth second.now) }
{
    group_law();
    if has_groups(rules) {
        let group_of_first = group(rules, first.class, first.class_flags);
        let group_of_second = group(rules, second.class, second.class_flags);
        if group_of_first != group_of_second {
            return group_of_first < group_of_second;
        }
    }
    let from_first = centre_distance(&rules.cube, depth, place_of(first));
    let from_second = centre_distance(&rules.cube, depth, place_of(second));
    if from_first != from_second {
        return from_first < from_second;
    }
    first.origin < second.origin || (first.origin == second.origin && first.number < second.number)
}

/// Whether the first point beats the second at a depth: it lies in the same cell and has the better
/// rank.
pub fn beats(rules: &Rules, depth: u8, first: &Point, second: &Point) -> bool
    requires low { depth ≤ rules.now.cube.depth }
    requires first_inside { InCube rules.now.cube (place first.now) }
    requires second_inside { InCube rules.now.cube (place second.now) }
    ensures beats { result ≡ beats rules.now depth first.now second.now }
{
    share_cell(rules, depth, first, second) && is_better(rules, depth, first, second)
}

fn share_cell(rules: &Rules, depth: u8, first: &Point, second: &Point) -> bool
    requires low { depth ≤ rules.now.cube.depth }
    requires first_inside { InCube rules.now.cube (place first.now) }
    requires second_inside { InCube rules.now.cube (place second.now) }
    ensures one_cell { result ≡ same_cell rules.now.cube depth (place first.now) (place second.now) }
{
    cell(&rules.cube, depth, place_of(first)) == cell(&rules.cube, depth, place_of(second))
}
