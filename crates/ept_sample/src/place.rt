//! The places of points, and whether they lie in a cube.

ghost use Rattle.std.specs.Prelude.{◌≡◌, ◌↔◌, IsTrue};
ghost use Rattle.ept_space.specs.OctreeCube.{InCube};
ghost use Rattle.ept_sample.specs.Place.{place, AllInCube};

use ept_point::Point;
use ept_space::{Cube, Key, contains, node_box};

/// The place of a point, in stored units.
pub fn place_of(point: &Point) -> [i32; 3]
    ensures { result ≡ place point.now }
{
    [point.x, point.y, point.z]
}

/// Whether each of the points lies in the cube.
pub fn are_in_cube(points: &[Point], cube: &Cube) -> bool
    ensures { IsTrue result ↔ AllInCube cube.now points.now }
{
    points.iter().all(|point| is_in_cube(point, cube))
}

fn is_in_cube(point: &Point, cube: &Cube) -> bool
    ensures { IsTrue result ↔ InCube cube.now (place point.now) }
{
    contains(&node_box(cube, &Key::ROOT), place_of(point))
}
