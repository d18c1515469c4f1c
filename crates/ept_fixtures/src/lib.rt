//! What tests of several crates begin with: the rules of a small cube, and points of which only the id and the place
//! matter.
#![tactic(auto)]

ghost use Rattle.std.specs.Prelude.{◌≡◌, [], ◌∷◌, pos};

use ept_point::{Point, PointNumber};
use ept_space::{Cube, Rules};

/// The rules over the bounds 0 to 7 on each axis, with a span of 2 cells and nodes down to depth 2.
pub fn small_rules(threshold: u64) -> Rules
    ensures cube { result.cube ≡ record { corner = pos 0 ∷ pos 0 ∷ pos 0 ∷ []; e = 3; s = 1; depth = 2 } }
    ensures threshold { result.threshold ≡ threshold }
{
    let cube = Cube {
        corner: [0, 0, 0],
        e: 3,
        s: 1,
        depth: 2,
    };
    Rules::plain(cube, threshold)
}

/// The point of this number in the first input, at this place in stored units. It is the only return of its pulse, and
/// all else is 0.
pub fn point(number: PointNumber, place: [i32; 3]) -> Point
    ensures place { result.x ∷ result.y ∷ result.z ∷ [] ≡ place }
    ensures origin { result.origin ≡ 0 }
    ensures number { result.number ≡ number }
{
    Point {
        x: place[0],
        y: place[1],
        z: place[2],
        intensity: 0,
        return_number: 1,
        number_of_returns: 1,
        scan_direction: 0,
        edge: 0,
        class: 0,
        class_flags: 0,
        channel: 0,
        angle_rank: 0,
        angle: 0,
        user: 0,
        source_id: 0,
        gps: [0; 8],
        red: 0,
        green: 0,
        blue: 0,
        origin: 0,
        number,
    }
}
