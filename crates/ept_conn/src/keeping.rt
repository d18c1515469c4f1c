//! What is kept of packed points.

ghost use Rattle.std.specs.Prelude.{◌≡◌, ◌%◌, length, IfOk};
ghost use Rattle.ept_point.specs.Dimensions.{packed_width};
ghost use Rattle.ept_conn.specs.Wanted.{kept_of};

use ept_filter::{SiftError, sift_points};
use ept_http::Asked;
use ept_point::Memory;

/// What a request keeps of packed points. A selection keeps the dimensions asked for of the points that pass. Any other
/// request keeps all.
pub fn kept_of(asked: &Asked, points: Vec<u8>) -> Result<Vec<u8>, Memory>
    requires whole { length points.items % packed_width ≡ 0 }
    ensures { IfOk result (λ kept. kept.items ≡ kept_of asked.now points.items) }
{
    let Asked::Select(_, _, _, sift) = asked else {
        return Ok(points);
    };
    let mut kept = Vec::new(*points.allocator());
    match sift_points(&points, sift, &mut kept) {
        Ok(_) => Ok(kept),
        Err(SiftError::Length) => unreachable!(),
        Err(SiftError::Memory) => Err(Memory),
    }
}
