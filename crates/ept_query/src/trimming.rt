//! What is kept of the part of a tile.

ghost use Rattle.std.specs.Prelude.{◌≡◌, List, length, IfOk};
ghost use Rattle.ept_point.specs.declared.point.Point.{Point};
ghost use Rattle.ept_point.specs.Packed.{tile};
ghost use Rattle.ept_query.specs.Kept.{kept_bytes, kept_count};

use ept_filter::{Sift, SiftError, sift_law, sift_points};
use ept_point::{Memory, tile_length_law};
use std::alloc::Global;

/// Makes packed points what is kept of them, and returns of how many: of all of them if there is no selection.
pub(crate) fn trim(
    alloc: Global,
    sift: &Option<Sift>,
    count: u64,
    part: &mut Vec<u8>,
) -> Result<u64, Memory>
    requires { (points : List Point) × (part.old.items ≡ tile points) }
    ensures kept { IfOk result (λ number. (points : List Point) → part.old.items ≡ tile points → part.new.items ≡ kept_bytes sift.now points) }
    ensures number { IfOk result (λ number. (points : List Point) → part.old.items ≡ tile points → count ≡ length points → number ≡ kept_count sift.now points) }
{
    sift_law();
    tile_length_law();
    let Some(sift) = sift else {
        return Ok(count);
    };
    let mut cut = Vec::new(alloc);
    match sift_points(part, sift, &mut cut) {
        Ok(number) => {
            *part = cut;
            Ok(number)
        }
        Err(SiftError::Length) => unreachable!(),
        Err(SiftError::Memory) => Err(Memory),
    }
}
