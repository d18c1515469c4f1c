//! A reader of which all points are known.

ghost use Rattle.std.specs.Prelude.{◌≡◌, Some, IfSome, length, take, All, List};
ghost use Rattle.ept_point.specs.declared.point.Point as at;
ghost use Rattle.ept_config.specs.Counts.{IsCount, total};
ghost use Rattle.ept_scan.specs.Opening.{IsKeptScan};
ghost use Rattle.ept_scan.specs.Reader.{allowed_of};
ghost use Rattle.ept_mem.specs.Objects.{source_bytes, source_left, source_faults, source_given, shelf_files};
ghost use Rattle.ept_table_fixtures.specs.Known.{IsKnown};

use ept_config::{Kept, SourceCount};
use ept_config_text::read_config;
use ept_mem::{MemShelf, MemSource};
use ept_point::{List, Point};
use ept_sample::{are_in_cube, ids_ascend};
use ept_scan::{Reader, ScanDone, kept_law, reader, scan};
use ept_space::{Cube, Rules};
use std::alloc::Global;

/// A reader that has drawn nothing, what a first reading has found, and all points in order.
pub struct Known<S> {
    pub rules: Rules,
    pub kept: Kept,
    pub counts: List<SourceCount>,
    pub points: Vec<Point>,
    pub reader: Reader<S>,
}

/// Reads the files of a configuration to their counts, to their points, and then opens the reader, which may draw
/// `allowed` points. `None` if that is refused.
pub fn read_known(
    alloc: Global,
    shelf: &mut MemShelf,
    config: &str,
    allowed: u64,
) -> Option<Known<MemSource>>
    ensures known { IfSome result (IsKnown (λ source. Some (source_bytes source)) (λ source. Some (source_left source)) source_given source_faults) }
    ensures allowed { IfSome result (λ k. allowed_of k.reader ≡ allowed) }
{
    let Ok(config) = read_config(alloc, config.as_bytes()) else {
        return None;
    };
    let Ok(done) = scan(alloc, shelf, &config, 0, None) else {
        return None;
    };
    let ScanDone { counts, bounds } = done;
    let Ok(kept) = config.kept(alloc, &bounds) else {
        return None;
    };
    kept_law();
    let Some(points) = all_points(alloc, shelf, &kept, &counts) else {
        return None;
    };
    let Some(cube) = Cube::of(&kept.bounds, kept.s, kept.max_depth) else {
        return None;
    };
    cube.known();
    if !ids_ascend(&points) || !are_in_cube(&points, &cube) {
        return None;
    }
    let Ok(mut reader) = reader(alloc, shelf, &kept, counts.as_slice(), 0) else {
        return None;
    };
    reader.allow(allowed);
    let rules = Rules {
        cube,
        threshold: kept.threshold,
        first: kept.first,
        withheld_last: kept.withheld_last,
    };
    Some(Known {
        rules,
        kept,
        counts,
        points,
        reader,
    })
}

// All points of files that were counted.
fn all_points(
    alloc: Global,
    shelf: &mut MemShelf,
    kept: &Kept,
    counts: &List<SourceCount>,
) -> Option<Vec<Point>>
    requires each { length counts.now ≡ length kept.now.inputs }
    requires sound { All (IsCount kept.now.bounds) counts.now }
    ensures number { IfSome result (λ v. length v.items ≡ total counts.now) }
    ensures points { IfSome result (λ v. (points : List at.Point)
        → IsKeptScan (shelf_files shelf.old) kept.now counts.now points → v.items ≡ points) }
    ensures files { shelf_files shelf.new ≡ shelf_files shelf.old }
{
    let mut points = Vec::new(alloc);
    let Ok(mut reader) = reader(alloc, shelf, kept, counts.as_slice(), 0) else {
        return None;
    };
    reader.allow(u64::MAX);
    let read = reader.next_batch(usize::MAX, &mut points);
    reader.retire_all(shelf);
    let Ok(()) = read else {
        return None;
    };
    Some(points)
}
