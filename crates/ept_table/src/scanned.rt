//! The ghost input of a table for a reader.

ghost use Rattle.std.specs.Prelude.{◌≡◌, ◌<◌, All};
ghost use Rattle.ept_space.specs.CubeOfBounds.{IsCubeOf};
ghost use Rattle.ept_space.specs.VoxelKey.{root};
ghost use Rattle.ept_config.specs.Counts.{IsCount};
ghost use Rattle.ept_scan.specs.Opening.{IsFileOf};
ghost use Rattle.ept_scan.specs.Reader.{files_of};
ghost use Rattle.ept_table.specs.At.{At};
ghost use Rattle.ept_table.specs.Shown.{IsTold, FitsReader};
ghost use Rattle.ept_table.specs.Item.{seen_reader};
ghost use Rattle.ept_table.specs.Scanned.{told_of};

use crate::rule::Scan;
use ept_base::Source;
use ept_config::{Kept, SourceCount};
use ept_scan::Reader;

/// A reader whose inputs were counted within the bounds of the cube gives a valid ghost input of a table, and the
/// reader fits it.
pub fn scanned_law<S: Source, J: Scan>(reader: &Reader<S>, kept: &Kept, counts: &[SourceCount])
    requires told { J.told ≡ told_of S.whole reader.now J.told.rules J.told.most J.told.cache J.told.begun J.told.tells J.told.points }
    requires some { 0 < J.told.most }
    requires top { At J.told.begun 0 root }
    requires cube { IsCubeOf kept.now.bounds kept.now.s kept.now.max_depth J.told.rules.cube }
    requires counts { All (IsCount kept.now.bounds) counts.now }
    requires files { All (IsFileOf kept.now counts.now) (files_of S.whole reader.now) }
    ensures told { IsTold J.told }
    ensures fits { FitsReader J.told (seen_reader S.whole reader.now) }
{}
