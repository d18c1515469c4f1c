//! A table that is made of a new forest and a reader of which all points are known.

ghost use Rattle.std.specs.Prelude.{◌≡◌, ◌+◌, ◌≤◌, true, [], ◌∷◌, IfOk, IfErr};
ghost use Rattle.ept_space.specs.VoxelKey.{root};
ghost use Rattle.ept_slots.specs.Views.{first_view};
ghost use Rattle.ept_slots.specs.Seating.{view};
ghost use Rattle.ept_forest.specs.Slots.{nodes_of, used_of, IsPlanted};
ghost use Rattle.ept_node.specs.Shown.{IsTelling};
ghost use Rattle.ept_table.specs.Scanned.{told_of};
ghost use Rattle.ept_table.specs.Steps.{first_note};
ghost use Rattle.ept_table.specs.Table.{slots_of, rules_of, IsSeat};
ghost use Rattle.ept_table_fixtures.specs.Known.{IsKnown};

use crate::known::Known;
use ept_base::{Source, SpillFile};
use ept_forest::Forest;
use ept_table::{NodeTable, Scan, Seat, Unmade, plant_law, scanned_law};
use std::alloc::Global;

/// A table of a new forest of `most` nodes, at most `cache` of them in memory, and of a known reader, with its first
/// seat. Or the parts, if there was no memory.
pub fn seated<F: SpillFile, S: Source, J: Scan>(
    alloc: Global,
    forest: Forest<F>,
    known: Known<S>,
    most: u32,
    cache: u32,
) -> Result<(NodeTable<F, S, J>, Seat<F, S>), Unmade<F, S>>
    requires told { J.told ≡ told_of S.whole known.reader known.rules most cache (root ∷ []) true known.points.items }
    requires known { IsKnown S.whole S.left S.given S.faults known }
    requires some { (1 ≤ most) × (1 ≤ cache) }
    requires planted { IsPlanted F.held F.faults F.keeps most known.rules forest }
    requires telling { IsTelling F.held }
    ensures seat { IfOk result (λ r. IsSeat J.told r.0 r.1) }
    ensures first { IfOk result (λ r. view r.1 ≡ first_view J.told.most (first_note J.told)) }
    ensures slots { IfOk result (λ r. slots_of r.0 ≡ J.told.most + 1) }
    ensures rules { IfOk result (λ r. rules_of r.0 ≡ J.told.rules) }
    ensures reader { IfErr result (λ r. r.reader ≡ known.reader) }
{
    let Known {
        rules,
        kept,
        counts,
        points: _points,
        reader,
    } = known;
    scanned_law::<S, J>(&reader, &kept, counts.as_slice());
    plant_law::<F, S, J>(&forest, &reader);
    NodeTable::make(alloc, forest, reader, &rules, cache)
}
