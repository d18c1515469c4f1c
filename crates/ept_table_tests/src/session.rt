//! A session at a table, in which nothing is drawn.

ghost use Rattle.std.specs.Prelude.{◌≡◌, ◌<◌, ◌≤◌, true, [], ◌∷◌};
ghost use Rattle.ept_space.specs.VoxelKey.{root};
ghost use Rattle.ept_scan.specs.Reader.{IsReader};
ghost use Rattle.ept_slots.specs.Seating.{view};
ghost use Rattle.ept_forest.specs.Slots.{IsPlanted};
ghost use Rattle.ept_node.specs.Shown.{IsTelling};
ghost use Rattle.ept_table.specs.Scanned.{told_of};
ghost use Rattle.ept_table.specs.Standing.{known};
ghost use Rattle.ept_table.specs.Table.{slots_of, IsSeat};
ghost use Rattle.ept_table_fixtures.specs.Known.{IsKnown};
ghost use Rattle.ept_table_tests.specs.Rest.{IsAtRest};

use ept_base::{Source, SpillFile};
use ept_forest::Forest;
use ept_node::NodeState;
use ept_scan::Reader;
use ept_space::Key;
use ept_table::{Done, Item, NodeTable, Scan, Seat, Unmade};
use ept_table_fixtures::{Known, seated};
use std::alloc::Global;
use std::sync::Wait;

/// What lies in a slot.
#[derive(Clone, Copy, Debug, PartialEq, Eq)]
pub enum Found {
    Blank,
    Node { key: Key, count: u64, opened: u8 },
    Reader { drawn: u64 },
}

/// What a session leaves. Also what it found in the slots 0, 1 and the last one, and a second seat in slot 1. It found
/// nothing if there was no memory for it.
pub struct Left<F, S> {
    pub forest: Forest<F>,
    pub reader: Reader<S>,
    pub found: Option<[Found; 4]>,
}

fn found_in<F: SpillFile, S: Source>(item: &Item<F, S>) -> Found {
    match item {
        Item::Reader(reader) => Found::Reader {
            drawn: reader.drawn(),
        },
        Item::Node(node) => match node.state() {
            NodeState::Blank => Found::Blank,
            _ => Found::Node {
                key: node.key(),
                count: node.count(),
                opened: node.open_mask(),
            },
        },
    }
}

// Takes what lies in a slot, and returns it as it was.
fn look_into<F: SpillFile, S: Source, J: Scan, H: Wait>(
    rt: &H,
    table: &NodeTable<F, S, J>,
    seat: &mut Seat<F, S>,
    slot: u32,
) -> Found
    requires seat { IsSeat J.told table.now seat.old }
    requires rest { IsAtRest (known F.held S.whole (view seat.old)) }
    requires share { 0 < (view seat.old).parts }
    requires slot { slot < slots_of table.now }
    ensures seat { IsSeat J.told table.now seat.new }
    ensures rest { IsAtRest (known F.held S.whole (view seat.new)) }
    ensures share { (view seat.new).parts ≡ (view seat.old).parts }
{
    let item = table.take(rt, seat, slot);
    let found = found_in(&item);
    let _done = table.give(seat, slot, item, Done::Nothing);
    found
}

/// Makes a table, looks into its slots, divides the seat and ends the new one, and closes the table.
pub fn session<F: SpillFile, S: Source, J: Scan, H: Wait>(
    rt: &H,
    alloc: Global,
    forest: Forest<F>,
    known: Known<S>,
    most: u32,
) -> Left<F, S>
    requires told { J.told ≡ told_of S.whole known.reader known.rules most 1 (root ∷ []) true known.points.items }
    requires known { IsKnown S.whole S.left S.given S.faults known }
    requires some { 1 ≤ most }
    requires planted { IsPlanted F.held F.faults F.keeps most known.rules forest }
    requires telling { IsTelling F.held }
    ensures { IsReader S.whole S.left S.given S.faults result.reader }
{
    let (table, mut seat) = match seated::<F, S, J>(alloc, forest, known, most, 1) {
        Ok(made) => made,
        Err(unmade) => {
            let Unmade { forest, reader } = unmade;
            return Left {
                forest,
                reader,
                found: None,
            };
        }
    };
    let reader = look_into(rt, &table, &mut seat, 0);
    let first = look_into(rt, &table, &mut seat, 1);
    let last = look_into(rt, &table, &mut seat, most);
    table.look(&mut seat);
    let mut other = table.split(&mut seat);
    let again = look_into(rt, &table, &mut other, 1);
    table.join(&mut seat, other);
    let found = Some([reader, first, last, again]);
    let (forest, reader) = table.close(seat);
    Left {
        forest,
        reader,
        found,
    }
}
