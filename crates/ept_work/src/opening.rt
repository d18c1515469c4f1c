//! Slots for the children of octants that open.

ghost use Rattle.std.specs.Prelude.{◌≡◌, ◌+◌, ◌<◌, ◌&&◌, not, false};
ghost use Rattle.ept_grid.specs.Mask.{opened};
ghost use Rattle.ept_node.specs.Shown.{file_of, node_of};
ghost use Rattle.ept_slots.specs.Seating.{view};
ghost use Rattle.ept_table.specs.Permits.{spare_of};
ghost use Rattle.ept_table.specs.Standing.{known};
ghost use Rattle.ept_table.specs.Table.{slots_of, IsSeat};
ghost use Rattle.ept_table.specs.Item.{cell_of};
ghost use Rattle.ept_work.specs.Visiting.{IsOpening};
ghost use Rattle.ept_work.specs.Opening.{MayOpen, HasOpened};

use ept_base::{Source, SpillFile};
use ept_grid::OCTANTS;
use ept_node::Node;
use ept_table::{NodeTable, Scan, Seat};

/// A node that has opened octants, and whether a slot for a child was refused.
pub(crate) struct Opening<F> {
    pub(crate) node: Node<F>,
    pub(crate) is_full: bool,
}

/// Draws slots for the children of the octants of a node that were closed and are open, until a slot is refused.
pub(crate) fn open_children<F: SpillFile, S: Source, J: Scan>(
    table: &NodeTable<F, S, J>,
    seat: &mut Seat<F, S>,
    node: Node<F>,
    slot: u32,
    before: u8,
) -> Opening<F>
    requires seat { IsSeat J.told table.now seat.old }
    requires slots { slots_of table.now ≡ J.told.most + 1 }
    requires may { MayOpen F.held J.told (known F.held S.whole (view seat.old)) slot before node }
    requires unopened { HasOpened J.told (known F.held S.whole (view seat.old)) (cell_of F.held node) 0 false }
    ensures seat { IsSeat J.told table.now seat.new }
    ensures view { IsOpening (known F.held S.whole (view seat.old)) (known F.held S.whole (view seat.new)) }
    ensures may { MayOpen F.held J.told (known F.held S.whole (view seat.new)) slot before result.node }
    ensures node { node_of F.held result.node ≡ node_of F.held node }
    ensures file { file_of result.node ≡ file_of node }
    ensures held { (view seat.new).hold ≡ (view seat.old).hold }
    ensures permits { spare_of (view seat.new) ≡ spare_of (view seat.old) }
    ensures opened { HasOpened J.told (known F.held S.whole (view seat.new)) (cell_of F.held result.node) 8 result.is_full }
{
    let mut opening = Opening {
        node,
        is_full: false,
    };
    for octant in 0..OCTANTS {
        opening = open_child(table, seat, opening, slot, before, octant);
    }
    opening
}

// Draws a slot for the child of an octant, if the octant was closed and is open, and no slot was refused.
fn open_child<F: SpillFile, S: Source, J: Scan>(
    table: &NodeTable<F, S, J>,
    seat: &mut Seat<F, S>,
    opening: Opening<F>,
    slot: u32,
    before: u8,
    octant: u8,
) -> Opening<F>
    requires seat { IsSeat J.told table.now seat.old }
    requires slots { slots_of table.now ≡ J.told.most + 1 }
    requires low { octant < 8 }
    requires may { MayOpen F.held J.told (known F.held S.whole (view seat.old)) slot before opening.node }
    requires opened { HasOpened J.told (known F.held S.whole (view seat.old)) (cell_of F.held opening.node) octant opening.is_full }
    ensures seat { IsSeat J.told table.now seat.new }
    ensures view { IsOpening (known F.held S.whole (view seat.old)) (known F.held S.whole (view seat.new)) }
    ensures may { MayOpen F.held J.told (known F.held S.whole (view seat.new)) slot before result.node }
    ensures node { node_of F.held result.node ≡ node_of F.held opening.node }
    ensures file { file_of result.node ≡ file_of opening.node }
    ensures held { (view seat.new).hold ≡ (view seat.old).hold }
    ensures permits { spare_of (view seat.new) ≡ spare_of (view seat.old) }
    ensures opened { HasOpened J.told (known F.held S.whole (view seat.new)) (cell_of F.held result.node) (octant + 1) result.is_full }
{
    let Opening { mut node, is_full } = opening;
    let mask = node.open_mask();
    if !asks(is_full, before, mask, octant) {
        return Opening { node, is_full };
    }
    match table.draw_slot(seat, slot, octant) {
        Ok(child) => {
            node.set_child(octant, child);
            Opening { node, is_full }
        }
        Err(_) => Opening {
            node,
            is_full: true,
        },
    }
}

// Whether a slot is needed: no slot was refused, and the octant is in the second set and not in the first.
fn asks(is_full: bool, before: u8, after: u8, octant: u8) -> bool
    requires { octant < 8 }
    ensures { result ≡ (not is_full && (not (opened before octant) && opened after octant)) }
{
    !is_full && !is_open(before, octant) && is_open(after, octant)
}

// Whether the octant is in the set.
fn is_open(mask: u8, octant: u8) -> bool
    requires { octant < 8 }
    ensures { result ≡ opened mask octant }
{
    mask >> octant & 1 == 1
}
