//! The flights of the points that leave a node.

ghost use Rattle.std.specs.Prelude.{◌≡◌, ◌≢◌, ◌+◌, ◌++◌, ◌<◌, ◌≤◌, ℕ, [], length, vec_len, vec_capacity};
ghost use Rattle.ept_grid.specs.Outgoing.{points_at};
ghost use Rattle.ept_node.specs.Shown.{state_of, node_of};
ghost use Rattle.ept_node.specs.declared.state.NodeState.TheVariants.{Resident};
ghost use Rattle.ept_table.specs.Item.{cell_of};
ghost use Rattle.ept_work.specs.Sending.{sent_to, sent_on};

use ept_base::SpillFile;
use ept_core::Flight;
use ept_grid::{OCTANTS, Outgoing};
use ept_node::Node;
use ept_point::{List, Point};
use ept_space::child;
use ept_table::Carried;
use std::alloc::Global;

/// Adds the flights of the points that leave a node for its children to an empty list, which has room for them.
pub(crate) fn send_on<F: SpillFile>(
    alloc: Global,
    node: &Node<F>,
    actor: u32,
    out: &mut Outgoing,
    mut fresh: Vec<Carried>,
) -> Vec<Carried>
    requires resident { state_of node.now ≡ Resident }
    requires above { (o : ℕ) → o < 8 → 0 < length (points_at out.old o) → (node_of F.held node.now).key.depth < 31 }
    requires empty { fresh.items ≡ [] }
    requires room { 8 ≤ vec_capacity fresh }
    ensures sent { result.items ≡ sent_on actor (cell_of F.held node.now) out.old }
    ensures few { length result.items ≤ 8 }
{
    for octant in 0..OCTANTS {
        fresh = send(alloc, node, actor, out, octant, fresh);
    }
    fresh
}

// Adds the flight of the points that leave for an octant, if there are points.
fn send<F: SpillFile>(
    alloc: Global,
    node: &Node<F>,
    actor: u32,
    out: &mut Outgoing,
    octant: u8,
    mut fresh: Vec<Carried>,
) -> Vec<Carried>
    requires resident { state_of node.now ≡ Resident }
    requires low { octant < 8 }
    requires above { 0 < length (points_at out.old octant) → (node_of F.held node.now).key.depth < 31 }
    requires room { vec_len fresh < vec_capacity fresh }
    ensures sent { result.items ≡ fresh.items ++ sent_to actor (cell_of F.held node.now) out.old octant }
    ensures capacity { vec_capacity result ≡ vec_capacity fresh }
    ensures one { vec_len result ≤ vec_len fresh + 1 }
    ensures others { (o : ℕ) → o ≢ octant → points_at out.new o ≡ points_at out.old o }
{
    if out.points(octant).is_empty() {
        return fresh;
    }
    let points = taken(alloc, out, octant);
    fresh.push_reserved(Carried {
        slot: node.child(octant),
        flight: Flight {
            actor,
            key: child(&node.key(), octant),
            points: List::of(points),
        },
    });
    fresh
}

// The points that leave for an octant, in a list of their own size. If memory runs out, the list in which they left is
// taken.
fn taken(alloc: Global, out: &mut Outgoing, octant: u8) -> Vec<Point>
    requires { octant < 8 }
    ensures taken { result.items ≡ points_at out.old octant }
    ensures others { (o : ℕ) → o ≢ octant → points_at out.new o ≡ points_at out.old o }
{
    match Vec::from_slice(alloc, out.points(octant)) {
        Ok(points) => points,
        Err(_) => out.take(alloc, octant),
    }
}
