//! What points that arrive at a node do: the node afterwards, and the flights of the points that leave it.

ghost use Rattle.std.specs.Prelude.{◌≡◌, ◌≤◌, ◌<◌, ℕ, true, false, OnOk, OnErr, IfOk, slice_index_or, ◌++◌};
ghost use Rattle.ept_space.specs.VoxelKey.{child};
ghost use Rattle.ept_sample.specs.Place.{AllInCube, AllInBox};
ghost use Rattle.ept_sample.specs.Ids.{HasDistinctIds, in_id_order};
ghost use Rattle.ept_core.specs.declared.node.Node.{Node};
ghost use Rattle.ept_core.specs.State.{has_open};
ghost use Rattle.ept_core.specs.Steps.{flight_of, node_after, flights_after};
ghost use Rattle.ept_core.specs.Effects.{part_of, flights_below};

use crate::flight::Flight;
use crate::node::Node;
use ept_point::{List, Memory, Point};
use ept_sample::{OCTANTS, child_of, in_id_order, in_octant, losing, opening, staying};
use ept_space::{Key, Rules};
use std::alloc::Global;

// The points of a flight and of a node together, in id order.
pub(crate) fn gather(
    alloc: Global,
    arriving: &[Point],
    standing: &[Point],
) -> Result<Vec<Point>, Memory>
    requires distinct { HasDistinctIds (arriving.now ++ standing.now) }
    ensures gathered { IfOk result (λ v. v.items ≡ in_id_order (arriving.now ++ standing.now)) }
{
    let mut given = Vec::from_slice(alloc, arriving)?;
    given.extend_from_slice(standing)?;
    in_id_order(given)
}

// Adds the flight of the points to the key after the others. If there are no points, it adds none.
pub(crate) fn add_flight(
    alloc: Global,
    flights: &mut Vec<Flight>,
    actor: u32,
    key: Key,
    points: &[Point],
) -> Result<(), Memory>
    ensures ok { OnOk result (flights.new.items ≡ flights.old.items ++ flight_of actor key points.now) }
    ensures unchanged { OnErr result (flights.new.items ≡ flights.old.items) }
{
    if points.is_empty() {
        return Ok(());
    }
    let points = List::of(Vec::from_slice(alloc, points)?);
    flights.push(Flight { actor, key, points })?;
    Ok(())
}

// Adds the flight of the losers of one octant, if it is open.
fn send(
    alloc: Global,
    rules: &Rules,
    actor: u32,
    key: &Key,
    losers: &[Point],
    is_open: bool,
    which: u8,
) -> Result<Vec<Flight>, Memory>
    requires inside { AllInBox rules.now.cube key.now losers.now }
    requires bottom { is_open ≡ true → key.now.depth < rules.now.cube.depth }
    requires one_of_eight { which < OCTANTS }
    ensures sent { IfOk result (λ v. v.items
        ≡ flight_of actor (child key.now which) (part_of rules.now key.now.depth losers.now is_open which)) }
{
    let mut flights = Vec::new(alloc);
    if is_open {
        let sent = in_octant(alloc, rules, key, losers, which)?;
        add_flight(
            alloc,
            &mut flights,
            actor,
            child_of(rules, key, which),
            sent.as_slice(),
        )?;
    }
    Ok(flights)
}

// The flights of the losers of the open octants, in octant order.
pub(crate) fn sending(
    alloc: Global,
    rules: &Rules,
    actor: u32,
    key: &Key,
    losers: &[Point],
    opened: &[bool; OCTANTS],
) -> Result<Vec<Flight>, Memory>
    requires inside { AllInBox rules.now.cube key.now losers.now }
    requires bottom { (o : ℕ) → o < OCTANTS → slice_index_or opened.now o false ≡ true → key.now.depth < rules.now.cube.depth }
    ensures sent { IfOk result (λ v. v.items ≡ flights_below actor rules.now key.now losers.now opened.now OCTANTS) }
{
    let mut flights = Vec::new(alloc);
    for which in 0..OCTANTS {
        let mut more = send(alloc, rules, actor, key, losers, opened[which], which as u8)?;
        flights.append(&mut more)?;
    }
    Ok(flights)
}

// What an arrival does: the node afterwards, and the flights that leave it.
#[derive(Drop)]
pub(crate) struct Effect {
    pub(crate) node: Node,
    pub(crate) flights: Vec<Flight>,
}

// What given points do to a node, of which these octants were open.
pub(crate) fn effect_on(
    alloc: Global,
    rules: &Rules,
    actor: u32,
    key: &Key,
    was: &[bool; OCTANTS],
    given: &[Point],
) -> Result<Effect, Memory>
    requires low { key.now.depth ≤ rules.now.cube.depth }
    requires inside { AllInBox rules.now.cube key.now given.now }
    requires in_cube { AllInCube rules.now.cube given.now }
    requires bottom { (o : ℕ) → o < OCTANTS → slice_index_or was.now o false ≡ true → key.now.depth < rules.now.cube.depth }
    ensures effect { IfOk result (λ e. (n : Node) → ((o : ℕ) → o < 8 → has_open n o ≡ slice_index_or was.now o false)
        → (e.node ≡ node_after rules.now key.now n given.now) × (e.flights.items ≡ flights_after actor rules.now key.now n given.now)) }
{
    let losers = losing(alloc, rules, key.depth, given)?;
    let opened = opening(rules, key, was, losers.as_slice());
    let flights = sending(alloc, rules, actor, key, losers.as_slice(), &opened)?;
    let points = List::of(staying(alloc, rules, key, given, &opened)?);
    let node = Node {
        points,
        opened,
        is_resident: true,
    };
    Ok(Effect { node, flights })
}
