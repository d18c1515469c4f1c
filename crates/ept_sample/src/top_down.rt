//! The sampling, from the top down.

ghost use Rattle.std.specs.Prelude.{◌≡◌, ◌≤◌, ◌<◌, ◌-◌, ℕ, false, slice_index_or, OnOk, IfOk, map};
ghost use Rattle.ept_sample.specs.Place.{AllInCube, AllInBox};
ghost use Rattle.ept_sample.specs.Ids.{HasDistinctIds, in_id_order};
ghost use Rattle.ept_sample.specs.Arrivals.{has_too_many};
ghost use Rattle.ept_sample.specs.Walk.{nodes_below, with_nodes, tile_of};
ghost use Rattle.ept_sample.specs.Nodes.{sampled};

use crate::arrivals::{OCTANTS, child_of, in_octant, losing, opening, staying};
use crate::ids::in_id_order;
use crate::tiles::{Tile, Tiles};
use ept_point::{List, Memory, Point};
use ept_space::{Key, Rules};
use std::alloc::Global;
use std::collections::BTreeMap;

/// The sampling of the points: each node with its points, in key order.
///
/// This is the sampling as it is defined, from the top down, in a time that grows with the square of
/// the number of points. The ids of the points differ, and the points lie in the cube.
pub fn sample(alloc: Global, points: &[Point], rules: &Rules) -> Result<Tiles, Memory>
    requires distinct { HasDistinctIds points.now }
    requires inside { AllInCube rules.now.cube points.now }
    ensures sampled { IfOk result (λ t. t.tiles ≡ sampled rules.now points.now) }
{
    // Each node has a key.
    prove!(rules.cube.depth <= Key::MAX_DEPTH);
    let given = by_id(alloc, points)?;
    let mut nodes = BTreeMap::new(alloc);
    add_nodes(alloc, rules, Key::ROOT, given.as_slice(), &mut nodes)?;
    tiles_of(alloc, nodes)
}

// The points in id order.
fn by_id(alloc: Global, points: &[Point]) -> Result<Vec<Point>, Memory>
    requires distinct { HasDistinctIds points.now }
    ensures ordered { IfOk result (λ v. v.items ≡ in_id_order points.now) }
{
    in_id_order(Vec::from_slice(alloc, points)?)
}

// Adds the node of the key, which was given these points, and the nodes below it.
fn add_nodes(
    alloc: Global,
    rules: &Rules,
    key: Key,
    given: &[Point],
    nodes: &mut BTreeMap<Key, List<Point>>,
) -> Result<(), Memory>
    requires low { key.depth ≤ rules.now.cube.depth }
    requires inside { AllInBox rules.now.cube key given.now }
    requires in_cube { AllInCube rules.now.cube given.now }
    ensures nodes { OnOk result (nodes.new.entries
        ≡ with_nodes nodes.old.entries (nodes_below rules.now (rules.now.cube.depth - key.depth) key given.now)) }
{
    rules.cube.known();
    let losers = losing(alloc, rules, key.depth, given)?;
    let open = overflowing(rules, &key, losers.as_slice());
    let points = staying(alloc, rules, &key, given, &open)?;
    nodes.insert(key, List::of(points))?;
    for which in 0..OCTANTS {
        if open[which] {
            let sent = in_octant(alloc, rules, &key, losers.as_slice(), which as u8)?;
            add_nodes(
                alloc,
                rules,
                child_of(rules, &key, which as u8),
                sent.as_slice(),
                nodes,
            )?;
        }
    }
    Ok(())
}

// Which octants overflow: above the greatest depth, those with more of these losers than the threshold.
fn overflowing(rules: &Rules, key: &Key, losers: &[Point]) -> [bool; OCTANTS]
    requires inside { AllInBox rules.now.cube key.now losers.now }
    ensures overflow { (o : ℕ) → o < 8 →
        slice_index_or result o false ≡ has_too_many rules.now key.now.depth losers.now o }
{
    opening(rules, key, &[false; OCTANTS], losers)
}

// The nodes as tiles.
fn tiles_of(alloc: Global, nodes: BTreeMap<Key, List<Point>>) -> Result<Tiles, Memory>
    ensures { IfOk result (λ t. t.tiles ≡ map tile_of nodes.entries) }
{
    let tiles = nodes
        .into_iter()
        .map(|(key, points)| Tile { key, points })
        .collect(alloc)?;
    Ok(Tiles {
        tiles: List::of(tiles),
    })
}
