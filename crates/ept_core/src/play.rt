//! What can be done with a core.

ghost use Rattle.std.specs.Prelude.{◌≡◌, ◌↔◌, IsTrue, [], map, OnOk, OnErr, IfOk, IfErr, All};
ghost use Rattle.ept_sample.specs.Place.{AllInCube};
ghost use Rattle.ept_sample.specs.Ids.{HasDistinctIds};
ghost use Rattle.ept_sample.specs.Nodes.{sampled};
ghost use Rattle.ept_core.specs.State.{tile_of};
ghost use Rattle.ept_core.specs.Law.{KeepsLaw};
ghost use Rattle.ept_core.specs.Steps.{Step, Run, begun};
ghost use Rattle.ept_core.specs.Refusals.{HasActor, Refuses, StopsAt};
ghost use Rattle.ept_core.specs.Shown.{shown, rules_of, points_of, actors_of};

use crate::engine::Core;
use crate::error::StepError;
use crate::event::Event;
use crate::machine::Machine;
use crate::node::Node;
use ept_point::{List, Memory, Point};
use ept_sample::{OCTANTS, Tile, Tiles};
use ept_space::{Key, Rules};
use std::alloc::Global;
use std::collections::BTreeMap;

impl Core {
    /// Makes a core of these points, of which none was drawn. The root is there, resident and empty. The ids of the
    /// points differ, and the points lie in the cube.
    pub fn new(alloc: Global, points: &[Point], rules: &Rules, actors: u32) -> Result<Core, Memory>
        requires distinct { HasDistinctIds points.now }
        requires inside { AllInCube rules.now.cube points.now }
        ensures state { IfOk result (λ core. shown core ≡ begun points.now) }
        ensures points { IfOk result (λ core. points_of core ≡ points.now) }
        ensures rules { IfOk result (λ core. rules_of core ≡ rules.now) }
        ensures actors { IfOk result (λ core. actors_of core ≡ actors) }
    {
        // Each node has a key.
        prove!(rules.cube.depth <= Key::MAX_DEPTH);
        let points = List::of(Vec::from_slice(alloc, points)?);
        let root = Node {
            points: List::of(Vec::new(alloc)),
            opened: [false; OCTANTS],
            is_resident: true,
        };
        let mut nodes = BTreeMap::new(alloc);
        nodes.insert(Key::ROOT, root)?;
        let machine = Machine {
            alloc,
            rules: *rules,
            actors,
            points,
            taken: 0,
            flights: Vec::new(alloc),
            nodes,
        };
        Ok(Core { machine })
    }

    /// Exposes the law, which each core keeps for its points, to the caller's proof. Does nothing at run time.
    pub fn known(&self)
        ensures law { ∥ KeepsLaw (rules_of self.now) (points_of self.now) (shown self.now) ∥₁ }
    {
        let _machine = &self.machine;
    }

    /// Lets one event happen. After a refusal the core is unchanged.
    pub fn step(&mut self, event: Event) -> Result<(), StepError>
        ensures ok { OnOk result (Step (rules_of self.old) (shown self.old) event (shown self.new)) }
        ensures actor { OnOk result (HasActor (actors_of self.old) event) }
        ensures refused { IfErr result (Refuses (shown self.old) (actors_of self.old) event) }
        ensures unchanged { OnErr result (shown self.new ≡ shown self.old) }
        ensures rules { rules_of self.new ≡ rules_of self.old }
        ensures points { points_of self.new ≡ points_of self.old }
        ensures actors { actors_of self.new ≡ actors_of self.old }
    {
        self.machine.step(event)
    }

    /// Whether nothing is left and nothing is in flight. The nodes are then the sampling of the points.
    pub fn finished(&self) -> bool
        ensures done { IsTrue result ↔ (((shown self.now).left ≡ []) × ((shown self.now).flights ≡ [])) }
    {
        self.machine.points.as_slice()[self.machine.taken..].is_empty()
            && self.machine.flights.is_empty()
    }

    /// The nodes as tiles, in key order. If the core is finished, they are the sampling of the points.
    pub fn tiles(&self) -> Result<Tiles, Memory>
        ensures nodes { IfOk result (λ t. t.tiles ≡ map tile_of (shown self.now).nodes) }
        ensures sampled { IfOk result (λ t. (shown self.now).left ≡ [] → (shown self.now).flights ≡ []
            → t.tiles ≡ sampled (rules_of self.now) (points_of self.now)) }
    {
        let mut tiles = Vec::new(self.machine.alloc);
        for (key, node) in self.machine.nodes.iter() {
            let points = Vec::from_slice(self.machine.alloc, node.points.as_slice())?;
            tiles.push(Tile {
                key: *key,
                points: List::of(points),
            })?;
        }
        Ok(Tiles {
            tiles: List::of(tiles),
        })
    }
}

/// Lets the events happen in order, up to the first that is refused. The events before it have happened.
pub fn run_events(core: &mut Core, events: &[Event]) -> Result<(), StepError>
    ensures ok { OnOk result (Run (rules_of core.old) (shown core.old) events.now (shown core.new)) }
    ensures actor { OnOk result (All (HasActor (actors_of core.old)) events.now) }
    ensures refused { IfErr result (StopsAt (rules_of core.old) (actors_of core.old) (shown core.old) events.now (shown core.new)) }
    ensures rules { rules_of core.new ≡ rules_of core.old }
    ensures points { points_of core.new ≡ points_of core.old }
    ensures actors { actors_of core.new ≡ actors_of core.old }
{
    for event in events {
        core.step(*event)?;
    }
    Ok(())
}
