//! The steps of a core.

ghost use Rattle.std.specs.Prelude.{◌≡◌, ◌≤◌, ◌<◌, ℕ, true, false, length, take, count_by, OnOk, OnErr, IfOk, MatchOption, slice_index_or, remove};
ghost use Rattle.ept_core.specs.State.{node_at, has_node, has_open};
ghost use Rattle.ept_core.specs.Steps.{drawn, arrived, moved, is_of};
ghost use Rattle.ept_core.specs.Law.{KeepsLaw};
ghost use Rattle.ept_core.specs.Machine.{state_of, IsEffect};
ghost use Rattle.ept_core.specs.declared.flight.Flight.{Flight};

use crate::arrival::{Effect, add_flight, effect_on, gather};
use crate::flight::Flight;
use crate::machine::Machine;
use ept_point::{Memory, Point};
use ept_sample::OCTANTS;
use ept_space::Key;

// The place among the flights of the actor's flight of that number.
pub(crate) fn find_flight(flights: &[Flight], actor: u32, number: u32) -> Option<usize>
    ensures { MatchOption result
        (count_by (is_of actor) flights.now ≤ number)
        (λ i. (i < length flights.now) × (count_by (is_of actor) (take i flights.now) ≡ number) × ((f : Flight) → (slice_index_or flights.now i f).actor ≡ actor)) }
{
    let mut before = 0;
    for index in 0..flights.len() {
        if flights[index].actor == actor {
            if before == number {
                return Some(index);
            }
            before += 1;
        }
    }
    None
}

impl Machine {
    // The actor takes up to `count` of the points that are left.
    pub(crate) fn draw(&mut self, actor: u32, count: u32) -> Result<(), Memory>
        ensures ok { OnOk result (state_of self.new ≡ drawn actor count (state_of self.old)) }
        ensures unchanged { OnErr result (state_of self.new ≡ state_of self.old) }
        ensures rules { self.new.rules ≡ self.old.rules }
        ensures points { self.new.points ≡ self.old.points }
        ensures actors { self.new.actors ≡ self.old.actors }
    {
        let left = &self.points.as_slice()[self.taken..];
        let taken = left.len().min(count as usize);
        add_flight(
            self.alloc,
            &mut self.flights,
            actor,
            Key::ROOT,
            &left[..taken],
        )?;
        self.taken += taken;
        Ok(())
    }

    // Whether the key is that of a node, and if so, whether the node is resident.
    pub(crate) fn residence(&self, key: &Key) -> Option<bool>
        ensures { MatchOption result (has_node self.now.nodes.entries key.now ≡ false)
            (λ r. (has_node self.now.nodes.entries key.now ≡ true) × ((node_at self.now.nodes.entries key.now).is_resident ≡ r)) }
    {
        match self.nodes.get(key) {
            Some(node) => Some(node.is_resident),
            None => None,
        }
    }

    // Sets where the points of a node are kept.
    pub(crate) fn set_residence(&mut self, key: &Key, resident: bool)
        requires node { has_node self.old.nodes.entries key.now ≡ true }
        ensures state { state_of self.new ≡ moved key.now resident (state_of self.old) }
        ensures rules { self.new.rules ≡ self.old.rules }
        ensures points { self.new.points ≡ self.old.points }
        ensures actors { self.new.actors ≡ self.old.actors }
    {
        match self.nodes.get_mut(key) {
            Some(node) => node.is_resident = resident,
            None => {}
        }
    }

    // The points and the open octants of the node of a key; none if there is no such node.
    fn standing(&self, key: &Key) -> (&[Point], [bool; OCTANTS])
        ensures points { result.0.now ≡ (node_at self.now.nodes.entries key.now).points }
        ensures opened { (o : ℕ) → o < OCTANTS → has_open (node_at self.now.nodes.entries key.now) o ≡ slice_index_or result.1 o false }
    {
        match self.nodes.get(key) {
            Some(node) => (node.points.as_slice(), node.opened),
            None => (&self.points.as_slice()[..0], [false; OCTANTS]),
        }
    }

    // Whether the points of the node of a key are in memory; true if there is no such node.
    pub(crate) fn is_resident(&self, key: &Key) -> bool
        ensures { result ≡ (node_at self.now.nodes.entries key.now).is_resident }
    {
        match self.nodes.get(key) {
            Some(node) => node.is_resident,
            None => true,
        }
    }

    // What the flight at that place does to its node.
    fn effect_of(&self, index: usize) -> Result<Effect, Memory>
        requires index { index < length self.now.flights.items }
        requires law { ∥ KeepsLaw self.now.rules self.now.points (state_of self.now) ∥₁ }
        ensures effect { IfOk result (λ e. (f : Flight) → slice_index_or self.now.flights.items index f ≡ f → IsEffect self.now.rules self.now.nodes.entries f e) }
    {
        let flight = &self.flights[index];
        let (standing, was) = self.standing(&flight.key);
        let given = gather(self.alloc, flight.points.as_slice(), standing)?;
        effect_on(
            self.alloc,
            &self.rules,
            flight.actor,
            &flight.key,
            &was,
            given.as_slice(),
        )
    }

    // Lets the flight at that place arrive.
    pub(crate) fn arrive(&mut self, index: usize) -> Result<(), Memory>
        requires index { index < length self.old.flights.items }
        requires law { ∥ KeepsLaw self.old.rules self.old.points (state_of self.old) ∥₁ }
        ensures ok { OnOk result ((f : Flight) → slice_index_or self.old.flights.items index f ≡ f
            → state_of self.new ≡ arrived self.old.rules f (remove self.old.flights.items index) (state_of self.old)) }
        ensures unchanged { OnErr result (state_of self.new ≡ state_of self.old) }
        ensures rules { self.new.rules ≡ self.old.rules }
        ensures points { self.new.points ≡ self.old.points }
        ensures actors { self.new.actors ≡ self.old.actors }
    {
        let Effect { node, mut flights } = self.effect_of(index)?;
        let key = self.flights[index].key;
        let count = self.flights.len();
        self.flights.append(&mut flights)?;
        match self.nodes.insert(key, node) {
            Ok(_) => {}
            Err(_) => {
                self.flights.truncate(count);
                return Err(Memory);
            }
        }
        self.flights.remove(index);
        Ok(())
    }
}
