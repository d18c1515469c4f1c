//! One event, with its refusals.

ghost use Rattle.std.specs.Prelude.{◌≡◌, ◌<◌, OnOk, OnErr, IfErr, true, false, Result};
ghost use Rattle.ept_core.specs.declared.event.Event.TheVariants.{Draw, Arrive, Evict, Reload};
ghost use Rattle.ept_core.specs.Law.{KeepsLaw};
ghost use Rattle.ept_core.specs.Steps.{Step};
ghost use Rattle.ept_core.specs.Refusals.{HasActor, Refuses};
ghost use Rattle.ept_core.specs.Machine.{state_of};

use crate::error::StepError;
use crate::event::Event;
use crate::machine::Machine;
use crate::steps::find_flight;
use ept_space::Key;

impl Machine {
    fn evict(&mut self, key: Key) -> Result<(), StepError>
        ensures ok { OnOk result (Step self.old.rules (state_of self.old) (Evict key) (state_of self.new)) }
        ensures refused { IfErr result (Refuses (state_of self.old) self.old.actors (Evict key)) }
        ensures unchanged { OnErr result (state_of self.new ≡ state_of self.old) }
        ensures rules { self.new.rules ≡ self.old.rules }
        ensures points { self.new.points ≡ self.old.points }
        ensures actors { self.new.actors ≡ self.old.actors }
    {
        match self.residence(&key) {
            None => Err(StepError::NoNode),
            Some(false) => Err(StepError::NotResident),
            Some(true) => {
                self.set_residence(&key, false);
                Ok(())
            }
        }
    }

    fn reload(&mut self, key: Key) -> Result<(), StepError>
        ensures ok { OnOk result (Step self.old.rules (state_of self.old) (Reload key) (state_of self.new)) }
        ensures refused { IfErr result (Refuses (state_of self.old) self.old.actors (Reload key)) }
        ensures unchanged { OnErr result (state_of self.new ≡ state_of self.old) }
        ensures rules { self.new.rules ≡ self.old.rules }
        ensures points { self.new.points ≡ self.old.points }
        ensures actors { self.new.actors ≡ self.old.actors }
    {
        match self.residence(&key) {
            None => Err(StepError::NoNode),
            Some(true) => Err(StepError::NotSpilled),
            Some(false) => {
                self.set_residence(&key, true);
                Ok(())
            }
        }
    }

    fn land(&mut self, actor: u32, number: u32) -> Result<(), StepError>
        requires law { ∥ KeepsLaw self.old.rules self.old.points (state_of self.old) ∥₁ }
        requires actor { actor < self.old.actors }
        ensures ok { OnOk result (Step self.old.rules (state_of self.old) (Arrive actor number) (state_of self.new)) }
        ensures refused { IfErr result (Refuses (state_of self.old) self.old.actors (Arrive actor number)) }
        ensures unchanged { OnErr result (state_of self.new ≡ state_of self.old) }
        ensures rules { self.new.rules ≡ self.old.rules }
        ensures points { self.new.points ≡ self.old.points }
        ensures actors { self.new.actors ≡ self.old.actors }
    {
        let index = match find_flight(self.flights.as_slice(), actor, number) {
            Some(index) => index,
            None => return Err(StepError::NoFlight),
        };
        let key = self.flights[index].key;
        if !self.is_resident(&key) {
            return Err(StepError::NotResident);
        }
        self.arrive(index)?;
        Ok(())
    }

    pub(crate) fn step(&mut self, event: Event) -> Result<(), StepError>
        requires law { ∥ KeepsLaw self.old.rules self.old.points (state_of self.old) ∥₁ }
        ensures ok { OnOk result (Step self.old.rules (state_of self.old) event (state_of self.new)) }
        ensures actor { OnOk result (HasActor self.old.actors event) }
        ensures refused { IfErr result (Refuses (state_of self.old) self.old.actors event) }
        ensures unchanged { OnErr result (state_of self.new ≡ state_of self.old) }
        ensures rules { self.new.rules ≡ self.old.rules }
        ensures points { self.new.points ≡ self.old.points }
        ensures actors { self.new.actors ≡ self.old.actors }
    {
        match event {
            Event::Draw { actor, count } => {
                if actor >= self.actors {
                    return Err(StepError::NoActor);
                }
                self.draw(actor, count)?;
                Ok(())
            }
            Event::Arrive { actor, number } => {
                if actor >= self.actors {
                    return Err(StepError::NoActor);
                }
                self.land(actor, number)
            }
            Event::Evict { key } => self.evict(key),
            Event::Reload { key } => self.reload(key),
        }
    }
}
