ghost use Rattle.std.specs.Prelude.{◌≡◌, []};

use crate::plan::Plan;
use ept_base::{Failed, PutError, Room, SpillFile};
use std::alloc::Global;

/// A spill file in memory. A call of `keep` that fails leaves it empty.
#[derive(Debug, Drop)]
pub struct MemSpill {
    alloc: Global,
    held: Vec<u8>,
    keeps: u64,
    plan: Plan,
}

impl MemSpill {
    ghost use Rattle.ept_mem.specs.Objects.{spill_bytes, spill_faults, spill_keeps, spill_fails, spill_calls};

    /// An empty file whose calls of these numbers fail.
    pub fn new(alloc: Global, fails: Vec<u64>) -> Self
        ensures empty { spill_bytes result ≡ [] }
        ensures sound { spill_faults result ≡ 0 }
        ensures fails { spill_fails result ≡ fails.items }
        ensures unkept { spill_keeps result ≡ 0 }
        ensures unused { spill_calls result ≡ 0 }
    {
        MemSpill {
            alloc,
            held: Vec::new(alloc),
            keeps: 0,
            plan: Plan::new(fails),
        }
    }
}

impl SpillFile for MemSpill {
    ghost use Rattle.std.specs.Prelude.{Some, IfOk, OnOk, OnErr, IsOk, IsErr, IsErrOf, IsOkUnless};
    ghost use Rattle.ept_base.specs.Causes.{HasCause, HasCauseOf};
    ghost use Rattle.ept_base.specs.Devices.{LoadsFront, counts_on};
    ghost use Rattle.ept_mem.specs.Objects.{spill_bytes, spill_faults, spill_keeps, spill_plan};
    ghost use Rattle.ept_mem.specs.Plans.{IsToFail, IsOneCallMore};

    ghost held = { λ spill. Some (spill_bytes spill) };

    ghost faults = { spill_faults };

    ghost keeps = { spill_keeps };

    fn keep(&mut self, bytes: &[u8]) -> Result<(), PutError>
        ensures ok { OnOk result (spill_bytes self.new ≡ bytes.now) }
        ensures failed { IsErrOf result PutError.Failed → spill_bytes self.new ≡ [] }
        ensures memory { IsErrOf result PutError.Memory → Some (spill_bytes self.new) ≡ Some (spill_bytes self.old) }
        ensures counted { spill_keeps self.new ≡ counts_on (spill_keeps self.old) 1 }
        ensures cause { HasCauseOf PutError.Failed (spill_faults self.old) (spill_faults self.new) result }
        ensures to_fail { IsToFail (spill_plan self.old) → IsErr result }
        ensures not_to_fail { ¬ IsToFail (spill_plan self.old) → IsOkUnless result PutError.Memory }
        ensures sound { ¬ IsToFail (spill_plan self.old) → spill_faults self.new ≡ spill_faults self.old }
        ensures numbered { IsOneCallMore (spill_plan self.old) (spill_plan self.new) }
    {
        self.keeps = self.keeps.saturating_add(1);
        if self.plan.next() {
            self.held.clear();
            return Err(self.plan.fault().into());
        }
        self.held = Vec::from_slice(self.alloc, bytes)?;
        Ok(())
    }

    fn load(&mut self, into: &mut [u8]) -> Result<usize, Failed>
        ensures ok { IfOk result (λ n. LoadsFront (spill_bytes self.old) n into.old into.new) }
        ensures unchanged { OnErr result (into.new ≡ into.old) }
        ensures same { Some (spill_bytes self.new) ≡ Some (spill_bytes self.old) }
        ensures counted { spill_keeps self.new ≡ spill_keeps self.old }
        ensures cause { HasCause (spill_faults self.old) (spill_faults self.new) result }
        ensures to_fail { IsToFail (spill_plan self.old) → IsErr result }
        ensures not_to_fail { ¬ IsToFail (spill_plan self.old) → IsOk result }
        ensures sound { ¬ IsToFail (spill_plan self.old) → spill_faults self.new ≡ spill_faults self.old }
        ensures numbered { IsOneCallMore (spill_plan self.old) (spill_plan self.new) }
    {
        if self.plan.next() {
            return Err(self.plan.fault());
        }
        let count = self.held.len().min(into.len());
        into[..count].copy_from_slice(&self.held[..count]);
        Ok(self.held.len())
    }
}

/// A room in memory.
#[derive(Debug, Drop)]
pub struct MemRoom {
    alloc: Global,
    keeps: u64,
    plan: Plan,
    file_fails: Vec<u64>,
}

impl MemRoom {
    ghost use Rattle.std.specs.Prelude.{◌≡◌};
    ghost use Rattle.ept_mem.specs.Objects.{room_faults, room_keeps, room_fails, room_calls, room_file_fails};

    /// A room whose own calls of the numbers `fails` fail. In each file that it makes, those of the numbers
    /// `file_fails` do.
    pub fn new(alloc: Global, fails: Vec<u64>, file_fails: Vec<u64>) -> Self
        ensures sound { room_faults result ≡ 0 }
        ensures fails { room_fails result ≡ fails.items }
        ensures file_fails { room_file_fails result ≡ file_fails.items }
        ensures unkept { room_keeps result ≡ 0 }
        ensures unused { room_calls result ≡ 0 }
    {
        MemRoom {
            alloc,
            keeps: 0,
            plan: Plan::new(fails),
            file_fails,
        }
    }
}

impl Room for MemRoom {
    type File = MemSpill;

    ghost use Rattle.std.specs.Prelude.{◌≢◌, ◌≤◌, IfOk, IsErr, IsOkUnless};
    ghost use Rattle.ept_base.specs.Causes.{Rose, HasCauseOf};
    ghost use Rattle.ept_base.specs.Devices.{counts_on};
    ghost use Rattle.ept_mem.specs.Objects.{IsFreshFile, spill_faults, spill_keeps, room_faults, room_keeps, room_plan, room_file_fails};
    ghost use Rattle.ept_mem.specs.Plans.{IsToFail, IsOneCallMore, IsNoCall};

    ghost faults = { room_faults };

    ghost keeps = { room_keeps };

    fn make(&mut self, _slot: u32) -> Result<MemSpill, PutError>
        ensures fresh { IfOk result (λ file. spill_faults file ≡ 0) }
        ensures unused { IfOk result (λ file. spill_keeps file ≡ 0) }
        ensures counted { room_keeps self.new ≡ room_keeps self.old }
        ensures cause { HasCauseOf PutError.Failed (room_faults self.old) (room_faults self.new) result }
        ensures file_fails { IfOk result (λ file. IsFreshFile file (room_file_fails self.old)) }
        ensures same_file_fails { room_file_fails self.new ≡ room_file_fails self.old }
        ensures to_fail { IsToFail (room_plan self.old) → IsErr result }
        ensures not_to_fail { ¬ IsToFail (room_plan self.old) → IsOkUnless result PutError.Memory }
        ensures sound { ¬ IsToFail (room_plan self.old) → room_faults self.new ≡ room_faults self.old }
        ensures numbered { IsOneCallMore (room_plan self.old) (room_plan self.new) }
    {
        if self.plan.next() {
            return Err(self.plan.fault().into());
        }
        let fails = Vec::from_slice(self.alloc, &self.file_fails)?;
        Ok(MemSpill::new(self.alloc, fails))
    }

    fn retire(&mut self, file: MemSpill)
        ensures later { room_faults self.old ≤ room_faults self.new }
        ensures failed { spill_faults file ≢ 0 → Rose (room_faults self.old) (room_faults self.new) }
        ensures sound { spill_faults file ≡ 0 → room_faults self.new ≡ room_faults self.old }
        ensures counted { room_keeps self.new ≡ counts_on (room_keeps self.old) (spill_keeps file) }
        ensures same_file_fails { room_file_fails self.new ≡ room_file_fails self.old }
        ensures not_numbered { IsNoCall (room_plan self.old) (room_plan self.new) }
    {
        self.keeps = self.keeps.saturating_add(file.keeps);
        if file.plan.faults > 0 {
            self.plan.fault();
        }
    }
}
