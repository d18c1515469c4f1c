ghost use Rattle.std.specs.Prelude.{◌≡◌, ◌⊎◌, ◌+◌, ◌-◌, ◌^◌, ◌≤◌, ◌↔◌, min, IsTrue, Some, None, Contains};
ghost use Rattle.ept_base.specs.Causes.{Rose};
ghost use Rattle.ept_mem.specs.Fuse.{one_less};

use ept_base::Failed;

/// Which calls of an object are to fail, how many there were, and how often it failed.
#[derive(Debug, Drop)]
pub(crate) struct Plan {
    pub(crate) fails: Vec<u64>,
    pub(crate) calls: u64,
    pub(crate) faults: u64,
}

impl Plan {
    pub(crate) fn new(fails: Vec<u64>) -> Self
        ensures fails { result.fails.items ≡ fails.items }
        ensures unused { result.calls ≡ 0 }
        ensures sound { result.faults ≡ 0 }
    {
        Plan {
            fails,
            calls: 0,
            faults: 0,
        }
    }

    /// Counts a call, and returns whether it is to fail.
    pub(crate) fn next(&mut self) -> bool
        ensures told { IsTrue result ↔ Contains self.old.fails.items self.old.calls }
        ensures counted { self.new.calls ≡ min (self.old.calls + 1) (2 ^ 64 - 1) }
        ensures same { self.new.faults ≡ self.old.faults }
        ensures list { self.new.fails.items ≡ self.old.fails.items }
    {
        let is_to_fail = self.fails.contains(&self.calls);
        self.calls = self.calls.saturating_add(1);
        is_to_fail
    }

    /// Counts a fault.
    pub(crate) fn fault(&mut self) -> Failed
        ensures rose { Rose self.old.faults self.new.faults }
        ensures later { self.old.faults ≤ self.new.faults }
        ensures list { self.new.fails.items ≡ self.old.fails.items }
        ensures calls { self.new.calls ≡ self.old.calls }
    {
        self.faults = self.faults.saturating_add(1);
        Failed
    }
}

/// A plan and a fuse: if there is a fuse, it passes that many more calls, and none after them.
#[derive(Debug, Drop)]
pub(crate) struct FusedPlan {
    pub(crate) plan: Plan,
    pub(crate) fuse: Option<u64>,
}

impl FusedPlan {
    pub(crate) fn new(fails: Vec<u64>) -> Self
        ensures fails { result.plan.fails.items ≡ fails.items }
        ensures unused { result.plan.calls ≡ 0 }
        ensures sound { result.plan.faults ≡ 0 }
        ensures unfused { result.fuse ≡ None }
    {
        FusedPlan {
            plan: Plan::new(fails),
            fuse: None,
        }
    }

    /// Counts a call, and returns whether it is to fail.
    pub(crate) fn next(&mut self) -> bool
        ensures told { IsTrue result ↔ (Contains self.old.plan.fails.items self.old.plan.calls ⊎ (self.old.fuse ≡ Some 0)) }
        ensures counted { self.new.plan.calls ≡ min (self.old.plan.calls + 1) (2 ^ 64 - 1) }
        ensures burns { self.new.fuse ≡ one_less self.old.fuse }
        ensures same { self.new.plan.faults ≡ self.old.plan.faults }
        ensures list { self.new.plan.fails.items ≡ self.old.plan.fails.items }
    {
        let is_listed = self.plan.next();
        match self.fuse {
            None => is_listed,
            Some(left) => {
                self.fuse = Some(left.saturating_sub(1));
                is_listed || left == 0
            }
        }
    }

    /// Counts a fault.
    pub(crate) fn fault(&mut self) -> Failed
        ensures rose { Rose self.old.plan.faults self.new.plan.faults }
        ensures later { self.old.plan.faults ≤ self.new.plan.faults }
        ensures list { self.new.plan.fails.items ≡ self.old.plan.fails.items }
        ensures calls { self.new.plan.calls ≡ self.old.plan.calls }
        ensures fuse { self.new.fuse ≡ self.old.fuse }
    {
        self.plan.fault()
    }
}
