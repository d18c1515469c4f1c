ghost use Rattle.std.specs.Prelude.{◌≡◌, ◌<◌, []};

use crate::plan::Plan;
use ept_base::{Failed, Sink};
use std::alloc::Global;

/// A sink in memory.
#[derive(Debug, Drop)]
pub struct MemSink {
    bytes: Vec<u8>,
    most: usize,
    plan: Plan,
    ghost takes_some: { 0 < most },
}

impl MemSink {
    ghost use Rattle.ept_mem.specs.Objects.{sink_bytes, sink_faults, sink_most, sink_fails, sink_calls};

    /// An empty sink that takes at most this many bytes in a write, and whose calls of these numbers
    /// fail.
    pub fn new(alloc: Global, most: usize, fails: Vec<u64>) -> Self
        requires { 0 < most }
        ensures empty { sink_bytes result ≡ [] }
        ensures sound { sink_faults result ≡ 0 }
        ensures most { sink_most result ≡ most }
        ensures fails { sink_fails result ≡ fails.items }
        ensures unused { sink_calls result ≡ 0 }
    {
        MemSink {
            bytes: Vec::new(alloc),
            most,
            plan: Plan::new(fails),
        }
    }

    /// The bytes written.
    pub fn bytes(&self) -> &[u8]
        ensures bytes { result.now ≡ sink_bytes self.now }
    {
        &self.bytes
    }
}

impl Sink for MemSink {
    ghost use Rattle.std.specs.Prelude.{Some, IfOk, OnErr, IsErr, length, min};
    ghost use Rattle.std.specs.Io.{WritesAtMost};
    ghost use Rattle.std.specs.Io.KnownBytes.{WriteAppends};
    ghost use Rattle.ept_base.specs.Causes.{HasCause};
    ghost use Rattle.ept_mem.specs.Objects.{sink_bytes, sink_faults, sink_most, sink_plan};
    ghost use Rattle.ept_mem.specs.Plans.{IsToFail, IsOneCallMore};

    ghost written = { λ sink. Some (sink_bytes sink) };

    ghost faults = { sink_faults };

    fn write(&mut self, from: &[u8]) -> Result<usize, Failed>
        ensures bound { WritesAtMost result from.now }
        ensures some { IfOk result (λ n. 0 < length from.now → 0 < n) }
        ensures bytes { WriteAppends (Some (sink_bytes self.old)) (Some (sink_bytes self.new)) result from.now }
        ensures unchanged { OnErr result (sink_bytes self.new ≡ sink_bytes self.old) }
        ensures cause { HasCause (sink_faults self.old) (sink_faults self.new) result }
        ensures most { IfOk result (λ n. n ≡ min (length from.now) (sink_most self.old)) }
        ensures same_most { sink_most self.new ≡ sink_most self.old }
        ensures to_fail { IsToFail (sink_plan self.old) → IsErr result }
        ensures numbered { IsOneCallMore (sink_plan self.old) (sink_plan self.new) }
    {
        if self.plan.next() {
            return Err(self.plan.fault());
        }
        let count = from.len().min(self.most);
        match self.bytes.extend_from_slice(&from[..count]) {
            Ok(()) => Ok(count),
            // A sink has no error for running out of memory.
            Err(_) => Err(self.plan.fault()),
        }
    }
}
