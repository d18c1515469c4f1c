//! A link in memory that is polled.

ghost use Rattle.std.specs.Prelude.{◌≡◌, ◌↔◌, ◌≤◌, [], Contains};
ghost use Rattle.ept_base.specs.Causes.{Rose};
ghost use Rattle.ept_base.specs.Devices.{counts_on};

use crate::link::PollLink;
use ept_base::{Failed, Link};
use ept_mem::MemLink;
use futures::task::{Context, Poll};
use std::alloc::Global;

// Which calls are to wait and which are to fail, and the number of calls so far.
#[derive(Debug, Drop)]
pub(crate) struct Script {
    pub(crate) pending: Vec<u64>,
    pub(crate) fails: Vec<u64>,
    pub(crate) calls: u64,
}

// What a call is to do.
#[derive(Clone, Copy)]
enum Course {
    Wait,
    Fail,
    Move,
}

impl Script {
    // Counts a call, and returns what it is to do.
    fn next(&mut self) -> Course
        ensures wait { result ≡ Course.Wait ↔ Contains self.old.pending.items self.old.calls }
        ensures fail { result ≡ Course.Fail → Contains self.old.fails.items self.old.calls }
        ensures moves { result ≡ Course.Move → ¬ Contains self.old.fails.items self.old.calls }
        ensures counted { self.new.calls ≡ counts_on self.old.calls 1 }
        ensures pending { self.new.pending.items ≡ self.old.pending.items }
        ensures fails { self.new.fails.items ≡ self.old.fails.items }
    {
        let call = self.calls;
        self.calls = call.saturating_add(1);
        if self.pending.contains(&call) {
            Course::Wait
        } else if self.fails.contains(&call) {
            Course::Fail
        } else {
            Course::Move
        }
    }
}

// Counts a fault.
fn fault(faults: &mut u64) -> Failed
    ensures rose { Rose faults.old faults.new }
    ensures later { faults.old ≤ faults.new }
{
    *faults = faults.saturating_add(1);
    Failed
}

/// A link in memory over which bytes come in pieces. Its calls are numbered from 0. The calls listed to wait are
/// pending. Of the other calls, those listed to fail do so.
#[derive(Debug, Drop)]
pub struct MemPollLink {
    link: MemLink,
    script: Script,
    faults: u64,
    read_waits: u64,
    write_waits: u64,
}

impl MemPollLink {
    ghost use Rattle.ept_mem.specs.Cut.{bytes_of_all};
    ghost use Rattle.ept_poll.specs.Memory.{link_wire, link_faults, link_read_waits, link_write_waits, link_calls, link_pending, link_fails};

    /// A link over which these pieces come, one after another. The calls whose numbers are in `pending` wait, and those
    /// in `fails` fail. It takes no memory.
    pub fn new(alloc: Global, pieces: Vec<Vec<u8>>, pending: Vec<u64>, fails: Vec<u64>) -> Self
        ensures left { (link_wire result).left ≡ bytes_of_all pieces.items }
        ensures untaken { (link_wire result).taken ≡ [] }
        ensures unwritten { (link_wire result).written ≡ [] }
        ensures unread { (link_wire result).reads ≡ [] }
        ensures sound { link_faults result ≡ 0 }
        ensures unwaited { (link_read_waits result ≡ 0) × (link_write_waits result ≡ 0) }
        ensures pending { link_pending result ≡ pending.items }
        ensures fails { link_fails result ≡ fails.items }
        ensures unused { link_calls result ≡ 0 }
    {
        MemPollLink {
            link: MemLink::new(alloc, pieces, Vec::new(alloc)),
            script: Script {
                pending,
                fails,
                calls: 0,
            },
            faults: 0,
            read_waits: 0,
            write_waits: 0,
        }
    }

    /// The bytes written.
    pub fn written(&self) -> &[u8]
        ensures { result.now ≡ (link_wire self.now).written }
    {
        self.link.written()
    }
}

impl PollLink for MemPollLink {
    ghost use Rattle.std.specs.Prelude.{Some, ◌<◌, length, min, take};
    ghost use Rattle.std.specs.Io.{ReadsAtMost, WritesAtMost};
    ghost use Rattle.futures.specs.Poll.{IfReady, OnPending};
    ghost use Rattle.futures.specs.Task.{Keeps};
    ghost use Rattle.ept_base.specs.Links.{Reads, FailsToRead, Writes};
    ghost use Rattle.ept_poll.specs.Links.{IfReadyOk, OnReadyErr, Waits};
    ghost use Rattle.ept_poll.specs.Memory.{link_wire, link_piece, link_faults, link_read_waits, link_write_waits, IsToWait, IsToFail, IsOneCallMore};

    ghost wire = { λ link. Some (link_wire link) };

    ghost faults = { link_faults };

    ghost read_waits = { link_read_waits };

    ghost write_waits = { link_write_waits };

    fn poll_read(&mut self, cx: &mut Context<'_>, into: &mut [u8]) -> Poll<Result<usize, Failed>>
        ensures bound { IfReady result (λ read. ReadsAtMost read into.new) }
        ensures ok { IfReadyOk result (λ n. Reads (take n into.new) (link_wire self.old) (link_wire self.new)) }
        ensures end { IfReadyOk result (λ n. n ≡ 0 → 0 < length into.new → (link_wire self.new).left ≡ []) }
        ensures failed { OnReadyErr result (FailsToRead (link_wire self.old) (link_wire self.new)) }
        ensures unchanged { OnReadyErr result (into.new ≡ into.old) }
        ensures cause { OnReadyErr result (Rose (link_faults self.old) (link_faults self.new)) }
        ensures pending { OnPending result (Waits (link_read_waits self.old) (link_read_waits self.new) (Some (link_wire self.old)) (Some (link_wire self.new)) cx.new) }
        ensures kept { Keeps cx.old cx.new }
        ensures later { link_faults self.old ≤ link_faults self.new }
        ensures later_reads { link_read_waits self.old ≤ link_read_waits self.new }
        ensures later_writes { link_write_waits self.old ≤ link_write_waits self.new }
        ensures to_wait { result ≡ Poll.Pending ↔ IsToWait self.old }
        ensures to_fail { IsToFail self.old → IfReadyOk result (λ _. ⊥) }
        ensures most { IfReadyOk result (λ n. n ≡ min (length into.new) (length (link_piece self.old))) }
        ensures numbered { IsOneCallMore self.old self.new }
    {
        match self.script.next() {
            Course::Wait => {
                self.read_waits = self.read_waits.saturating_add(1);
                cx.yield_now()
            }
            Course::Fail => Poll::Ready(Err(fault(&mut self.faults))),
            Course::Move => Poll::Ready(match self.link.read(into) {
                Ok(count) => Ok(count),
                Err(Failed) => Err(fault(&mut self.faults)),
            }),
        }
    }

    fn poll_write(&mut self, cx: &mut Context<'_>, from: &[u8]) -> Poll<Result<usize, Failed>>
        ensures bound { IfReady result (λ written. WritesAtMost written from.now) }
        ensures some { IfReadyOk result (λ n. 0 < length from.now → 0 < n) }
        ensures ok { IfReadyOk result (λ n. Writes (take n from.now) (link_wire self.old) (link_wire self.new)) }
        ensures unchanged { OnReadyErr result (Some (link_wire self.new) ≡ Some (link_wire self.old)) }
        ensures cause { OnReadyErr result (Rose (link_faults self.old) (link_faults self.new)) }
        ensures pending { OnPending result (Waits (link_write_waits self.old) (link_write_waits self.new) (Some (link_wire self.old)) (Some (link_wire self.new)) cx.new) }
        ensures kept { Keeps cx.old cx.new }
        ensures later { link_faults self.old ≤ link_faults self.new }
        ensures later_reads { link_read_waits self.old ≤ link_read_waits self.new }
        ensures later_writes { link_write_waits self.old ≤ link_write_waits self.new }
        ensures to_wait { result ≡ Poll.Pending ↔ IsToWait self.old }
        ensures to_fail { IsToFail self.old → IfReadyOk result (λ _. ⊥) }
        ensures most { IfReadyOk result (λ n. n ≡ length from.now) }
        ensures numbered { IsOneCallMore self.old self.new }
    {
        match self.script.next() {
            Course::Wait => {
                self.write_waits = self.write_waits.saturating_add(1);
                cx.yield_now()
            }
            Course::Fail => Poll::Ready(Err(fault(&mut self.faults))),
            Course::Move => Poll::Ready(match self.link.write(from) {
                Ok(count) => Ok(count),
                Err(Failed) => Err(fault(&mut self.faults)),
            }),
        }
    }
}
