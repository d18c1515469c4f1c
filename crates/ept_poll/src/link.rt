//! A polled link to a peer.

ghost use Rattle.std.specs.Prelude.{◌≡◌, ◌<◌, ◌≤◌, ℕ, [], Option, length, take};
ghost use Rattle.std.specs.Io.{ReadsAtMost, WritesAtMost};
ghost use Rattle.futures.specs.Poll.{IfReady, OnPending};
ghost use Rattle.futures.specs.Task.{Keeps};
ghost use Rattle.ept_base.specs.Causes.{Rose};
ghost use Rattle.ept_base.specs.Files.{Tells, StepsBy};
ghost use Rattle.ept_base.specs.Links.{Wire, Reads, FailsToRead, Writes};
ghost use Rattle.ept_poll.specs.Links.{IfReadyOk, OnReadyErr, Waits};

use ept_base::Failed;
use futures::task::{Context, Poll};

/// A link to a peer whose calls do not wait: bytes that come, and bytes that go. A call moves what a call of `Link`
/// moves. A call that can move no byte now is pending, and its task is woken later.
pub trait PollLink {
    /// What came and went, if visible.
    ghost wire: { Self → Option Wire };

    /// How often it has failed, in reads and in writes.
    ghost faults: { Self → ℕ };

    /// How often a read was pending.
    ghost read_waits: { Self → ℕ };

    /// How often a write was pending.
    ghost write_waits: { Self → ℕ };

    /// Takes the next bytes into the first bytes of `into`, and returns their number. The number is 0 only if no more
    /// bytes come or `into` is empty. After `Failed` no byte was taken, and `into` is unchanged.
    fn poll_read(&mut self, cx: &mut Context<'_>, into: &mut [u8]) -> Poll<Result<usize, Failed>>
        ensures bound { IfReady result (λ read. ReadsAtMost read into.new) }
        ensures ok { IfReadyOk result (λ n. StepsBy (Reads (take n into.new)) (wire self.old) (wire self.new)) }
        ensures end { IfReadyOk result (λ n. n ≡ 0 → 0 < length into.new → Tells (λ told. told.left ≡ []) (wire self.new)) }
        ensures failed { OnReadyErr result (StepsBy FailsToRead (wire self.old) (wire self.new)) }
        ensures unchanged { OnReadyErr result (into.new ≡ into.old) }
        ensures cause { OnReadyErr result (Rose (faults self.old) (faults self.new)) }
        ensures pending { OnPending result (Waits (read_waits self.old) (read_waits self.new) (wire self.old) (wire self.new) cx.new) }
        ensures kept { Keeps cx.old cx.new }
        ensures later { faults self.old ≤ faults self.new }
        ensures later_reads { read_waits self.old ≤ read_waits self.new }
        ensures later_writes { write_waits self.old ≤ write_waits self.new };

    /// Writes the first bytes of `from`, and returns their number. The number is 0 only if `from` is empty. After
    /// `Failed` no byte was written.
    fn poll_write(&mut self, cx: &mut Context<'_>, from: &[u8]) -> Poll<Result<usize, Failed>>
        ensures bound { IfReady result (λ written. WritesAtMost written from.now) }
        ensures some { IfReadyOk result (λ n. 0 < length from.now → 0 < n) }
        ensures ok { IfReadyOk result (λ n. StepsBy (Writes (take n from.now)) (wire self.old) (wire self.new)) }
        ensures unchanged { OnReadyErr result (wire self.new ≡ wire self.old) }
        ensures cause { OnReadyErr result (Rose (faults self.old) (faults self.new)) }
        ensures pending { OnPending result (Waits (write_waits self.old) (write_waits self.new) (wire self.old) (wire self.new) cx.new) }
        ensures kept { Keeps cx.old cx.new }
        ensures later { faults self.old ≤ faults self.new }
        ensures later_reads { read_waits self.old ≤ read_waits self.new }
        ensures later_writes { write_waits self.old ≤ write_waits self.new };
}
