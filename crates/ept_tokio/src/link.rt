//! A polled link over a stream.

ghost use Rattle.std.specs.Prelude.{◌≡◌, ◌<◌, ◌≤◌, [], IfOk, length, take};
ghost use Rattle.std.specs.Io.{ReadsAtMost, WritesAtMost};
ghost use Rattle.futures.specs.Poll.{IfReady, OnPending};
ghost use Rattle.futures.specs.Task.{IsArmed, Keeps};
ghost use Rattle.tokio.specs.Io.Moved.{bytes_moved};
ghost use Rattle.ept_base.specs.Causes.{Rose};
ghost use Rattle.ept_base.specs.Files.{Tells, StepsBy};
ghost use Rattle.ept_base.specs.Links.{Reads, FailsToRead, Writes};
ghost use Rattle.ept_poll.specs.Links.{IfReadyOk, OnReadyErr, Waits};

use crate::limit::{Limit, Stage};
use ept_base::Failed;
use ept_poll::PollLink;
use futures::task::{Context, Poll};
use std::io;
use std::time::Clock;
use tokio::io::{AsyncRead, AsyncWrite};
use tokio::time::Handle;

/// The most bytes that one read takes from the stream.
const BLOCK: usize = 8192;

/// The most bytes that are read after the last response.
const REST: usize = 524_288;

/// The most reads of these bytes in one poll.
const READS: usize = 16;

/// A polled stream to a peer, such as a TCP connection.
///
/// A call fails if the stream fails, if the stream takes none of some bytes, or if the peer takes too long. The limits
/// are 60 s until the first byte of a request, and 30 s from then on until its head is complete. A response has 60 s
/// without a byte taken. The next write shows that a head is complete.
#[derive(Drop)]
pub struct TokioLink<'a, C, S> {
    stream: S,
    limit: Limit<'a, C>,
    rest: usize,
    faults: u64,
    read_waits: u64,
    write_waits: u64,
}

impl<'a, C: Clock, S: AsyncRead + AsyncWrite> TokioLink<'a, C, S> {
    ghost use Rattle.ept_tokio.specs.Counts.{link_faults, link_read_waits, link_write_waits};
    ghost use Rattle.ept_tokio.specs.Streams.{link_stream};

    /// A link over this stream, without a fault.
    ///
    /// # Errors
    ///
    /// If the clock can't be read, or there is no memory for a timer.
    pub fn new(clock: &'a C, timers: &Handle, stream: S) -> io::Result<TokioLink<'a, C, S>>
        ensures sound { IfOk result (λ link. (link_faults link ≡ 0) × (link_read_waits link ≡ 0) × (link_write_waits link ≡ 0)) }
        ensures over { IfOk result (λ link. link_stream link ≡ stream) }
    {
        Ok(TokioLink {
            stream,
            limit: Limit::new(clock, timers)?,
            rest: REST,
            faults: 0,
            read_waits: 0,
            write_waits: 0,
        })
    }

    /// Ends the sending side. What the peer still sends can then be read by `poll_rest`.
    pub fn finish(&mut self, cx: &mut Context<'_>)
        ensures kept { Keeps cx.old cx.new }
    {
        let _ = self.stream.poll_shutdown(cx);
        self.limit.begin(Stage::Rest);
    }

    /// Reads what the peer still sends after the last response, at most 512 KiB and for at most 5 s. It is ready when
    /// the connection may be closed. A connection that is closed over unread bytes may lose its last response.
    pub fn poll_rest(&mut self, cx: &mut Context<'_>) -> Poll<()>
        ensures armed { OnPending result (IsArmed cx.new) }
        ensures kept { Keeps cx.old cx.new }
    {
        for _ in 0..READS {
            match self.poll_piece(cx) {
                Poll::Ready(true) => {}
                Poll::Ready(false) => return self.end_rest(),
                Poll::Pending => return self.poll_late(cx),
            }
        }
        cx.yield_now()
    }

    /// Whether the rest was read, or given up.
    pub fn is_over(&self) -> bool {
        self.rest == 0
    }

    // Reads no more of the rest.
    fn end_rest(&mut self) -> Poll<()>
        ensures { OnPending result ⊥ }
    {
        self.rest = 0;
        Poll::Ready(())
    }

    // Ends the rest, if its time is over.
    fn poll_late(&mut self, cx: &mut Context<'_>) -> Poll<()>
        ensures armed { OnPending result (IsArmed cx.new) }
        ensures kept { Keeps cx.old cx.new }
    {
        match self.limit.poll_over(cx) {
            Poll::Ready(()) => self.end_rest(),
            Poll::Pending => Poll::Pending,
        }
    }

    // Reads a piece of the rest, and returns whether there may be more.
    fn poll_piece(&mut self, cx: &mut Context<'_>) -> Poll<bool>
        ensures kept { Keeps cx.old cx.new }
    {
        let mut piece = [0; BLOCK];
        match self.stream.poll_read(cx, &mut piece) {
            Poll::Ready(Ok(count)) => {
                self.rest = self.rest.saturating_sub(count);
                Poll::Ready(count > 0 && self.rest > 0)
            }
            Poll::Ready(Err(_)) => Poll::Ready(false),
            Poll::Pending => Poll::Pending,
        }
    }

    /// The number of calls that have failed.
    pub fn faults(&self) -> u64
        ensures { result ≡ link_faults self.now }
    {
        self.faults
    }

    // Counts a fault.
    fn fault(&mut self) -> Failed
        ensures rose { Rose (link_faults self.old) (link_faults self.new) }
        ensures later { link_faults self.old ≤ link_faults self.new }
        ensures reads { link_read_waits self.new ≡ link_read_waits self.old }
        ensures writes { link_write_waits self.new ≡ link_write_waits self.old }
        ensures same { link_stream self.new ≡ link_stream self.old }
    {
        self.faults = self.faults.saturating_add(1);
        Failed
    }
}

impl<'a, C: Clock, S: AsyncRead + AsyncWrite> PollLink for TokioLink<'a, C, S> {
    ghost use Rattle.ept_tokio.specs.Counts.{link_faults, link_read_waits, link_write_waits};
    ghost use Rattle.ept_tokio.specs.Streams.{link_stream, link_wire};

    ghost wire = { λ link. link_wire link };

    ghost faults = { λ link. link_faults link };

    ghost read_waits = { λ link. link_read_waits link };

    ghost write_waits = { λ link. link_write_waits link };

    fn poll_read(&mut self, cx: &mut Context<'_>, into: &mut [u8]) -> Poll<Result<usize, Failed>>
        ensures bound { IfReady result (λ read. ReadsAtMost read into.new) }
        ensures ok { IfReadyOk result (λ n. StepsBy (Reads (take n into.new)) (link_wire self.old) (link_wire self.new)) }
        ensures end { IfReadyOk result (λ n. n ≡ 0 → 0 < length into.new → Tells (λ told. told.left ≡ []) (link_wire self.new)) }
        ensures failed { OnReadyErr result (StepsBy FailsToRead (link_wire self.old) (link_wire self.new)) }
        ensures unchanged { OnReadyErr result (into.new ≡ into.old) }
        ensures cause { OnReadyErr result (Rose (link_faults self.old) (link_faults self.new)) }
        ensures pending { OnPending result (Waits (link_read_waits self.old) (link_read_waits self.new) (link_wire self.old) (link_wire self.new) cx.new) }
        ensures kept { Keeps cx.old cx.new }
        ensures later { link_faults self.old ≤ link_faults self.new }
        ensures later_reads { link_read_waits self.old ≤ link_read_waits self.new }
        ensures later_writes { link_write_waits self.old ≤ link_write_waits self.new }

        // It returns what the stream gave, and takes no other byte of the stream.
        ensures passed { S.reads (link_stream self.old) (bytes_moved result into.new) (link_stream self.new) }
    {
        self.limit.reads();
        // A read that fails leaves `into` unchanged.
        let mut block = [0; BLOCK];
        let most = into.len().min(BLOCK);
        match self.stream.poll_read(cx, &mut block[..most]) {
            Poll::Ready(Ok(count)) => {
                self.limit.has_read();
                into[..count].copy_from_slice(&block[..count]);
                Poll::Ready(Ok(count))
            }
            Poll::Ready(Err(_)) => Poll::Ready(Err(self.fault())),
            Poll::Pending => match self.limit.poll_over(cx) {
                Poll::Ready(()) => Poll::Ready(Err(self.fault())),
                Poll::Pending => {
                    self.read_waits = self.read_waits.saturating_add(1);
                    Poll::Pending
                }
            },
        }
    }

    fn poll_write(&mut self, cx: &mut Context<'_>, from: &[u8]) -> Poll<Result<usize, Failed>>
        ensures bound { IfReady result (λ written. WritesAtMost written from.now) }
        ensures some { IfReadyOk result (λ n. 0 < length from.now → 0 < n) }
        ensures ok { IfReadyOk result (λ n. StepsBy (Writes (take n from.now)) (link_wire self.old) (link_wire self.new)) }
        ensures unchanged { OnReadyErr result (link_wire self.new ≡ link_wire self.old) }
        ensures cause { OnReadyErr result (Rose (link_faults self.old) (link_faults self.new)) }
        ensures pending { OnPending result (Waits (link_write_waits self.old) (link_write_waits self.new) (link_wire self.old) (link_wire self.new) cx.new) }
        ensures kept { Keeps cx.old cx.new }
        ensures later { link_faults self.old ≤ link_faults self.new }
        ensures later_reads { link_read_waits self.old ≤ link_read_waits self.new }
        ensures later_writes { link_write_waits self.old ≤ link_write_waits self.new }

        // What it reports as written is what the stream took.
        ensures passed { S.writes (link_stream self.old) (bytes_moved result from.now) (link_stream self.new) }
    {
        self.limit.writes();
        match self.stream.poll_write(cx, from) {
            Poll::Ready(Ok(count)) if count > 0 || from.is_empty() => {
                self.limit.begin(Stage::Response);
                Poll::Ready(Ok(count))
            }
            Poll::Ready(_) => Poll::Ready(Err(self.fault())),
            Poll::Pending => match self.limit.poll_over(cx) {
                Poll::Ready(()) => Poll::Ready(Err(self.fault())),
                Poll::Pending => {
                    self.write_waits = self.write_waits.saturating_add(1);
                    Poll::Pending
                }
            },
        }
    }
}
