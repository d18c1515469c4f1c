ghost use Rattle.std.specs.Prelude.{◌≡◌, ◌<◌, ◌≤◌, [], length, take, IfOk, OnErr};
ghost use Rattle.std.specs.Io.{ReadsAtMost, WritesAtMost};
ghost use Rattle.std.specs.Io.KnownBytes.{ReadConsumes, WriteAppends};
ghost use Rattle.ept_base.specs.Causes.{Rose, HasCause};
ghost use Rattle.ept_base.specs.Files.{StepsBy, Tells};
ghost use Rattle.ept_base.specs.Links.{Reads, FailsToRead, Writes};

use ept_base::{Failed, Link};
use std::io::{Read, Write};

/// How many bytes one read takes from the stream at most.
const BLOCK: usize = 8192;

/// A stream to a peer, as a TCP connection.
///
/// A stream that takes none of some bytes fails.
#[derive(Drop)]
pub struct RealLink<S: Read + Write + Drop> {
    stream: S,
    // What a read takes before it is passed to the caller, so that a read that fails changes nothing.
    block: [u8; 8192],
    faults: u64,
}

impl<S: Read + Write + Drop> RealLink<S> {
    ghost use Rattle.ept_real.specs.Counts.{link_faults};
    ghost use Rattle.ept_real.specs.Streams.{link_stream};

    /// A link over this stream, without a fault.
    pub fn new(stream: S) -> Self
        ensures sound { link_faults result ≡ 0 }
        ensures over { link_stream result ≡ stream }
    {
        RealLink {
            stream,
            block: [0; BLOCK],
            faults: 0,
        }
    }

    /// The stream.
    pub fn stream(&self) -> &S
        ensures { result.now ≡ link_stream self.now }
    {
        &self.stream
    }

    /// How many calls have failed.
    pub fn faults(&self) -> u64
        ensures { result ≡ link_faults self.now }
    {
        self.faults
    }

    /// Counts a fault.
    fn fault(&mut self) -> Failed
        ensures rose { Rose (link_faults self.old) (link_faults self.new) }
        ensures later { link_faults self.old ≤ link_faults self.new }
        ensures same { link_stream self.new ≡ link_stream self.old }
    {
        self.faults = self.faults.saturating_add(1);
        Failed
    }
}

impl<S: Read + Write + Drop> Link for RealLink<S> {
    ghost use Rattle.ept_real.specs.Counts.{link_faults};
    ghost use Rattle.ept_real.specs.Streams.{link_stream, link_wire};

    ghost wire = { λ link. link_wire link };

    ghost faults = { λ link. link_faults link };

    fn read(&mut self, into: &mut [u8]) -> Result<usize, Failed>
        ensures bound { ReadsAtMost result into.new }
        ensures ok { IfOk result (λ n. StepsBy (Reads (take n into.new)) (link_wire self.old) (link_wire self.new)) }
        ensures end { IfOk result (λ n. n ≡ 0 → 0 < length into.new → Tells (λ told. told.left ≡ []) (link_wire self.new)) }
        ensures failed { OnErr result (StepsBy FailsToRead (link_wire self.old) (link_wire self.new)) }
        ensures unchanged { OnErr result (into.new ≡ into.old) }
        ensures cause { HasCause (link_faults self.old) (link_faults self.new) result }

        // It returns what the stream gave, and no other byte of the stream is taken.
        ensures passed { ReadConsumes (S.remaining (link_stream self.old)) (S.remaining (link_stream self.new)) result into.new }
    {
        let most = into.len().min(BLOCK);
        let block = &mut self.block[..];
        match self.stream.read(&mut block[..most]) {
            Ok(count) => {
                into[..count].copy_from_slice(&block[..count]);
                Ok(count)
            }
            Err(_) => Err(self.fault()),
        }
    }

    fn write(&mut self, from: &[u8]) -> Result<usize, Failed>
        ensures bound { WritesAtMost result from.now }
        ensures some { IfOk result (λ n. 0 < length from.now → 0 < n) }
        ensures ok { IfOk result (λ n. StepsBy (Writes (take n from.now)) (link_wire self.old) (link_wire self.new)) }
        ensures unchanged { OnErr result (link_wire self.new ≡ link_wire self.old) }
        ensures cause { HasCause (link_faults self.old) (link_faults self.new) result }

        // What it reports as written is what the stream took.
        ensures passed { WriteAppends (S.contents (link_stream self.old)) (S.contents (link_stream self.new)) result from.now }
    {
        match self.stream.write(from) {
            Ok(count) if count > 0 || from.is_empty() => Ok(count),
            _ => Err(self.fault()),
        }
    }
}
