ghost use Rattle.std.specs.Prelude.{◌≡◌, ◌<◌, ◌≤◌, length, take, IfOk, OnErr};
ghost use Rattle.std.specs.Io.{WritesAtMost};
ghost use Rattle.std.specs.Io.KnownBytes.{Appends, WriteAppends};
ghost use Rattle.ept_base.specs.Causes.{Rose, HasCause};
ghost use Rattle.ept_base.specs.Devices.{AppendsPrefix};

use ept_base::{Failed, Sink};
use std::io::Write;

/// A writer, as standard output. Each write is flushed.
///
/// A writer that takes none of some bytes fails, and so does one whose flush fails; its bytes may then
/// have been taken or not.
#[derive(Drop)]
pub struct RealSink<W: Write + Drop> {
    out: W,
    faults: u64,
}

impl<W: Write + Drop> RealSink<W> {
    ghost use Rattle.ept_real.specs.Counts.{sink_faults};
    ghost use Rattle.ept_real.specs.Streams.{sink_writer};

    /// A sink over this writer, without a fault.
    pub fn new(out: W) -> Self
        ensures sound { sink_faults result ≡ 0 }
        ensures over { sink_writer result ≡ out }
    {
        RealSink { out, faults: 0 }
    }

    /// How many calls have failed.
    pub fn faults(&self) -> u64
        ensures { result ≡ sink_faults self.now }
    {
        self.faults
    }

    /// Counts a fault.
    fn fault(&mut self) -> Failed
        ensures rose { Rose (sink_faults self.old) (sink_faults self.new) }
        ensures later { sink_faults self.old ≤ sink_faults self.new }
        ensures same { sink_writer self.new ≡ sink_writer self.old }
    {
        self.faults = self.faults.saturating_add(1);
        Failed
    }
}

impl<W: Write + Drop> Sink for RealSink<W> {
    ghost use Rattle.ept_real.specs.Counts.{sink_faults};
    ghost use Rattle.ept_real.specs.Streams.{sink_writer, sink_written};

    ghost written = { λ sink. sink_written sink };

    ghost faults = { λ sink. sink_faults sink };

    fn write(&mut self, from: &[u8]) -> Result<usize, Failed>
        ensures bound { WritesAtMost result from.now }
        ensures some { IfOk result (λ n. 0 < length from.now → 0 < n) }
        ensures bytes { WriteAppends (sink_written self.old) (sink_written self.new) result from.now }
        ensures unchanged { OnErr result (sink_written self.new ≡ sink_written self.old) }
        ensures cause { HasCause (sink_faults self.old) (sink_faults self.new) result }

        // What it reports as written is what the writer took; after a fault, that took a prefix.
        ensures passed { IfOk result (λ n. Appends (W.contents (sink_writer self.old)) (W.contents (sink_writer self.new)) (take n from.now)) }
        ensures prefix { OnErr result (AppendsPrefix (W.contents (sink_writer self.old)) (W.contents (sink_writer self.new)) from.now) }
    {
        match self.out.write(from) {
            Ok(count) if count > 0 || from.is_empty() => match self.out.flush() {
                Ok(()) => Ok(count),
                Err(_) => Err(self.fault()),
            },
            _ => Err(self.fault()),
        }
    }
}
