ghost use Rattle.std.specs.Prelude.{◌≡◌, ◌<◌, ℕ, [], Option, length, take, IfOk, OnErr};
ghost use Rattle.std.specs.Io.{ReadsAtMost, WritesAtMost};
ghost use Rattle.ept_base.specs.Causes.{HasCause};
ghost use Rattle.ept_base.specs.Files.{Tells, StepsBy};
ghost use Rattle.ept_base.specs.Links.{Wire, Reads, FailsToRead, Writes};

use crate::Failed;

/// A line to a peer: bytes that come, and bytes that go.
pub trait Link {
    /// What came and went, if it is visible.
    ghost wire: { Self → Option Wire };

    /// How often it has failed, in reads and in writes.
    ghost faults: { Self → ℕ };

    /// Takes the next bytes to the start of `into` and returns their number. It is 0 only if no more come or `into` is
    /// empty. After `Failed` no byte was taken, and `into` is as it was.
    fn read(&mut self, into: &mut [u8]) -> Result<usize, Failed>
        ensures bound { ReadsAtMost result into.new }
        ensures ok { IfOk result (λ n. StepsBy (Reads (take n into.new)) (wire self.old) (wire self.new)) }
        ensures end { IfOk result (λ n. n ≡ 0 → 0 < length into.new → Tells (λ told. told.left ≡ []) (wire self.new)) }
        ensures failed { OnErr result (StepsBy FailsToRead (wire self.old) (wire self.new)) }
        ensures unchanged { OnErr result (into.new ≡ into.old) }
        ensures cause { HasCause (faults self.old) (faults self.new) result };

    /// Writes the first bytes of `from` and returns their number, which is 0 only if `from` is empty. After `Failed`
    /// nothing was written.
    fn write(&mut self, from: &[u8]) -> Result<usize, Failed>
        ensures bound { WritesAtMost result from.now }
        ensures some { IfOk result (λ n. 0 < length from.now → 0 < n) }
        ensures ok { IfOk result (λ n. StepsBy (Writes (take n from.now)) (wire self.old) (wire self.new)) }
        ensures unchanged { OnErr result (wire self.new ≡ wire self.old) }
        ensures cause { HasCause (faults self.old) (faults self.new) result };
}
