ghost use Rattle.std.specs.Prelude.{◌≡◌, ◌≢◌, ◌≤◌, ℕ, List, Option, IfOk, MatchResult, OnErr, is_ok, if◌then◌else◌};
ghost use Rattle.std.specs.Io.{ReadsAtMost};
ghost use Rattle.std.specs.Io.KnownBytes.{ReadConsumes};
ghost use Rattle.ept_base.specs.Causes.{Rose, HasCause, HasCauseOf};
ghost use Rattle.ept_base.specs.Files.{Files};
ghost use Rattle.ept_base.specs.Devices.{Opens, Asks, counts_on};

use crate::{Failed, GetError};

/// A list of bytes, and a place in it from which it is read.
///
/// It can't be dropped unless its type says so: its shelf takes it back by `retire`.
pub trait Source {
    /// All the bytes, if they are visible.
    ghost whole: { Self → Option (List ℕ) };

    /// The bytes from the place on, if they are visible.
    ghost left: { Self → Option (List ℕ) };

    /// How often it has failed.
    ghost faults: { Self → ℕ };

    /// How many bytes it has given since it was opened: a count of 64 bits, which stays at its last value.
    ghost given: { Self → ℕ };

    /// Reads the next bytes to the start of `into` and returns their number. It is 0 only at the end or if `into` is
    /// empty. After `Failed` the place and `into` are as they were.
    fn read(&mut self, into: &mut [u8]) -> Result<usize, Failed>
        ensures bound { ReadsAtMost result into.new }
        ensures bytes { ReadConsumes (left self.old) (left self.new) result into.new }
        ensures unchanged { OnErr result ((left self.new ≡ left self.old) × (into.new ≡ into.old)) }
        ensures given { MatchResult result (λ n. given self.new ≡ counts_on (given self.old) n)
            (λ _. given self.new ≡ given self.old) }
        ensures same { whole self.new ≡ whole self.old }
        ensures cause { HasCause (faults self.old) (faults self.new) result };

    /// Sets the place to the first byte. After `Failed` the place is as it was.
    fn rewind(&mut self) -> Result<(), Failed>
        ensures place { left self.new ≡ (if is_ok result then whole self.old else left self.old) }
        ensures given { given self.new ≡ given self.old }
        ensures same { whole self.new ≡ whole self.old }
        ensures cause { HasCause (faults self.old) (faults self.new) result };
}

/// A finite map from paths to bytes, which opens sources and takes them back.
pub trait Shelf {
    type Source: Source;

    /// The bytes under each path, if they are visible.
    ghost files: { Self → Option Files };

    /// How often it has failed, including the sources that it took back.
    ghost faults: { Self → ℕ };

    /// How many bytes the sources that it took back have given: a count of 64 bits, which stays at its last value.
    ghost given: { Self → ℕ };

    /// The paths that it was asked to open, in order, if they are visible.
    ghost asked: { Self → Option (List (List ℕ)) };

    /// A source with the bytes of this path, at their start, without a fault and unread. A path that is not in the map
    /// is `Failed`.
    fn open(&mut self, path: &str) -> Result<Self::Source, GetError>
        ensures opened { IfOk result (λ source.
            Opens (files self.old) path.now (Self.Source.whole source) (Self.Source.left source)) }
        ensures fresh { IfOk result (λ source. Self.Source.faults source ≡ 0) }
        ensures unread { IfOk result (λ source. Self.Source.given source ≡ 0) }
        ensures given { given self.new ≡ given self.old }
        ensures asked { Asks (asked self.old) (asked self.new) path.now result }
        ensures same { files self.new ≡ files self.old }
        ensures cause { HasCauseOf GetError.Failed (faults self.old) (faults self.new) result };

    /// Takes a source back. The count of faults rises if the source has failed, and is as it was otherwise. The bytes
    /// that the source has given are added to the count of bytes.
    fn retire(&mut self, source: Self::Source)
        ensures later { faults self.old ≤ faults self.new }
        ensures failed { Self.Source.faults source ≢ 0 → Rose (faults self.old) (faults self.new) }
        ensures sound { Self.Source.faults source ≡ 0 → faults self.new ≡ faults self.old }
        ensures given { given self.new ≡ counts_on (given self.old) (Self.Source.given source) }
        ensures asked { asked self.new ≡ asked self.old }
        ensures same { files self.new ≡ files self.old };
}
