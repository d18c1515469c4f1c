ghost use Rattle.std.specs.Prelude.{◌≡◌, ◌≢◌, ◌-◌, ◌≤◌, ℕ, List, Option, IfOk, OnOk, OnErr, IsErrOf};
ghost use Rattle.ept_base.specs.Causes.{Rose, HasCause, HasCauseOf};
ghost use Rattle.ept_base.specs.Files.{Tells, StepsBy, AnyChange};
ghost use Rattle.ept_base.specs.Devices.{LoadsFront, counts_on};

use crate::{Failed, PutError};

/// A file that keeps one list of bytes for a while.
///
/// It can't be dropped unless its type says so: its room takes it back by `retire`.
pub trait SpillFile {
    /// The bytes that it holds, if they are visible.
    ghost held: { Self → Option (List ℕ) };

    /// How often it has failed.
    ghost faults: { Self → ℕ };

    /// How many calls of `keep` there were, up to the last value of 64 bits.
    ghost keeps: { Self → ℕ };

    /// Replaces what is held. After `Failed` the file holds any bytes; after `Memory` it holds what it held.
    fn keep(&mut self, bytes: &[u8]) -> Result<(), PutError>
        ensures ok { OnOk result (StepsBy (λ _ new. new ≡ bytes.now) (held self.old) (held self.new)) }
        ensures failed { IsErrOf result PutError.Failed → StepsBy AnyChange (held self.old) (held self.new) }
        ensures memory { IsErrOf result PutError.Memory → held self.new ≡ held self.old }
        ensures counted { keeps self.new ≡ counts_on (keeps self.old) 1 }
        ensures cause { HasCauseOf PutError.Failed (faults self.old) (faults self.new) result };

    /// Returns the length of what is held, and fills `into` with it from the start as far as both reach. After `Failed`
    /// `into` is as it was.
    fn load(&mut self, into: &mut [u8]) -> Result<usize, Failed>
        ensures ok { IfOk result (λ n. Tells (λ bytes. LoadsFront bytes n into.old into.new) (held self.old)) }
        ensures unchanged { OnErr result (into.new ≡ into.old) }
        ensures same { held self.new ≡ held self.old }
        ensures counted { keeps self.new ≡ keeps self.old }
        ensures cause { HasCause (faults self.old) (faults self.new) result };
}

/// A place that makes spill files and takes them back.
pub trait Room {
    type File: SpillFile;

    /// How often it has failed, including the files that it took back.
    ghost faults: { Self → ℕ };

    /// How many calls of `keep` the files that it took back had, up to the last value of 64 bits.
    ghost keeps: { Self → ℕ };

    /// A file without a fault and without a call of `keep`.
    fn make(&mut self, slot: u32) -> Result<Self::File, PutError>
        ensures fresh { IfOk result (λ file. Self.File.faults file ≡ 0) }
        ensures unused { IfOk result (λ file. Self.File.keeps file ≡ 0) }
        ensures counted { keeps self.new ≡ keeps self.old }
        ensures cause { HasCauseOf PutError.Failed (faults self.old) (faults self.new) result };

    /// Takes a file back. The count of faults rises if the file has failed, and is as it was otherwise. The file's
    /// calls of `keep` are added to the room's.
    fn retire(&mut self, file: Self::File)
        ensures later { faults self.old ≤ faults self.new }
        ensures failed { Self.File.faults file ≢ 0 → Rose (faults self.old) (faults self.new) }
        ensures sound { Self.File.faults file ≡ 0 → faults self.new ≡ faults self.old }
        ensures counted { keeps self.new ≡ counts_on (keeps self.old) (Self.File.keeps file) };
}
