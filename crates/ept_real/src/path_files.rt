ghost use Rattle.std.specs.Prelude.{◌≡◌, ℕ, Option, IfOk, option_map};
ghost use Rattle.ept_base.specs.Causes.{HasCauseOf};
ghost use Rattle.ept_base.specs.Files.{Files, Tells};

use ept_base::GetError;
use std::alloc::Global;

/// The regular files of a machine, by their paths, to be read.
pub trait PathFiles {
    /// The bytes under each path, if they are visible.
    ghost files: { Self → Option Files };

    /// How often it has failed.
    ghost faults: { Self → ℕ };

    /// The bytes of the regular file of this path, if there is one.
    fn read(&mut self, alloc: Global, path: &str) -> Result<Option<Vec<u8>>, GetError>
        ensures bytes { IfOk result (λ found. Tells (λ all. option_map (λ bytes. bytes.items) found ≡ all path.now) (files self.old)) }
        ensures same { files self.new ≡ files self.old }
        ensures cause { HasCauseOf GetError.Failed (faults self.old) (faults self.new) result };

    /// How many calls have failed.
    fn faults(&self) -> u64
        ensures { result ≡ faults self.now };
}
