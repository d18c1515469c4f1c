ghost use Rattle.std.specs.Prelude.{◌≡◌, Option, IfOk, OnOk, option_map};
ghost use Rattle.ept_base.specs.Files.{Files, SameBut, Puts, Removes, Tells, StepsBy};

use ept_base::{Failed, GetError};
use std::alloc::Global;

/// The files of a machine, by their paths, to be read, written, removed and flushed.
pub trait PathDisk {
    /// The bytes under each path, if they are visible.
    ghost files: { Self → Option Files };

    /// The whole of the file of this path, if there is one.
    fn read(&mut self, alloc: Global, path: &str) -> Result<Option<Vec<u8>>, GetError>
        ensures bytes { IfOk result (λ found. Tells (λ all. option_map (λ bytes. bytes.items) found ≡ all path.now) (files self.old)) }
        ensures same { files self.new ≡ files self.old };

    /// Writes the whole of a file, and makes the folders that its path needs. After a refusal the file may be missing
    /// or hold any bytes.
    fn write(&mut self, path: &str, bytes: &[u8]) -> Result<(), Failed>
        ensures ok { OnOk result (StepsBy (Puts path.now bytes.now) (files self.old) (files self.new)) }
        ensures alone { StepsBy (SameBut path.now) (files self.old) (files self.new) };

    /// Removes a file, if it is there. After a refusal it may be missing or hold any bytes.
    fn remove(&mut self, path: &str) -> Result<(), Failed>
        ensures ok { OnOk result (StepsBy (Removes path.now) (files self.old) (files self.new)) }
        ensures alone { StepsBy (SameBut path.now) (files self.old) (files self.new) };

    /// Flushes the file of each of these paths, and returns once all are flushed. After a refusal any of them may be
    /// flushed or not.
    fn flush(&mut self, alloc: Global, paths: &[String]) -> Result<(), Failed>
        ensures same { files self.new ≡ files self.old };
}
