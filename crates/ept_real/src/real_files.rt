ghost use Rattle.std.specs.Prelude.{◌≡◌, IfOk, option_map};
ghost use Rattle.ept_base.specs.Causes.{HasCauseOf};
ghost use Rattle.ept_base.specs.Files.{Tells};

use crate::path_files::PathFiles;
use crate::reading::read_all;
use ept_base::GetError;
use std::alloc::Global;
use std::fs;
use std::io::{self, ErrorKind};
use std::rt::Files;

/// The regular files of the machine that the program runs on. Links are followed.
///
/// A file takes five calls of the system: its metadata, the opening, one read of all its bytes, one of its end, and
/// the closing. A file that can't be opened or read is a fault.
#[derive(Drop)]
pub struct RealFiles<'a, R: Files> {
    machine: &'a R,
    faults: u64,
}

impl<'a, R: Files> RealFiles<'a, R> {
    ghost use Rattle.ept_real.specs.Counts.{files_faults};

    /// The regular files of this machine, without a fault.
    pub fn new(machine: &'a R) -> Self
        ensures sound { files_faults result ≡ 0 }
    {
        RealFiles { machine, faults: 0 }
    }
}

/// The whole of a regular file. What is no regular file is not found.
fn read_regular(files: &impl Files, alloc: Global, path: &str) -> io::Result<Vec<u8>> {
    // It is looked at before it is opened: the opening of a pipe waits for a writer.
    let seen = files.metadata(path)?;
    if !seen.is_file() {
        return Err(io::Error::from(ErrorKind::NotFound));
    }
    let mut file = fs::open(files, path)?;
    read_all(alloc, &mut file, seen.len())
}

impl<'a, R: Files> PathFiles for RealFiles<'a, R> {
    ghost use Rattle.ept_real.specs.Counts.{files_faults};
    ghost use Rattle.ept_real.specs.ReadOnly.{machine_files};

    ghost files = { λ files. machine_files files };

    ghost faults = { λ files. files_faults files };

    fn read(&mut self, alloc: Global, path: &str) -> Result<Option<Vec<u8>>, GetError>
        ensures bytes { IfOk result (λ found. Tells (λ all. option_map (λ bytes. bytes.items) found ≡ all path.now) (machine_files self.old)) }
        ensures same { machine_files self.new ≡ machine_files self.old }
        ensures cause { HasCauseOf GetError.Failed (files_faults self.old) (files_faults self.new) result }

        // Only the count is kept.
        ensures kept { self.new ≡ record self.old { faults = files_faults self.new } }
    {
        match read_regular(self.machine, alloc, path) {
            Ok(bytes) => Ok(Some(bytes)),
            Err(error) => match error.kind() {
                ErrorKind::NotFound => Ok(None),
                ErrorKind::OutOfMemory => Err(GetError::Memory),
                _ => {
                    self.faults = self.faults.saturating_add(1);
                    Err(GetError::Failed)
                }
            },
        }
    }

    fn faults(&self) -> u64 {
        self.faults
    }
}
