ghost use Rattle.std.specs.Prelude.{◌≡◌, IfOk, OnOk, option_map};
ghost use Rattle.ept_base.specs.Files.{SameBut, Puts, Removes, Tells, StepsBy};

use crate::path_disk::PathDisk;
use crate::reading::read_all;
use ept_base::{Failed, GetError};
use std::alloc::Global;
use std::fs::{self, OpenFile, OpenOptions};
use std::io::{self, ErrorKind, Write};
use std::path::Path;
use std::rt::Files;

/// The files of the machine that the program runs on, which are flushed one after another. A file that can't be read,
/// written, removed or flushed is a fault, and so is a path below a file. A missing file is no fault, unless it is to be
/// flushed.
#[derive(Drop)]
pub struct RealDisk<'a, R: Files> {
    pub(crate) machine: &'a R,
}

impl<'a, R: Files> RealDisk<'a, R> {
    /// The files of this machine.
    pub fn new(machine: &'a R) -> Self {
        RealDisk { machine }
    }
}

/// Reads the whole of a file. Its length is asked for first, so that its bytes come in one piece.
pub(crate) fn read_file(files: &impl Files, alloc: Global, path: &str) -> io::Result<Vec<u8>> {
    let mut file = fs::open(files, path)?;
    let length = file.metadata()?.len();
    read_all(alloc, &mut file, length)
}

/// Writes the whole of a file, and makes the folders that its path needs.
pub(crate) fn write_file(files: &impl Files, path: &str, bytes: &[u8]) -> io::Result<()> {
    let mut how = OpenOptions::new();
    how.write(true).create(true).truncate(true);
    open_to_write(files, path, &how)?.write_all(bytes)
}

/// Writes the whole of a file as [`write_file`] does, over what it has. A file system may begin to write a file to the
/// disk that was emptied and written again. A file whose bytes need not get there is not emptied.
pub(crate) fn overwrite_file(files: &impl Files, path: &str, bytes: &[u8]) -> io::Result<()> {
    let mut how = OpenOptions::new();
    how.write(true).create(true);
    let mut file = open_to_write(files, path, &how)?;
    file.write_all(bytes)?;
    let length = bytes.len() as u64;
    if length < file.metadata()?.len() {
        file.set_len(length)?;
    }
    Ok(())
}

/// Opens a file that is written, and makes the folders that its path needs.
fn open_to_write<R: Files>(files: &R, path: &str, how: &OpenOptions) -> io::Result<R::File> {
    match how.open(files, path) {
        Err(error) if error.kind() == ErrorKind::NotFound => {}
        opened => return opened,
    }
    if let Some(folder) = Path::new(path).parent() {
        fs::create_dir_all(files, folder)?;
    }
    how.open(files, path)
}

/// Removes a file, if it is there.
pub(crate) fn remove_file(files: &impl Files, path: &str) -> io::Result<()> {
    match fs::remove_file(files, path) {
        Err(error) if error.kind() == ErrorKind::NotFound => Ok(()),
        removed => removed,
    }
}

/// Flushes a file: its bytes, and what is needed to read them.
pub(crate) fn flush_file(files: &impl Files, path: &str) -> io::Result<()> {
    fs::open(files, path)?.sync_data()
}

impl<'a, R: Files> PathDisk for RealDisk<'a, R> {
    ghost use Rattle.ept_real.specs.ReadOnly.{disk_files};

    ghost files = { λ disk. disk_files disk };

    fn read(&mut self, alloc: Global, path: &str) -> Result<Option<Vec<u8>>, GetError> {
        match read_file(self.machine, alloc, path) {
            Ok(bytes) => Ok(Some(bytes)),
            Err(error) => match error.kind() {
                ErrorKind::NotFound => Ok(None),
                ErrorKind::OutOfMemory => Err(GetError::Memory),
                _ => Err(GetError::Failed),
            },
        }
    }

    fn write(&mut self, path: &str, bytes: &[u8]) -> Result<(), Failed> {
        write_file(self.machine, path, bytes).map_err(|_| Failed)
    }

    fn remove(&mut self, path: &str) -> Result<(), Failed> {
        remove_file(self.machine, path).map_err(|_| Failed)
    }

    fn flush(&mut self, _alloc: Global, paths: &[String]) -> Result<(), Failed> {
        for path in paths {
            flush_file(self.machine, path.as_str()).map_err(|_| Failed)?;
        }
        Ok(())
    }
}
