//! The machine's files, as a progress sees them.

use crate::progress::{Ending, Progress, Role, Run, Telling, role_of};
use std::alloc::{AllocError, Allocator, Global};
use std::fs::{Metadata, OpenFile, OpenOptions};
use std::io::{self, Read, Seek, SeekFrom, Write};
use std::rt::Files;
use std::sync::Arc;
use std::time::Clock;

/// The machine's files. Each call that reads, puts or flushes one counts as progress of a run with a folder. The
/// progress is reported on standard error.
#[derive(Drop)]
pub struct SeenFiles<R: Files + Clock + Eprint + Drop> {
    progress: Arc<Progress<R>>,
    folder: String,
}

impl<R: Files + Clock + Eprint + Drop> SeenFiles<R> {
    /// The files of this machine, as this run of the program of this name with this folder sees them. The run begins
    /// now.
    pub fn new(
        alloc: Global,
        machine: R,
        program: &str,
        folder: &str,
        run: Run,
        telling: Telling,
    ) -> Result<Self, AllocError> {
        let folder = String::from_str(alloc, folder)?;
        let progress = Progress::new(alloc, machine, program, run, telling)?;
        let progress = Arc::new(alloc, progress)?;
        Ok(SeenFiles { progress, folder })
    }

    /// Writes to this writer, and ends the progress first.
    pub fn ending<W: Write + Drop>(&self, out: W) -> Result<Ending<R, W>, AllocError> {
        Ok(Ending {
            progress: self.progress.clone()?,
            out,
        })
    }

    /// Reports nothing from now on, and clears the line on a terminal.
    pub fn end(&self) {
        self.progress.end();
    }

    /// The machine.
    fn machine(&self) -> &R {
        self.progress.machine()
    }
}

/// A file of the machine that counts as progress.
#[derive(Drop)]
pub struct SeenFile<R: Files + Clock + Eprint + Drop> {
    file: R::File,
    role: Role,
    is_put: bool,
    progress: Arc<Progress<R>>,
}

impl<R: Files + Clock + Eprint + Drop> Files for SeenFiles<R> {
    type File = SeenFile<R>;

    type Dir = R::Dir;

    fn open_file(&self, how: &OpenOptions, path: &str) -> io::Result<SeenFile<R>> {
        let role = role_of(&self.folder, path);
        self.progress.note_opened(role);
        Ok(SeenFile {
            file: self.machine().open_file(how, path)?,
            role,
            is_put: false,
            progress: self.progress.clone()?,
        })
    }

    fn open_dir(&self, path: &str) -> io::Result<R::Dir> {
        self.machine().open_dir(path)
    }

    fn metadata(&self, path: &str) -> io::Result<Metadata> {
        self.machine().metadata(path)
    }

    fn symlink_metadata(&self, path: &str) -> io::Result<Metadata> {
        self.machine().symlink_metadata(path)
    }

    fn copy(&self, from: &str, to: &str) -> io::Result<u64> {
        self.machine().copy(from, to)
    }

    fn rename(&self, from: &str, to: &str) -> io::Result<()> {
        self.machine().rename(from, to)
    }

    fn remove_file(&self, path: &str) -> io::Result<()> {
        self.machine().remove_file(path)
    }

    fn create_dir(&self, path: &str) -> io::Result<()> {
        self.machine().create_dir(path)
    }

    fn remove_dir(&self, path: &str) -> io::Result<()> {
        self.machine().remove_dir(path)
    }

    fn remove_dir_all<B: Allocator>(&self, alloc: B, path: &str) -> io::Result<()> {
        self.machine().remove_dir_all(alloc, path)
    }
}

impl<R: Files + Clock + Eprint + Drop> OpenFile for SeenFile<R> {
    fn metadata(&self) -> io::Result<Metadata> {
        self.file.metadata()
    }

    fn set_len(&self, size: u64) -> io::Result<()> {
        self.file.set_len(size)
    }

    /// Flushes a folder, which counts as no file.
    fn sync_all(&self) -> io::Result<()> {
        self.file.sync_all()
    }

    fn sync_data(&self) -> io::Result<()> {
        self.file.sync_data()?;
        self.progress.count_flushed(self.role);
        Ok(())
    }
}

impl<R: Files + Clock + Eprint + Drop> Read for SeenFile<R> {
    fn read(&mut self, buf: &mut [u8]) -> io::Result<usize> {
        let count = self.file.read(buf)?;
        self.progress.count_read(self.role, count as u64);
        Ok(count)
    }
}

impl<R: Files + Clock + Eprint + Drop> Write for SeenFile<R> {
    fn write(&mut self, buf: &[u8]) -> io::Result<usize> {
        let count = self.file.write(buf)?;
        if !self.is_put {
            self.is_put = true;
            self.progress.count_put(self.role);
        }
        Ok(count)
    }

    fn flush(&mut self) -> io::Result<()> {
        self.file.flush()
    }
}

impl<R: Files + Clock + Eprint + Drop> Seek for SeenFile<R> {
    fn seek(&mut self, to: SeekFrom) -> io::Result<u64> {
        self.file.seek(to)
    }
}
