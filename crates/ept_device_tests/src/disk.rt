//! A disk that records which files were flushed, with a clock and a standard error that the tests set and see.

use std::alloc::{AllocError, Allocator, Global};
use std::cell::{Cell, RefCell};
use std::fmt::{Display, Write as _};
use std::fs::{File, Metadata, OpenFile, OpenOptions};
use std::io::{self, ErrorKind, Read, Seek, SeekFrom, Write};
use std::rt::Files;
use std::sync::Arc;
use std::time::{Clock, Duration};

/// What a disk has recorded, and what a test sets of it.
#[derive(Drop)]
pub(crate) struct Seen {
    // What was flushed, and what was said.
    flushed: RefCell<String>,
    said: RefCell<String>,
    // How many flushes there are up to the one that fails, or 0 if none does.
    pub(crate) to_fault: Cell<u32>,
    // Whether nothing can be said.
    pub(crate) is_mute: Cell<bool>,
    // Whether each path is that of the file `one`.
    pub(crate) is_one: Cell<bool>,
    // The time in milliseconds, and by how much it increases whenever it is asked for.
    pub(crate) now: Cell<u64>,
    pub(crate) step: Cell<u64>,
}

impl Seen {
    pub(crate) fn new(alloc: Global) -> Result<Arc<Self>, AllocError> {
        let seen = Seen {
            flushed: RefCell::new(String::new(alloc)),
            said: RefCell::new(String::new(alloc)),
            to_fault: Cell::new(0),
            is_mute: Cell::new(false),
            is_one: Cell::new(false),
            now: Cell::new(0),
            step: Cell::new(0),
        };
        Ok(Arc::new(alloc, seen)?)
    }

    /// Whether this was flushed since it was asked for last.
    pub(crate) fn was_flushed(&self, want: &str) -> bool {
        is_text(&self.flushed, want)
    }

    /// Whether this was said since it was asked for last.
    pub(crate) fn was_said(&self, want: &str) -> bool {
        is_text(&self.said, want)
    }

    /// Whether this line is the last that was said since it was asked for last; of no line, whether nothing was.
    pub(crate) fn was_said_last(&self, line: &str) -> bool {
        is_last_line(&self.said, line)
    }
}

// Whether a text is this one; it is empty from then on.
fn is_text(text: &RefCell<String>, want: &str) -> bool {
    let Ok(mut text) = text.try_borrow_mut() else {
        return false;
    };
    let is_wanted = text.as_str() == want;
    text.clear();
    is_wanted
}

// Whether this line is the last of a text; it is empty from then on.
fn is_last_line(text: &RefCell<String>, line: &str) -> bool {
    let Ok(mut text) = text.try_borrow_mut() else {
        return false;
    };
    let is_wanted = ends_in(text.as_str(), line);
    text.clear();
    is_wanted
}

fn ends_in(said: &str, line: &str) -> bool {
    match said.strip_suffix(line) {
        Some(front) => front.is_empty() || (front.ends_with('\n') && !line.is_empty()),
        None => false,
    }
}

// Writes this after a text.
fn append<D: Display>(text: &RefCell<String>, value: &D) -> io::Result<()> {
    let Ok(mut text) = text.try_borrow_mut() else {
        return Err(io::Error::from(ErrorKind::ResourceBusy));
    };
    write!(text, "{value}")?;
    Ok(())
}

/// The machine's files, and what is seen of them, with a clock and a standard error of its own.
#[derive(Drop)]
pub(crate) struct Disk {
    machine: HostRuntime,
    seen: Arc<Seen>,
}

impl Disk {
    pub(crate) fn new(machine: &HostRuntime, seen: &Arc<Seen>) -> Result<Self, AllocError> {
        Ok(Disk {
            machine: machine.clone()?,
            seen: seen.clone()?,
        })
    }
}

/// A file of such a disk.
#[derive(Drop)]
pub(crate) struct DiskFile {
    file: File,
    path: String,
    seen: Arc<Seen>,
}

impl Clock for Disk {
    fn monotonic(&self) -> io::Result<Duration> {
        let now = self.seen.now.get().saturating_add(self.seen.step.get());
        self.seen.now.set(now);
        Ok(Duration::from_millis(now))
    }

    fn since_1970(&self) -> io::Result<Duration> {
        self.monotonic()
    }
}

impl Eprint for Disk {
    fn eprint<D: Display + Drop>(&self, value: D) -> io::Result<()> {
        if self.seen.is_mute.get() {
            return Err(io::Error::from(ErrorKind::BrokenPipe));
        }
        append(&self.seen.said, &value)
    }

    fn eprintln<D: Display + Drop>(&self, value: D) -> io::Result<()> {
        self.eprint(value)?;
        self.eprint('\n')
    }
}

impl Files for Disk {
    type File = DiskFile;

    type Dir = <HostRuntime as Files>::Dir;

    fn open_file(&self, how: &OpenOptions, path: &str) -> io::Result<DiskFile> {
        let path = if self.seen.is_one.get() { "one" } else { path };
        let file = self.machine.open_file(how, path)?;
        Ok(DiskFile {
            file,
            path: String::from_str(self.machine.alloc(), path)?,
            seen: self.seen.clone()?,
        })
    }

    fn open_dir(&self, path: &str) -> io::Result<<HostRuntime as Files>::Dir> {
        self.machine.open_dir(path)
    }

    fn metadata(&self, path: &str) -> io::Result<Metadata> {
        self.machine.metadata(path)
    }

    fn symlink_metadata(&self, path: &str) -> io::Result<Metadata> {
        self.machine.symlink_metadata(path)
    }

    fn copy(&self, from: &str, to: &str) -> io::Result<u64> {
        self.machine.copy(from, to)
    }

    fn rename(&self, from: &str, to: &str) -> io::Result<()> {
        self.machine.rename(from, to)
    }

    fn remove_file(&self, path: &str) -> io::Result<()> {
        self.machine.remove_file(path)
    }

    fn create_dir(&self, path: &str) -> io::Result<()> {
        self.machine.create_dir(path)
    }

    fn remove_dir(&self, path: &str) -> io::Result<()> {
        self.machine.remove_dir(path)
    }

    fn remove_dir_all<B: Allocator>(&self, alloc: B, path: &str) -> io::Result<()> {
        self.machine.remove_dir_all(alloc, path)
    }
}

impl DiskFile {
    // Writes down that this file is flushed, unless it is to fail.
    fn count_flush(&self) -> io::Result<()> {
        let left = self.seen.to_fault.get();
        self.seen.to_fault.set(left.saturating_sub(1));
        if left == 1 {
            return Err(io::Error::from(ErrorKind::Other));
        }
        append(&self.seen.flushed, &self.path)?;
        append(&self.seen.flushed, &'\n')
    }
}

impl OpenFile for DiskFile {
    fn metadata(&self) -> io::Result<Metadata> {
        self.file.metadata()
    }

    fn set_len(&self, size: u64) -> io::Result<()> {
        self.file.set_len(size)
    }

    fn sync_all(&self) -> io::Result<()> {
        self.count_flush()?;
        self.file.sync_all()
    }

    fn sync_data(&self) -> io::Result<()> {
        self.count_flush()?;
        self.file.sync_data()
    }
}

impl Read for DiskFile {
    fn read(&mut self, buf: &mut [u8]) -> io::Result<usize> {
        self.file.read(buf)
    }
}

impl Write for DiskFile {
    fn write(&mut self, buf: &[u8]) -> io::Result<usize> {
        self.file.write(buf)
    }

    fn flush(&mut self) -> io::Result<()> {
        self.file.flush()
    }
}

impl Seek for DiskFile {
    fn seek(&mut self, to: SeekFrom) -> io::Result<u64> {
        self.file.seek(to)
    }
}
