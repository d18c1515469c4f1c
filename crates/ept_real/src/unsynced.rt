ghost use Rattle.std.specs.Prelude.{◌≡◌, ℕ, List, [], Contains, IfOk, OnOk, map, string_bytes};
ghost use Rattle.ept_real.specs.Joined.{joined, folder_path};
ghost use Rattle.ept_real.specs.Ways.{Keeps, IsAbove, IsOnWay};

use crate::path_set::PathSet;
use crate::paths::{or_here, path_in};
use ept_base::Failed;
use std::alloc::{AllocError, Global};
use std::fs::{self, OpenFile};
use std::io::{self, ErrorKind};
use std::path::Path;
use std::rt::Files;

/// What the next sync of a store has to flush: the files of names, and folders, by their paths, for the
/// sake of their entries.
#[derive(Drop)]
pub(crate) struct Unsynced {
    alloc: Global,
    pub(crate) names: PathSet,
    pub(crate) folders: PathSet,
}

impl Unsynced {
    /// Nothing is to be flushed.
    pub(crate) fn new(alloc: Global) -> Self
        ensures names { result.names ≡ [] }
        ensures folders { result.folders ≡ [] }
    {
        Unsynced {
            alloc,
            names: PathSet::new(alloc),
            folders: PathSet::new(alloc),
        }
    }

    /// The folders on the way to a name in this folder are to be flushed. They are those that the name goes through,
    /// this folder, and those that it is in.
    pub(crate) fn note_way(&mut self, folder: &str, name: &str) -> Result<(), AllocError>
        ensures ok { OnOk result ((path : List ℕ) → IsOnWay folder.now name.now path → Contains self.new.folders path) }
        ensures still { Keeps self.old.folders self.new.folders }
        ensures names { self.new.names ≡ self.old.names }
    {
        self.note_above(folder)?;
        self.note_below(folder, name)
    }

    /// The folders that this folder is in are to be flushed, as far as its path says. A program that was stopped may
    /// have made each of them, or the spill files of this one.
    fn note_above(&mut self, folder: &str) -> Result<(), AllocError>
        ensures ok { OnOk result ((above : List ℕ) → IsAbove folder.now above → Contains self.new.folders (folder_path above)) }
        ensures still { Keeps self.old.folders self.new.folders }
        ensures names { self.new.names ≡ self.old.names }
    {
        let Some(holder) = Path::new(folder).parent() else {
            return Ok(());
        };
        for above in holder.ancestors() {
            let path = or_here(above.as_str());
            self.folders.add(path)?;
        }
        Ok(())
    }

    /// The folders that a name goes through are to be flushed, this folder among them.
    fn note_below(&mut self, folder: &str, name: &str) -> Result<(), AllocError>
        ensures ok { OnOk result ((above : List ℕ) → IsAbove name.now above → Contains self.new.folders (joined folder.now above)) }
        ensures still { Keeps self.old.folders self.new.folders }
        ensures names { self.new.names ≡ self.old.names }
    {
        let Some(parent) = Path::new(name).parent() else {
            return Ok(());
        };
        for above in parent.ancestors() {
            let path = path_in(self.alloc, folder, above.as_str())?;
            self.folders.add(path.as_str())?;
        }
        Ok(())
    }

    /// The paths of the names, which are of files in this folder.
    pub(crate) fn file_paths(&self, folder: &str) -> Result<Vec<String>, AllocError>
        ensures { IfOk result (λ paths. map string_bytes paths.items ≡ map (joined folder.now) self.now.names) }
    {
        let mut paths = Vec::new(self.alloc);
        for name in self.names.paths() {
            paths.push(path_in(self.alloc, folder, name.as_str())?)?;
        }
        Ok(paths)
    }

    /// Flushes the entries of the folders, one after another, for a store in this folder. A folder far above it that
    /// must not be read is passed over.
    pub(crate) fn flush_folders(&self, files: &impl Files, folder: &str) -> Result<(), Failed> {
        for path in self.folders.paths() {
            match flush_folder(files, path.as_str()) {
                Ok(()) => {}
                Err(error) if is_shut(&error) && is_far_above(folder, path.as_str()) => {}
                Err(_) => return Err(Failed),
            }
        }
        Ok(())
    }
}

/// Whether a folder must not be read.
fn is_shut(error: &io::Error) -> bool {
    error.kind() == ErrorKind::PermissionDenied
}

/// Whether a folder is in another, but not directly.
fn is_far_above(folder: &str, path: &str) -> bool {
    Path::new(folder)
        .ancestors()
        .skip(2)
        .any(|above| or_here(above.as_str()) == path)
}

/// Flushes the entries of a folder. A folder that is not there has none.
fn flush_folder(files: &impl Files, path: &str) -> io::Result<()> {
    match fs::open(files, path) {
        Ok(folder) => flush_entries(&folder),
        Err(error) => match error.kind() {
            ErrorKind::NotFound | ErrorKind::NotADirectory => Ok(()),
            _ => Err(error),
        },
    }
}

/// Flushes the entries of an open folder. A file system that has no flush of folders refuses it as invalid, as those do
/// that can't be written.
fn flush_entries(folder: &impl OpenFile) -> io::Result<()> {
    match folder.sync_all() {
        Err(error) if error.kind() == ErrorKind::InvalidInput => Ok(()),
        flushed => flushed,
    }
}
