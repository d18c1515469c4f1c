//! The folder that rows use: the files that earlier rows added.

use crate::escaped::unescape;
use crate::row::{RowError, cut, numbers};
use ept_mem::MemStore;
use std::alloc::{AllocError, Global};
use std::fmt::Write as _;

/// Files, each with its name.
#[derive(Drop)]
pub(crate) struct Folder {
    alloc: Global,
    files: Vec<(String, Vec<u8>)>,
}

impl Folder {
    /// The empty folder.
    pub(crate) fn new(alloc: Global) -> Folder {
        Folder {
            alloc,
            files: Vec::new(alloc),
        }
    }

    /// `folder`: removes all files.
    pub(crate) fn empty(&mut self, answer: &mut String) -> Result<(), RowError> {
        self.files.clear();
        self.count(answer)
    }

    /// `file NAME BYTES`: adds a file.
    pub(crate) fn add(&mut self, text: &str, answer: &mut String) -> Result<(), RowError> {
        let (name, bytes) = cut(text)?;
        let bytes = unescape(self.alloc, bytes)?;
        let name = String::from_str(self.alloc, name)?;
        self.files.push((name, bytes))?;
        self.count(answer)
    }

    // Writes how many files there are.
    fn count(&self, answer: &mut String) -> Result<(), RowError> {
        let count = self.files.len();
        write!(answer, "{count} files")?;
        Ok(())
    }

    /// A store of these files, in which the calls that a word lists fail.
    pub(crate) fn store(&self, fails: &str) -> Result<MemStore, RowError> {
        let fails = numbers(self.alloc, fails)?;
        Ok(MemStore::new(self.alloc, self.copied()?, fails))
    }

    fn copied(&self) -> Result<Vec<(String, Vec<u8>)>, AllocError> {
        let mut files = Vec::new(self.alloc);
        for (name, bytes) in &self.files {
            files.push((name.clone()?, bytes.clone()?))?;
        }
        Ok(files)
    }
}
