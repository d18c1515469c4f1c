ghost use Rattle.std.specs.Prelude.{◌≡◌, []};
ghost use Rattle.ept_mem.specs.Objects.{source_bytes, source_left, source_given, source_fails, shelf_fails, shelf_source_fails};

use ept_base::{Failed, GetError, Shelf, Source};
use ept_mem::{MemShelf, MemSource};
use std::alloc::Global;

/// A source in memory that never fails.
#[derive(Debug, Drop)]
pub struct SureSource {
    source: MemSource,
    ghost never_fails: { source_fails source ≡ [] },
}

impl Source for SureSource {
    ghost use Rattle.std.specs.Prelude.{Some};
    ghost use Rattle.ept_mem_infallible.specs.Objects.{source_bytes_of, source_left_of, source_given_of};

    ghost whole = { λ source. Some (source_bytes_of source) };

    ghost left = { λ source. Some (source_left_of source) };

    ghost faults = { λ _. 0 };

    ghost given = { source_given_of };

    fn read(&mut self, into: &mut [u8]) -> Result<usize, Failed> {
        self.source.read(into)
    }

    fn rewind(&mut self) -> Result<(), Failed> {
        self.source.rewind()
    }
}

/// A shelf in memory that never fails. Each path can be opened: a path without a file of its own is an empty file.
#[derive(Debug, Drop)]
pub struct SureShelf {
    alloc: Global,
    shelf: MemShelf,
    ghost never_fails: { shelf_fails shelf ≡ [] },
    ghost nor_its_sources: { shelf_source_fails shelf ≡ [] },
}

impl SureShelf {
    ghost use Rattle.ept_mem.specs.Named.{content_of};
    ghost use Rattle.ept_mem_infallible.specs.Objects.{or_empty, shelf_files_of, shelf_given_of, shelf_asked_of};

    /// A shelf of these files. If a path occurs more than once, its first file counts. It takes no memory.
    pub fn new(alloc: Global, files: Vec<(String, Vec<u8>)>) -> Self
        ensures files { shelf_files_of result ≡ or_empty (content_of files.items) }
        ensures unread { shelf_given_of result ≡ 0 }
        ensures not_asked { shelf_asked_of result ≡ [] }
    {
        SureShelf {
            alloc,
            shelf: MemShelf::new(alloc, files, Vec::new(alloc), Vec::new(alloc)),
        }
    }
}

impl Shelf for SureShelf {
    type Source = SureSource;

    ghost use Rattle.std.specs.Prelude.{Some};
    ghost use Rattle.ept_mem_infallible.specs.Objects.{shelf_files_of, shelf_given_of, shelf_asked_of};

    ghost files = { λ shelf. Some (shelf_files_of shelf) };

    ghost faults = { λ _. 0 };

    ghost given = { shelf_given_of };

    ghost asked = { λ shelf. Some (shelf_asked_of shelf) };

    fn open(&mut self, path: &str) -> Result<SureSource, GetError> {
        match self.shelf.open(path) {
            Ok(source) => Ok(SureSource { source }),
            // The inner shelf has no such file, and noted that it was asked for it.
            Err(GetError::Failed) => Ok(empty_source(self.alloc)),
            Err(GetError::Memory) => Err(GetError::Memory),
        }
    }

    fn retire(&mut self, source: SureSource) {
        self.shelf.retire(source.source);
    }
}

// A source without a byte, at its start and unread.
fn empty_source(alloc: Global) -> SureSource
    ensures empty { source_bytes result.source ≡ [] }
    ensures at_start { source_left result.source ≡ [] }
    ensures unread { source_given result.source ≡ 0 }
{
    SureSource {
        source: MemSource::new(Vec::new(alloc), Vec::new(alloc)),
    }
}
