//! A shelf whose files may be other files when they are opened again, and a room that counts what its spill files keep.

use ept_base::{Failed, GetError, PutError, Room, Shelf, SpillFile};
use ept_mem::{MemRoom, MemShelf, MemSource, MemSpill};
use std::alloc::Global;

/// A shelf in memory. If it changes, the file `NAME.later` takes the place of `NAME` from its second opening on.
#[derive(Drop)]
pub(crate) struct RowShelf {
    alloc: Global,
    shelf: MemShelf,
    changes: bool,
}

impl RowShelf {
    pub(crate) fn new(alloc: Global, shelf: MemShelf, changes: bool) -> RowShelf {
        RowShelf {
            alloc,
            shelf,
            changes,
        }
    }

    // Whether this path was opened before.
    fn is_asked(&self, path: &str) -> bool {
        self.shelf
            .asked()
            .iter()
            .any(|asked| asked.as_str() == path)
    }
}

impl Shelf for RowShelf {
    type Source = MemSource;

    ghost use Rattle.std.specs.Prelude.{None};
    ghost use Rattle.ept_mem.specs.Objects.{shelf_faults, shelf_given};

    ghost files = { λ _. None };

    ghost faults = { λ it. shelf_faults it.shelf };

    ghost given = { λ it. shelf_given it.shelf };

    ghost asked = { λ _. None };

    fn open(&mut self, path: &str) -> Result<MemSource, GetError> {
        if self.changes && self.is_asked(path) {
            let later = format!(in self.alloc; "{path}.later")?;
            return self.shelf.open(later.as_str());
        }
        self.shelf.open(path)
    }

    fn retire(&mut self, source: MemSource) {
        self.shelf.retire(source);
    }
}

/// A spill file in memory that counts what it was asked to keep. If it forgets, it returns no byte.
#[derive(Drop)]
pub(crate) struct RowSpill {
    file: MemSpill,
    keeps: u64,
    forgets: bool,
}

impl SpillFile for RowSpill {
    ghost use Rattle.std.specs.Prelude.{None};
    ghost use Rattle.ept_mem.specs.Objects.{spill_faults, spill_keeps};

    ghost held = { λ _. None };

    ghost faults = { λ it. spill_faults it.file };

    ghost keeps = { λ it. spill_keeps it.file };

    fn keep(&mut self, bytes: &[u8]) -> Result<(), PutError> {
        self.keeps = self.keeps.saturating_add(1);
        self.file.keep(bytes)
    }

    fn load(&mut self, into: &mut [u8]) -> Result<usize, Failed> {
        if self.forgets {
            return Ok(0);
        }
        self.file.load(into)
    }
}

/// A room for such files. It counts what the files that were returned to it were asked to keep.
#[derive(Drop)]
pub(crate) struct RowRoom {
    room: MemRoom,
    keeps: u64,
    forgets: bool,
}

impl RowRoom {
    pub(crate) fn new(room: MemRoom, forgets: bool) -> RowRoom {
        RowRoom {
            room,
            keeps: 0,
            forgets,
        }
    }

    /// How often the spill files that were taken back were asked to keep something.
    pub(crate) fn keeps(&self) -> u64 {
        self.keeps
    }
}

impl Room for RowRoom {
    type File = RowSpill;

    ghost use Rattle.ept_mem.specs.Objects.{room_faults, room_keeps};

    ghost faults = { λ it. room_faults it.room };

    ghost keeps = { λ it. room_keeps it.room };

    fn make(&mut self, slot: u32) -> Result<RowSpill, PutError> {
        match self.room.make(slot) {
            Ok(file) => Ok(RowSpill {
                file,
                keeps: 0,
                forgets: self.forgets,
            }),
            Err(refused) => Err(refused),
        }
    }

    fn retire(&mut self, file: RowSpill) {
        self.keeps = self.keeps.saturating_add(file.keeps);
        self.room.retire(file.file);
    }
}
