ghost use Rattle.std.specs.Prelude.{◌≡◌, []};
ghost use Rattle.ept_mem.specs.Objects.{spill_fails, room_fails, room_file_fails};

use ept_base::{Failed, PutError, Room, SpillFile};
use ept_mem::{MemRoom, MemSpill};
use std::alloc::Global;

/// A spill file in memory that never fails.
#[derive(Debug, Drop)]
pub struct SureFile {
    file: MemSpill,
    ghost never_fails: { spill_fails file ≡ [] },
}

impl SpillFile for SureFile {
    ghost use Rattle.std.specs.Prelude.{Some};
    ghost use Rattle.ept_mem_infallible.specs.Objects.{file_bytes_of, file_keeps_of};

    ghost held = { λ file. Some (file_bytes_of file) };

    ghost faults = { λ _. 0 };

    ghost keeps = { file_keeps_of };

    fn keep(&mut self, bytes: &[u8]) -> Result<(), PutError> {
        self.file.keep(bytes)
    }

    fn load(&mut self, into: &mut [u8]) -> Result<usize, Failed> {
        self.file.load(into)
    }
}

/// A room in memory that never fails.
#[derive(Debug, Drop)]
pub struct SureRoom {
    room: MemRoom,
    ghost never_fails: { room_fails room ≡ [] },
    ghost nor_its_files: { room_file_fails room ≡ [] },
}

impl SureRoom {
    ghost use Rattle.ept_mem_infallible.specs.Objects.{room_keeps_of};

    /// A room that has made no file yet. It takes no memory.
    pub fn new(alloc: Global) -> Self
        ensures unkept { room_keeps_of result ≡ 0 }
    {
        SureRoom {
            room: MemRoom::new(alloc, Vec::new(alloc), Vec::new(alloc)),
        }
    }
}

impl Room for SureRoom {
    type File = SureFile;

    ghost use Rattle.ept_mem_infallible.specs.Objects.{room_keeps_of};

    ghost faults = { λ _. 0 };

    ghost keeps = { room_keeps_of };

    fn make(&mut self, slot: u32) -> Result<SureFile, PutError> {
        match self.room.make(slot) {
            Ok(file) => Ok(SureFile { file }),
            Err(refused) => Err(refused),
        }
    }

    fn retire(&mut self, file: SureFile) {
        self.room.retire(file.file);
    }
}
