ghost use Rattle.std.specs.Prelude.{◌≡◌, IfOk, string_bytes};
ghost use Rattle.ept_base.specs.Devices.{counts_on};

use crate::paths::path_in;
use crate::real_disk::{overwrite_file, read_file, remove_file};
use ept_base::{Failed, PutError, Room, SpillFile};
use std::alloc::{AllocError, Allocator, Global};
use std::fs::{self, DirEntry};
use std::io;
use std::rt::Files;

/// A spill file in a folder of the machine. It is there from its first `keep` on, until its room takes it back, and is
/// open only within a call. A spill file that was never kept is empty.
#[derive(Drop)]
pub struct RealSpill<'a, R: Files> {
    files: &'a R,
    alloc: Global,
    folder: &'a str,
    slot: u32,
    faults: u64,
    keeps: u64,
}

impl<'a, R: Files> RealSpill<'a, R> {
    ghost use Rattle.ept_real.specs.Counts.{spill_faults, spill_keeps};
    ghost use Rattle.ept_real.specs.Joined.{joined};
    ghost use Rattle.ept_real.specs.Paths.{spill_folder, spill_name};

    /// The path of the file: its slot's number in the room's folder.
    fn path(&self) -> Result<String, AllocError>
        ensures { IfOk result (λ path. string_bytes path ≡ joined (spill_folder self.now) (spill_name self.now)) }
    {
        let name = format!(in self.alloc; "{}.bin", self.slot)?;
        path_in(self.alloc, self.folder, name.as_str())
    }

    /// What the file holds.
    fn read(&self) -> io::Result<Vec<u8>> {
        if self.keeps == 0 {
            return Ok(Vec::new(self.alloc));
        }
        let path = self.path()?;
        read_file(self.files, self.alloc, path.as_str())
    }

    /// Removes the file, if it may be there.
    fn remove(&self) -> io::Result<()> {
        if self.keeps == 0 {
            return Ok(());
        }
        let path = self.path()?;
        remove_file(self.files, path.as_str())
    }
}

impl<'a, R: Files> SpillFile for RealSpill<'a, R> {
    ghost use Rattle.std.specs.Prelude.{None, OnErr};
    ghost use Rattle.ept_base.specs.Causes.{HasCause, HasCauseOf};
    ghost use Rattle.ept_real.specs.Counts.{spill_faults, spill_keeps};

    ghost held = { λ _. None };

    ghost faults = { λ spill. spill_faults spill };

    ghost keeps = { λ spill. spill_keeps spill };

    fn keep(&mut self, bytes: &[u8]) -> Result<(), PutError> {
        self.keeps = self.keeps.saturating_add(1);
        let path = self.path()?;
        match overwrite_file(self.files, path.as_str(), bytes) {
            Ok(()) => Ok(()),
            Err(_) => {
                self.faults = self.faults.saturating_add(1);
                Err(PutError::Failed)
            }
        }
    }

    fn load(&mut self, into: &mut [u8]) -> Result<usize, Failed> {
        match self.read() {
            Ok(bytes) => {
                let count = bytes.len().min(into.len());
                into[..count].copy_from_slice(&bytes[..count]);
                Ok(bytes.len())
            }
            Err(_) => {
                self.faults = self.faults.saturating_add(1);
                Err(Failed)
            }
        }
    }
}

/// Removes the spill files that a program left in a folder when it was stopped, and the folder, if nothing else is in
/// it. What can't be removed stays.
pub fn remove_spills<R: Files + Alloc + Clone + Drop>(files: &R, folder: &str) {
    if let Ok(entries) = fs::read_dir(files, folder) {
        for entry in entries {
            let _ = entry.map(|entry| remove_spill(files, &entry));
        }
    }
    let _ = fs::remove_dir(files, folder);
}

// Removes what has the name of a spill file.
fn remove_spill<R: Files, A: Allocator>(files: &R, entry: &DirEntry<R, A>) {
    if is_spill_name(entry.file_name()) {
        let _ = fs::remove_file(files, entry.path());
    }
}

// Whether a name is that of a spill file: a number and `.bin`.
fn is_spill_name(name: &str) -> bool {
    match name.strip_suffix(".bin") {
        Some(slot) => !slot.is_empty() && slot.bytes().all(|byte| byte.is_ascii_digit()),
        None => false,
    }
}

/// A folder of the machine for spill files. It is made at the first `keep` of one, and removed with the last one that
/// is taken back, if nothing else is in it. The spill files that an earlier program left there, which was stopped, are
/// removed before the first file is made. With an empty path a room makes no file.
#[derive(Drop)]
pub struct RealRoom<'a, R: Files> {
    files: &'a R,
    alloc: Global,
    folder: &'a str,
    // How many files were made and not taken back.
    out: u64,
    faults: u64,
    keeps: u64,
}

impl<'a, R: Files> RealRoom<'a, R> {
    ghost use Rattle.ept_real.specs.Counts.{room_faults, room_keeps};
    ghost use Rattle.ept_real.specs.Paths.{room_folder};

    /// The room in this folder, without a fault, a file and a call of `keep`.
    pub fn new(alloc: Global, files: &'a R, folder: &'a str) -> Self
        ensures sound { room_faults result ≡ 0 }
        ensures unkept { room_keeps result ≡ 0 }
        ensures folder { room_folder result ≡ folder.now }
    {
        RealRoom {
            files,
            alloc,
            folder,
            out: 0,
            faults: 0,
            keeps: 0,
        }
    }

    /// How many of the files that were taken back had failed.
    pub fn faults(&self) -> u64
        ensures { result ≡ room_faults self.now }
    {
        self.faults
    }

    /// How many calls of `keep` the files had that were taken back.
    pub fn keeps(&self) -> u64
        ensures { result ≡ room_keeps self.now }
    {
        self.keeps
    }
}

impl<'a, R: Files + Alloc + Clone + Drop> Room for RealRoom<'a, R> {
    type File = RealSpill<'a, R>;

    ghost use Rattle.std.specs.Prelude.{◌≢◌, ◌≤◌, [], OnErr, Err};
    ghost use Rattle.ept_base.specs.Causes.{Rose, HasCauseOf};
    ghost use Rattle.ept_real.specs.Counts.{room_faults, room_keeps, spill_faults, spill_keeps};
    ghost use Rattle.ept_real.specs.Paths.{room_folder, spill_folder, slot_of};

    ghost faults = { λ room. room_faults room };

    ghost keeps = { λ room. room_keeps room };

    fn make(&mut self, slot: u32) -> Result<RealSpill<'a, R>, PutError>
        ensures fresh { IfOk result (λ file. spill_faults file ≡ 0) }
        ensures unused { IfOk result (λ file. spill_keeps file ≡ 0) }
        ensures counted { room_keeps self.new ≡ room_keeps self.old }
        ensures cause { HasCauseOf PutError.Failed (room_faults self.old) (room_faults self.new) result }
        ensures of_folder { IfOk result (λ file. spill_folder file ≡ room_folder self.old) }
        ensures of_slot { IfOk result (λ file. slot_of file ≡ slot) }
        ensures only { OnErr result (room_folder self.old ≡ []) }
        ensures refused { room_folder self.old ≡ [] → result ≡ Err PutError.Failed }
        ensures folder { room_folder self.new ≡ room_folder self.old }
    {
        if self.folder.is_empty() {
            self.faults = self.faults.saturating_add(1);
            return Err(PutError::Failed);
        }
        if self.out == 0 {
            remove_spills(self.files, self.folder);
        }
        self.out = self.out.saturating_add(1);
        Ok(RealSpill {
            files: self.files,
            alloc: self.alloc,
            folder: self.folder,
            slot,
            faults: 0,
            keeps: 0,
        })
    }

    fn retire(&mut self, file: RealSpill<'a, R>)
        ensures later { room_faults self.old ≤ room_faults self.new }
        ensures failed { spill_faults file.entry ≢ 0 → Rose (room_faults self.old) (room_faults self.new) }
        ensures sound { spill_faults file.entry ≡ 0 → room_faults self.new ≡ room_faults self.old }
        ensures counted { room_keeps self.new ≡ counts_on (room_keeps self.old) (spill_keeps file.entry) }
        ensures folder { room_folder self.new ≡ room_folder self.old }
    {
        // A file that can't be removed is no fault: its points are elsewhere by now.
        let _ = file.remove();
        self.out = self.out.saturating_sub(1);
        if self.out == 0 {
            let _ = fs::remove_dir(self.files, self.folder);
        }
        self.keeps = self.keeps.saturating_add(file.keeps);
        if file.faults > 0 {
            self.faults = self.faults.saturating_add(1);
        }
    }
}
