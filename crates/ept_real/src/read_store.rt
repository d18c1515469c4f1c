ghost use Rattle.std.specs.Prelude.{◌≡◌, ◌≤◌, [], Err, false, IfOk, IsOk, OnOk, OnErr, IsErrOf, option_map, string_bytes};
ghost use Rattle.ept_base.specs.Causes.{Rose, HasCauseOf};
ghost use Rattle.ept_base.specs.Devices.{Gets, counts_on};
ghost use Rattle.ept_base.specs.Files.{SameFiles, SameBut, Puts, Removes, Tells, StepsBy};
ghost use Rattle.ept_base.specs.Moves.{Follows, SameImages, NoMore, IsSettled, Elapses};

use crate::path_files::PathFiles;
use crate::paths::{or_here, path_in};
use ept_base::{GetError, PutError, Store};
use std::alloc::{AllocError, Global};

/// A folder that is only read. A name is a path below it.
///
/// It keeps nothing of the files that it gives, so it is as large after a million of them as before the first. The
/// name of what is no regular file is missing. It refuses to put and to remove.
#[derive(Drop)]
pub struct ReadStore<'a, D: PathFiles + Drop> {
    disk: D,
    alloc: Global,
    folder: &'a str,
    // How many calls were to write.
    refused: u64,
    gets: u64,
}

impl<'a, D: PathFiles + Drop> ReadStore<'a, D> {
    ghost use Rattle.ept_real.specs.Joined.{joined, folder_path};
    ghost use Rattle.ept_real.specs.ReadOnly.{read_disk, read_folder, read_files, read_refused, read_faults, read_gets};

    /// The store in this folder, without a get, and without a call that was to write. An empty path is that of the
    /// folder in which the program runs.
    pub fn new(alloc: Global, disk: D, folder: &'a str) -> Self
        ensures unwritten { read_refused result ≡ 0 }
        ensures unread { read_gets result ≡ 0 }
        ensures disk { read_disk result ≡ disk }
        ensures folder { read_folder result ≡ folder_path folder.now }
    {
        ReadStore {
            disk,
            alloc,
            folder: or_here(folder),
            refused: 0,
            gets: 0,
        }
    }

    /// How many calls have failed.
    pub fn faults(&self) -> u64
        ensures { result ≡ read_faults D.faults self.now }
    {
        self.disk.faults().saturating_add(self.refused)
    }

    /// How many calls of `get` there were.
    pub fn gets(&self) -> u64
        ensures { result ≡ read_gets self.now }
    {
        self.gets
    }

    // Counts a call that was to write.
    fn refuse(&mut self) -> PutError
        ensures error { result ≡ PutError.Failed }
        ensures rose { Rose (read_faults D.faults self.old) (read_faults D.faults self.new) }
        ensures later { read_faults D.faults self.old ≤ read_faults D.faults self.new }
        ensures same { self.new ≡ record self.old { refused = read_refused self.new } }
    {
        self.refused = self.refused.saturating_add(1);
        PutError::Failed
    }

    // The path of a name.
    fn path_of(&self, name: &str) -> Result<String, AllocError>
        ensures { IfOk result (λ path. string_bytes path ≡ joined (read_folder self.now) name.now) }
    {
        path_in(self.alloc, self.folder, name)
    }

    // What the file of a name holds.
    fn find(&mut self, name: &str) -> Result<Option<Vec<u8>>, GetError>
        ensures bytes { IfOk result (λ found. Tells (λ all. option_map (λ bytes. bytes.items) found ≡ all name.now) (read_files D.files self.old)) }
        ensures files { D.files (read_disk self.new) ≡ D.files (read_disk self.old) }
        ensures cause { HasCauseOf GetError.Failed (D.faults (read_disk self.old)) (D.faults (read_disk self.new)) result }
        ensures same { self.new ≡ record self.old { disk = read_disk self.new } }
    {
        let path = self.path_of(name)?;
        self.disk.read(self.alloc, path.as_str())
    }
}

impl<'a, D: PathFiles + Drop> Store for ReadStore<'a, D> {
    ghost use Rattle.ept_real.specs.ReadOnly.{read_disk, read_files, read_image, read_image_since, read_refused, read_faults, read_gets, told_image};

    ghost files = { λ store. read_files D.files store };

    ghost may_leave = { λ store. read_image D.files store };

    ghost moment = { λ _. 0 };

    ghost image_since = { λ store. read_image_since D.files store };

    ghost faults = { λ store. read_faults D.faults store };

    ghost gets = { λ store. read_gets store };

    ghost counts_now = { λ store t image le now. now };

    ghost only_now = { λ store image since. since };

    ghost reads_an_image = { λ store. told_image (read_files D.files store) };

    fn get(&mut self, name: &str, into: &mut Vec<u8>) -> Result<bool, GetError>
        ensures ok { IfOk result (λ found. Tells (λ all. Gets all name.now found into.new.items) (read_files D.files self.old)) }
        ensures absent { IfOk result (λ found. found ≡ false → into.new.items ≡ []) }
        ensures unchanged { OnErr result (into.new.items ≡ into.old.items) }
        ensures reads { StepsBy SameFiles (read_files D.files self.old) (read_files D.files self.new) }
        ensures images { SameImages (read_image D.files self.old) (read_image D.files self.new) }
        ensures time { Elapses 0 0 (read_image_since D.files self.old) (read_image_since D.files self.new) (read_image D.files self.new) }
        ensures counted { read_gets self.new ≡ counts_on (read_gets self.old) 1 }
        ensures cause { HasCauseOf GetError.Failed (read_faults D.faults self.old) (read_faults D.faults self.new) result }

        // The machine's files have failed, and only counts are kept.
        ensures failed { result ≡ Err GetError.Failed → Rose (D.faults (read_disk self.old)) (D.faults (read_disk self.new)) }
        ensures same { self.new ≡ record self.old { disk = read_disk self.new; gets = read_gets self.new } }
    {
        self.gets = self.gets.saturating_add(1);
        match self.find(name)? {
            Some(bytes) => {
                *into = bytes;
                Ok(true)
            }
            None => {
                into.clear();
                Ok(false)
            }
        }
    }

    fn put(&mut self, _name: &str, _bytes: &[u8]) -> Result<(), PutError>
        ensures ok { OnOk result (StepsBy (Puts _name.now _bytes.now) (read_files D.files self.old) (read_files D.files self.new)) }
        ensures memory { IsErrOf result PutError.Memory → StepsBy SameFiles (read_files D.files self.old) (read_files D.files self.new)
            × SameImages (read_image D.files self.old) (read_image D.files self.new) }
        ensures reads { StepsBy (SameBut _name.now) (read_files D.files self.old) (read_files D.files self.new) }
        ensures images { Follows (SameBut _name.now) (read_image D.files self.old) (read_image D.files self.new) }
        ensures time { Elapses 0 0 (read_image_since D.files self.old) (read_image_since D.files self.new) (read_image D.files self.new) }
        ensures counted { read_gets self.new ≡ read_gets self.old }
        ensures cause { HasCauseOf PutError.Failed (read_faults D.faults self.old) (read_faults D.faults self.new) result }
        ensures refused { result ≡ Err PutError.Failed }
        ensures same { self.new ≡ record self.old { refused = read_refused self.new } }
    {
        Err(self.refuse())
    }

    fn remove(&mut self, _name: &str) -> Result<(), PutError>
        ensures ok { OnOk result (StepsBy (Removes _name.now) (read_files D.files self.old) (read_files D.files self.new)) }
        ensures memory { IsErrOf result PutError.Memory → StepsBy SameFiles (read_files D.files self.old) (read_files D.files self.new)
            × SameImages (read_image D.files self.old) (read_image D.files self.new) }
        ensures reads { StepsBy (SameBut _name.now) (read_files D.files self.old) (read_files D.files self.new) }
        ensures images { Follows (SameBut _name.now) (read_image D.files self.old) (read_image D.files self.new) }
        ensures time { Elapses 0 0 (read_image_since D.files self.old) (read_image_since D.files self.new) (read_image D.files self.new) }
        ensures counted { read_gets self.new ≡ read_gets self.old }
        ensures cause { HasCauseOf PutError.Failed (read_faults D.faults self.old) (read_faults D.faults self.new) result }
        ensures refused { result ≡ Err PutError.Failed }
        ensures same { self.new ≡ record self.old { refused = read_refused self.new } }
    {
        Err(self.refuse())
    }

    // Nothing was put, so nothing is to be flushed.
    fn sync(&mut self) -> Result<(), PutError>
        ensures ok { OnOk result (IsSettled (read_files D.files self.new) (read_image D.files self.new)) }
        ensures unchanged { OnErr result (SameImages (read_image D.files self.old) (read_image D.files self.new)) }
        ensures reads { StepsBy SameFiles (read_files D.files self.old) (read_files D.files self.new) }
        ensures images { NoMore (read_image D.files self.old) (read_image D.files self.new) }
        ensures time { Elapses 0 0 (read_image_since D.files self.old) (read_image_since D.files self.new) (read_image D.files self.new) }
        ensures counted { read_gets self.new ≡ read_gets self.old }
        ensures cause { HasCauseOf PutError.Failed (read_faults D.faults self.old) (read_faults D.faults self.new) result }
        ensures always { IsOk result }
        ensures same { self.new ≡ self.old }
    {
        Ok(())
    }
}
