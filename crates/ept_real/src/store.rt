ghost use Rattle.std.specs.Prelude.{◌≡◌, option_map, ◌≢◌, ◌≤◌, ◌⊎◌, ℕ, List, [], false, true, Contains, IsOk, IsTrue, IfOk, IsErrOf, OnOk, OnErr, Err, string_bytes};
ghost use Rattle.ept_base.specs.Causes.{Rose, HasCauseOf};
ghost use Rattle.ept_base.specs.Devices.{Gets, counts_on};
ghost use Rattle.ept_base.specs.Files.{SameFiles, SameBut, Puts, Removes, Tells, StepsBy};
ghost use Rattle.ept_base.specs.Moves.{Follows, SameImages, NoMore, IsSettled, Elapses};
ghost use Rattle.ept_real.specs.Ways.{Keeps, KeepsBut};

use crate::path_disk::PathDisk;
use crate::path_set::PathSet;
use crate::paths::{or_here, path_in};
use crate::real_disk::RealDisk;
use crate::seen_files::SeenFiles;
use crate::threaded_disk::ThreadedDisk;
use crate::unsynced::Unsynced;
use ept_base::{Failed, GetError, PutError, Store};
use std::alloc::{AllocError, Global};
use std::path::Path;
use std::rt::Files;
use std::thread::Threads;

/// A folder of the machine, which is made if it is missing. A name is a path below it.
///
/// `sync` flushes the files that were put, and those that were got and that this store has not flushed yet. Another
/// program may have written the latter, and been stopped before it flushed them. Its disk flushes them, one after another
/// or in several threads. After all files, the folders on the way to each name that was put, got or removed are flushed,
/// one after another. These are the folders below the store's folder, the store's folder, and those that it is in, as
/// far as its path says. The store's folder and the one that it is in must be readable. One further above that must not
/// be read is passed over.
///
/// After a refused `sync` each later one is refused. The system reports a lost write only once, and may then act as if
/// nothing had been lost.
///
/// A name below a file is a fault; a missing name is not.
#[derive(Drop)]
pub struct RealStore<'a, R: Files, D: PathDisk + Drop = RealDisk<'a, R>> {
    files: &'a R,
    disk: D,
    alloc: Global,
    folder: &'a str,
    unsynced: Unsynced,
    flushed: PathSet,
    refused: bool,
    faults: u64,
    gets: u64,
}

impl<'a, R: Files> RealStore<'a, R, RealDisk<'a, R>> {
    ghost use Rattle.ept_real.specs.Counts.{store_faults, store_gets};
    ghost use Rattle.ept_real.specs.Flushing.{flushed, IsFlushed, sync_refused};
    ghost use Rattle.ept_real.specs.Joined.{folder_path};
    ghost use Rattle.ept_real.specs.Paths.{store_folder};

    /// The store in this folder, without a fault and without a get. An empty path is that of the
    /// folder in which the program runs.
    pub fn new(alloc: Global, files: &'a R, folder: &'a str) -> Self
        ensures sound { store_faults result ≡ 0 }
        ensures unread { store_gets result ≡ 0 }
        ensures folder { store_folder result ≡ folder_path folder.now }
        ensures to_flush { IsFlushed result }
        ensures flushed { flushed result ≡ [] }
        ensures open { sync_refused result ≡ false }
    {
        RealStore::over(alloc, files, RealDisk::new(files), folder)
    }
}

impl<'a, P: Threads + Sync> RealStore<'a, SeenFiles<HostRuntime>, ThreadedDisk<'a, P>> {
    ghost use Rattle.ept_real.specs.Counts.{store_faults, store_gets};
    ghost use Rattle.ept_real.specs.Flushing.{flushed, IsFlushed, sync_refused};
    ghost use Rattle.ept_real.specs.Joined.{folder_path};
    ghost use Rattle.ept_real.specs.Paths.{store_folder};

    /// The same store, whose files are flushed by threads that this handle may start.
    pub fn with_threads(
        alloc: Global,
        files: &'a SeenFiles<HostRuntime>,
        threads: &P,
        folder: &'a str,
    ) -> Self
        ensures sound { store_faults result ≡ 0 }
        ensures unread { store_gets result ≡ 0 }
        ensures folder { store_folder result ≡ folder_path folder.now }
        ensures to_flush { IsFlushed result }
        ensures flushed { flushed result ≡ [] }
        ensures open { sync_refused result ≡ false }
    {
        RealStore::over(alloc, files, ThreadedDisk::new(files, threads), folder)
    }
}

impl<'a, R: Files, D: PathDisk + Drop> RealStore<'a, R, D> {
    ghost use Rattle.ept_real.specs.Counts.{store_faults, store_gets};
    ghost use Rattle.ept_real.specs.Flushing.{flushed, IsFlushed, sync_refused};
    ghost use Rattle.ept_real.specs.Joined.{joined, folder_path};
    ghost use Rattle.ept_real.specs.Paths.{store_folder};
    ghost use Rattle.ept_real.specs.ReadOnly.{store_disk};

    /// The store in this folder of a machine, over files of it. It has neither a fault nor a get.
    pub fn over(alloc: Global, files: &'a R, disk: D, folder: &'a str) -> Self
        ensures sound { store_faults result ≡ 0 }
        ensures unread { store_gets result ≡ 0 }
        ensures disk { store_disk result ≡ disk }
        ensures folder { store_folder result ≡ folder_path folder.now }
        ensures to_flush { IsFlushed result }
        ensures flushed { flushed result ≡ [] }
        ensures open { sync_refused result ≡ false }
    {
        RealStore {
            files,
            disk,
            alloc,
            folder: or_here(folder),
            unsynced: Unsynced::new(alloc),
            flushed: PathSet::new(alloc),
            refused: false,
            faults: 0,
            gets: 0,
        }
    }

    /// How many calls have failed.
    pub fn faults(&self) -> u64
        ensures { result ≡ store_faults self.now }
    {
        self.faults
    }

    /// How many calls of `get` there were.
    pub fn gets(&self) -> u64
        ensures { result ≡ store_gets self.now }
    {
        self.gets
    }

    /// Counts a fault.
    fn fault(&mut self)
        ensures rose { Rose (store_faults self.old) (store_faults self.new) }
        ensures later { store_faults self.old ≤ store_faults self.new }
        ensures same { self.new ≡ record self.old { faults = store_faults self.new } }
    {
        self.faults = self.faults.saturating_add(1);
    }

    /// The path of a name.
    fn path_of(&self, name: &str) -> Result<String, AllocError>
        ensures { IfOk result (λ path. string_bytes path ≡ joined (store_folder self.now) name.now) }
    {
        path_in(self.alloc, self.folder, name)
    }
}

impl<'a, R: Files, D: PathDisk + Drop> RealStore<'a, R, D> {
    ghost use Rattle.ept_real.specs.Counts.{store_faults, store_gets};
    ghost use Rattle.ept_real.specs.ReadOnly.{store_disk, folder_files};
    ghost use Rattle.ept_real.specs.Flushing.{names_to_flush, folders_to_flush, flushed, HasWayToFlush, HasToFlush, KeepsToFlush};
    ghost use Rattle.ept_real.specs.Paths.{store_folder};

    /// What the file of this name holds.
    fn find(&mut self, name: &str) -> Result<Option<Vec<u8>>, GetError>
        ensures bytes { IfOk result (λ found. Tells (λ all. option_map (λ bytes. bytes.items) found ≡ all name.now) (folder_files D.files self.old)) }
        ensures files { D.files (store_disk self.new) ≡ D.files (store_disk self.old) }
        ensures same { self.new ≡ record self.old { disk = store_disk self.new; faults = store_faults self.new } }
        ensures cause { HasCauseOf GetError.Failed (store_faults self.old) (store_faults self.new) result }
    {
        let path = self.path_of(name)?;
        match self.disk.read(self.alloc, path.as_str()) {
            Ok(found) => Ok(found),
            Err(GetError::Memory) => Err(GetError::Memory),
            Err(GetError::Failed) => {
                self.fault();
                Err(GetError::Failed)
            }
        }
    }

    /// The folders on the way to this name are to be flushed.
    fn note_way(&mut self, name: &str) -> Result<(), AllocError>
        ensures ok { OnOk result (HasWayToFlush self.new name.now) }
        ensures still { Keeps (folders_to_flush self.old) (folders_to_flush self.new) }
        ensures names { names_to_flush self.new ≡ names_to_flush self.old }
        ensures same { self.new ≡ record self.old { unsynced = self.new.unsynced } }
    {
        self.unsynced.note_way(self.folder, name)
    }

    /// The file of this name, which was read, is to be flushed, unless this store has flushed it.
    fn note_read(&mut self, name: &str) -> Result<(), AllocError>
        ensures ok { OnOk result (HasToFlush self.new name.now ⊎ Contains (flushed self.new) name.now) }
        ensures still { KeepsToFlush self.old self.new }
        ensures same { self.new ≡ record self.old { unsynced = self.new.unsynced } }
    {
        if self.flushed.contains(name) {
            return Ok(());
        }
        self.note_way(name)?;
        self.unsynced.names.add(name)
    }

    /// The file of this name is no longer to be flushed, if it is missing.
    fn forget_absent(&mut self, name: &str, path: &str)
        ensures still { KeepsBut name.now (names_to_flush self.old) (names_to_flush self.new) }
        ensures folders { folders_to_flush self.new ≡ folders_to_flush self.old }
        ensures same { self.new ≡ record self.old { unsynced = self.new.unsynced } }
    {
        if !Path::new(path).exists(self.files) {
            self.unsynced.names.remove(name);
        }
    }

    /// Writes the file of this name, which is to be flushed from then on, if it is there.
    fn write(&mut self, name: &str, path: &str, bytes: &[u8]) -> Result<(), PutError>
        ensures ok { OnOk result (Contains (names_to_flush self.new) name.now) }
        ensures still { KeepsBut name.now (names_to_flush self.old) (names_to_flush self.new) }
        ensures folders { folders_to_flush self.new ≡ folders_to_flush self.old }
        ensures same { self.new ≡ record self.old { disk = store_disk self.new; unsynced = self.new.unsynced; faults = store_faults self.new } }
        ensures put { OnOk result (StepsBy (Puts path.now bytes.now) (D.files (store_disk self.old)) (D.files (store_disk self.new))) }
        ensures alone { result ≡ Err PutError.Failed → StepsBy (SameBut path.now) (D.files (store_disk self.old)) (D.files (store_disk self.new)) }
        ensures untouched { result ≡ Err PutError.Memory → D.files (store_disk self.new) ≡ D.files (store_disk self.old) }
        ensures cause { HasCauseOf PutError.Failed (store_faults self.old) (store_faults self.new) result }
    {
        self.unsynced.names.add(name)?;
        match self.disk.write(path, bytes) {
            Ok(()) => Ok(()),
            Err(Failed) => {
                self.forget_absent(name, path);
                self.fault();
                Err(PutError::Failed)
            }
        }
    }

    /// Removes the file of this name, which is then no longer to be flushed.
    fn erase(&mut self, name: &str, path: &str) -> Result<(), PutError>
        ensures gone { OnOk result (Contains (names_to_flush self.new) name.now → ⊥) }
        ensures still { KeepsBut name.now (names_to_flush self.old) (names_to_flush self.new) }
        ensures not_gone { OnErr result (names_to_flush self.new ≡ names_to_flush self.old) }
        ensures folders { folders_to_flush self.new ≡ folders_to_flush self.old }
        ensures same { self.new ≡ record self.old { disk = store_disk self.new; unsynced = self.new.unsynced; faults = store_faults self.new } }
        ensures removed { OnOk result (StepsBy (Removes path.now) (D.files (store_disk self.old)) (D.files (store_disk self.new))) }
        ensures alone { result ≡ Err PutError.Failed → StepsBy (SameBut path.now) (D.files (store_disk self.old)) (D.files (store_disk self.new)) }
        ensures only { result ≢ Err PutError.Memory }
        ensures cause { HasCauseOf PutError.Failed (store_faults self.old) (store_faults self.new) result }
    {
        match self.disk.remove(path) {
            Ok(()) => {
                self.unsynced.names.remove(name);
                Ok(())
            }
            Err(Failed) => {
                self.fault();
                Err(PutError::Failed)
            }
        }
    }

    /// Flushes the files that are to be flushed, and after all of them the folders.
    fn flush(&mut self) -> Result<(), Failed>
        ensures files { D.files (store_disk self.new) ≡ D.files (store_disk self.old) }
        ensures same { self.new ≡ record self.old { disk = store_disk self.new } }
    {
        let Ok(paths) = self.unsynced.file_paths(self.folder) else {
            return Err(Failed);
        };
        self.disk.flush(self.alloc, paths.as_slice())?;
        self.unsynced.flush_folders(self.files, self.folder)
    }
}

impl<'a, R: Files, D: PathDisk + Drop> Store for RealStore<'a, R, D> {
    ghost use Rattle.std.specs.Prelude.{None};
    ghost use Rattle.ept_real.specs.Counts.{store_faults, store_gets};
    ghost use Rattle.ept_real.specs.Flushing.{names_to_flush, folders_to_flush, flushed, sync_refused, IsFlushed, HasWayToFlush, HasToFlush, KeepsToFlush, KeepsToFlushBut, no_image, no_image_since};
    ghost use Rattle.ept_real.specs.Joined.{joined};
    ghost use Rattle.ept_real.specs.Paths.{store_folder};
    ghost use Rattle.ept_real.specs.ReadOnly.{store_disk, folder_files};

    ghost files = { λ _. None };

    ghost may_leave = { λ _. no_image };

    ghost moment = { λ _. 0 };

    ghost image_since = { λ _. no_image_since };

    ghost faults = { λ store. store_faults store };

    ghost gets = { λ store. store_gets store };

    ghost counts_now = { λ store t image le now. now };

    ghost only_now = { λ store image since. since };

    ghost reads_an_image = { λ store. tt };

    fn get(&mut self, name: &str, into: &mut Vec<u8>) -> Result<bool, GetError>
        ensures ok { IfOk result (λ found. Tells (λ all. Gets all name.now found into.new.items) None) }
        ensures absent { IfOk result (λ found. found ≡ false → into.new.items ≡ []) }
        ensures unchanged { OnErr result (into.new.items ≡ into.old.items) }
        ensures reads { StepsBy SameFiles None None }
        ensures images { SameImages no_image no_image }
        ensures time { Elapses 0 0 no_image_since no_image_since no_image }
        ensures counted { store_gets self.new ≡ counts_on (store_gets self.old) 1 }
        ensures cause { HasCauseOf GetError.Failed (store_faults self.old) (store_faults self.new) result }

        // What was got is the file of that path in the folder.
        ensures told { IfOk result (λ found. Tells (λ all. Gets all name.now found into.new.items) (folder_files D.files self.old)) }
        ensures files { D.files (store_disk self.new) ≡ D.files (store_disk self.old) }

        // What was found is flushed before it is built upon, unless this store has flushed it.
        ensures found { IfOk result (λ found. found ≡ true
            → HasToFlush self.new name.now ⊎ Contains (flushed self.new) name.now) }
        ensures still { KeepsToFlush self.old self.new }
        ensures flushed { flushed self.new ≡ flushed self.old }
        ensures open { sync_refused self.new ≡ sync_refused self.old }
        ensures folder { store_folder self.new ≡ store_folder self.old }
    {
        self.gets = self.gets.saturating_add(1);
        match self.find(name)? {
            Some(bytes) => {
                self.note_read(name)?;
                *into = bytes;
                Ok(true)
            }
            None => {
                into.clear();
                Ok(false)
            }
        }
    }

    fn put(&mut self, name: &str, bytes: &[u8]) -> Result<(), PutError>
        ensures ok { OnOk result (StepsBy (Puts name.now bytes.now) None None) }
        ensures memory { IsErrOf result PutError.Memory → StepsBy SameFiles None None × SameImages no_image no_image }
        ensures reads { StepsBy (SameBut name.now) None None }
        ensures images { Follows (SameBut name.now) no_image no_image }
        ensures time { Elapses 0 0 no_image_since no_image_since no_image }
        ensures counted { store_gets self.new ≡ store_gets self.old }
        ensures cause { HasCauseOf PutError.Failed (store_faults self.old) (store_faults self.new) result }

        // The file of that path in the folder was written, and no other.
        ensures put { OnOk result (StepsBy (Puts (joined (store_folder self.old) name.now) bytes.now) (D.files (store_disk self.old)) (D.files (store_disk self.new))) }
        ensures alone { result ≡ Err PutError.Failed
            → StepsBy (SameBut (joined (store_folder self.old) name.now)) (D.files (store_disk self.old)) (D.files (store_disk self.new)) }
        ensures untouched { result ≡ Err PutError.Memory → D.files (store_disk self.new) ≡ D.files (store_disk self.old) }

        // What was put is to be flushed, with the folders on its way.
        ensures noted { OnOk result (HasToFlush self.new name.now) }
        ensures still { KeepsToFlushBut name.now self.old self.new }
        ensures anew { result ≢ Err PutError.Memory → Contains (flushed self.new) name.now → ⊥ }
        ensures flushed { Keeps (flushed self.new) (flushed self.old) }
        ensures open { sync_refused self.new ≡ sync_refused self.old }
        ensures folder { store_folder self.new ≡ store_folder self.old }
    {
        let path = self.path_of(name)?;
        self.flushed.remove(name);
        self.note_way(name)?;
        self.write(name, path.as_str(), bytes)
    }

    fn remove(&mut self, name: &str) -> Result<(), PutError>
        ensures ok { OnOk result (StepsBy (Removes name.now) None None) }
        ensures memory { IsErrOf result PutError.Memory → StepsBy SameFiles None None × SameImages no_image no_image }
        ensures reads { StepsBy (SameBut name.now) None None }
        ensures images { Follows (SameBut name.now) no_image no_image }
        ensures time { Elapses 0 0 no_image_since no_image_since no_image }
        ensures counted { store_gets self.new ≡ store_gets self.old }
        ensures cause { HasCauseOf PutError.Failed (store_faults self.old) (store_faults self.new) result }

        // The file of that path in the folder was removed, and no other.
        ensures removed { OnOk result (StepsBy (Removes (joined (store_folder self.old) name.now)) (D.files (store_disk self.old)) (D.files (store_disk self.new))) }
        ensures alone { result ≡ Err PutError.Failed
            → StepsBy (SameBut (joined (store_folder self.old) name.now)) (D.files (store_disk self.old)) (D.files (store_disk self.new)) }
        ensures untouched { result ≡ Err PutError.Memory → D.files (store_disk self.new) ≡ D.files (store_disk self.old) }

        // The folders on the way are to be flushed; the file is no longer.
        ensures noted { OnOk result (HasWayToFlush self.new name.now) }
        ensures gone { OnOk result (Contains (names_to_flush self.new) name.now → ⊥) }
        ensures still { KeepsToFlushBut name.now self.old self.new }
        ensures not_gone { OnErr result (KeepsToFlush self.old self.new) }
        ensures anew { result ≢ Err PutError.Memory → Contains (flushed self.new) name.now → ⊥ }
        ensures flushed { Keeps (flushed self.new) (flushed self.old) }
        ensures open { sync_refused self.new ≡ sync_refused self.old }
        ensures folder { store_folder self.new ≡ store_folder self.old }
    {
        let path = self.path_of(name)?;
        self.flushed.remove(name);
        self.note_way(name)?;
        self.erase(name, path.as_str())
    }

    fn sync(&mut self) -> Result<(), PutError>
        ensures ok { OnOk result (IsSettled None no_image) }
        ensures unchanged { OnErr result (SameImages no_image no_image) }
        ensures reads { StepsBy SameFiles None None }
        ensures images { NoMore no_image no_image }
        ensures time { Elapses 0 0 no_image_since no_image_since no_image }
        ensures counted { store_gets self.new ≡ store_gets self.old }
        ensures cause { HasCauseOf PutError.Failed (store_faults self.old) (store_faults self.new) result }
        ensures only { result ≢ Err PutError.Memory }
        ensures files { D.files (store_disk self.new) ≡ D.files (store_disk self.old) }

        // On success nothing is left to flush, and after a refusal all is.
        ensures none_left { OnOk result (IsFlushed self.new) }
        ensures names { OnErr result (names_to_flush self.new ≡ names_to_flush self.old) }
        ensures folders { OnErr result (folders_to_flush self.new ≡ folders_to_flush self.old) }
        ensures flushed { (name : List ℕ) → Contains (flushed self.new) name
            → Contains (flushed self.old) name ⊎ (IsOk result × Contains (names_to_flush self.old) name) }

        // After a refusal each later sync is refused.
        ensures refusal_comes { IsTrue (sync_refused self.old) → result ≡ Err PutError.Failed }
        ensures for_good { OnErr result (IsTrue (sync_refused self.new)) }
        ensures open { OnOk result (sync_refused self.new ≡ false) }
        ensures folder { store_folder self.new ≡ store_folder self.old }
    {
        if self.refused || self.flush().is_err() {
            self.refused = true;
            self.fault();
            return Err(PutError::Failed);
        }
        self.flushed.take_over(&mut self.unsynced.names);
        self.unsynced.folders.clear();
        Ok(())
    }
}
