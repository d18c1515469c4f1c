ghost use Rattle.std.specs.Prelude.{◌≡◌, Option, List, Vec, ℕ, [], Some, None, OnOk, OnErr, false};
ghost use Rattle.std.specs.Option.{option_copied};
ghost use Rattle.ept_base.specs.Files.{Files, changed, SameFiles, SameBut};
ghost use Rattle.ept_base.specs.Moves.{Follows, SameImages, NoMore, IsSettled, Elapses};
ghost use Rattle.ept_mem.specs.Named.{content_of};
ghost use Rattle.ept_mem.specs.Disk.{Disk, disk, after, written, settled, crashed, bytes_of, MaySpoil, IsCrashOf, Knows};
ghost use Rattle.ept_mem.specs.Objects.{store_files, store_images, store_images_since, store_moment, store_faults, store_gets, store_fails, store_calls, store_plan, store_fuse, store_disk};

use crate::crash::Crash;
use crate::named::find;
use crate::plan::FusedPlan;
use ept_base::{GetError, PutError, Store};
use std::alloc::{AllocError, Global};

/// A call of a store that a crash may spoil, or that ends what a crash may spoil.
#[derive(Debug, Drop)]
pub(crate) enum Call {
    /// The name was made to read as this content, or to be missing.
    Write {
        name: String,
        content: Option<Vec<u8>>,
    },
    /// What was read was flushed.
    Sync,
    /// The name was written so, and then there was a crash.
    Crashed {
        name: String,
        content: Option<Vec<u8>>,
        how: Crash,
    },
}

/// A store in memory. A call of `put` or `remove` that fails leaves its name missing.
///
/// It keeps what it read at first and its calls. What is read, what is flushed and what a crash may spoil follow from
/// these.
#[derive(Debug, Drop)]
pub struct MemStore {
    alloc: Global,
    first: Vec<(String, Vec<u8>)>,
    calls: Vec<Call>,
    gets: u64,
    plan: FusedPlan,
}

/// What is known of a name: what it reads as, what is flushed, and whether it was written since the last sync.
#[derive(Clone, Copy)]
struct Known<'a> {
    reads: Option<&'a [u8]>,
    stable: Option<&'a [u8]>,
    is_touched: bool,
}

/// What is known after the name `target` was written.
fn after_write<'a>(
    known: Known<'a>,
    target: &str,
    content: &'a Option<Vec<u8>>,
    name: &str,
) -> Known<'a>
    ensures { (disk : Disk) → Knows disk name.now (option_copied known.entry.reads) (option_copied known.entry.stable) known.entry.is_touched
        → Knows (written disk target.now (bytes_of content.now)) name.now (option_copied result.reads) (option_copied result.stable) result.is_touched }
{
    if name != target {
        return known;
    }
    Known {
        reads: content.as_ref().map(|bytes| bytes.as_slice()),
        stable: known.stable,
        is_touched: true,
    }
}

/// What is known after everything that is read was flushed.
fn when_settled<'a>(reads: Option<&'a [u8]>) -> Known<'a>
    ensures reads { option_copied result.reads ≡ option_copied reads.entry }
    ensures stable { option_copied result.stable ≡ option_copied reads.entry }
    ensures untouched { result.is_touched ≡ false }
{
    Known {
        reads,
        stable: reads,
        is_touched: false,
    }
}

/// What a crash leaves of the name.
fn left_of<'a>(known: Known<'a>, how: Crash) -> Option<&'a [u8]>
    ensures { (disk : Disk) (name : List ℕ) → Knows disk name (option_copied known.entry.reads) (option_copied known.entry.stable) known.entry.is_touched
        → crashed how disk name ≡ option_copied result }
{
    match how {
        _ if !known.is_touched => known.stable,
        Crash::Old => known.stable,
        Crash::New => known.reads,
        Crash::Absent => None,
        Crash::Junk => Some(&[255]),
    }
}

/// What is known after one more call.
fn after_call<'a>(known: Known<'a>, call: &'a Call, name: &str) -> Known<'a>
    ensures { (disk : Disk) → Knows disk name.now (option_copied known.entry.reads) (option_copied known.entry.stable) known.entry.is_touched
        → Knows (after disk call.now) name.now (option_copied result.reads) (option_copied result.stable) result.is_touched }
{
    match call {
        Call::Write {
            name: written,
            content,
        } => after_write(known, written, content, name),
        Call::Sync => when_settled(known.reads),
        Call::Crashed {
            name: written,
            content,
            how,
        } => when_settled(left_of(after_write(known, written, content, name), *how)),
    }
}

/// What the name reads as after these calls over these files.
fn latest<'a>(first: &'a [(String, Vec<u8>)], calls: &'a [Call], name: &str) -> Option<&'a [u8]>
    ensures { option_copied result ≡ (disk (content_of first.now) calls.now).reads name.now }
{
    let mut known = when_settled(find(first, name));
    for call in calls {
        known = after_call(known, call, name);
    }
    known.reads
}

/// These calls, and then a crash. No further call is noted, so it takes no memory.
fn crash_behind(mut calls: Vec<Call>, how: Crash) -> Vec<Call>
    ensures { (first : Files) → IsCrashOf how (disk first calls.items) (disk first result.items) }
{
    match calls.pop() {
        Some(Call::Write { name, content }) => {
            calls.push_reserved(Call::Crashed { name, content, how });
        }
        Some(settling) => calls.push_reserved(settling),
        None => {}
    }
    calls
}

impl MemStore {
    /// A settled store of these files, whose calls of these numbers fail. If a name occurs more than once, its first
    /// file counts.
    pub fn new(alloc: Global, files: Vec<(String, Vec<u8>)>, fails: Vec<u64>) -> Self
        ensures files { store_files result ≡ content_of files.items }
        ensures settled { IsSettled (Some (store_files result)) (store_images result) }
        ensures sound { store_faults result ≡ 0 }
        ensures fails { store_fails result ≡ fails.items }
        ensures unread { store_gets result ≡ 0 }
        ensures unused { store_calls result ≡ 0 }
        ensures unfused { store_fuse result ≡ None }
    {
        MemStore {
            alloc,
            first: files,
            calls: Vec::new(alloc),
            gets: 0,
            plan: FusedPlan::new(fails),
        }
    }

    /// The same store, which passes this many calls from now on, and fails each call after them. It takes no memory.
    pub fn with_fuse(self, calls: u64) -> MemStore
        ensures fuse { store_fuse result ≡ Some calls }
        ensures files { store_files result ≡ store_files self }
        ensures images { SameImages (store_images self) (store_images result) }
        ensures moment { store_moment result ≡ store_moment self }
        ensures time { (t : ℕ) → SameImages (store_images_since self t) (store_images_since result t) }
        ensures faults { store_faults result ≡ store_faults self }
        ensures gets { store_gets result ≡ store_gets self }
        ensures fails { store_fails result ≡ store_fails self }
        ensures numbered { store_calls result ≡ store_calls self }
    {
        let mut fused = self;
        fused.plan.fuse = Some(calls);
        fused
    }

    /// A settled store of the files that a crash of this kind leaves, without a fuse and without a call
    /// that is to fail. It takes no memory.
    pub fn crash(self, how: Crash) -> MemStore
        ensures files { SameFiles (crashed how (store_disk self)) (store_files result) }
        ensures image { store_images self (store_files result) }
        ensures settled { IsSettled (Some (store_files result)) (store_images result) }
        ensures sound { store_faults result ≡ 0 }
        ensures fails { store_fails result ≡ [] }
        ensures unread { store_gets result ≡ 0 }
        ensures unused { store_calls result ≡ 0 }
        ensures unfused { store_fuse result ≡ None }
    {
        MemStore {
            alloc: self.alloc,
            first: self.first,
            calls: crash_behind(self.calls, how),
            gets: 0,
            plan: FusedPlan::new(Vec::new(self.alloc)),
        }
    }

    /// The bytes that the name reads as, if it is there.
    pub fn file(&self, name: &str) -> Option<&[u8]>
        ensures { option_copied result ≡ store_files self.now name.now }
    {
        latest(&self.first, &self.calls, name)
    }

    /// Notes that the name reads as this content from now on.
    fn write(&mut self, name: &str, content: Option<Vec<u8>>) -> Result<(), AllocError>
        ensures ok { OnOk result (SameFiles (changed (store_files self.old) name.now (bytes_of content)) (store_files self.new)) }
        ensures unchanged { OnErr result (SameFiles (store_files self.old) (store_files self.new)
            × SameImages (store_images self.old) (store_images self.new)) }
        ensures reads { SameBut name.now (store_files self.old) (store_files self.new) }
        ensures images { Follows (SameBut name.now) (store_images self.old) (store_images self.new) }
        ensures spoils { OnOk result (MaySpoil name.now (store_images self.old) (store_images self.new)) }
        ensures time { Elapses (store_moment self.old) (store_moment self.new) (store_images_since self.old) (store_images_since self.new) (store_images self.new) }
        ensures gets { self.new.gets ≡ self.old.gets }
        ensures plan { store_plan self.new ≡ store_plan self.old }
    {
        let name = String::from_str(self.alloc, name)?;
        self.calls.push(Call::Write { name, content })?;
        Ok(())
    }

    /// Notes that what is read is flushed.
    fn settle(&mut self) -> Result<(), AllocError>
        ensures ok { OnOk result (IsSettled (Some (store_files self.new)) (store_images self.new)) }
        ensures unchanged { OnErr result (SameImages (store_images self.old) (store_images self.new)) }
        ensures reads { SameFiles (store_files self.old) (store_files self.new) }
        ensures images { NoMore (store_images self.old) (store_images self.new) }
        ensures time { Elapses (store_moment self.old) (store_moment self.new) (store_images_since self.old) (store_images_since self.new) (store_images self.new) }
        ensures gets { self.new.gets ≡ self.old.gets }
        ensures plan { store_plan self.new ≡ store_plan self.old }
    {
        self.calls.push(Call::Sync)?;
        Ok(())
    }
}

impl Store for MemStore {
    ghost use Rattle.std.specs.Prelude.{Some, Err, ◌≢◌, false, [], IfOk, OnOk, OnErr, IsErr, IsErrOf, IsOkUnless};
    ghost use Rattle.ept_base.specs.Causes.{HasCauseOf};
    ghost use Rattle.ept_base.specs.Devices.{Gets, counts_on};
    ghost use Rattle.ept_base.specs.Files.{SameFiles, SameBut, Puts, Removes};
    ghost use Rattle.ept_base.specs.Moves.{Follows, SameImages, NoMore, IsSettled, Elapses};
    ghost use Rattle.ept_mem.specs.Disk.{MaySpoil};
    ghost use Rattle.ept_mem.specs.Named.{content_of};
    ghost use Rattle.ept_mem.specs.Objects.{store_files, store_images, store_images_since, store_moment, store_faults, store_gets, store_plan};
    ghost use Rattle.ept_mem.specs.Plans.{IsFusedToFail, IsOneFusedCallMore};
    ghost use Rattle.ept_mem.specs.Crash.{image_counts, image_only, reads_image};

    ghost files = { λ store. Some (store_files store) };

    ghost may_leave = { store_images };

    ghost moment = { store_moment };

    ghost image_since = { store_images_since };

    ghost faults = { store_faults };

    ghost gets = { store_gets };

    ghost counts_now = { λ store t image le now. image_counts _ _ t image le now };

    ghost only_now = { λ store image since. image_only _ _ image since };

    ghost reads_an_image = { λ store. reads_image (content_of store.first.items) store.calls.items };

    fn get(&mut self, name: &str, into: &mut Vec<u8>) -> Result<bool, GetError>
        ensures ok { IfOk result (λ found. Gets (store_files self.old) name.now found into.new.items) }
        ensures absent { IfOk result (λ found. found ≡ false → into.new.items ≡ []) }
        ensures unchanged { OnErr result (into.new.items ≡ into.old.items) }
        ensures reads { SameFiles (store_files self.old) (store_files self.new) }
        ensures images { SameImages (store_images self.old) (store_images self.new) }
        ensures time { Elapses (store_moment self.old) (store_moment self.new) (store_images_since self.old) (store_images_since self.new) (store_images self.new) }
        ensures counted { store_gets self.new ≡ counts_on (store_gets self.old) 1 }
        ensures cause { HasCauseOf GetError.Failed (store_faults self.old) (store_faults self.new) result }
        ensures to_fail { IsFusedToFail (store_plan self.old) → IsErr result }
        ensures not_to_fail { ¬ IsFusedToFail (store_plan self.old) → IsOkUnless result GetError.Memory }
        ensures sound { ¬ IsFusedToFail (store_plan self.old) → store_faults self.new ≡ store_faults self.old }
        ensures numbered { IsOneFusedCallMore (store_plan self.old) (store_plan self.new) }
    {
        self.gets = self.gets.saturating_add(1);
        if self.plan.next() {
            return Err(self.plan.fault().into());
        }
        match latest(&self.first, &self.calls, name) {
            Some(bytes) => {
                *into = Vec::from_slice(self.alloc, bytes)?;
                Ok(true)
            }
            None => {
                into.clear();
                Ok(false)
            }
        }
    }

    fn put(&mut self, name: &str, bytes: &[u8]) -> Result<(), PutError>
        ensures ok { OnOk result (Puts name.now bytes.now (store_files self.old) (store_files self.new)) }
        ensures failed { IsErrOf result PutError.Failed → Removes name.now (store_files self.old) (store_files self.new) }
        ensures memory { IsErrOf result PutError.Memory → SameFiles (store_files self.old) (store_files self.new)
            × SameImages (store_images self.old) (store_images self.new) }
        ensures reads { SameBut name.now (store_files self.old) (store_files self.new) }
        ensures images { Follows (SameBut name.now) (store_images self.old) (store_images self.new) }
        ensures spoils { (result ≢ Err PutError.Memory) → MaySpoil name.now (store_images self.old) (store_images self.new) }
        ensures time { Elapses (store_moment self.old) (store_moment self.new) (store_images_since self.old) (store_images_since self.new) (store_images self.new) }
        ensures counted { store_gets self.new ≡ store_gets self.old }
        ensures cause { HasCauseOf PutError.Failed (store_faults self.old) (store_faults self.new) result }
        ensures to_fail { IsFusedToFail (store_plan self.old) → IsErr result }
        ensures not_to_fail { ¬ IsFusedToFail (store_plan self.old) → IsOkUnless result PutError.Memory }
        ensures sound { ¬ IsFusedToFail (store_plan self.old) → store_faults self.new ≡ store_faults self.old }
        ensures numbered { IsOneFusedCallMore (store_plan self.old) (store_plan self.new) }
    {
        if self.plan.next() {
            self.write(name, None)?;
            return Err(self.plan.fault().into());
        }
        let bytes = Vec::from_slice(self.alloc, bytes)?;
        self.write(name, Some(bytes))?;
        Ok(())
    }

    fn remove(&mut self, name: &str) -> Result<(), PutError>
        ensures ok { OnOk result (Removes name.now (store_files self.old) (store_files self.new)) }
        ensures failed { IsErrOf result PutError.Failed → Removes name.now (store_files self.old) (store_files self.new) }
        ensures memory { IsErrOf result PutError.Memory → SameFiles (store_files self.old) (store_files self.new)
            × SameImages (store_images self.old) (store_images self.new) }
        ensures reads { SameBut name.now (store_files self.old) (store_files self.new) }
        ensures images { Follows (SameBut name.now) (store_images self.old) (store_images self.new) }
        ensures spoils { (result ≢ Err PutError.Memory) → MaySpoil name.now (store_images self.old) (store_images self.new) }
        ensures time { Elapses (store_moment self.old) (store_moment self.new) (store_images_since self.old) (store_images_since self.new) (store_images self.new) }
        ensures counted { store_gets self.new ≡ store_gets self.old }
        ensures cause { HasCauseOf PutError.Failed (store_faults self.old) (store_faults self.new) result }
        ensures to_fail { IsFusedToFail (store_plan self.old) → IsErr result }
        ensures not_to_fail { ¬ IsFusedToFail (store_plan self.old) → IsOkUnless result PutError.Memory }
        ensures sound { ¬ IsFusedToFail (store_plan self.old) → store_faults self.new ≡ store_faults self.old }
        ensures numbered { IsOneFusedCallMore (store_plan self.old) (store_plan self.new) }
    {
        let is_to_fail = self.plan.next();
        self.write(name, None)?;
        if is_to_fail {
            return Err(self.plan.fault().into());
        }
        Ok(())
    }

    fn sync(&mut self) -> Result<(), PutError>
        ensures ok { OnOk result (IsSettled (Some (store_files self.new)) (store_images self.new)) }
        ensures unchanged { OnErr result (SameImages (store_images self.old) (store_images self.new)) }
        ensures reads { SameFiles (store_files self.old) (store_files self.new) }
        ensures images { NoMore (store_images self.old) (store_images self.new) }
        ensures time { Elapses (store_moment self.old) (store_moment self.new) (store_images_since self.old) (store_images_since self.new) (store_images self.new) }
        ensures counted { store_gets self.new ≡ store_gets self.old }
        ensures cause { HasCauseOf PutError.Failed (store_faults self.old) (store_faults self.new) result }
        ensures to_fail { IsFusedToFail (store_plan self.old) → IsErr result }
        ensures not_to_fail { ¬ IsFusedToFail (store_plan self.old) → IsOkUnless result PutError.Memory }
        ensures sound { ¬ IsFusedToFail (store_plan self.old) → store_faults self.new ≡ store_faults self.old }
        ensures numbered { IsOneFusedCallMore (store_plan self.old) (store_plan self.new) }
    {
        if self.plan.next() {
            return Err(self.plan.fault().into());
        }
        self.settle()?;
        Ok(())
    }
}
