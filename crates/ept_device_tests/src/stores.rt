//! Stores in folders of the machine, and what a sync flushes.

use crate::disk::{Disk, Seen};
use crate::folder::enter;
use ept_base::{GetError, PutError, Store};
use ept_real::RealStore;
use std::alloc::AllocError;
use std::fs::{self, DirBuilder};
use std::os::unix::fs::DirBuilderExt;
use std::process::Abort;
use std::rt::Files;
use std::test::Fail;

// A call of a store, and what is to come of it.
#[derive(Clone, Copy)]
enum Step {
    // The file of this name gets these bytes.
    Put(&'static str, &'static [u8]),
    // The file of this name has these bytes, or is missing.
    Get(&'static str, Option<&'static [u8]>),
    // The file of this name is removed, or is missing.
    Remove(&'static str),
    // The name can be neither put, got nor removed.
    Fail(&'static str),
    // All is flushed; of a disk that records it, these files and folders.
    Sync(&'static str),
    // Nothing can be flushed.
    FailSync,
    // The numbers of faults and of gets that there were.
    Count(u64, u64),
}

// Makes the calls. What is flushed is what the disk has recorded.
fn take<R: Files>(
    rt: &impl Abort,
    seen: &Seen,
    store: &mut RealStore<'_, R>,
    into: &mut Vec<u8>,
    steps: &[Step],
) {
    for step in steps {
        take_one(rt, seen, store, into, step);
    }
}

fn take_one<R: Files>(
    rt: &impl Abort,
    seen: &Seen,
    store: &mut RealStore<'_, R>,
    into: &mut Vec<u8>,
    step: &Step,
) {
    match step {
        Step::Put(name, bytes) => assert!(rt; store.put(name, bytes) == Ok(())),
        Step::Get(name, want) => {
            assert!(rt; store.get(name, into) == Ok(want.is_some()));
            assert!(rt; into.as_slice() == want.unwrap_or(b""));
        }
        Step::Remove(name) => assert!(rt; store.remove(name) == Ok(())),
        Step::Fail(name) => expect_failures(rt, store, name, into),
        Step::Sync(want) => {
            assert!(rt; store.sync() == Ok(()));
            assert!(rt; seen.was_flushed(want));
        }
        Step::FailSync => assert!(rt; store.sync() == Err(PutError::Failed)),
        Step::Count(faults, gets) => {
            assert!(rt; (store.faults(), store.gets()) == (*faults, *gets));
        }
    }
}

// Each call with this name fails; the buffer, with what was got last, is as it was.
fn expect_failures<R: Files>(
    rt: &impl Abort,
    store: &mut RealStore<'_, R>,
    name: &str,
    into: &mut Vec<u8>,
) {
    assert!(rt; store.put(name, b"x") == Err(PutError::Failed));
    assert!(rt; store.get(name, into) == Err(GetError::Failed));
    assert!(rt; into.as_slice() == b"one".as_slice());
    assert!(rt; store.remove(name) == Err(PutError::Failed));
}

// Makes the calls of a store in this folder of the machine itself, which records no flush.
fn take_here(
    rt: &impl Abort,
    machine: &HostRuntime,
    folder: &str,
    steps: &[Step],
) -> Result<(), AllocError> {
    let alloc = machine.alloc();
    let mut into = Vec::from_slice(alloc, b"before")?;
    let seen = Seen::new(alloc)?;
    let mut store = RealStore::new(alloc, machine, folder);
    take(rt, &seen, &mut store, &mut into, steps);
    Ok(())
}

// Makes the calls of a store in this folder of a disk that records its flushes. The flush of this number fails, if it is
// not 0. Then it compares what was flushed since the last sync.
fn take_on_disk(
    rt: &impl Abort,
    machine: &HostRuntime,
    to_fault: u32,
    folder: &str,
    steps: &[Step],
    want: &str,
) -> Result<(), AllocError> {
    let alloc = machine.alloc();
    let mut into = Vec::from_slice(alloc, b"before")?;
    let seen = Seen::new(alloc)?;
    seen.to_fault.set(to_fault);
    let disk = Disk::new(machine, &seen)?;
    let mut store = RealStore::new(alloc, &disk, folder);
    take(rt, &seen, &mut store, &mut into, steps);
    assert!(rt; seen.was_flushed(want));
    Ok(())
}

static KEPT: [Step; 14] = [
    Step::Get("deep/down/file", None),
    Step::Remove("deep/down/file"),
    Step::Sync(""),
    Step::Put("deep/down/file", b"the first"),
    Step::Put("file", b"other"),
    Step::Put("gone", b""),
    Step::Remove("gone"),
    Step::Put("deep/down/file", b"one"),
    Step::Sync(""),
    Step::Sync(""),
    Step::Get("deep/down/file", Some(b"one")),
    Step::Count(0, 2),
    Step::Get("file", Some(b"other")),
    Step::Get("gone", None),
];

#[test]
fn a_store_keeps_its_files(rt: HostRuntime) -> Result<(), Fail> {
    enter(&rt, "store")?;
    take_here(&rt, &rt, "new/out", &KEPT)?;
    let other = fs::read(&rt, "new/out/file")?;
    assert!(rt; other.as_slice() == b"other".as_slice());
    Ok(())
}

static REFUSED: [Step; 12] = [
    Step::Put("file", b"one"),
    Step::Put("folder/file", b"two"),
    Step::Get("file", Some(b"one")),
    Step::Fail("file/below"),
    Step::Fail("file/far/below"),
    Step::Fail("folder"),
    Step::Count(9, 4),
    Step::Sync(""),
    Step::Remove("file"),
    Step::Remove("file"),
    Step::Get("file", None),
    Step::Sync(""),
];

#[test]
fn a_store_refuses_names_that_can_not_be(rt: HostRuntime) -> Result<(), Fail> {
    enter(&rt, "names")?;
    take_here(&rt, &rt, "out", &REFUSED)?;
    Ok(())
}

// A store's folder, a name that is put, and what is flushed.
static WAYS: [(&str, &str, &str); 4] = [
    ("out", "file", "out/file\n.\nout/\n"),
    ("", "a/file", "./a/file\n.\n./\n./a\n"),
    (
        "there/out",
        "a/b/file",
        "there/out/a/b/file\n.\nthere\nthere/out/\nthere/out/a\nthere/out/a/b\n",
    ),
    (
        "there/new/far/",
        "file",
        "there/new/far//file\n.\nthere\nthere/new\nthere/new/far//\n",
    ),
];

#[test]
fn a_sync_flushes_the_way_to_a_file(rt: HostRuntime) -> Result<(), Fail> {
    enter(&rt, "way")?;
    fs::create_dir(&rt, "there")?;
    for (folder, name, want) in WAYS {
        let steps = [Step::Put(name, b"one"), Step::Sync(want)];
        take_on_disk(&rt, &rt, 0, folder, &steps, "")?;
    }
    Ok(())
}

static FAR: [Step; 2] = [
    Step::Put("file", b"x"),
    Step::Sync("shut/in/out/file\n.\nshut/in\nshut/in/out/\n"),
];

static NEAR: [Step; 2] = [Step::Put("file", b"x"), Step::FailSync];

// A folder that must not be read is passed over, unless the store's folder is directly in it.
#[test]
fn a_folder_far_above_may_be_shut(rt: HostRuntime) -> Result<(), Fail> {
    enter(&rt, "shut")?;
    DirBuilder::new().mode(0o311).create(&rt, "shut")?;
    fs::create_dir(&rt, "shut/in")?;
    take_on_disk(&rt, &rt, 0, "shut/in/out", &FAR, "")?;
    take_on_disk(&rt, &rt, 0, "shut/out", &NEAR, "shut/out/file\n.\n")?;
    Ok(())
}

// A folder has no bytes, though it can be opened.
#[test]
fn a_folder_can_not_be_got(rt: HostRuntime) -> Result<(), Fail> {
    enter(&rt, "got")?;
    fs::create_dir_all(&rt, "out/file")?;
    let mut into = Vec::new(rt.alloc());
    let mut store = RealStore::new(rt.alloc(), &rt, "out");
    assert!(rt; store.get("file", &mut into) == Err(GetError::Failed));
    Ok(())
}

static ONCE: [Step; 9] = [
    Step::Put("a/one", b"x"),
    Step::Put("two", b"x"),
    Step::Put("a/one", b"x"),
    Step::Put("gone", b"x"),
    Step::Remove("gone"),
    Step::Sync("out/a/one\nout/two\n.\nout/\nout/a\n"),
    Step::Sync(""),
    Step::Remove("a/one"),
    Step::Sync(".\nout/\nout/a\n"),
];

#[test]
fn each_file_is_flushed_once(rt: HostRuntime) -> Result<(), Fail> {
    enter(&rt, "once")?;
    take_on_disk(&rt, &rt, 0, "out", &ONCE, "")?;
    Ok(())
}

// What another wrote, what this store has flushed, and what it has put since.
static READ: [Step; 13] = [
    Step::Get("a/one", Some(b"by another")),
    Step::Get("a/none", None),
    Step::Sync("out/a/one\n.\nout/\nout/a\n"),
    Step::Get("a/one", Some(b"by another")),
    Step::Get("a/none", None),
    Step::Sync(""),
    Step::Put("a/one", b"anew"),
    Step::Get("a/one", Some(b"anew")),
    Step::Get("a/none", None),
    Step::Sync("out/a/one\n.\nout/\nout/a\n"),
    Step::Get("a/one", Some(b"anew")),
    Step::Get("a/none", None),
    Step::Sync(""),
];

#[test]
fn what_was_read_is_flushed(rt: HostRuntime) -> Result<(), Fail> {
    enter(&rt, "read")?;
    fs::create_dir_all(&rt, "out/a")?;
    fs::write(&rt, "out/a/one", "by another")?;
    take_on_disk(&rt, &rt, 0, "out", &READ, "")?;
    Ok(())
}

static FOR_GOOD: [Step; 11] = [
    Step::Put("a/one", b"x"),
    Step::Put("two", b"x"),
    Step::FailSync,
    Step::Count(1, 0),
    Step::Put("three", b"x"),
    Step::FailSync,
    Step::Count(2, 0),
    Step::Put("three", b"x"),
    Step::FailSync,
    Step::Count(3, 0),
    Step::Put("three", b"x"),
];

// The flush of a file fails, and that of a folder; nothing is flushed from then on.
#[test]
fn a_sync_is_refused_for_good(rt: HostRuntime) -> Result<(), Fail> {
    enter(&rt, "refused")?;
    take_on_disk(&rt, &rt, 2, "out", &FOR_GOOD, "out/a/one\n")?;
    take_on_disk(&rt, &rt, 4, "out", &FOR_GOOD, "out/a/one\nout/two\n.\n")?;
    Ok(())
}

static WENT: [Step; 4] = [
    Step::FailSync,
    Step::Put("a/one", b"x"),
    Step::FailSync,
    Step::Count(2, 0),
];

#[test]
fn a_file_that_went_can_not_be_flushed(rt: HostRuntime) -> Result<(), Fail> {
    enter(&rt, "went")?;
    let mut into = Vec::new(rt.alloc());
    let seen = Seen::new(rt.alloc())?;
    let mut store = RealStore::new(rt.alloc(), &rt, "out");
    take_one(&rt, &seen, &mut store, &mut into, &Step::Put("a/one", b"x"));
    fs::remove_dir_all(&rt, "out/a")?;
    take(&rt, &seen, &mut store, &mut into, &WENT);
    Ok(())
}
