//! Stores that only read, over folders of the machine.

use crate::folder::{enter, pattern};
use ept_base::{GetError, PutError, Store};
use ept_real::{ReadStore, RealFiles};
use std::fs;
use std::os::unix::fs::symlink;
use std::test::Fail;

// A name, and what a get of it is to return: the bytes of the file, nothing if it is missing, or a fault.
type Read = (&'static str, Result<Option<&'static [u8]>, GetError>);

static READS: [Read; 10] = [
    ("one", Ok(Some(b"one"))),
    ("empty", Ok(Some(b""))),
    ("folder/two", Ok(Some(b"two"))),
    ("none", Ok(None)),
    ("folder/none", Ok(None)),
    ("folder", Ok(None)),
    ("device", Ok(None)),
    ("dangling", Ok(None)),
    ("link", Ok(Some(b"outside"))),
    ("one/below", Err(GetError::Failed)),
];

fn make_folder(rt: &HostRuntime) -> Result<(), Fail> {
    fs::create_dir_all(rt, "out/folder")?;
    fs::write(rt, "out/one", "one")?;
    fs::write(rt, "out/empty", "")?;
    fs::write(rt, "out/folder/two", "two")?;
    fs::write(rt, "outside", "outside")?;
    symlink(rt, "../outside", "out/link")?;
    symlink(rt, "../no", "out/dangling")?;
    // Reading it would not end.
    symlink(rt, "/dev/zero", "out/device")?;
    Ok(())
}

#[test]
fn a_store_that_reads_gives_regular_files(rt: HostRuntime) -> Result<(), Fail> {
    enter(&rt, "reads")?;
    make_folder(&rt)?;
    let mut store = ReadStore::new(rt.alloc(), RealFiles::new(&rt), "out");
    for (name, want) in READS {
        let mut into = Vec::from_slice(rt.alloc(), b"before")?;
        let found = store.get(name, &mut into);
        let bytes = want.map_or(b"before".as_slice(), |file| file.unwrap_or(b""));
        assert!(rt; found == want.map(|file| file.is_some()));
        assert!(rt; into.as_slice() == bytes);
    }
    assert!(rt; (store.faults(), store.gets()) == (1, 10));
    Ok(())
}

#[test]
fn a_store_that_reads_refuses_to_write(rt: HostRuntime) -> Result<(), Fail> {
    enter(&rt, "read_only")?;
    fs::write(&rt, "one", "one")?;
    let mut store = ReadStore::new(rt.alloc(), RealFiles::new(&rt), "");
    let mut into = Vec::new(rt.alloc());
    assert!(rt; store.put("one", b"two") == Err(PutError::Failed));
    assert!(rt; store.remove("one") == Err(PutError::Failed));
    assert!(rt; store.sync() == Ok(()));
    assert!(rt; store.get("one", &mut into) == Ok(true));
    assert!(rt; into.as_slice() == b"one".as_slice());
    assert!(rt; (store.faults(), store.gets()) == (2, 1));
    Ok(())
}

// A large one, and one whose length the system reports wrongly: as 0.
#[test]
fn a_store_that_reads_gives_all_bytes(rt: HostRuntime) -> Result<(), Fail> {
    enter(&rt, "read_all")?;
    let large = pattern(rt.alloc(), 3_400_000)?;
    fs::write(&rt, "large", &large)?;
    symlink(&rt, "/proc/self/comm", "of_no_length")?;
    let mut store = ReadStore::new(rt.alloc(), RealFiles::new(&rt), "");
    let mut into = Vec::new(rt.alloc());
    assert!(rt; store.get("large", &mut into) == Ok(true));
    assert!(rt; into == large);
    assert!(rt; store.get("of_no_length", &mut into) == Ok(true));
    assert!(rt; into.ends_with(b"\n"));
    Ok(())
}
