//! Sources in the machine's files.

use crate::folder::{enter, gives, pattern};
use ept_base::{Failed, GetError, Shelf, Source, read_full};
use ept_real::{RealShelf, RealSource};
use std::alloc::{AllocError, Global};
use std::fs;
use std::process::Abort;
use std::rt::Files;
use std::test::Fail;

// A source at its start gives these bytes by reads into this buffer. It is at its end then, and is rewound. It also fills
// the buffer `front`.
fn expect_all<R: Files>(
    rt: &impl Abort,
    source: &mut RealSource<'_, R>,
    bytes: &[u8],
    into: &mut [u8],
    front: &mut [u8],
) {
    assert!(rt; gives(source, bytes, into));
    assert!(rt; source.read(&mut [0; 5]) == Ok(0));
    assert!(rt; source.rewind() == Ok(()));
    assert!(rt; read_full(source, front) == Ok(70_001));
    assert!(rt; bytes.starts_with(front));
    assert!(rt; source.rewind() == Ok(()));
}

// As `expect_all`, by reads of `size` bytes.
fn expect_by<R: Files>(
    rt: &impl Abort,
    alloc: Global,
    source: &mut RealSource<'_, R>,
    bytes: &[u8],
    front: &mut [u8],
    size: usize,
) -> Result<(), AllocError> {
    let mut into = vec![in alloc; 0u8; size]?;
    expect_all(rt, source, bytes, &mut into, front);
    Ok(())
}

#[test]
fn a_source_gives_its_file(rt: HostRuntime) -> Result<(), Fail> {
    enter(&rt, "source")?;
    let long = pattern(rt.alloc(), 200_003)?;
    fs::write(&rt, "long", long.as_slice())?;
    let mut front = vec![in rt.alloc(); 0u8; 70_001]?;
    let mut shelf = RealShelf::new(rt.alloc(), &rt);
    let mut source = shelf.open("long")?;
    for size in [333, 65_535, 65_536, 150_001] {
        expect_by(&rt, rt.alloc(), &mut source, &long, &mut front, size)?;
    }
    assert!(rt; (source.faults(), source.given()) == (0, 1_080_016));
    shelf.retire(source);
    assert!(rt; (shelf.faults(), shelf.given()) == (0, 1_080_016));
    Ok(())
}

#[test]
fn what_can_not_be_opened_is_a_fault(rt: HostRuntime) -> Result<(), Fail> {
    enter(&rt, "closed")?;
    fs::write(&rt, "file", "one")?;
    fs::create_dir(&rt, "folder")?;
    let mut shelf = RealShelf::new(rt.alloc(), &rt);
    for (path, faults) in [("none", 1), ("folder", 2), ("file/below", 3), ("", 4)] {
        assert!(rt; shelf.open(path).err() == Some(GetError::Failed));
        assert!(rt; shelf.faults() == faults);
    }
    Ok(())
}

// The buffer holds the three bytes of the file, and is left so by each read that fails.
fn expect_unread<S: Source>(rt: &impl Abort, source: &mut S, into: &mut [u8; 4]) {
    assert!(rt; source.read(into) == Err(Failed));
    assert!(rt; *into == *b"one\x09");
}

// A file that is opened, then missing, then a folder.
#[test]
fn what_can_not_be_read_is_a_fault(rt: HostRuntime) -> Result<(), Fail> {
    enter(&rt, "faults")?;
    fs::write(&rt, "file", "one")?;
    let mut shelf = RealShelf::new(rt.alloc(), &rt);
    let mut source = shelf.open("file")?;
    let mut into = [9; 4];
    assert!(rt; read_full(&mut source, &mut into) == Ok(3));
    assert!(rt; into == *b"one\x09");
    assert!(rt; source.rewind() == Ok(()));
    fs::remove_file(&rt, "file")?;
    expect_unread(&rt, &mut source, &mut into);
    expect_unread(&rt, &mut source, &mut into);
    fs::create_dir(&rt, "file")?;
    expect_unread(&rt, &mut source, &mut into);
    assert!(rt; (source.faults(), source.given()) == (3, 3));
    shelf.retire(source);
    assert!(rt; (shelf.faults(), shelf.given()) == (1, 3));
    Ok(())
}

#[test]
fn many_sources_may_be_open(rt: HostRuntime) -> Result<(), Fail> {
    enter(&rt, "many")?;
    fs::write(&rt, "file", "points")?;
    let mut shelf = RealShelf::new(rt.alloc(), &rt);
    let mut sources = Vec::new(rt.alloc());
    for _ in 0..2_000 {
        sources.push(shelf.open("file")?)?;
    }
    for source in &mut sources {
        let mut into = [0; 7];
        assert!(rt; read_full(source, &mut into) == Ok(6));
        assert!(rt; into == *b"points\0");
    }
    for source in sources {
        shelf.retire(source);
    }
    assert!(rt; (shelf.faults(), shelf.given()) == (0, 12_000));
    Ok(())
}
