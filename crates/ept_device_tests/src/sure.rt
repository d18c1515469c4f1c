//! Devices that never fail: calls that are generic over the traits have no fault over them.

ghost use Rattle.std.specs.Prelude.{◌≢◌, Err};

use crate::memory::named;
use ept_base::{GetError, PutError, Room, Shelf, Source, SpillFile, Store, put_kept, read_full};
use ept_mem_infallible::{SureRoom, SureShelf, SureSource, SureStore};
use std::test::Fail;

fn opened(shelf: &mut SureShelf, path: &str) -> Result<SureSource, GetError>
    ensures sure { result ≢ Err GetError.Failed }
{
    shelf.open(path)
}

fn kept(store: &mut SureStore, name: &str, bytes: &[u8]) -> Result<(), PutError>
    ensures sure { result ≢ Err PutError.Failed }
{
    put_kept(store, name, bytes)
}

// The start of a path, read twice.
fn front<H: Shelf>(shelf: &mut H, path: &str, into: &mut [u8]) -> Result<usize, GetError>
where
    H::Source: Send,
{
    let mut source = shelf.open(path)?;
    let first = read_full(&mut source, into);
    let again = source.rewind();
    let second = read_full(&mut source, into);
    shelf.retire(source);
    first?;
    again?;
    Ok(second?)
}

#[test]
fn a_shelf_opens_each_path(rt: HostRuntime) -> Result<(), Fail> {
    let alloc = rt.alloc();
    let files = named(alloc, &[("a", b"one"), ("b", b"two"), ("a", b"three")])?;
    let mut shelf = SureShelf::new(alloc, files);
    for (path, bytes) in [("a", "one"), ("b", "two"), ("c", ""), ("", "")] {
        let mut into = [0; 8];
        let count = front(&mut shelf, path, &mut into)?;
        assert!(rt; into.get(..count) == Some(bytes.as_bytes()));
        let source = opened(&mut shelf, path)?;
        shelf.retire(source);
    }
    Ok(())
}

// What a new file of the room holds, once this was kept in it after something else.
fn held<R: Room>(room: &mut R, bytes: &[u8], into: &mut [u8]) -> Result<usize, PutError>
where
    R::File: Send,
{
    let mut file = room.make(3)?;
    let first = file.keep(b"before");
    let second = file.keep(bytes);
    let loaded = file.load(into);
    room.retire(file);
    first?;
    second?;
    Ok(loaded?)
}

#[test]
fn a_file_holds_what_was_kept_last(rt: HostRuntime) {
    let mut room = SureRoom::new(rt.alloc());
    for (bytes, front) in [("", "...."), ("xy", "xy.."), ("abcdef", "abcd")] {
        let mut into = *b"....";
        assert!(rt; held(&mut room, bytes.as_bytes(), &mut into) == Ok(bytes.len()));
        assert!(rt; into.as_slice() == front.as_bytes());
    }
}

#[test]
fn a_store_reads_as_it_was_written(rt: HostRuntime) -> Result<(), Fail> {
    let alloc = rt.alloc();
    let mut into = Vec::from_slice(alloc, b"before")?;
    let mut store = SureStore::new(alloc);
    assert!(rt; store.get("a", &mut into) == Ok(false));
    assert!(rt; into.is_empty());
    assert!(rt; kept(&mut store, "a", b"one") == Ok(()));
    assert!(rt; store.put("b", b"two") == Ok(()));
    assert!(rt; store.put("a", b"three") == Ok(()));
    assert!(rt; store.remove("b") == Ok(()));
    assert!(rt; store.sync() == Ok(()));
    assert!(rt; store.get("a", &mut into) == Ok(true));
    assert!(rt; into.as_slice() == b"three".as_slice());
    assert!(rt; store.file("a") == Some(b"three".as_slice()));
    assert!(rt; store.file("b").is_none());
    Ok(())
}
