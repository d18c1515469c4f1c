//! Sources, shelves, sinks, spill files and links in memory.

use ept_base::{
    Failed, GetError, Link, PutError, Room, Shelf, Sink, Source, SpillFile, read_full, write_full,
};
use ept_mem::{MemLink, MemRoom, MemShelf, MemSink, MemSource, MemSpill};
use std::alloc::{AllocError, Global};
use std::test::Fail;

/// Files in order, each with its name.
pub(crate) type Files = Vec<(String, Vec<u8>)>;

/// Files of these names.
pub(crate) fn named(alloc: Global, files: &[(&str, &[u8])]) -> Result<Files, AllocError> {
    let mut all = Vec::new(alloc);
    for (name, bytes) in files {
        all.push(owned(alloc, name, bytes)?)?;
    }
    Ok(all)
}

fn owned(alloc: Global, name: &str, bytes: &[u8]) -> Result<(String, Vec<u8>), AllocError> {
    let name = String::from_str(alloc, name)?;
    Ok((name, Vec::from_slice(alloc, bytes)?))
}

#[test]
fn a_source_gives_its_bytes_but_at_the_calls_that_fail(rt: HostRuntime) -> Result<(), Fail> {
    let alloc = rt.alloc();
    let bytes = Vec::from_slice(alloc, &[1, 2, 3, 4, 5])?;
    let mut source = MemSource::new(bytes, vec![in alloc; 1, 4]?);
    let mut into = [9; 3];
    assert!(rt; source.read(&mut into) == Ok(3));
    assert!(rt; into == [1, 2, 3]);
    assert!(rt; source.read(&mut into) == Err(Failed));
    assert!(rt; into == [1, 2, 3]);
    assert!(rt; source.read(&mut into) == Ok(2));
    assert!(rt; into == [4, 5, 3]);
    assert!(rt; source.read(&mut into) == Ok(0));
    assert!(rt; source.rewind() == Err(Failed));
    assert!(rt; source.read(&mut into) == Ok(0));
    assert!(rt; source.rewind() == Ok(()));
    assert!(rt; source.read(&mut into[..1]) == Ok(1));
    assert!(rt; into == [1, 5, 3]);
    Ok(())
}

#[test]
fn a_buffer_is_filled_to_its_end_or_to_that_of_the_source(rt: HostRuntime) -> Result<(), Fail> {
    let alloc = rt.alloc();
    let bytes = Vec::from_slice(alloc, &[1, 2, 3, 4, 5])?;
    let mut source = MemSource::new(bytes, Vec::new(alloc));
    for (length, count) in [(0, 0), (3, 3), (5, 5), (8, 5)] {
        let mut into = [0; 8];
        assert!(rt; read_full(&mut source, &mut into[..length]) == Ok(count));
        assert!(rt; into[..count] == [1, 2, 3, 4, 5][..count]);
        assert!(rt; source.rewind() == Ok(()));
    }
    Ok(())
}

// A shelf of three files, whose third call is to fail, and of each of its sources the second.
fn shelf_of_three(alloc: Global) -> Result<MemShelf, AllocError> {
    let files = named(alloc, &[("a", b"one"), ("b", b"two"), ("a", b"three")])?;
    Ok(MemShelf::new(alloc, files, vec![in alloc; 2]?, vec![in alloc; 1]?))
}

#[test]
fn a_shelf_opens_its_paths(rt: HostRuntime) -> Result<(), Fail> {
    let mut shelf = shelf_of_three(rt.alloc())?;
    let mut source = shelf.open("a")?;
    let mut into = [0; 8];
    assert!(rt; source.read(&mut into) == Ok(3));
    assert!(rt; into == *b"one\0\0\0\0\0");
    shelf.retire(source);
    assert!(rt; matches!(shelf.open("c"), Err(GetError::Failed)));
    assert!(rt; matches!(shelf.open("a"), Err(GetError::Failed)));
    let source = shelf.open("b")?;
    shelf.retire(source);
    Ok(())
}

#[test]
fn the_second_call_of_an_opened_source_fails(rt: HostRuntime) -> Result<(), Fail> {
    let mut shelf = shelf_of_three(rt.alloc())?;
    let mut source = shelf.open("b")?;
    let mut into = [0; 8];
    assert!(rt; read_full(&mut source, &mut into) == Err(Failed));
    assert!(rt; into == *b"two\0\0\0\0\0");
    shelf.retire(source);
    Ok(())
}

#[test]
fn a_shelf_tells_which_paths_it_was_asked_for(rt: HostRuntime) -> Result<(), Fail> {
    let alloc = rt.alloc();
    let mut shelf = MemShelf::new(
        alloc,
        named(alloc, &[("a", b"one")])?,
        vec![in alloc; 1]?,
        Vec::new(alloc),
    );
    for path in ["b", "a", "a"] {
        if let Ok(source) = shelf.open(path) {
            shelf.retire(source);
        }
    }
    let mut wanted = ["b", "a", "a"].iter();
    for path in shelf.asked() {
        assert!(rt; wanted.next().is_some_and(|want| path.as_str() == *want));
    }
    assert!(rt; wanted.next().is_none());
    Ok(())
}

#[test]
fn a_sink_gathers_what_it_takes(rt: HostRuntime) -> Result<(), Fail> {
    let alloc = rt.alloc();
    let mut sink = MemSink::new(alloc, 4, vec![in alloc; 1, 5]?);
    assert!(rt; sink.write(b"abcdef") == Ok(4));
    assert!(rt; sink.write(b"efgh") == Err(Failed));
    assert!(rt; sink.bytes() == b"abcd".as_slice());
    assert!(rt; write_full(&mut sink, b"0123456789") == Ok(()));
    assert!(rt; sink.bytes() == b"abcd0123456789".as_slice());
    assert!(rt; write_full(&mut sink, b"x") == Err(Failed));
    assert!(rt; sink.write(b"") == Ok(0));
    Ok(())
}

#[test]
fn a_spill_file_keeps_one_list_of_bytes(rt: HostRuntime) -> Result<(), Fail> {
    let alloc = rt.alloc();
    let mut room = MemRoom::new(alloc, vec![in alloc; 1]?, vec![in alloc; 2, 4]?);
    let mut file = room.make(7)?;
    assert!(rt; matches!(room.make(8), Err(PutError::Failed)));
    let mut into = [9; 4];
    assert!(rt; file.keep(b"abcdef") == Ok(()));
    assert!(rt; file.load(&mut into) == Ok(6));
    assert!(rt; into == *b"abcd");
    assert!(rt; file.load(&mut into) == Err(Failed));
    assert!(rt; file.keep(b"xy") == Ok(()));
    assert!(rt; file.keep(b"z") == Err(PutError::Failed));
    assert!(rt; file.load(&mut into) == Ok(0));
    assert!(rt; into == *b"abcd");
    room.retire(file);
    assert!(rt; MemSpill::new(alloc, Vec::new(alloc)).load(&mut into) == Ok(0));
    Ok(())
}

// The bytes `abcdefg` in pieces, of which one is empty.
fn pieces(alloc: Global) -> Result<Vec<Vec<u8>>, AllocError> {
    let mut pieces = Vec::new(alloc);
    for piece in ["abcde", "", "fg"] {
        pieces.push(Vec::from_slice(alloc, piece.as_bytes())?)?;
    }
    Ok(pieces)
}

#[test]
fn a_link_gives_its_pieces_and_gathers_what_is_written(rt: HostRuntime) -> Result<(), Fail> {
    let alloc = rt.alloc();
    let mut link = MemLink::new(alloc, pieces(alloc)?, vec![in alloc; 1, 4]?);
    let mut into = [0; 3];
    assert!(rt; link.read(&mut into) == Ok(3));
    assert!(rt; link.read(&mut into) == Err(Failed));
    assert!(rt; into == *b"abc");
    assert!(rt; link.write(b"xy") == Ok(2));
    assert!(rt; link.read(&mut into) == Ok(2));
    assert!(rt; into == *b"dec");
    assert!(rt; link.write(b"z") == Err(Failed));
    assert!(rt; link.read(&mut into) == Ok(2));
    assert!(rt; into == *b"fgc");
    assert!(rt; link.read(&mut into) == Ok(0));
    assert!(rt; link.write(b"") == Ok(0));
    assert!(rt; link.written() == b"xy".as_slice());
    Ok(())
}
