//! Spill files in a folder of the machine.

use crate::folder::enter;
use ept_base::{Failed, PutError, Room, SpillFile};
use ept_real::{RealRoom, RealSpill};
use std::fs;
use std::process::Abort;
use std::rt::Files;
use std::test::Fail;

// The length that a file reports for a buffer of four bytes, and the buffer.
fn loaded<R: Files>(file: &mut RealSpill<'_, R>) -> (Result<usize, Failed>, [u8; 4]) {
    let mut into = [9; 4];
    (file.load(&mut into), into)
}

// A file holds what was kept last.
fn expect_kept<R: Files>(
    rt: &impl Abort,
    file: &mut RealSpill<'_, R>,
    bytes: &[u8],
    front: [u8; 4],
) {
    assert!(rt; file.keep(bytes) == Ok(()));
    assert!(rt; loaded(file) == (Ok(bytes.len()), front));
}

#[test]
fn spill_files_hold_what_was_kept_last(rt: HostRuntime) -> Result<(), Fail> {
    enter(&rt, "room")?;
    fs::create_dir_all(&rt, "spill")?;
    fs::write(&rt, "spill/7.bin", "left by a program that was stopped")?;
    let mut room = RealRoom::new(rt.alloc(), &rt, "spill");
    let mut one = room.make(1)?;
    let mut seven = room.make(7)?;
    assert!(rt; !fs::exists(&rt, "spill")?);
    assert!(rt; loaded(&mut seven) == (Ok(0), [9; 4]));
    expect_kept(&rt, &mut one, b"first", *b"firs");
    expect_kept(&rt, &mut seven, b"abc", [b'a', b'b', b'c', 9]);
    expect_kept(&rt, &mut one, b"", [9; 4]);
    assert!(rt; fs::exists(&rt, "spill/7.bin")?);
    room.retire(seven);
    assert!(rt; !fs::exists(&rt, "spill/7.bin")?);
    room.retire(one);
    assert!(rt; !fs::exists(&rt, "spill")?);
    assert!(rt; (room.faults(), room.keeps()) == (0, 3));
    Ok(())
}

// Files in the room's folder, and whether they have the name of a spill file.
static LEFT: [(&str, bool); 6] = [
    ("spill/7.bin", true),
    ("spill/4294967295.bin", true),
    ("spill/.bin", false),
    ("spill/-7.bin", false),
    ("spill/7.bin.las", false),
    ("spill/flight.las", false),
];

#[test]
fn a_room_removes_spill_files_alone(rt: HostRuntime) -> Result<(), Fail> {
    enter(&rt, "others")?;
    fs::create_dir(&rt, "spill")?;
    for (path, _) in LEFT {
        fs::write(&rt, path, "left by somebody")?;
    }
    let mut room = RealRoom::new(rt.alloc(), &rt, "spill");
    let file = room.make(1)?;
    for (path, is_spill) in LEFT {
        assert!(rt; fs::exists(&rt, path)? != is_spill);
    }
    room.retire(file);
    assert!(rt; fs::exists(&rt, "spill/flight.las")?);
    Ok(())
}

#[test]
fn a_spill_file_that_fails_is_a_fault(rt: HostRuntime) -> Result<(), Fail> {
    enter(&rt, "no_room")?;
    fs::write(&rt, "file", "not a folder")?;
    let mut room = RealRoom::new(rt.alloc(), &rt, "file/spill");
    let mut sound = room.make(1)?;
    let mut failing = room.make(2)?;
    assert!(rt; failing.keep(b"abc") == Err(PutError::Failed));
    assert!(rt; loaded(&mut failing) == (Err(Failed), [9; 4]));
    assert!(rt; loaded(&mut sound) == (Ok(0), [9; 4]));
    room.retire(sound);
    assert!(rt; room.faults() == 0);
    room.retire(failing);
    assert!(rt; (room.faults(), room.keeps()) == (1, 1));
    Ok(())
}

#[test]
fn a_room_without_a_path_makes_no_file(rt: HostRuntime) -> Result<(), Fail> {
    enter(&rt, "no_path")?;
    fs::write(&rt, "kept", "by another")?;
    let mut room = RealRoom::new(rt.alloc(), &rt, "");
    assert!(rt; room.make(1).err() == Some(PutError::Failed));
    assert!(rt; fs::exists(&rt, "kept")?);
    assert!(rt; (room.faults(), room.keeps()) == (1, 0));
    Ok(())
}
