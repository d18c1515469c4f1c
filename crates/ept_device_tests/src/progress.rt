//! What is said of a build, of a part, of a merge and of a check, and when.

use crate::disk::{Disk, Seen};
use crate::folder::{enter, pattern};
use crate::streams::Pieces;
use ept_base::{Shelf, Sink, Source, Store};
use ept_real::{RealShelf, RealSink, RealStore, Run, SeenFiles, Telling};
use std::alloc::AllocError;
use std::fs;
use std::io::{self, ErrorKind, Read, Write};
use std::process::Abort;
use std::rt::Files;
use std::sync::Arc;
use std::test::Fail;

// The machine's files, as a run with this folder sees them.
fn files_of(
    machine: &HostRuntime,
    seen: &Arc<Seen>,
    folder: &str,
    run: Run,
    telling: Telling,
) -> Result<SeenFiles<Disk>, AllocError> {
    let disk = Disk::new(machine, seen)?;
    SeenFiles::new(machine.alloc(), disk, "test", folder, run, telling)
}

// What is said of a file of each role when it is read, and then when it is put. The reading of the done gate begins
// the second reading.
const INPUT: [&str; 2] = [
    "test: reading 1, 0 MB; checkpoints 0; files put 0, flushed 0\n",
    "test: saving, 0 MB; checkpoints 0; files put 1, flushed 0\n",
];

const BODY: [&str; 2] = [
    "test: loading, 0 MB; checkpoints 0; files put 0, flushed 0\n",
    "test: saving, 0 MB; checkpoints 1; files put 1, flushed 0\n",
];

const WORK: [&str; 2] = [
    "test: loading, 0 MB; checkpoints 0; files put 0, flushed 0\n",
    "test: saving, 0 MB; checkpoints 0; files put 1, flushed 0\n",
];

const DONE: [&str; 2] = [
    "test: saving, 0 MB; checkpoints 0; files put 0, flushed 0\n",
    "test: saving, 0 MB; checkpoints 0; files put 1, flushed 0\n",
];

const OUTPUT: [&str; 2] = [
    "test: loading, 0 MB; checkpoints 0; files put 0, flushed 0\n",
    "test: publishing, 0 MB; checkpoints 0; files put 1, flushed 0\n",
];

// The folder of a build, a path, and what is said of its file.
static ROLES: [(&str, &str, [&str; 2]); 13] = [
    ("out", "survey.json", INPUT),
    ("out", "output/ept.json", INPUT),
    ("out", "out", INPUT),
    ("out", "out/ept-work/body-a", BODY),
    ("out", "out/ept-work/body-b", BODY),
    ("out", "out/ept-work/body-c", WORK),
    ("out", "out/ept-work/done-2", DONE),
    ("out", "out/ept-work/gate-a", WORK),
    ("out", "out/ept-work/a/0-0-0-0.bin", WORK),
    ("out", "out/ept-data/0-0-0-0.bin", OUTPUT),
    ("out", "out/ept.json", OUTPUT),
    ("/a/out", "/a/out/ept.json", OUTPUT),
    ("/a/out", "out/ept.json", INPUT),
];

// Reads and puts the file of a path, and compares what is said of it.
fn expect_role(
    rt: &impl Abort,
    machine: &HostRuntime,
    folder: &str,
    path: &str,
    [of_read, of_put]: [&str; 2],
) -> Result<(), Fail> {
    let seen = Seen::new(machine.alloc())?;
    seen.step.set(10_000);
    seen.is_one.set(true);
    let files = files_of(machine, &seen, folder, Run::Build, Telling::Lines)?;
    assert!(rt; read_one(&files, path).is_ok());
    assert!(rt; seen.was_said(of_read));
    assert!(rt; put_one(&files, path).is_ok());
    assert!(rt; seen.was_said(of_put));
    Ok(())
}

fn read_one<R: Files>(files: &R, path: &str) -> io::Result<usize> {
    let mut file = fs::open(files, path)?;
    file.read(&mut [0; 1])
}

fn put_one<R: Files>(files: &R, path: &str) -> io::Result<usize> {
    let mut file = fs::create(files, path)?;
    file.write(b"x")
}

#[test]
fn each_file_has_its_role(rt: HostRuntime) -> Result<(), Fail> {
    enter(&rt, "roles")?;
    fs::write(&rt, "one", "")?;
    for (folder, path, told) in ROLES {
        expect_role(&rt, &rt, folder, path, told)?;
    }
    Ok(())
}

// The files that a check reads first, and what is said of each if a line is due at once.
static CHECKED: [(&str, &str); 3] = [
    (
        "out/ept-work/done-2",
        "test: checking, 0 MB; files read 1\n",
    ),
    ("out/ept-build.json", "test: checking, 0 MB; files read 2\n"),
    (
        "out/ept-data/0-0-0-0.bin",
        "test: checking, 0 MB; files read 3\n",
    ),
];

#[test]
fn a_check_tells_how_far_it_is(rt: HostRuntime) -> Result<(), Fail> {
    enter(&rt, "checked")?;
    fs::write(&rt, "one", "")?;
    let seen = Seen::new(rt.alloc())?;
    seen.step.set(10_000);
    seen.is_one.set(true);
    let files = files_of(&rt, &seen, "out", Run::Check, Telling::Lines)?;
    for (path, told) in CHECKED {
        assert!(rt; read_one(&files, path).is_ok());
        assert!(rt; seen.was_said_last(told));
    }
    Ok(())
}

// A call of the devices of a run.
#[derive(Clone, Copy)]
enum Call<'a> {
    Read(&'a str),
    Get(&'a str),
    Put(&'a str),
    Sync,
}

// The calls of a build that resumes from a checkpoint. With each of them comes the last line that it writes if a line is
// due at once.
static CALLS: [(Call<'static>, &str); 16] = [
    (
        Call::Read("survey.json"),
        "test: reading 1, 0 MB; checkpoints 0; files put 0, flushed 0\n",
    ),
    (Call::Get("ept-work/gate-b"), ""),
    (
        Call::Get("ept-work/body-a"),
        "test: loading, 0 MB; checkpoints 0; files put 0, flushed 0\n",
    ),
    (
        Call::Read("a.las"),
        "test: reading 1, 2 MB; checkpoints 0; files put 0, flushed 0\n",
    ),
    (
        Call::Get("ept-work/a/0-0-0-0.bin"),
        "test: loading, 1 MB; checkpoints 0; files put 0, flushed 0\n",
    ),
    (Call::Get("ept-work/done-2"), ""),
    (
        Call::Sync,
        "test: saving, 0 MB; checkpoints 0; files put 0, flushed 2\n",
    ),
    (
        Call::Read("a.las"),
        "test: reading 2, 2 MB; checkpoints 0; files put 0, flushed 2\n",
    ),
    (
        Call::Get("ept-work/a/0-0-0-0.bin"),
        "test: saving, 2 MB; checkpoints 0; files put 0, flushed 2\n",
    ),
    (
        Call::Put("ept-work/b/0-0-0-0.bin"),
        "test: saving, 2 MB; checkpoints 0; files put 1, flushed 2\n",
    ),
    (
        Call::Put("ept-work/body-b"),
        "test: saving, 2 MB; checkpoints 1; files put 2, flushed 2\n",
    ),
    (
        Call::Sync,
        "test: saving, 2 MB; checkpoints 1; files put 2, flushed 4\n",
    ),
    (
        Call::Read("a.las"),
        "test: reading 2, 5 MB; checkpoints 1; files put 2, flushed 4\n",
    ),
    (
        Call::Put("ept-data/0-0-0-0.bin"),
        "test: publishing, 5 MB; checkpoints 1; files put 3, flushed 4\n",
    ),
    (
        Call::Sync,
        "test: publishing, 5 MB; checkpoints 1; files put 3, flushed 5\n",
    ),
    (Call::Sync, ""),
];

// The calls of a part, which reads its input twice, and the last line that each of them writes.
static PART_CALLS: [(Call<'static>, &str); 9] = [
    (
        Call::Read("survey.json"),
        "test: reading, 0 MB; files put 0, flushed 0\n",
    ),
    (
        Call::Read("a.las"),
        "test: reading, 2 MB; files put 0, flushed 0\n",
    ),
    (
        Call::Read("a.las"),
        "test: reading, 5 MB; files put 0, flushed 0\n",
    ),
    (Call::Get("ept-work/part-07/gate"), ""),
    (
        Call::Put("ept-work/part-07/0-0-0-0.bin"),
        "test: saving, 5 MB; files put 1, flushed 0\n",
    ),
    (
        Call::Put("ept-work/part-07/body"),
        "test: saving, 5 MB; files put 2, flushed 0\n",
    ),
    (Call::Sync, "test: saving, 5 MB; files put 2, flushed 2\n"),
    (
        Call::Put("ept-work/part-07/gate"),
        "test: saving, 5 MB; files put 3, flushed 2\n",
    ),
    (Call::Sync, "test: saving, 5 MB; files put 3, flushed 3\n"),
];

// The calls of a merge, and of the build that follows it.
static MERGE_CALLS: [(Call<'static>, &str); 12] = [
    (Call::Get("ept-work/gate-b"), ""),
    (
        Call::Read("a.las"),
        "test: reading, 2 MB; files put 0, flushed 0\n",
    ),
    (
        Call::Get("ept-work/part-07/0-0-0-0.bin"),
        "test: merging, 1 MB; files put 0, flushed 0\n",
    ),
    (
        Call::Put("ept-work/b/0-0-0-0.bin"),
        "test: merging, 1 MB; files put 1, flushed 0\n",
    ),
    (
        Call::Put("ept-work/body-b"),
        "test: merging, 1 MB; files put 2, flushed 0\n",
    ),
    (Call::Sync, "test: merging, 1 MB; files put 2, flushed 3\n"),
    (Call::Get("ept-work/done-2"), ""),
    (
        Call::Get("ept-work/a/0-0-0-0.bin"),
        "test: loading, 2 MB; files put 2, flushed 3\n",
    ),
    (
        Call::Put("ept-data/0-0-0-0.bin"),
        "test: publishing, 2 MB; files put 3, flushed 3\n",
    ),
    (
        Call::Sync,
        "test: publishing, 2 MB; files put 3, flushed 5\n",
    ),
    (
        Call::Put("ept-work/done-2"),
        "test: publishing, 2 MB; files put 4, flushed 5\n",
    ),
    (
        Call::Sync,
        "test: publishing, 2 MB; files put 4, flushed 6\n",
    ),
];

// Makes a call; whether it succeeds.
fn is_made<H: Shelf, T: Store>(
    shelf: &mut H,
    store: &mut T,
    into: &mut Vec<u8>,
    call: &Call<'_>,
) -> bool {
    match call {
        Call::Read(path) => is_read(shelf, path),
        Call::Get(name) => store.get(name, into).is_ok(),
        Call::Put(name) => store.put(name, b"points").is_ok(),
        Call::Sync => store.sync().is_ok(),
    }
}

// Opens a path, and reads it to its end.
fn is_read<H: Shelf>(shelf: &mut H, path: &str) -> bool {
    match shelf.open(path) {
        Ok(mut source) => {
            let is_read = has_end(&mut source);
            shelf.retire(source);
            is_read
        }
        Err(_) => false,
    }
}

fn has_end<S: Source>(source: &mut S) -> bool {
    let mut into = [0; 8192];
    for _ in 0..u64::MAX {
        match source.read(&mut into) {
            Ok(0) => return true,
            Ok(_) => {}
            Err(_) => return false,
        }
    }
    false
}

// The files of these runs, in a folder of this name.
fn prepare(rt: &HostRuntime, name: &str) -> Result<(), Fail> {
    enter(rt, name)?;
    fs::create_dir_all(rt, "out/ept-work/a")?;
    fs::create_dir_all(rt, "out/ept-work/part-07")?;
    fs::write(rt, "survey.json", "{}")?;
    fs::write(rt, "a.las", pattern(rt.alloc(), 2_600_000)?)?;
    fs::write(rt, "out/ept-work/body-a", "EPTW")?;
    for tile in TILES {
        fs::write(rt, tile, pattern(rt.alloc(), 1_200_000)?)?;
    }
    Ok(())
}

const TILES: [&str; 2] = [
    "out/ept-work/a/0-0-0-0.bin",
    "out/ept-work/part-07/0-0-0-0.bin",
];

// Makes the calls of a run, and compares what each says last. Nothing is compared if nothing is said.
fn expect_calls<R: Files>(
    rt: &impl Abort,
    seen: &Seen,
    files: &R,
    into: &mut Vec<u8>,
    calls: &[(Call<'_>, &str)],
    is_told: bool,
) {
    let alloc = *into.allocator();
    let mut shelf = RealShelf::new(alloc, files);
    let mut store = RealStore::new(alloc, files, "out");
    for (call, want) in calls {
        assert!(rt; is_made(&mut shelf, &mut store, into, call));
        assert!(rt; seen.was_said_last(if is_told { want } else { "" }));
    }
}

// Makes them over a disk, and ends the run.
fn expect_run(
    rt: &impl Abort,
    machine: &HostRuntime,
    run: Run,
    calls: &[(Call<'_>, &str)],
    telling: Telling,
    is_mute: bool,
) -> Result<(), AllocError> {
    let seen = Seen::new(machine.alloc())?;
    seen.is_mute.set(is_mute);
    seen.step.set(10_000);
    let mut into = Vec::new(machine.alloc());
    let files = files_of(machine, &seen, "out", run, telling)?;
    let is_told = telling == Telling::Lines;
    expect_calls(rt, &seen, &files, &mut into, calls, is_told);
    files.end();
    assert!(rt; seen.was_said(""));
    Ok(())
}

// The calls succeed, and lines are written where they are due. Nothing is written if nothing can be said, or no line
// is due.
#[test]
fn a_build_tells_how_far_it_is(rt: HostRuntime) -> Result<(), Fail> {
    for (telling, is_mute) in [
        (Telling::Lines, false),
        (Telling::Terminal, true),
        (Telling::Silent, false),
    ] {
        prepare(&rt, "progress")?;
        expect_run(&rt, &rt, Run::Build, &CALLS, telling, is_mute)?;
        let put = fs::read(&rt, "out/ept-data/0-0-0-0.bin")?;
        assert!(rt; put.as_slice() == b"points".as_slice());
    }
    Ok(())
}

#[test]
fn a_part_tells_how_far_it_is(rt: HostRuntime) -> Result<(), Fail> {
    prepare(&rt, "part_progress")?;
    expect_run(&rt, &rt, Run::Part, &PART_CALLS, Telling::Lines, false)?;
    Ok(())
}

#[test]
fn a_merge_tells_how_far_it_is(rt: HostRuntime) -> Result<(), Fail> {
    prepare(&rt, "merge_progress")?;
    expect_run(&rt, &rt, Run::Merge, &MERGE_CALLS, Telling::Lines, false)?;
    Ok(())
}

// Compares what is said of a build. It reads a million bytes of an input at each of these milliseconds from its start,
// and then ends.
fn expect_told(
    rt: &impl Abort,
    machine: &HostRuntime,
    telling: Telling,
    want: &str,
) -> Result<(), Fail> {
    let mut into = vec![in machine.alloc(); 0u8; 1_000_000]?;
    let seen = Seen::new(machine.alloc())?;
    let files = files_of(machine, &seen, "out", Run::Build, telling)?;
    assert!(rt; read_in_time(&seen, &files, &mut into).is_ok());
    write_line(&files, Pieces::new(machine.alloc(), 9))?;
    seen.now.set(90_000);
    assert!(rt; put_one(&files, "out/ept.json").is_ok());
    assert!(rt; seen.was_said(want));
    Ok(())
}

static TIMES: [u64; 9] = [
    1_999, 2_000, 2_249, 2_250, 9_999, 10_000, 10_001, 19_999, 20_500,
];

fn read_in_time<R: Files>(seen: &Seen, files: &R, into: &mut [u8]) -> io::Result<()> {
    let mut input = fs::open(files, "a.las")?;
    for time in &TIMES {
        seen.now.set(*time);
        if input.read(into)? != into.len() {
            return Err(io::Error::from(ErrorKind::UnexpectedEof));
        }
    }
    Ok(())
}

// Writes the line that ends a build.
fn write_line(files: &SeenFiles<Disk>, out: Pieces) -> Result<(), Fail> {
    let mut sink = RealSink::new(files.ending(out)?);
    sink.write(b"points")?;
    sink.write(b"\n")?;
    Ok(())
}

// What a terminal shows, where each line is written over the one before.
const OVER: [&str; 6] = [
    "test: reading 1, 2 MB; checkpoints 0; files put 0, flushed 0",
    "test: reading 1, 4 MB; checkpoints 0; files put 0, flushed 0",
    "test: reading 1, 5 MB; checkpoints 0; files put 0, flushed 0",
    "test: reading 1, 8 MB; checkpoints 0; files put 0, flushed 0",
    "test: reading 1, 9 MB; checkpoints 0; files put 0, flushed 0",
    "",
];

const LINES: &str = "test: reading 1, 6 MB; checkpoints 0; files put 0, flushed 0\n\
    test: reading 1, 9 MB; checkpoints 0; files put 0, flushed 0\n";

#[test]
fn a_line_comes_now_and_then(rt: HostRuntime) -> Result<(), Fail> {
    enter(&rt, "lines")?;
    fs::create_dir(&rt, "out")?;
    fs::write(&rt, "a.las", vec![in rt.alloc(); 0u8; 9_000_000]?)?;
    let mut over = String::new(rt.alloc());
    for line in OVER {
        over.push('\r')?;
        for _ in 0..79 {
            over.push(' ')?;
        }
        over.push('\r')?;
        over.push_str(line)?;
    }
    expect_told(&rt, &rt, Telling::Terminal, &over)?;
    expect_told(&rt, &rt, Telling::Lines, LINES)
}
