//! `ept_tool` builds an Entwine Point Tile folder from LAS files, makes a part of one, and merges such parts. It writes
//! the points of a folder that lie in a box, or those of them that a selection keeps. It checks whether a folder is the
//! sampling of its own points. It also reports what the header of a LAS file says, and what an octree of generated
//! scans comes to.
#![tactic(auto)]

mod failing;

use crate::failing::{folder_of, report};
use ept_base::{OpenGate, Room, Shelf, Sink, Store};
use ept_command::status::OK;
use ept_command::{Command, Ended, Refusal, command_of};
use ept_mem::{MemRoom, MemStore};
use ept_real::{
    HeldStreams, RealRoom, RealShelf, RealSink, RealStore, Run, SeenFiles, Telling, remove_spills,
};
use ept_run::{carry_out, refuse};
use std::alloc::{AllocError, Global};
use std::env;
use std::io::{ErrorKind, IsTerminal, writer};
use std::process::ExitCode;
use std::rt::Files;
use std::sync::Wait;
use std::thread::Threads;

fn main(rt: HostRuntime) -> ExitCode {
    // Until the end no file has the number of a standard stream that is closed.
    let _streams = HeldStreams::hold(&rt);
    match given_words(&rt) {
        Ok(words) => run_words(&rt, &rt, &words),
        Err(refusal) => refuse_words(&rt, &[], refusal),
    }
}

// The words after the program's name. Words that are not text are faulty ones.
fn given_words(rt: &HostRuntime) -> Result<Vec<String>, Refusal> {
    match env::args(rt) {
        Ok(args) => args
            .skip(1)
            .collect(rt.alloc())
            .map_err(|_| Refusal::Memory),
        Err(error) if error.kind() == ErrorKind::OutOfMemory => Err(Refusal::Memory),
        Err(_) => Err(Refusal::Usage),
    }
}

// Refuses the words before anything was begun. A query and a selection write no line if memory runs out.
fn refuse_words(disk: &HostRuntime, words: &[String], refusal: Refusal) -> ExitCode {
    let ended = match command_of(words) {
        Command::Query { .. } | Command::Select { .. } => Ended::refused(&refusal),
        _ => refuse(disk.alloc(), &mut RealSink::new(writer(disk)), refusal),
    };
    report(disk, words, &ended, None);
    ExitCode::from(ended.status)
}

// Runs the words over the machine.
fn run_words<R: Threads + Wait + Sync>(rt: &R, disk: &HostRuntime, words: &[String]) -> ExitCode {
    match files_for(disk, words) {
        Ok(files) => run_over(rt, disk, words, &files),
        Err(_) => refuse_words(disk, words, Refusal::Memory),
    }
}

// The machine's files, as the progress of these words sees them.
fn files_for(disk: &HostRuntime, words: &[String]) -> Result<SeenFiles<HostRuntime>, AllocError> {
    let (alloc, machine) = (disk.alloc(), disk.clone()?);
    let folder = folder_of(words);
    match run_of(words) {
        Some(run) => SeenFiles::new(alloc, machine, "ept_tool", folder, run, telling_of(disk)),
        None => SeenFiles::new(
            alloc,
            machine,
            "ept_tool",
            folder,
            Run::Build,
            Telling::Silent,
        ),
    }
}

// What these words do with their folder, if its progress is reported.
fn run_of(words: &[String]) -> Option<Run> {
    match command_of(words) {
        Command::Build { .. } => Some(Run::Build),
        Command::Part { .. } => Some(Run::Part),
        Command::Merge { .. } => Some(Run::Merge),
        Command::Check { .. } => Some(Run::Check),
        _ => None,
    }
}

// How progress is reported on standard error.
fn telling_of(disk: &HostRuntime) -> Telling {
    if disk.stderr().is_terminal() {
        Telling::Terminal
    } else {
        Telling::Lines
    }
}

// Runs the words over these files, and says on standard error why they failed, if they did.
fn run_over<'a, R: Threads + Wait + Sync>(
    rt: &R,
    disk: &'a HostRuntime,
    words: &'a [String],
    files: &'a SeenFiles<HostRuntime>,
) -> ExitCode {
    let Ok(ending) = files.ending(writer(disk)) else {
        return refuse_words(disk, words, Refusal::Memory);
    };
    let mut out = RealSink::new(ending);
    let mut shelf = RealShelf::new(disk.alloc(), files);
    let ended = start(rt, disk, words, files, &mut shelf, &mut out);
    files.end();
    report(disk, words, &ended, shelf.refused());
    ExitCode::from(ended.status)
}

// Runs the words over the folder that they name, whose files are flushed by threads. Words that name none have a store
// in memory.
fn start<'a, H: Shelf, O: Sink, R: Threads + Wait + Sync>(
    rt: &R,
    disk: &'a HostRuntime,
    words: &'a [String],
    files: &'a SeenFiles<HostRuntime>,
    shelf: &mut H,
    out: &mut O,
) -> Ended
where
    H::Source: Send,
{
    let alloc = disk.alloc();
    let folder = folder_of(words);
    if folder.is_empty() {
        let mut store = MemStore::new(alloc, Vec::new(alloc), Vec::new(alloc));
        return start_in(rt, disk, words, shelf, &mut store, out);
    }
    let mut store = RealStore::with_threads(alloc, files, rt, folder);
    start_in(rt, disk, words, shelf, &mut store, out)
}

// Runs the words over this store. A build, and the build after a merge, has its spill files in a folder of its folder.
// They count as no progress. Other words make no spill files.
fn start_in<H: Shelf, T: Store, O: Sink, R: Threads + Wait + Sync>(
    rt: &R,
    disk: &HostRuntime,
    words: &[String],
    shelf: &mut H,
    store: &mut T,
    out: &mut O,
) -> Ended
where
    H::Source: Send,
{
    let alloc = disk.alloc();
    let (Command::Build { out: folder, .. } | Command::Merge { out: folder, .. }) = command_of(
        words,
    ) else {
        let mut room = MemRoom::new(alloc, Vec::new(alloc), Vec::new(alloc));
        return run_with(rt, alloc, words, shelf, store, &mut room, out);
    };
    match format!(in alloc; "{folder}/ept-spill") {
        Ok(spill) => start_build(rt, disk, words, spill.as_str(), shelf, store, out),
        Err(_) => refuse(alloc, out, Refusal::Memory),
    }
}

// Runs the words of a build, or of a merge, over this store, with its spill files in this folder.
fn start_build<H: Shelf, T: Store, O: Sink, R: Threads + Wait + Sync>(
    rt: &R,
    disk: &HostRuntime,
    words: &[String],
    spill: &str,
    shelf: &mut H,
    store: &mut T,
    out: &mut O,
) -> Ended
where
    H::Source: Send,
{
    let alloc = disk.alloc();
    let mut room = RealRoom::new(alloc, disk, spill);
    let ended = run_with(rt, alloc, words, shelf, store, &mut room, out);
    if ended.status == OK {
        // Removes what is left of a build that was killed as it ended. If nothing is to be done, no room is asked for a
        // file.
        remove_spills(disk, spill);
    }
    ended
}

// Runs the words over these devices. Each command comes through this one call.
fn run_with<H: Shelf, T: Store, M: Room, O: Sink, R: Threads + Wait + Sync>(
    rt: &R,
    alloc: Global,
    words: &[String],
    shelf: &mut H,
    store: &mut T,
    room: &mut M,
    out: &mut O,
) -> Ended
where
    H::Source: Send,
    M::File: Send + Sync,
{
    carry_out(rt, alloc, words, shelf, store, room, out, &OpenGate)
}
