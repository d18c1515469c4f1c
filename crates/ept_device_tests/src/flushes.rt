//! Stores of the machine whose files are flushed by threads.

use crate::folder::enter;
use ept_base::{PutError, Store};
use ept_real::{RealStore, Run, SeenFiles, Telling};
use std::alloc::{AllocError, Global};
use std::fs;
use std::process::Abort;
use std::test::Fail;
use std::thread::Threads;

// The machine's files, whose progress is reported nowhere.
fn seen_files(machine: &HostRuntime) -> Result<SeenFiles<HostRuntime>, AllocError> {
    let (alloc, runtime) = (machine.alloc(), machine.clone()?);
    SeenFiles::new(alloc, runtime, "test", "out", Run::Build, Telling::Silent)
}

// Puts this number of files.
fn put_files<S: Store>(
    rt: &impl Abort,
    alloc: Global,
    store: &mut S,
    count: u32,
) -> Result<(), AllocError> {
    for number in 0..count {
        let name = format!(in alloc; "a/{number}")?;
        assert!(rt; store.put(name.as_str(), b"x") == Ok(()));
    }
    Ok(())
}

#[test]
fn many_files_are_flushed_by_threads(rt: HostRuntime) -> Result<(), Fail> {
    enter(&rt, "threads")?;
    let files = seen_files(&rt)?;
    let mut store = RealStore::with_threads(rt.alloc(), &files, &rt, "out");
    put_files(&rt, rt.alloc(), &mut store, 300)?;
    assert!(rt; store.sync() == Ok(()));
    put_files(&rt, rt.alloc(), &mut store, 20)?;
    assert!(rt; store.sync() == Ok(()));
    assert!(rt; store.sync() == Ok(()));
    assert!(rt; store.faults() == 0);
    Ok(())
}

// Of 40 files that are put, the one of this number went before they are flushed.
fn expect_refusals<R: Threads + Abort + Sync>(
    rt: &R,
    machine: &HostRuntime,
    gone: u32,
) -> Result<(), Fail> {
    let files = seen_files(machine)?;
    let mut store = RealStore::with_threads(machine.alloc(), &files, rt, "out");
    put_files(rt, machine.alloc(), &mut store, 40)?;
    let path = format!(in machine.alloc(); "out/a/{gone}")?;
    fs::remove_file(machine, path.as_str())?;
    assert!(rt; store.sync() == Err(PutError::Failed));
    put_files(rt, machine.alloc(), &mut store, 40)?;
    assert!(rt; store.sync() == Err(PutError::Failed));
    assert!(rt; store.faults() == 2);
    Ok(())
}

// The first and the last file of each of two threads, in the order of the names.
static ENDS: [u32; 4] = [0, 26, 27, 9];

#[test]
fn each_file_is_flushed_by_some_thread(rt: HostRuntime) -> Result<(), Fail> {
    enter(&rt, "ends")?;
    for gone in ENDS {
        expect_refusals(&rt, &rt, gone)?;
    }
    Ok(())
}
