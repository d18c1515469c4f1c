//! What the lines of a group have made: the files on the shelf, the stores, the calls that fail, and what the last
//! run left.

use crate::devices::{RowRoom, RowShelf};
use crate::words::Miss;
use ept_base::{Gate, OpenGate};
use ept_command::Failure;
use ept_mem::{MemRoom, MemShelf, MemSink, MemStore};
use ept_run::{carry_out, run};
use std::alloc::{AllocError, Global};
use std::mem;
use std::sync::Wait;
use std::thread::Threads;

/// Which call of each device fails in a run, if any, and what else is odd about the devices.
#[derive(Clone, Copy)]
pub(crate) struct Faults {
    pub(crate) open: Option<u64>,
    pub(crate) read: Option<u64>,
    pub(crate) make: Option<u64>,
    pub(crate) spill: Option<u64>,
    pub(crate) write: Option<u64>,
    /// Spill files return no byte.
    pub(crate) forgets: bool,
    /// The sink takes this number of bytes at a time.
    pub(crate) most: usize,
}

impl Faults {
    /// Nothing fails, and the sink takes four bytes at a time.
    pub(crate) const NONE: Faults = Faults {
        open: None,
        read: None,
        make: None,
        spill: None,
        write: None,
        forgets: false,
        most: 4,
    };
}

/// How a run ended.
#[derive(Drop)]
pub(crate) struct Left {
    pub(crate) words: Vec<String>,
    pub(crate) status: u8,
    pub(crate) failure: Option<Failure>,
    pub(crate) written: Vec<u8>,
    /// How often the spill files were asked to keep something.
    pub(crate) keeps: u64,
}

/// What the lines of a group have made.
#[derive(Drop)]
pub(crate) struct Bench {
    pub(crate) alloc: Global,
    pub(crate) files: Vec<(String, Vec<u8>)>,
    /// What a new store has besides the file `other`.
    pub(crate) base: Vec<(String, Vec<u8>)>,
    pub(crate) store: MemStore,
    pub(crate) kept: MemStore,
    pub(crate) before: MemStore,
    pub(crate) names: Vec<String>,
    pub(crate) faults: Faults,
    pub(crate) left: Left,
}

impl Bench {
    /// A bench without a file, and with stores that have none.
    pub(crate) fn new(alloc: Global) -> Bench {
        Bench {
            alloc,
            files: Vec::new(alloc),
            base: Vec::new(alloc),
            store: empty_store(alloc),
            kept: empty_store(alloc),
            before: empty_store(alloc),
            names: Vec::new(alloc),
            faults: Faults::NONE,
            left: Left {
                words: Vec::new(alloc),
                status: 0,
                failure: None,
                written: Vec::new(alloc),
                keeps: 0,
            },
        }
    }

    /// A new store, whose call of this number fails.
    pub(crate) fn new_store(&self, failing: Option<u64>) -> Result<MemStore, AllocError> {
        store_with(self.alloc, &self.base, failing)
    }

    /// Puts another store in the place of the present one, and returns that.
    pub(crate) fn replace_store(&mut self, store: MemStore) -> MemStore {
        mem::replace(&mut self.store, store)
    }

    /// Carries out the words, which are separated by `|`, over the devices.
    pub(crate) fn carry_out<R: Threads + Wait + Sync>(
        &mut self,
        rt: &R,
        words: &str,
    ) -> Result<(), Miss> {
        self.left.words = words_of(self.alloc, words)?;
        let mut devices = devices_of(self.alloc, &self.files, self.faults)?;
        let ended = carry_out(
            rt,
            self.alloc,
            &self.left.words,
            &mut devices.shelf,
            &mut self.store,
            &mut devices.room,
            &mut devices.out,
            &OpenGate,
        );
        self.left.status = ended.status;
        self.left.failure = ended.failure;
        self.note(&devices)
    }

    /// Runs the words, which are separated by `|`, over the devices and through this gate.
    pub(crate) fn run<R: Threads + Wait + Sync, G: Gate + Sync>(
        &mut self,
        rt: &R,
        words: &str,
        gate: &G,
    ) -> Result<(), Miss> {
        self.left.words = words_of(self.alloc, words)?;
        self.left.failure = None;
        let mut devices = devices_of(self.alloc, &self.files, self.faults)?;
        self.left.status = run(
            rt,
            self.alloc,
            &self.left.words,
            &mut devices.shelf,
            &mut self.store,
            &mut devices.room,
            &mut devices.out,
            gate,
        );
        self.note(&devices)
    }

    // Notes what a run wrote, and how often its spill files kept something.
    fn note(&mut self, devices: &Devices) -> Result<(), Miss> {
        self.left.keeps = devices.room.keeps();
        self.left.written.clear();
        self.left.written.extend_from_slice(devices.out.bytes())?;
        Ok(())
    }
}

// A store with these files and one more, `other`, which no build touches.
fn store_with(
    alloc: Global,
    base: &[(String, Vec<u8>)],
    failing: Option<u64>,
) -> Result<MemStore, AllocError> {
    let mut files = Vec::new(alloc);
    files.push(file(alloc, "other", b"kept")?)?;
    for (name, bytes) in base {
        files.push(file(alloc, name.as_str(), bytes)?)?;
    }
    Ok(MemStore::new(alloc, files, calls(alloc, failing)?))
}

fn empty_store(alloc: Global) -> MemStore {
    MemStore::new(alloc, Vec::new(alloc), Vec::new(alloc))
}

// The devices of one run except the store.
#[derive(Drop)]
struct Devices {
    shelf: RowShelf,
    room: RowRoom,
    out: MemSink,
}

fn devices_of(
    alloc: Global,
    files: &[(String, Vec<u8>)],
    faults: Faults,
) -> Result<Devices, AllocError> {
    let shelf = shelf_of(alloc, files, faults)?;
    let room = room_of(alloc, faults)?;
    let out = MemSink::new(alloc, faults.most.max(1), calls(alloc, faults.write)?);
    Ok(Devices { shelf, room, out })
}

/// A shelf of these files, on which these calls fail.
pub(crate) fn shelf_of(
    alloc: Global,
    files: &[(String, Vec<u8>)],
    faults: Faults,
) -> Result<RowShelf, AllocError> {
    let mut copies = Vec::new(alloc);
    let mut changes = false;
    for (name, bytes) in files {
        changes = changes || name.as_str().ends_with(".later");
        copies.push(file(alloc, name.as_str(), bytes)?)?;
    }
    let opens = calls(alloc, faults.open)?;
    let reads = calls(alloc, faults.read)?;
    Ok(RowShelf::new(alloc, MemShelf::new(alloc, copies, opens, reads), changes))
}

fn room_of(alloc: Global, faults: Faults) -> Result<RowRoom, AllocError> {
    let makes = calls(alloc, faults.make)?;
    let spills = calls(alloc, faults.spill)?;
    Ok(RowRoom::new(MemRoom::new(alloc, makes, spills), faults.forgets))
}

// The words of a text, which are separated by `|`. An empty text has none.
fn words_of(alloc: Global, text: &str) -> Result<Vec<String>, AllocError> {
    let mut words = Vec::new(alloc);
    if !text.is_empty() {
        for word in text.split('|') {
            words.push(String::from_str(alloc, word)?)?;
        }
    }
    Ok(words)
}

/// A file of this name.
pub(crate) fn file(
    alloc: Global,
    name: &str,
    bytes: &[u8],
) -> Result<(String, Vec<u8>), AllocError> {
    Ok((
        String::from_str(alloc, name)?,
        Vec::from_slice(alloc, bytes)?,
    ))
}

// The calls that fail: the call of this number, if any.
fn calls(alloc: Global, call: Option<u64>) -> Result<Vec<u64>, AllocError> {
    let mut numbers = Vec::new(alloc);
    if let Some(number) = call {
        numbers.push(number)?;
    }
    Ok(numbers)
}
