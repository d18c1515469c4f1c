//! The progress of a build, a part, a merge or a check, as reported on standard error.

ghost use Rattle.std.specs.Prelude.{◌≡◌, IfOk};

use std::alloc::{AllocError, Global};
use std::fmt;
use std::io::{self, Write};
use std::sync::Arc;
use std::sync::atomic::{AtomicBool, AtomicU64, Ordering};
use std::time::{Clock, Instant};

/// After how many milliseconds progress is first reported on a terminal, and how many pass between reports from then
/// on.
const FIRST: u64 = 2_000;

const NEXT: u64 = 250;

/// How many milliseconds pass before each line if standard error is not a terminal.
const APART: u64 = 10_000;

/// Blanks over a line of a terminal of 80 columns.
const BLANK: &str =
    "                                                                               ";

/// Where the progress of a run is reported.
#[derive(Clone, Copy, Debug, PartialEq, Eq)]
pub enum Telling {
    /// Nowhere.
    Silent,
    /// On a terminal: one line from two seconds on, which is written over.
    Terminal,
    /// Elsewhere: a line every ten seconds.
    Lines,
}

/// What a run does with its folder.
#[derive(Clone, Copy, Debug)]
pub enum Run {
    /// It builds it.
    Build,
    /// It makes a part of a build in it.
    Part,
    /// It merges the parts in it, and finishes the build.
    Merge,
    /// It reads all of it.
    Check,
}

/// The machine, and how far a run is: what was read of its files, put and flushed, as
/// [`SeenFiles`](crate::SeenFiles) sees it.
///
/// Progress is reported on standard error. If the clock can't be read nothing is reported, and a line that can't be
/// written changes nothing.
///
/// Bytes of a file outside the folder are bytes of the inputs. They belong to the first reading until the done gate is
/// asked for, and to the second from then on. A build closes that gate before it puts anything. A part asks for no done
/// gate, so its two readings count as one. A merge has one reading, and then asks for the done gate once the parts are
/// merged.
#[derive(Drop)]
pub(crate) struct Progress<R: Clock + Eprint + Drop> {
    machine: R,
    program: String,
    run: Run,
    telling: Telling,
    began: Option<Instant>,
    // When the next line is due, in milliseconds from the start; at the greatest number none is.
    due: AtomicU64,
    is_told: AtomicBool,
    is_past_gate: AtomicBool,
    scanned: AtomicU64,
    loaded: AtomicU64,
    inserted: AtomicU64,
    opened: AtomicU64,
    checkpoints: AtomicU64,
    put: AtomicU64,
    flushed: AtomicU64,
}

impl<R: Clock + Eprint + Drop> Progress<R> {
    ghost use Rattle.ept_real.specs.Machines.{machine_of};

    /// A run on this machine by the program of this name, which begins now.
    pub(crate) fn new(
        alloc: Global,
        machine: R,
        program: &str,
        run: Run,
        telling: Telling,
    ) -> Result<Self, AllocError>
        ensures { IfOk result (λ progress. machine_of progress ≡ machine) }
    {
        let program = String::from_str(alloc, program)?;
        Ok(Progress {
            began: Instant::now(&machine).ok(),
            machine,
            program,
            run,
            telling,
            due: AtomicU64::new(first_due(telling)),
            is_told: AtomicBool::new(false),
            is_past_gate: AtomicBool::new(false),
            scanned: AtomicU64::new(0),
            loaded: AtomicU64::new(0),
            inserted: AtomicU64::new(0),
            opened: AtomicU64::new(0),
            checkpoints: AtomicU64::new(0),
            put: AtomicU64::new(0),
            flushed: AtomicU64::new(0),
        })
    }

    /// The machine.
    pub(crate) fn machine(&self) -> &R
        ensures { result.now ≡ machine_of self.now }
    {
        &self.machine
    }

    /// A file was asked for.
    pub(crate) fn note_opened(&self, role: Role) {
        if role == Role::Done {
            self.is_past_gate.store(true, Ordering::SeqCst);
        }
        self.opened.fetch_add(1, Ordering::SeqCst);
    }

    /// This number of bytes of a file was read.
    pub(crate) fn count_read(&self, role: Role, bytes: u64) {
        let stage = stage_of_read(self.run, role, self.is_past_gate.load(Ordering::SeqCst));
        let total = match stage {
            Stage::Scanning => &self.scanned,
            Stage::Reading | Stage::Inserting => &self.inserted,
            _ => &self.loaded,
        };
        total.fetch_add(bytes, Ordering::SeqCst);
        self.tell(stage);
    }

    /// A file was put.
    pub(crate) fn count_put(&self, role: Role) {
        if role == Role::Body {
            self.checkpoints.fetch_add(1, Ordering::SeqCst);
        }
        self.put.fetch_add(1, Ordering::SeqCst);
        self.tell(self.stage_of_put(role));
    }

    /// A file was flushed.
    pub(crate) fn count_flushed(&self, role: Role) {
        self.flushed.fetch_add(1, Ordering::SeqCst);
        self.tell(self.stage_of_put(role));
    }

    /// The stage of the run as it puts or flushes a file of this role.
    fn stage_of_put(&self, role: Role) -> Stage {
        stage_of_put(self.run, role, self.is_past_gate.load(Ordering::SeqCst))
    }

    /// Reports nothing from now on, and clears the line on a terminal.
    pub(crate) fn end(&self) {
        self.due.store(u64::MAX, Ordering::SeqCst);
        if self.telling == Telling::Terminal && self.is_told.swap(false, Ordering::SeqCst) {
            let _ = eprint!(self.machine; "\r{BLANK}\r");
        }
    }

    /// Reports how far the run is, if a report is due.
    fn tell(&self, stage: Stage) {
        let due = self.due.load(Ordering::SeqCst);
        let Some(now) = self.milliseconds() else {
            return;
        };
        if now < due {
            return;
        }
        let next = now.saturating_add(next_due(self.telling));
        let is_mine = self
            .due
            .compare_exchange(due, next, Ordering::SeqCst, Ordering::SeqCst)
            .is_ok();
        if is_mine {
            self.is_told.store(true, Ordering::SeqCst);
            self.write_line(self.line(stage));
        }
    }

    /// How long the run has lasted.
    fn milliseconds(&self) -> Option<u64> {
        let elapsed = self.began?.elapsed(&self.machine).ok()?;
        u64::try_from(elapsed.as_millis()).ok()
    }

    /// What is to be reported at this stage.
    fn line(&self, stage: Stage) -> Line {
        let bytes = match stage {
            Stage::Scanning => &self.scanned,
            Stage::Loading | Stage::Merging | Stage::Checking => &self.loaded,
            _ => &self.inserted,
        };
        Line {
            run: self.run,
            stage,
            megabytes: bytes.load(Ordering::SeqCst) / 1_000_000,
            opened: self.opened.load(Ordering::SeqCst),
            checkpoints: self.checkpoints.load(Ordering::SeqCst),
            put: self.put.load(Ordering::SeqCst),
            flushed: self.flushed.load(Ordering::SeqCst),
        }
    }

    /// Writes the line; one that can't be written is left out.
    fn write_line(&self, line: Line) {
        let program = &self.program;
        let _ = if self.telling == Telling::Terminal {
            eprint!(self.machine; "\r{BLANK}\r{program}: {line}")
        } else {
            eprintln!(self.machine; "{program}: {line}")
        };
    }
}

/// After how many milliseconds the first line is due.
fn first_due(telling: Telling) -> u64 {
    match telling {
        Telling::Silent => u64::MAX,
        Telling::Terminal => FIRST,
        Telling::Lines => APART,
    }
}

/// After how many milliseconds the next line is due.
fn next_due(telling: Telling) -> u64 {
    match telling {
        Telling::Terminal => NEXT,
        _ => APART,
    }
}

/// What a file is to a build.
#[derive(Clone, Copy, PartialEq, Eq)]
pub(crate) enum Role {
    /// The configuration or an input: no file of the folder.
    Input,
    /// The body of a checkpoint.
    Body,
    /// The done gate.
    Done,
    /// Another work file.
    Work,
    /// A file of the output.
    Output,
}

/// What the file of this path is to a build into this folder. The names are those of the format of folders.
pub(crate) fn role_of(folder: &str, path: &str) -> Role {
    match name_in(folder, path) {
        None => Role::Input,
        Some("ept-work/done-2") => Role::Done,
        Some("ept-work/body-a" | "ept-work/body-b") => Role::Body,
        Some(name) if name.starts_with("ept-work/") => Role::Work,
        Some(_) => Role::Output,
    }
}

/// The name of a path in a folder, if it lies below it.
fn name_in<'p>(folder: &str, path: &'p str) -> Option<&'p str> {
    path.strip_prefix(folder)?.strip_prefix('/')
}

/// The stage of a run.
#[derive(Clone, Copy, Debug, PartialEq, Eq)]
enum Stage {
    Scanning,
    Reading,
    Merging,
    Loading,
    Inserting,
    Saving,
    Publishing,
    Checking,
}

/// The stage of a run as it reads a file, before or after it asked for the done gate. After that a build reads a tile
/// only to compare it, and a merge loads what it merged.
fn stage_of_read(run: Run, role: Role, is_past_gate: bool) -> Stage {
    match (run, role, is_past_gate) {
        (Run::Build, Role::Input, false) => Stage::Scanning,
        (Run::Build, Role::Input, true) => Stage::Inserting,
        (Run::Part, Role::Input, _) | (Run::Merge, Role::Input, _) => Stage::Reading,
        (Run::Build, _, false) | (Run::Merge, _, true) => Stage::Loading,
        (Run::Build, _, true) | (Run::Part, _, _) => Stage::Saving,
        (Run::Merge, _, false) => Stage::Merging,
        (Run::Check, _, _) => Stage::Checking,
    }
}

/// The stage of a run as it puts or flushes a file, before or after it asked for the done gate. A merge puts the files
/// for viewers after that, and the tiles of the parts before.
fn stage_of_put(run: Run, role: Role, is_past_gate: bool) -> Stage {
    match (run, role, is_past_gate) {
        (Run::Merge, _, false) => Stage::Merging,
        (Run::Merge, _, true) | (_, Role::Output, _) => Stage::Publishing,
        _ => Stage::Saving,
    }
}

impl fmt::Display for Stage {
    fn fmt<W: fmt::Write>(&self, f: &mut fmt::Formatter<W>) -> fmt::Result {
        f.write_str(match self {
            Stage::Scanning => "reading 1",
            Stage::Reading => "reading",
            Stage::Merging => "merging",
            Stage::Loading => "loading",
            Stage::Inserting => "reading 2",
            Stage::Saving => "saving",
            Stage::Publishing => "publishing",
            Stage::Checking => "checking",
        })
    }
}

/// What is reported: the stage, and how many megabytes were read. For a check it also has how many files were opened,
/// and for any other run how many were put and flushed. For a build it has how many checkpoints were made too.
#[derive(Drop)]
struct Line {
    run: Run,
    stage: Stage,
    megabytes: u64,
    opened: u64,
    checkpoints: u64,
    put: u64,
    flushed: u64,
}

impl fmt::Display for Line {
    fn fmt<W: fmt::Write>(&self, f: &mut fmt::Formatter<W>) -> fmt::Result {
        let (stage, megabytes, opened) = (self.stage, self.megabytes, self.opened);
        let (checkpoints, put, flushed) = (self.checkpoints, self.put, self.flushed);
        match self.run {
            Run::Build => write!(
                f,
                "{stage}, {megabytes} MB; checkpoints {checkpoints}; files put {put}, flushed {flushed}"
            ),
            Run::Part | Run::Merge => write!(
                f,
                "{stage}, {megabytes} MB; files put {put}, flushed {flushed}"
            ),
            Run::Check => write!(f, "{stage}, {megabytes} MB; files read {opened}"),
        }
    }
}

/// A writer that ends the progress of a run with its first write. So what is written does not follow the line of a
/// terminal.
#[derive(Drop)]
pub struct Ending<R: Clock + Eprint + Drop, W: Write + Drop> {
    pub(crate) progress: Arc<Progress<R>>,
    pub(crate) out: W,
}

impl<R: Clock + Eprint + Drop, W: Write + Drop> Write for Ending<R, W> {
    fn write(&mut self, buf: &[u8]) -> io::Result<usize> {
        self.progress.end();
        self.out.write(buf)
    }

    fn flush(&mut self) -> io::Result<()> {
        self.out.flush()
    }
}
