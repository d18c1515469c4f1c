//! The numbers of the standard streams, which no other file may have.

use std::fs;
use std::rt::Files;

/// The three lowest file descriptors, as taken. No file that is opened while this value lives has one of them.
///
/// A program may be started with a standard stream closed, for example by `2>&-` in a shell. The next file that it
/// opens then has the number of that stream. What the program writes to the stream goes into that file, and damages it.
/// So a program holds its streams first, before it opens any other file.
///
/// What takes the number of a closed stream is `/dev/null`, opened for reading. So a write to a closed stream fails, as
/// it does without this. If no stream is closed, three other descriptors are taken.
#[derive(Drop)]
pub struct HeldStreams<R: Files> {
    _files: [Option<R::File>; 3],
}

impl<R: Files> HeldStreams<R> {
    /// Takes the descriptors. If a descriptor cannot be got it is left out: the program runs as it would without this.
    pub fn hold(machine: &R) -> Self {
        HeldStreams {
            _files: [opened(machine), opened(machine), opened(machine)],
        }
    }
}

/// A file that is open for reading alone, and is there on each machine.
fn opened<R: Files>(machine: &R) -> Option<R::File> {
    fs::open(machine, "/dev/null").ok()
}
