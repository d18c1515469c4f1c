ghost use Rattle.std.specs.Prelude.{◌≡◌, OnErr};
ghost use Rattle.std.specs.Io.{ReadsAtMost};

use ept_base::{Failed, Source};
use std::alloc::Global;
use std::fs;
use std::io::{self, BufRead, BufReader, Read};
use std::rt::Files;

/// How many bytes a source reads at a time.
const BLOCK: usize = 1 << 16;

/// Where a source is. Its file is open only while it is being read.
#[derive(Drop)]
enum Place<F: Read + Drop> {
    /// Before the first byte.
    Start,
    /// In the file.
    Within(BufReader<F>),
    /// After the last byte.
    End,
}

/// A file of the machine, which is read from its start in blocks of 64 KiB.
///
/// It is open only from the first read to the end of the file or to a rewind. A source at its start has no open file,
/// so there may be any number of these at once. After a rewind the file is opened again. A file that can't be opened or
/// read is a fault, and so is running out of memory for a block.
#[derive(Drop)]
pub struct RealSource<'a, R: Files> {
    files: &'a R,
    alloc: Global,
    pub(crate) path: String,
    place: Place<R::File>,
    pub(crate) faults: u64,
    pub(crate) given: u64,
}

/// Opens a file to read it from its start.
fn open_reader<R: Files>(files: &R, alloc: Global, path: &str) -> io::Result<BufReader<R::File>> {
    BufReader::with_capacity(alloc, BLOCK, fs::open(files, path)?)
}

impl<'a, R: Files> RealSource<'a, R> {
    ghost use Rattle.std.specs.Prelude.{string_bytes};
    ghost use Rattle.ept_real.specs.Counts.{source_faults, source_given};
    ghost use Rattle.ept_real.specs.Paths.{source_path};

    /// The file of this path, at its start, without a fault and unread.
    pub(crate) fn new(alloc: Global, files: &'a R, path: String) -> Self
        ensures fresh { source_faults result ≡ 0 }
        ensures unread { source_given result ≡ 0 }
        ensures of_path { source_path result ≡ string_bytes path }
    {
        RealSource {
            files,
            alloc,
            path,
            place: Place::Start,
            faults: 0,
            given: 0,
        }
    }

    /// How many calls have failed.
    pub fn faults(&self) -> u64
        ensures { result ≡ source_faults self.now }
    {
        self.faults
    }

    /// How many bytes were given.
    pub fn given(&self) -> u64
        ensures { result ≡ source_given self.now }
    {
        self.given
    }

    /// Opens the file, if the source is at its start.
    fn open(&mut self) -> io::Result<()>
        ensures faults { source_faults self.new ≡ source_faults self.old }
        ensures given { source_given self.new ≡ source_given self.old }
    {
        if matches!(&self.place, Place::Start) {
            let reader = open_reader(self.files, self.alloc, self.path.as_str())?;
            self.place = Place::Within(reader);
        }
        Ok(())
    }

    /// Reads the next bytes into the start of `into`, and closes the file if there are no more.
    fn read_next(&mut self, into: &mut [u8]) -> io::Result<usize>
        ensures bound { ReadsAtMost result into.new }
        ensures unchanged { OnErr result (into.new ≡ into.old) }
        ensures faults { source_faults self.new ≡ source_faults self.old }
        ensures given { source_given self.new ≡ source_given self.old }
    {
        self.open()?;
        let Place::Within(reader) = &mut self.place else {
            return Ok(0);
        };
        let held = reader.fill_buf()?;
        let is_at_end = held.is_empty();
        let count = held.len().min(into.len());
        into[..count].copy_from_slice(&held[..count]);
        reader.consume(count);
        if is_at_end {
            self.place = Place::End;
        }
        Ok(count)
    }
}

impl<'a, R: Files> Source for RealSource<'a, R> {
    ghost use Rattle.std.specs.Prelude.{None};
    ghost use Rattle.ept_real.specs.Counts.{source_faults, source_given};

    ghost whole = { λ _. None };

    ghost left = { λ _. None };

    ghost faults = { λ source. source_faults source };

    ghost given = { λ source. source_given source };

    fn read(&mut self, into: &mut [u8]) -> Result<usize, Failed> {
        match self.read_next(into) {
            Ok(count) => {
                self.given = self.given.saturating_add(count as u64);
                Ok(count)
            }
            Err(_) => {
                self.faults = self.faults.saturating_add(1);
                Err(Failed)
            }
        }
    }

    fn rewind(&mut self) -> Result<(), Failed> {
        self.place = Place::Start;
        Ok(())
    }
}
