ghost use Rattle.std.specs.Prelude.{◌≡◌, ◌≤◌};
ghost use Rattle.ept_base.specs.Causes.{Rose};

use crate::source::RealSource;
use ept_base::{GetError, Shelf};
use std::alloc::Global;
use std::fs::{self, OpenFile};
use std::io::{self, ErrorKind};
use std::rt::Files;

/// The machine's files, by their paths.
#[derive(Drop)]
pub struct RealShelf<'a, R: Files> {
    files: &'a R,
    alloc: Global,
    faults: u64,
    given: u64,
    refused: Option<String>,
}

impl<'a, R: Files> RealShelf<'a, R> {
    ghost use Rattle.std.specs.Prelude.{None, Some, option_map, string_bytes};
    ghost use Rattle.ept_real.specs.Counts.{shelf_faults, shelf_given};
    ghost use Rattle.ept_real.specs.Paths.{shelf_refused, first_of};

    /// A shelf of the files of this machine, without a fault, and with no byte given.
    pub fn new(alloc: Global, files: &'a R) -> Self
        ensures sound { shelf_faults result ≡ 0 }
        ensures unread { shelf_given result ≡ 0 }
        ensures none_refused { shelf_refused result ≡ None }
    {
        RealShelf {
            files,
            alloc,
            faults: 0,
            given: 0,
            refused: None,
        }
    }

    /// The path of the first file that could not be opened, or whose source had failed when it was taken
    /// back.
    pub fn refused(&self) -> Option<&str>
        ensures path { option_map (λ path. path.now) result ≡ shelf_refused self.now }
    {
        match &self.refused {
            Some(path) => Some(path.as_str()),
            None => None,
        }
    }

    /// How many paths could not be opened, and how many sources had failed when they were taken back.
    pub fn faults(&self) -> u64
        ensures { result ≡ shelf_faults self.now }
    {
        self.faults
    }

    /// How many bytes the sources that were taken back have given.
    pub fn given(&self) -> u64
        ensures { result ≡ shelf_given self.now }
    {
        self.given
    }

    /// Counts a fault of the file of this path.
    fn fault(&mut self, path: String)
        ensures rose { Rose (shelf_faults self.old) (shelf_faults self.new) }
        ensures later { shelf_faults self.old ≤ shelf_faults self.new }
        ensures given { shelf_given self.new ≡ shelf_given self.old }
        ensures named { shelf_refused self.new ≡ first_of (shelf_refused self.old) (string_bytes path) }
    {
        self.faults = self.faults.saturating_add(1);
        if self.refused.is_none() {
            self.refused = Some(path);
        }
    }
}

/// Opens and closes a path, which is refused if it is missing or is the path of a folder.
fn try_open(files: &impl Files, path: &str) -> io::Result<()> {
    let file = fs::open(files, path)?;
    if file.metadata()?.is_dir() {
        return Err(io::Error::from(ErrorKind::IsADirectory));
    }
    Ok(())
}

impl<'a, R: Files> Shelf for RealShelf<'a, R> {
    type Source = RealSource<'a, R>;

    ghost use Rattle.std.specs.Prelude.{◌≢◌, None, IfOk, IsOk, IsErrOf};
    ghost use Rattle.ept_base.specs.Causes.{HasCauseOf};
    ghost use Rattle.ept_base.specs.Devices.{Opens, Asks, counts_on};
    ghost use Rattle.ept_real.specs.Counts.{shelf_faults, shelf_given, source_faults, source_given};
    ghost use Rattle.ept_real.specs.Paths.{shelf_refused, source_path, first_of};

    ghost files = { λ _. None };

    ghost faults = { λ shelf. shelf_faults shelf };

    ghost given = { λ shelf. shelf_given shelf };

    ghost asked = { λ _. None };

    fn open(&mut self, path: &str) -> Result<RealSource<'a, R>, GetError>
        ensures opened { IfOk result (λ source. Opens None path.now None None) }
        ensures fresh { IfOk result (λ source. source_faults source ≡ 0) }
        ensures unread { IfOk result (λ source. source_given source ≡ 0) }
        ensures given { shelf_given self.new ≡ shelf_given self.old }
        ensures asked { Asks None None path.now result }
        ensures cause { HasCauseOf GetError.Failed (shelf_faults self.old) (shelf_faults self.new) result }
        ensures of_path { IfOk result (λ source. source_path source ≡ path.now) }
        ensures named { IsErrOf result GetError.Failed → shelf_refused self.new ≡ first_of (shelf_refused self.old) path.now }
        ensures not_named { IsOk result → shelf_refused self.new ≡ shelf_refused self.old }
    {
        let path = String::from_str(self.alloc, path)?;
        match try_open(self.files, path.as_str()) {
            Ok(()) => Ok(RealSource::new(self.alloc, self.files, path)),
            Err(_) => {
                self.fault(path);
                Err(GetError::Failed)
            }
        }
    }

    fn retire(&mut self, source: RealSource<'a, R>)
        ensures later { shelf_faults self.old ≤ shelf_faults self.new }
        ensures failed { source_faults source.entry ≢ 0 → Rose (shelf_faults self.old) (shelf_faults self.new) }
        ensures sound { source_faults source.entry ≡ 0 → shelf_faults self.new ≡ shelf_faults self.old }
        ensures given { shelf_given self.new ≡ counts_on (shelf_given self.old) (source_given source.entry) }
        ensures named { source_faults source.entry ≢ 0 → shelf_refused self.new ≡ first_of (shelf_refused self.old) (source_path source.entry) }
        ensures not_named { source_faults source.entry ≡ 0 → shelf_refused self.new ≡ shelf_refused self.old }
    {
        self.given = self.given.saturating_add(source.given);
        if source.faults > 0 {
            self.fault(source.path);
        }
    }
}
