//! A standard error that the tests can read, with a clock that they set.

use std::alloc::Global;
use std::cell::{Cell, RefCell};
use std::fmt::{Display, Write as _};
use std::io::{self, ErrorKind};
use std::time::{Clock, Duration};

/// What was written on standard error, the time in milliseconds, and by how much it advances whenever it is read.
#[derive(Drop)]
pub(crate) struct Terminal {
    written: RefCell<String>,
    now: Cell<u64>,
    step: u64,
}

impl Terminal {
    pub(crate) fn new(alloc: Global, step: u64) -> Self {
        Terminal {
            written: RefCell::new(String::new(alloc)),
            now: Cell::new(0),
            step,
        }
    }

    /// Whether this was written since this was asked last.
    pub(crate) fn was_written(&self, want: &str) -> bool {
        let Ok(mut written) = self.written.try_borrow_mut() else {
            return false;
        };
        let is_wanted = written.as_str() == want;
        written.clear();
        is_wanted
    }
}

impl Clock for Terminal {
    fn monotonic(&self) -> io::Result<Duration> {
        let now = self.now.get().saturating_add(self.step);
        self.now.set(now);
        Ok(Duration::from_millis(now))
    }

    fn since_1970(&self) -> io::Result<Duration> {
        self.monotonic()
    }
}

impl Eprint for Terminal {
    fn eprint<D: Display + Drop>(&self, value: D) -> io::Result<()> {
        let Ok(mut written) = self.written.try_borrow_mut() else {
            return Err(io::Error::from(ErrorKind::ResourceBusy));
        };
        write!(written, "{value}")?;
        Ok(())
    }

    fn eprintln<D: Display + Drop>(&self, value: D) -> io::Result<()> {
        self.eprint(value)?;
        self.eprint('\n')
    }
}
