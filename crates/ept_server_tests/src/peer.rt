//! The stream of a peer that sends and takes a few bytes at a time.

use std::io::{self, ErrorKind, Read, Write};

/// A stream whose bytes come three at a time, and which takes two at a time, until it has taken all that it takes.
#[derive(Drop)]
pub(crate) struct Peer<'a> {
    pub(crate) sends: &'a [u8],
    pub(crate) takes: usize,
}

impl Read for Peer<'_> {
    fn read(&mut self, into: &mut [u8]) -> io::Result<usize> {
        let most = into.len().min(3);
        self.sends.read(&mut into[..most])
    }
}

impl Write for Peer<'_> {
    fn write(&mut self, from: &[u8]) -> io::Result<usize> {
        if self.takes == 0 {
            return Err(io::Error::from(ErrorKind::BrokenPipe));
        }
        let count = from.len().min(2).min(self.takes);
        self.takes = self.takes.saturating_sub(count);
        Ok(count)
    }

    fn flush(&mut self) -> io::Result<()> {
        Ok(())
    }
}
