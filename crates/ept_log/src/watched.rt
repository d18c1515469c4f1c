//! Links that watch what passes.

ghost use Rattle.std.specs.Prelude.{◌≡◌};

use crate::log::Log;
use ept_base::{Failed, Link};
use ept_poll::PollLink;
use futures::task::{Context, Poll};
use std::time::Clock;

/// A link whose requests are logged, or a link as it is, if there is no log. The bytes pass unchanged.
#[derive(Drop)]
pub struct WatchedLink<'a, L, R> {
    link: L,
    log: Option<Log<'a, R>>,
}

impl<'a, L, R: Eprint + Clock> WatchedLink<'a, L, R> {
    ghost use Rattle.ept_log.specs.Watched.{watched};

    /// This link, and the log of its requests, of which none has come.
    pub fn new(link: L, log: Option<Log<'a, R>>) -> Self
        ensures { watched result ≡ link }
    {
        WatchedLink { link, log }
    }

    /// Ends the log, and returns the link. `how` is how the connection ended: `sent` if the last response was sent
    /// whole.
    pub fn end(self, how: &str) -> L
        ensures { result ≡ watched self.entry }
    {
        let WatchedLink { link, log } = self;
        if let Some(mut log) = log {
            log.end(how);
        }
        link
    }
}

// Notes a read.
fn note_read<R: Eprint + Clock>(log: &mut Option<Log<'_, R>>) {
    if let Some(log) = log {
        log.reads();
    }
}

// Notes bytes that came.
fn note_came<R: Eprint + Clock>(log: &mut Option<Log<'_, R>>, bytes: &[u8]) {
    if let Some(log) = log {
        log.came(bytes);
    }
}

// Notes that this number of these bytes was sent: none if the link has failed.
fn note_sent<R: Eprint + Clock>(log: &mut Option<Log<'_, R>>, piece: &[u8], count: usize) {
    if let Some(log) = log {
        log.sent(piece, count);
    }
}

impl<'a, L: Link, R: Eprint + Clock> Link for WatchedLink<'a, L, R> {
    ghost use Rattle.ept_log.specs.Watched.{watched};

    ghost wire = { λ link. L.wire (watched link) };

    ghost faults = { λ link. L.faults (watched link) };

    fn read(&mut self, into: &mut [u8]) -> Result<usize, Failed> {
        note_read(&mut self.log);
        let count = self.link.read(into)?;
        note_came(&mut self.log, &into[..count]);
        Ok(count)
    }

    fn write(&mut self, from: &[u8]) -> Result<usize, Failed> {
        let written = self.link.write(from);
        note_sent(&mut self.log, from, written.unwrap_or(0));
        written
    }
}

impl<'a, L: PollLink, R: Eprint + Clock> PollLink for WatchedLink<'a, L, R> {
    ghost use Rattle.ept_log.specs.Watched.{watched};

    ghost wire = { λ link. L.wire (watched link) };

    ghost faults = { λ link. L.faults (watched link) };

    ghost read_waits = { λ link. L.read_waits (watched link) };

    ghost write_waits = { λ link. L.write_waits (watched link) };

    fn poll_read(&mut self, cx: &mut Context<'_>, into: &mut [u8]) -> Poll<Result<usize, Failed>> {
        note_read(&mut self.log);
        match self.link.poll_read(cx, into) {
            Poll::Ready(Ok(count)) => {
                note_came(&mut self.log, &into[..count]);
                Poll::Ready(Ok(count))
            }
            other => other,
        }
    }

    fn poll_write(&mut self, cx: &mut Context<'_>, from: &[u8]) -> Poll<Result<usize, Failed>> {
        let polled = self.link.poll_write(cx, from);
        if let Poll::Ready(written) = polled {
            note_sent(&mut self.log, from, written.unwrap_or(0));
        }
        polled
    }
}
