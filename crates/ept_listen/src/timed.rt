//! A connection whose peer may take only a limited time.

use std::io::{self, ErrorKind, Read, Write};
use std::net::TcpStream;
use std::time::{Duration, Instant};

/// How long a peer may take until the first byte of a request, and until it takes a byte of a response, in seconds.
const IDLE: u64 = 60;

/// How long a peer may take from the first byte of a request until its head is complete, in seconds.
const HEAD: u64 = 30;

/// How often a call that a signal interrupted is tried again.
const TRIES: u32 = 1000;

/// A stream whose reads and writes fail if its peer takes too long. The next write shows that a head is complete.
#[derive(Drop)]
pub(crate) struct TimedStream<'a> {
    host: &'a HostRuntime,
    stream: &'a TcpStream,
    // When the first byte of a head came.
    head: Option<Instant>,
    // Whether the limit of a read may be less than `IDLE`.
    is_short: bool,
}

impl<'a> TimedStream<'a> {
    pub(crate) fn new(host: &'a HostRuntime, stream: &'a TcpStream) -> Self {
        let idle = Some(Duration::from_secs(IDLE));
        let _ = stream.set_read_timeout(idle);
        let _ = stream.set_write_timeout(idle);
        TimedStream {
            host,
            stream,
            head: None,
            is_short: false,
        }
    }

    // How long the rest of a head may take.
    fn left_since(&self, first: Instant) -> io::Result<Duration> {
        let taken = first.elapsed(self.host)?;
        match Duration::from_secs(HEAD).checked_sub(taken) {
            Some(left) if !left.is_zero() => Ok(left),
            _ => Err(io::Error::from(ErrorKind::TimedOut)),
        }
    }

    // Limits a read of the rest of a head.
    fn limit_read(&mut self) -> io::Result<()> {
        let Some(first) = self.head else {
            return Ok(());
        };
        let left = self.left_since(first)?;
        self.is_short = true;
        self.stream.set_read_timeout(Some(left))
    }

    // Notes that bytes of a head came, which may be its first.
    fn note_head(&mut self) -> io::Result<()> {
        if self.head.is_none() {
            self.head = Some(Instant::now(self.host)?);
        }
        Ok(())
    }

    // Notes that no head is waited for. Most heads come in one read, whose limit was not changed.
    fn forget_head(&mut self) -> io::Result<()> {
        self.head = None;
        if !self.is_short {
            return Ok(());
        }
        self.is_short = false;
        self.stream
            .set_read_timeout(Some(Duration::from_secs(IDLE)))
    }
}

impl Read for TimedStream<'_> {
    fn read(&mut self, into: &mut [u8]) -> io::Result<usize> {
        for _ in 0..TRIES {
            self.limit_read()?;
            let mut stream = self.stream;
            match stream.read(into) {
                Err(error) if error.kind() == ErrorKind::Interrupted => {}
                Ok(count) => {
                    self.note_head()?;
                    return Ok(count);
                }
                failed => return failed,
            }
        }
        Err(io::Error::from(ErrorKind::Interrupted))
    }
}

impl Write for TimedStream<'_> {
    fn write(&mut self, from: &[u8]) -> io::Result<usize> {
        self.forget_head()?;
        for _ in 0..TRIES {
            let mut stream = self.stream;
            match stream.write(from) {
                Err(error) if error.kind() == ErrorKind::Interrupted => {}
                written => return written,
            }
        }
        Err(io::Error::from(ErrorKind::Interrupted))
    }

    fn flush(&mut self) -> io::Result<()> {
        Ok(())
    }
}
