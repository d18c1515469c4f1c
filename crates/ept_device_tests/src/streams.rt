//! Sinks over writers, and links over streams.

use crate::folder::enter;
use ept_base::{Failed, Link, Sink, write_full};
use ept_real::{RealLink, RealSink};
use std::alloc::Global;
use std::fs;
use std::io::{self, ErrorKind, Read, Write};
use std::test::Fail;

/// A writer that takes at most this many bytes at a time, and counts its flushes.
#[derive(Drop)]
pub(crate) struct Pieces {
    most: usize,
    taken: Vec<u8>,
    flushes: u32,
}

impl Pieces {
    pub(crate) fn new(alloc: Global, most: usize) -> Self {
        Pieces {
            most,
            taken: Vec::new(alloc),
            flushes: 0,
        }
    }
}

impl Write for Pieces {
    fn write(&mut self, buf: &[u8]) -> io::Result<usize> {
        let count = buf.len().min(self.most);
        self.taken.extend_from_slice(&buf[..count])?;
        Ok(count)
    }

    fn flush(&mut self) -> io::Result<()> {
        self.flushes = self.flushes.saturating_add(1);
        Ok(())
    }
}

// A writer whose writes or flushes fail.
#[derive(Drop)]
struct Unable {
    writes: bool,
}

impl Write for Unable {
    fn write(&mut self, buf: &[u8]) -> io::Result<usize> {
        if self.writes {
            Ok(buf.len())
        } else {
            Err(io::Error::from(ErrorKind::BrokenPipe))
        }
    }

    fn flush(&mut self) -> io::Result<()> {
        Err(io::Error::from(ErrorKind::BrokenPipe))
    }
}

// A stream whose bytes come three at a time, and after them their end or, of one that breaks, an error. It takes the
// same number of bytes at a time as its writer.
#[derive(Drop)]
struct Peer<'a> {
    comes: &'a [u8],
    breaks: bool,
    writer: Pieces,
}

impl Read for Peer<'_> {
    fn read(&mut self, into: &mut [u8]) -> io::Result<usize> {
        if self.breaks && self.comes.is_empty() {
            return Err(io::Error::from(ErrorKind::ConnectionReset));
        }
        let most = into.len().min(3);
        self.comes.read(&mut into[..most])
    }
}

impl Write for Peer<'_> {
    fn write(&mut self, buf: &[u8]) -> io::Result<usize> {
        self.writer.write(buf)
    }

    fn flush(&mut self) -> io::Result<()> {
        self.writer.flush()
    }
}

fn peer_of(alloc: Global, comes: &[u8], breaks: bool, most: usize) -> Peer<'_> {
    Peer {
        comes,
        breaks,
        writer: Pieces::new(alloc, most),
    }
}

#[test]
fn a_sink_writes_to_its_writer(rt: HostRuntime) {
    let mut pieces = Pieces::new(rt.alloc(), 3);
    let mut sink = RealSink::new(&mut pieces);
    assert!(rt; sink.write(b"points") == Ok(3));
    assert!(rt; write_full(&mut sink, b" 1234\n") == Ok(()));
    assert!(rt; sink.write(b"") == Ok(0));
    assert!(rt; sink.faults() == 0);
    assert!(rt; pieces.taken.as_slice() == b"poi 1234\n".as_slice());
    assert!(rt; pieces.flushes == 4);
}

#[test]
fn a_sink_whose_writer_can_not_write_tells_it(rt: HostRuntime) {
    let mut none = RealSink::new(Pieces::new(rt.alloc(), 0));
    assert!(rt; none.write(b"x") == Err(Failed));
    assert!(rt; none.write(b"") == Ok(0));
    assert!(rt; none.faults() == 1);
    for writes in [false, true] {
        let mut unable = RealSink::new(Unable { writes });
        assert!(rt; unable.write(b"x") == Err(Failed));
        assert!(rt; write_full(&mut unable, b"y") == Err(Failed));
        assert!(rt; unable.faults() == 2);
    }
}

#[test]
fn a_sink_writes_to_a_file(rt: HostRuntime) -> Result<(), Fail> {
    enter(&rt, "sink")?;
    let mut said = RealSink::new(fs::create(&rt, "said")?);
    assert!(rt; write_full(&mut said, b"points 1\n") == Ok(()));
    let read = fs::read(&rt, "said")?;
    assert!(rt; read.as_slice() == b"points 1\n".as_slice());
    let mut full = RealSink::new(fs::create(&rt, "/dev/full")?);
    assert!(rt; full.write(b"x") == Err(Failed));
    Ok(())
}

#[test]
fn a_link_reads_and_writes_its_stream(rt: HostRuntime) {
    let mut into = [9; 5];
    let mut link = RealLink::new(peer_of(rt.alloc(), b"abcd", false, 2));
    assert!(rt; link.read(&mut into[..0]) == Ok(0));
    assert!(rt; link.read(&mut into) == Ok(3));
    assert!(rt; into == *b"abc\x09\x09");
    assert!(rt; link.read(&mut into) == Ok(1));
    assert!(rt; into == *b"dbc\x09\x09");
    assert!(rt; link.read(&mut into) == Ok(0));
    assert!(rt; link.write(b"xyz") == Ok(2));
    assert!(rt; link.write(b"") == Ok(0));
    assert!(rt; link.stream().writer.taken.as_slice() == b"xy".as_slice());
    assert!(rt; link.faults() == 0);
}

#[test]
fn a_link_whose_stream_breaks_tells_it(rt: HostRuntime) {
    let mut into = *b"dbc\x09\x09";
    let mut broken = RealLink::new(peer_of(rt.alloc(), b"a", true, 0));
    assert!(rt; broken.read(&mut into) == Ok(1));
    assert!(rt; broken.read(&mut into) == Err(Failed));
    assert!(rt; into == *b"abc\x09\x09");
    assert!(rt; broken.write(b"x") == Err(Failed));
    assert!(rt; broken.write(b"") == Ok(0));
    assert!(rt; broken.faults() == 2);
}
