//! The lines of a log.

use crate::peer::Peer;
use crate::terminal::Terminal;
use ept_base::Link;
use ept_log::{Log, WatchedLink};
use ept_real::RealLink;
use std::alloc::{AllocError, Global};
use std::test::Fail;

// What comes over a connection, what is sent after it, how it ends, and the lines.
type Row = (
    &'static [u8],
    [&'static [u8]; 2],
    &'static str,
    &'static str,
);

static ROWS: [Row; 12] = [
    (
        b"GET /ept.json HTTP/1.1\r\nHost: a\r\n\r\n",
        [b"HTTP/1.1 200 OK\r\n\r\n{}", b""],
        "sent",
        "peer /ept.json 200 21 1 sent\n",
    ),
    // The second request came with the first.
    (
        b"\r\nGET /a HTTP/1.1\r\n\r\nHEAD /b HTTP/1.1\r\n\r\n",
        [
            b"HTTP/1.1 404 Not Found\r\n\r\n",
            b"HTTP/1.1 405 Method Not Allowed\r\n\r\n",
        ],
        "link-fault",
        "peer /a 404 26 1 sent\npeer /b 405 35 2 link-fault\n",
    ),
    // A query, in two pieces.
    (
        b"GET /query?box=1 HTTP/1.1\r\n\r\n",
        [b"HTTP/1.1 200 OK\r\n\r\n2\r\nab\r\n", b"9\r\nHTTP/1.1 \r\n"],
        "damaged",
        "peer /query?box=1 200 40 1 damaged\n",
    ),
    (
        b"\x16\x03\x01 x\r\n\r\n",
        [b"HTTP/1.1 400 Bad Request\r\n\r\n", b""],
        "sent",
        "peer x 400 28 1 sent\n",
    ),
    (
        b"GET /\xff\"\x7fy HTTP/1.1\r\n\r\n",
        [b"HTTP/1.1 404 Not Found\r\n\r\n", b""],
        "sent",
        "peer /?\"?y 404 26 1 sent\n",
    ),
    (
        b"GET\r\n\r\n",
        [b"HTTP/1.1 400 Bad Request\r\n\r\n", b""],
        "sent",
        "peer - 400 28 1 sent\n",
    ),
    (
        b"GET /a HTTP/1.1\r\n\r\n",
        [b"", b""],
        "memory",
        "peer /a - 0 1 memory\n",
    ),
    (
        b"GET /a HT",
        [b"", b""],
        "link-fault",
        "peer /a - 0 1 link-fault\n",
    ),
    // The head that is refused ends at its first empty line, before any request.
    (
        b"\r\n\r\nGET /a HTTP/1.1\r\n\r\n",
        [b"HTTP/1.1 400 Bad Request\r\n\r\n", b""],
        "sent",
        "peer - 400 28 1 sent\n",
    ),
    (b"\r\n", [b"", b""], "link-fault", ""),
    (b"GET /a HT", [b"", b""], "sent", ""),
    (b"", [b"", b""], "sent", ""),
];

type Watched<'a> = WatchedLink<'a, RealLink<Peer<'a>>, Terminal>;

// A link to this peer, whose lines go to this terminal.
fn watched<'a>(
    alloc: Global,
    terminal: &'a Terminal,
    peer: Peer<'a>,
) -> Result<Watched<'a>, AllocError> {
    let log = Log::new(terminal, alloc, String::from_str(alloc, "peer")?);
    Ok(WatchedLink::new(RealLink::new(peer), Some(log)))
}

// A peer that sends these bytes, and takes all that it is sent.
fn taking(sends: &[u8]) -> Peer<'_> {
    Peer {
        sends,
        takes: usize::MAX,
    }
}

// Reads this number of bytes.
fn read_so_many(link: &mut Watched<'_>, count: usize) {
    let mut into = [0; 8];
    for _ in 0..count.div_ceil(3) {
        let _ = link.read(&mut into);
    }
}

// Writes all of these bytes.
fn write_whole(link: &mut Watched<'_>, bytes: &[u8]) {
    for at in (0..bytes.len()).step_by(2) {
        let _ = link.write(&bytes[at..]);
    }
}

#[test]
fn each_request_becomes_a_line(rt: HostRuntime) -> Result<(), Fail> {
    let terminal = Terminal::new(rt.alloc(), 1);
    for (sends, responses, how, lines) in ROWS {
        let mut link = watched(rt.alloc(), &terminal, taking(sends))?;
        read_so_many(&mut link, sends.len());
        for response in responses {
            write_whole(&mut link, response);
        }
        link.end(how);
        assert!(rt; terminal.was_written(lines));
    }
    Ok(())
}

#[test]
fn a_line_is_written_before_the_next_read(rt: HostRuntime) -> Result<(), Fail> {
    let terminal = Terminal::new(rt.alloc(), 0);
    let sends = b"GET /a HTTP/1.1\r\n\r\n";
    let mut link = watched(rt.alloc(), &terminal, taking(sends))?;
    read_so_many(&mut link, sends.len());
    write_whole(&mut link, b"HTTP/1.1 404 Not Found\r\n\r\n");
    assert!(rt; terminal.was_written(""));
    read_so_many(&mut link, 1);
    assert!(rt; terminal.was_written("peer /a 404 26 0 sent\n"));
    let link = link.end("link-fault");
    assert!(rt; terminal.was_written(""));
    assert!(rt; link.faults() == 0);
    Ok(())
}

const FIRST: &[u8] = b"HTTP/1.1 404 Not Found\r\n\r\n";

// The peer is gone after the first response, so the second one fails and not the first.
#[test]
fn a_failed_write_is_of_the_next_response(rt: HostRuntime) -> Result<(), Fail> {
    let terminal = Terminal::new(rt.alloc(), 1);
    let sends = b"GET /a HTTP/1.1\r\n\r\nGET /b HTTP/1.1\r\n\r\n";
    let peer = Peer {
        sends,
        takes: FIRST.len(),
    };
    let mut link = watched(rt.alloc(), &terminal, peer)?;
    read_so_many(&mut link, sends.len());
    write_whole(&mut link, FIRST);
    assert!(rt; link.write(b"HTTP/1.1 200 OK\r\n\r\n").is_err());
    link.end("link-fault");
    assert!(rt; terminal.was_written("peer /a 404 26 1 sent\npeer /b 200 0 2 link-fault\n"));
    Ok(())
}
