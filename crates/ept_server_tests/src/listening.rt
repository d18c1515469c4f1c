//! Connections over the loopback. What each receives is what a connection in memory is sent for the same bytes.

use crate::folder::{make_folder, store_of};
use ept_conn::serve_link;
use ept_listen::{serve_connections, serve_single};
use ept_mem::MemLink;
use std::alloc::{AllocError, Global};
use std::io::{self, Read, Write};
use std::net::{Shutdown, SocketAddr, TcpListener, TcpStream};
use std::test::Fail;
use std::thread;

// What comes over a connection, how the responses begin, and how they end.
type Row = (&'static [u8], &'static [u8], &'static [u8]);

static ROWS: [Row; 12] = [
    (
        b"GET /ept.json HTTP/1.1\r\nHost: a\r\n\r\n",
        b"HTTP/1.1 200 OK\r\n",
        b"\r\n\r\n{\"a\":1}",
    ),
    (
        b"GET /ept-build.json HTTP/1.1\r\nHost: a\r\n\r\n",
        b"HTTP/1.1 200 OK\r\nContent-Type: application/json\r\n",
        b"\"shift\":[0,0,0]}]}",
    ),
    (
        b"GET /ept-data/0-0-0-0.bin HTTP/1.1\r\nHost: a\r\nConnection: close\r\n\r\n",
        b"HTTP/1.1 200 OK\r\nContent-Type: application/octet-stream\r\nConnection: close\r\n",
        b"\0\0\0",
    ),
    // Queries of two points, of one, and of none.
    (
        b"GET /query?box=0,0,0,7,7,7&depths=0,2 HTTP/1.1\r\nHost: a\r\n\r\n",
        b"HTTP/1.1 200 OK\r\nContent-Type: application/octet-stream\r\nTransfer-Encoding: chunked\r\n",
        b"\x01\0\0\0\0\0\0\0\r\n0\r\n\r\n",
    ),
    (
        b"GET /query?box=2,2,2,7,7,7&depths=0,2 HTTP/1.1\r\nHost: a\r\n\r\n",
        b"HTTP/1.1 200 OK\r\nContent-Type: application/octet-stream\r\nTransfer-Encoding: chunked\r\n\r\n35\r\n\x03\0",
        b"\x01\0\0\0\0\0\0\0\r\n0\r\n\r\n",
    ),
    (
        b"GET /query?box=100,0,0,101,7,7&depths=0,2 HTTP/1.1\r\nHost: a\r\n\r\n",
        b"HTTP/1.1 200 OK\r\nContent-Type: application/octet-stream\r\nTransfer-Encoding: chunked\r\n",
        b"\r\n\r\n0\r\n\r\n",
    ),
    (
        b"GET /select?box=0,0,0,7,7,7&depths=0,2&classes=-&time=-&dims=PointId,X HTTP/1.1\r\nHost: a\r\n\r\n",
        b"HTTP/1.1 200 OK\r\nContent-Type: application/octet-stream\r\nTransfer-Encoding: chunked\r\n",
        b"\x03\0\0\0\r\n0\r\n\r\n",
    ),
    // Requests that are refused. After a bad one there is no further response.
    (
        b"HELLO\r\n\r\nGET /ept.json HTTP/1.1\r\nHost: a\r\n\r\n",
        b"HTTP/1.1 400 Bad Request\r\n",
        b"\r\nContent-Length: 0\r\n\r\n",
    ),
    (
        b"POST /ept.json HTTP/1.1\r\nHost: a\r\n\r\nGET /ept.json HTTP/1.1\r\nHost: a\r\n\r\n",
        b"HTTP/1.1 405 Method Not Allowed\r\nAllow: GET\r\n",
        b"\r\n\r\n{\"a\":1}",
    ),
    (
        b"GET /no HTTP/1.1\r\nHost: a\r\n\r\nGET /ept.json HTTP/1.0\r\n\r\n",
        b"HTTP/1.1 404 Not Found\r\n",
        b"\r\nContent-Length: 0\r\n\r\n",
    ),
    // Four at once, of which two are queries, and the beginning of a fifth.
    (
        b"GET /ept.json HTTP/1.1\r\nHost: a\r\n\r\nGET /query?box=0,0,0,7,7,7&depths=0,0 HTTP/1.1\r\nHost: a\r\n\r\nHEAD / HTTP/1.1\r\nHost: a\r\n\r\nGET /query?box=0,0,0,7,7,7&depths=1,1 HTTP/1.1\r\nHost: a\r\n\r\nGET /e",
        b"HTTP/1.1 200 OK\r\nContent-Type: application/json\r\n",
        b"\x01\0\0\0\0\0\0\0\r\n0\r\n\r\n",
    ),
    (b"GET /ept.json HTTP/1.1\r\nHost", b"", b""),
];

/// How many bytes of a request are sent at a time.
const PIECE: usize = 20;

/// How many connections the rows make.
const CONNECTIONS: u32 = 24;

// The piece of the bytes that begins at a place.
fn piece_at(bytes: &[u8], at: usize) -> &[u8] {
    let rest = &bytes[at.min(bytes.len())..];
    &rest[..rest.len().min(PIECE)]
}

// What a server sends to two peers that send these bytes over the loopback, piece by piece in turn.
fn over_loopback(
    rt: &HostRuntime,
    address: SocketAddr,
    sends: [&[u8]; 2],
) -> io::Result<[Vec<u8>; 2]> {
    let [first, second] = sends;
    let mut one = TcpStream::connect(rt, address)?;
    let mut two = TcpStream::connect(rt, address)?;
    for at in (0..first.len().max(second.len())).step_by(PIECE) {
        one.write_all(piece_at(first, at))?;
        two.write_all(piece_at(second, at))?;
    }
    one.shutdown(Shutdown::Write)?;
    two.shutdown(Shutdown::Write)?;
    let mut received = [Vec::new(rt.alloc()), Vec::new(rt.alloc())];
    one.read_to_end(&mut received[0])?;
    two.read_to_end(&mut received[1])?;
    Ok(received)
}

// A connection in memory over which these bytes came.
fn in_memory(alloc: Global, sends: &[u8]) -> Result<MemLink, AllocError> {
    let mut store = store_of(alloc)?;
    let mut pieces = Vec::new(alloc);
    pieces.push(Vec::from_slice(alloc, sends)?)?;
    let mut link = MemLink::new(alloc, pieces, Vec::new(alloc));
    let _end = serve_link(alloc, &mut link, &mut store);
    Ok(link)
}

// Whether these are the responses of a row, and a connection in memory is sent the same.
fn is_alike(alloc: Global, row: Row, received: &[u8]) -> Result<bool, AllocError> {
    let (sends, begin, end) = row;
    let link = in_memory(alloc, sends)?;
    Ok(received == link.written() && received.starts_with(begin) && received.ends_with(end))
}

// Whether a server sends for each row what a connection in memory is sent. The row that is sent in turn with it has the
// same distance from the end. Each connection is made, whatever came before it: the server waits for all of them.
fn are_alike(rt: &HostRuntime, address: SocketAddr) -> io::Result<bool> {
    let alloc = rt.alloc();
    let mut alike = true;
    for (row, other) in ROWS.into_iter().zip(ROWS.into_iter().rev()) {
        let [first, second] = over_loopback(rt, address, [row.0, other.0])?;
        alike &= is_alike(alloc, row, &first)? && is_alike(alloc, other, &second)?;
    }
    Ok(alike)
}

#[test]
fn connections_over_the_loopback_receive_what_those_in_memory_do(
    rt: HostRuntime,
) -> Result<(), Fail> {
    make_folder(&rt, "out/tests/served")?;
    let listener = TcpListener::bind(&rt, "127.0.0.1:0")?;
    let address = listener.local_addr()?;
    let (served, alike) = thread::join(
        &rt,
        || serve_connections(
            &rt,
            &rt,
            listener,
            "out/tests/served",
            Some(CONNECTIONS),
            false,
        ),
        || are_alike(&rt, address),
    );
    served?;
    assert!(rt; alike?);
    Ok(())
}

#[test]
fn so_do_those_that_one_thread_serves(rt: HostRuntime) -> Result<(), Fail> {
    make_folder(&rt, "out/tests/single")?;
    let listener = TcpListener::bind(&rt, "127.0.0.1:0")?;
    let address = listener.local_addr()?;
    let (served, alike) = thread::join(
        &rt,
        || serve_single(
            &rt,
            &rt,
            listener,
            "out/tests/single",
            Some(CONNECTIONS),
            false,
        ),
        || are_alike(&rt, address),
    );
    served?;
    assert!(rt; alike?);
    Ok(())
}
