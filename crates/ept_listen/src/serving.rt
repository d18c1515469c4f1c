//! The connections that a listener accepts, each served in a thread of its own.

use crate::accepting::{PAUSE, is_passing};
use crate::logging::{how_ended, log_of};
use crate::timed::TimedStream;
use ept_conn::serve_link;
use ept_log::WatchedLink;
use ept_real::{ReadStore, RealFiles, RealLink};
use std::io::{self, Read};
use std::net::{Shutdown, TcpListener, TcpStream};
use std::sync::Wait;
use std::sync::atomic::AtomicU32;
use std::sync::atomic::Ordering::SeqCst;
use std::thread::{self, Threads};
use std::time::{Duration, Instant};

/// The most connections that are served at once. The others wait to be accepted. Each may have a socket and a file open,
/// so a limit of 1,024 descriptors, which is usual, has room for all of them.
const MOST: u32 = 500;

/// The most bytes that are read after the last response.
const REST: usize = 524_288;

/// How long all of these bytes may take, and how long each piece of them may take, in seconds.
const REST_SECONDS: u64 = 5;

/// Serves the connections that are accepted, at most 500 at once. Each has a thread of its own, and a store of its
/// own over the folder `out`.
///
/// It serves `connections` of them, or serves without end if that is `None`. It stops listening when it has accepted
/// the last one, or after an error. It returns once all of them have ended. If `logs` is true, each request becomes a
/// line on standard error.
///
/// # Errors
///
/// The error of an accept. An accept that fails because the peer has gone, or because there is no room for one more
/// connection, is tried again.
pub fn serve_connections<R: Threads + Wait>(
    rt: &R,
    host: &HostRuntime,
    listener: TcpListener,
    out: &str,
    connections: Option<u32>,
    logs: bool,
) -> io::Result<()> {
    let most = connections.map_or(usize::MAX, |count| count as usize);
    let served = AtomicU32::new(0);
    let served = &served;
    thread::scope(thread::scope_env(), rt, |scope| {
        for _ in 0..most {
            let stream = accept(host, &listener, served)?;
            let serve = move || {
                serve_stream(host, &stream, out, logs);
                served.fetch_sub(1, SeqCst);
            };
            if let Err(refused) = scope.spawn(serve) {
                (refused.value)();
            }
        }
        drop(listener);
        Ok(())
    })
}

// Accepts the next connection, once there is room for it. It counts as served.
fn accept(host: &HostRuntime, listener: &TcpListener, served: &AtomicU32) -> io::Result<TcpStream> {
    wait_for_room(host, served);
    let stream = accept_next(host, listener)?;
    served.fetch_add(1, SeqCst);
    Ok(stream)
}

fn wait_for_room(host: &HostRuntime, served: &AtomicU32) {
    for _ in 0..u64::MAX {
        if served.load(SeqCst) < MOST {
            return;
        }
        pause(host);
    }
}

fn accept_next(host: &HostRuntime, listener: &TcpListener) -> io::Result<TcpStream> {
    for accepted in listener.incoming().take(usize::MAX) {
        match accepted {
            Err(error) if is_passing(&error) => pause(host),
            accepted => return accepted,
        }
    }
    listener.accept().map(|(stream, _)| stream)
}

fn pause(host: &HostRuntime) {
    thread::sleep(host, Duration::from_millis(PAUSE));
}

// Serves one connection.
fn serve_stream(host: &HostRuntime, stream: &TcpStream, out: &str, logs: bool) {
    let alloc = host.alloc();
    // Without it small responses may wait for the peer.
    let _ = stream.set_nodelay(true);
    let mut store = ReadStore::new(alloc, RealFiles::new(host), out);
    let log = if logs {
        log_of(host, stream.peer_addr())
    } else {
        None
    };
    let mut link = WatchedLink::new(RealLink::new(TimedStream::new(host, stream)), log);
    let end = serve_link(alloc, &mut link, &mut store);
    link.end(how_ended(end));
    let _ = finish(host, stream);
}

// Ends the sending side, and reads what the peer still sends, at most `REST` bytes and for a limited time. A connection
// that is closed over unread bytes may lose its last response.
fn finish(host: &HostRuntime, stream: &TcpStream) -> io::Result<()> {
    stream.shutdown(Shutdown::Write)?;
    let time = Duration::from_secs(REST_SECONDS);
    stream.set_read_timeout(Some(time))?;
    let began = Instant::now(host)?;
    let mut piece = [0; 8192];
    let mut reader = stream;
    let mut rest = REST;
    for _ in 0..REST {
        let count = reader.read(&mut piece)?;
        rest = rest.saturating_sub(count);
        if count == 0 || rest == 0 || began.elapsed(host)? >= time {
            break;
        }
    }
    Ok(())
}
