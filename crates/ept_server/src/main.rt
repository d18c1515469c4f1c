//! `ept_server` serves a finished Entwine Point Tile folder over HTTP/1.1 (RFC 9112).
#![tactic(auto)]

use ept_base::GetError;
use ept_listen::{Serve, serve_connections, serve_single, server_words};
use ept_real::{HeldStreams, PathFiles, RealFiles};
use std::alloc::AllocGlobal;
use std::env::{self, VarError};
use std::io::{self, ErrorKind};
use std::net::{Net, TcpListener};
use std::process::ExitCode;
use std::random::RandomSource;
use std::sync::Wait;
use std::thread::Threads;
use std::time::Clock;

/// All connections were served.
const OK: u8 = 0;
/// The words are not words that this program takes.
const USAGE: u8 = 2;
/// Listening or accepting failed.
const FAULT: u8 = 7;
/// Memory ran out.
const MEMORY: u8 = 9;

fn main(rt: HostRuntime) -> ExitCode {
    // Until the end no file and no connection has the number of a standard stream that is closed.
    let _streams = HeldStreams::hold(&rt);
    let status = match given_words(&rt) {
        Ok(words) => run(&rt, &rt, &words),
        Err(error) => status_of(&error, USAGE),
    };
    // A line that can't be written changes no status.
    if status == USAGE {
        let _ = println!(rt; "error 2 usage");
        let _ = eprintln!(rt;
            "ept_server: usage: ept_server [--single] [--connections N] OUT ADDRESS"
        );
    }
    if status == MEMORY {
        let _ = eprintln!(rt; "ept_server: out of memory");
    }
    ExitCode::from(status)
}

// The words after the program's name.
fn given_words(rt: &HostRuntime) -> io::Result<Vec<String>> {
    Ok(env::args(rt)?.skip(1).collect(rt.alloc())?)
}

// Serves as the words say, and returns the status.
fn run<R>(rt: &R, host: &HostRuntime, words: &[String]) -> u8
where
    R: Threads + Wait + Clock + Net + RandomSource + AllocGlobal,
{
    match (server_words(words), words) {
        (Some(serve), [.., out, address]) => listen(rt, host, out, address, serve),
        _ => USAGE,
    }
}

fn listen<R>(rt: &R, host: &HostRuntime, out: &str, address: &str, serve: Serve) -> u8
where
    R: Threads + Wait + Clock + Net + RandomSource + AllocGlobal,
{
    if let Some(remark) = remark_on(host, out) {
        let _ = eprintln!(host; "ept_server: {out} {remark}");
    }
    match TcpListener::bind(host, address) {
        Ok(listener) => match serve_on(rt, host, listener, out, serve) {
            Ok(()) => OK,
            Err(error) => fault(host, "can't accept connections on", address, &error),
        },
        Err(error) => fault(host, "can't listen on", address, &error),
    }
}

fn serve_on<R>(
    rt: &R,
    host: &HostRuntime,
    listener: TcpListener,
    out: &str,
    serve: Serve,
) -> io::Result<()>
where
    R: Threads + Wait + Clock + Net + RandomSource + AllocGlobal,
{
    let logs = has_log(host);
    if serve.single {
        serve_single(rt, host, listener, out, serve.connections, logs)
    } else {
        serve_connections(rt, host, listener, out, serve.connections, logs)
    }
}

// Whether the environment asks for a line a request, by any value.
fn has_log(host: &HostRuntime) -> bool {
    !matches!(env::var(host, "EPT_LOG"), Err(VarError::NotPresent))
}

// What to say of the folder before it is served, or `None` if its gate is open.
fn remark_on(host: &HostRuntime, out: &str) -> Option<&'static str> {
    match gate_in(host, out) {
        Ok(Some(gate)) if gate.as_slice() == [1].as_slice() => None,
        Ok(_) => Some("holds no finished dataset: a request for a file will get 404 until it does"),
        Err(_) => Some("can't be read: a request for a file will get 503 until it can"),
    }
}

// The bytes of the folder's gate, or `None` if it has none.
fn gate_in(host: &HostRuntime, out: &str) -> Result<Option<Vec<u8>>, GetError> {
    let folder = if out.is_empty() { "." } else { out };
    let gate = format!(in host.alloc(); "{folder}/ept-work/done-2")?;
    RealFiles::new(host).read(host.alloc(), gate.as_str())
}

// Says what failed, and returns the status.
fn fault(host: &HostRuntime, what: &str, address: &str, error: &io::Error) -> u8 {
    let _ = eprintln!(host; "ept_server: {what} {address}: {error}");
    status_of(error, FAULT)
}

// The status of an error: out of memory, or otherwise this.
fn status_of(error: &io::Error, other: u8) -> u8 {
    if error.kind() == ErrorKind::OutOfMemory {
        MEMORY
    } else {
        other
    }
}
