//! The requests of one connection.

use crate::heads::{end_of_head, start_of_head, status_of, target_of};
use std::alloc::{AllocError, Global};
use std::time::{Clock, Instant};

/// The requests of one connection. Each becomes a line on standard error when its response ends.
///
/// A line has six words:
///
/// - The peer.
/// - The target, in printable ASCII, with `?` for any other byte, and cut after 256.
/// - The status of the response.
/// - The number of bytes of the response that were passed to the system.
/// - The milliseconds that this took, from the last bytes of requests that came.
/// - How the response ended.
///
/// If memory runs out, a line may be missing.
#[derive(Drop)]
pub struct Log<'a, R> {
    rt: &'a R,
    alloc: Global,
    peer: String,
    // The bytes of requests to which no response has begun, and when the last of them came.
    came: Vec<u8>,
    since: Option<Instant>,
    response: Option<Response>,
    // Whether a piece was sent in part, so that its rest comes next.
    is_within: bool,
}

// A response that has begun.
#[derive(Drop)]
struct Response {
    target: String,
    status: String,
    bytes: u64,
}

impl<'a, R: Eprint + Clock> Log<'a, R> {
    /// The log of a connection to this peer, over which no request has come.
    pub fn new(rt: &'a R, alloc: Global, peer: String) -> Self {
        Log {
            rt,
            alloc,
            peer,
            came: Vec::new(alloc),
            since: None,
            response: None,
            is_within: false,
        }
    }

    /// Notes that the server is about to read, so each response that has begun is sent.
    pub(crate) fn reads(&mut self) {
        self.finish("sent");
    }

    /// Notes bytes that came.
    pub(crate) fn came(&mut self, bytes: &[u8]) {
        self.since = Instant::now(self.rt).ok();
        let _ = self.came.extend_from_slice(bytes);
    }

    /// Notes that this number of bytes of a piece was sent. A response begins at the start of a piece.
    pub(crate) fn sent(&mut self, piece: &[u8], count: usize) {
        if !self.is_within {
            self.note_start(piece);
        }
        self.is_within = count < piece.len();
        if let Some(response) = &mut self.response {
            response.bytes = response.bytes.saturating_add(count as u64);
        }
    }

    // Notes the start of a piece, with which a response may begin.
    fn note_start(&mut self, piece: &[u8]) {
        if let Some(status) = status_of(piece) {
            self.finish("sent");
            self.response = self.begin(status).ok();
        }
    }

    /// Notes how the connection ended. A request that has no response becomes a line too, with `-` for its status.
    pub(crate) fn end(&mut self, how: &str) {
        if self.response.is_none() && self.has_request() && how != "sent" {
            self.response = self.begin("-").ok();
        }
        self.finish(how);
    }

    // Whether more than empty lines has come since the last response began.
    fn has_request(&self) -> bool {
        start_of_head(&self.came) < self.came.len()
    }

    // Begins the response to the first request that has come.
    fn begin(&mut self, status: &str) -> Result<Response, AllocError> {
        let end = end_of_head(&self.came);
        let response = Response {
            target: printable(self.alloc, target_of(&self.came[..end]))?,
            status: String::from_str(self.alloc, status)?,
            bytes: 0,
        };
        self.came = Vec::from_slice(self.alloc, &self.came[end..])?;
        Ok(response)
    }

    // Writes the line of the response that has begun.
    fn finish(&mut self, how: &str) {
        let Some(response) = self.response.take() else {
            return;
        };
        if let Ok(line) = self.line_of(&response, how) {
            // There is nobody to report to if a line can't be written.
            let _ = self.rt.eprint(line);
        }
    }

    fn line_of(&self, response: &Response, how: &str) -> Result<String, AllocError> {
        let Response {
            target,
            status,
            bytes,
        } = response;
        let peer = &self.peer;
        let time = self.time();
        format!(in self.alloc; "{peer} {target} {status} {bytes} {time} {how}\n")
    }

    // The number of milliseconds since the last bytes came.
    fn time(&self) -> u64 {
        match self.since.map(|since| since.elapsed(self.rt)) {
            Some(Ok(time)) => u64::try_from(time.as_millis()).unwrap_or(u64::MAX),
            _ => 0,
        }
    }
}

// Bytes as printable ASCII; `-` if there are no bytes.
fn printable(alloc: Global, bytes: &[u8]) -> Result<String, AllocError> {
    let mut text = String::new(alloc);
    for byte in bytes {
        text.push(if byte.is_ascii_graphic() {
            *byte as char
        } else {
            '?'
        })?;
    }
    if text.is_empty() {
        text.push('-')?;
    }
    Ok(text)
}
