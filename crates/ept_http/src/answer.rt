//! The heads of responses (RFC 9112, sections 4 to 6).

ghost use Rattle.std.specs.Prelude.{◌≡◌, ℕ, ◌+◌, ◌≤◌, ◌++◌, length, take, slice_index};
ghost use Rattle.ept_http.specs.AnswerHead.{phrase_of, HasStatus, status_of, ends, status_line, allow_line, type_line, connection_line, length_line, head_text};

use itoa::Buffer;

/// The room for a head, in bytes.
const ROOM: usize = 256;

/// A response, as far as its head shows it. `last` is whether the connection ends after the response.
#[derive(Clone, Copy, Debug, PartialEq, Eq)]
pub enum HeadKind {
    /// A file with status 200: whether it is JSON, and how many bytes it has.
    File { json: bool, length: u64, last: bool },
    /// The points of a query, or what a selection keeps of them, with status 200, sent in chunks.
    Query { last: bool },
    /// A status without a body: 400, 404, 405, 431, 503, 505 or 507.
    Refusal { status: u16, last: bool },
}

/// Writes the head of a response into the first bytes of `into`, and returns its length. It takes no memory.
#[tactic(auto, unfolding(crate::specs::AnswerHead::head_text))]
pub fn response_head(kind: &HeadKind, into: &mut [u8; 256]) -> usize
    requires { HasStatus kind.now }
    ensures text { take result into.new ≡ head_text kind.now }
    ensures len { result ≡ length (head_text kind.now) }
    ensures others { (k : ℕ) → result ≤ k → slice_index into.new k ≡ slice_index into.old k }
{
    let status = kind.status();
    let end = write_status_line(status, into);
    let end = write_allow(status, into, end);
    let end = write_type(kind, into, end);
    let end = write_connection(kind.is_last(), into, end);
    let end = write_length(kind, into, end);
    append(b"\r\n", into, end)
}

impl HeadKind {
    // The status of the response.
    fn status(&self) -> u16
        ensures { result ≡ status_of self.now }
    {
        match self {
            HeadKind::File { .. } | HeadKind::Query { .. } => 200,
            HeadKind::Refusal { status, .. } => *status,
        }
    }

    // Whether the connection ends after the response.
    fn is_last(&self) -> bool
        ensures { result ≡ ends self.now }
    {
        match self {
            HeadKind::File { last, .. }
            | HeadKind::Query { last }
            | HeadKind::Refusal { last, .. } => *last,
        }
    }
}

// The phrase of a status; empty if no response has this status.
fn phrase(status: u16) -> &'static [u8]
    ensures text { result.now ≡ phrase_of status }
    ensures len { length result.now ≤ 31 }
{
    match status {
        200 => b"OK",
        400 => b"Bad Request",
        404 => b"Not Found",
        405 => b"Method Not Allowed",
        431 => b"Request Header Fields Too Large",
        503 => b"Service Unavailable",
        505 => b"HTTP Version Not Supported",
        507 => b"Insufficient Storage",
        _ => b"",
    }
}

#[tactic(auto, unfolding(crate::specs::AnswerHead::status_line))]
fn write_status_line(status: u16, into: &mut [u8; 256]) -> usize
    ensures text { take result into.new ≡ status_line status }
    ensures len { result ≡ length (status_line status) }
    ensures fits { result ≤ 48 }
    ensures others { (k : ℕ) → result ≤ k → slice_index into.new k ≡ slice_index into.old k }
{
    let end = append(b"HTTP/1.1 ", into, 0);
    let end = append(Buffer::new().format(status).as_bytes(), into, end);
    let end = append(b" ", into, end);
    let end = append(phrase(status), into, end);
    append(b"\r\n", into, end)
}

fn write_allow(status: u16, into: &mut [u8; 256], at: usize) -> usize
    requires { at ≤ 48 }
    ensures text { take result into.new ≡ take at into.old ++ allow_line status }
    ensures len { result ≡ at + length (allow_line status) }
    ensures fits { result ≤ 60 }
    ensures others { (k : ℕ) → result ≤ k → slice_index into.new k ≡ slice_index into.old k }
{
    if status == 405 {
        append(b"Allow: GET\r\n", into, at)
    } else {
        at
    }
}

fn write_type(kind: &HeadKind, into: &mut [u8; 256], at: usize) -> usize
    requires { at ≤ 60 }
    ensures text { take result into.new ≡ take at into.old ++ type_line kind.now }
    ensures len { result ≡ at + length (type_line kind.now) }
    ensures fits { result ≤ 100 }
    ensures others { (k : ℕ) → result ≤ k → slice_index into.new k ≡ slice_index into.old k }
{
    match kind {
        HeadKind::File { json: true, .. } => {
            append(b"Content-Type: application/json\r\n", into, at)
        }
        HeadKind::File { json: false, .. } | HeadKind::Query { .. } => {
            append(b"Content-Type: application/octet-stream\r\n", into, at)
        }
        HeadKind::Refusal { .. } => at,
    }
}

fn write_connection(last: bool, into: &mut [u8; 256], at: usize) -> usize
    requires { at ≤ 100 }
    ensures text { take result into.new ≡ take at into.old ++ connection_line last }
    ensures len { result ≡ at + length (connection_line last) }
    ensures fits { result ≤ 119 }
    ensures others { (k : ℕ) → result ≤ k → slice_index into.new k ≡ slice_index into.old k }
{
    if last {
        append(b"Connection: close\r\n", into, at)
    } else {
        at
    }
}

fn write_length(kind: &HeadKind, into: &mut [u8; 256], at: usize) -> usize
    requires { at ≤ 119 }
    ensures text { take result into.new ≡ take at into.old ++ length_line kind.now }
    ensures len { result ≡ at + length (length_line kind.now) }
    ensures fits { result ≤ 160 }
    ensures others { (k : ℕ) → result ≤ k → slice_index into.new k ≡ slice_index into.old k }
{
    match kind {
        HeadKind::File { length, .. } => {
            let end = append(b"Content-Length: ", into, at);
            let end = append(Buffer::new().format(*length).as_bytes(), into, end);
            append(b"\r\n", into, end)
        }
        HeadKind::Query { .. } => append(b"Transfer-Encoding: chunked\r\n", into, at),
        HeadKind::Refusal { .. } => append(b"Content-Length: 0\r\n", into, at),
    }
}

// Writes bytes at a place, and returns the place after them.
fn append(bytes: &[u8], into: &mut [u8; 256], at: usize) -> usize
    requires { at + length bytes.now ≤ ROOM }
    ensures text { take result into.new ≡ take at into.old ++ bytes.now }
    ensures len { result ≡ at + length bytes.now }
    ensures others { (k : ℕ) → result ≤ k → slice_index into.new k ≡ slice_index into.old k }
{
    let end = at + bytes.len();
    into[at..end].copy_from_slice(bytes);
    end
}
