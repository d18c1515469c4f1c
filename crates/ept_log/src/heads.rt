//! What the first bytes of requests and responses say.

ghost use Rattle.std.specs.Prelude.{◌≤◌, length};

/// The most bytes of a target that a line has.
const MOST: usize = 256;

/// The length of the head that these bytes begin with, up to the first CR LF CR LF. Without one it is all of them.
pub(crate) fn end_of_head(bytes: &[u8]) -> usize
    ensures { result ≤ length bytes.now }
{
    for at in 0..bytes.len() {
        if bytes[at..].starts_with(b"\r\n\r\n") {
            return bytes.len().min(at + 4);
        }
    }
    bytes.len()
}

/// Where the first line that is not empty begins.
pub(crate) fn start_of_head(bytes: &[u8]) -> usize
    ensures { result ≤ length bytes.now }
{
    for at in 0..bytes.len() {
        if bytes[at] != b'\r' && bytes[at] != b'\n' {
            return at;
        }
    }
    bytes.len()
}

/// The target in this head of a request: the second word of its first line, at most 256 bytes.
pub(crate) fn target_of(head: &[u8]) -> &[u8] {
    let line = word_of(&head[start_of_head(head)..], b"\r\n");
    let method = word_of(line, b" ");
    let target = match line.strip_prefix(method) {
        Some([_, rest @ ..]) => word_of(rest, b" "),
        _ => b"",
    };
    &target[..target.len().min(MOST)]
}

// The bytes before the first one that is among `ends`.
fn word_of<'a>(bytes: &'a [u8], ends: &[u8]) -> &'a [u8] {
    for at in 0..bytes.len() {
        if ends.contains(&bytes[at]) {
            return &bytes[..at];
        }
    }
    bytes
}

/// The status of the response that begins with these bytes. A chunk begins with its length, so it begins no response.
pub(crate) fn status_of(bytes: &[u8]) -> Option<&str> {
    let rest = bytes.strip_prefix(b"HTTP/1.1 ")?;
    str::from_utf8(word_of(rest, b" ")).ok()
}
