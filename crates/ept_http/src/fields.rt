//! The fields of a head (RFC 9110, section 5), each as two spans of the head's bytes.

ghost use Rattle.std.specs.Prelude.{◌≡◌, ◌==◌, not, All, length, map, reverse, codes, slice_range};
ghost use Rattle.std.specs.List.{list_any};
ghost use Rattle.std.specs.Str.{bytes_eq};
ghost use Rattle.httparse.specs.Grammar.{skip_ows, trim_ows};
ghost use Rattle.httparse.specs.Spans.{IsHeaderWithin, header_bytes};
ghost use Rattle.ept_http.specs.Fields.{same_name, values_of, members, is_close, has_close, is_faulty};

use httparse::spans::HeaderSpan;

/// Whether the head announces a body or, in HTTP/1.1, does not name its host exactly once.
#[tactic(auto, unfolding(crate::specs::Fields::is_faulty))]
pub fn is_faulty(minor: u8, head: &[u8], lines: &[HeaderSpan]) -> bool
    requires { All (IsHeaderWithin (length head.now)) lines.now }
    ensures { result ≡ is_faulty minor (map (header_bytes head.now) lines.now) }
{
    count_named(head, lines, b"Transfer-Encoding") > 0
        || has_length(head, lines)
        || minor == 1 && count_named(head, lines, b"Host") != 1
}

/// Whether a `Connection` field has the member `close` (RFC 9112, section 9.6).
#[tactic(auto, unfolding(crate::specs::Fields::has_close))]
pub fn has_close(head: &[u8], lines: &[HeaderSpan]) -> bool
    requires { All (IsHeaderWithin (length head.now)) lines.now }
    ensures { result ≡ has_close (map (header_bytes head.now) lines.now) }
{
    for line in lines {
        if is_named(head, line, b"Connection") && has_close_member(line.value.of(head)) {
            return true;
        }
    }
    false
}

// The number of fields with this name.
fn count_named(head: &[u8], lines: &[HeaderSpan], name: &[u8]) -> usize
    requires { All (IsHeaderWithin (length head.now)) lines.now }
    ensures { result ≡ length (values_of name.now (map (header_bytes head.now) lines.now)) }
{
    let mut count = 0;
    for line in lines {
        if is_named(head, line, name) {
            count += 1;
        }
    }
    count
}

// Whether some `Content-Length` is not `0`.
fn has_length(head: &[u8], lines: &[HeaderSpan]) -> bool
    requires { All (IsHeaderWithin (length head.now)) lines.now }
    ensures { result ≡ list_any (λ value. not (bytes_eq value (codes "0")))
        (values_of (codes "Content-Length") (map (header_bytes head.now) lines.now)) }
{
    for line in lines {
        if is_named(head, line, b"Content-Length") && line.value.of(head) != b"0".as_slice() {
            return true;
        }
    }
    false
}

// Whether a field has this name.
fn is_named(head: &[u8], line: &HeaderSpan, name: &[u8]) -> bool
    requires { IsHeaderWithin (length head.now) line.now }
    ensures { result ≡ same_name (slice_range head.now line.now.name.start line.now.name.end) name.now }
{
    line.name.of(head).eq_ignore_ascii_case(name)
}

// Whether some member of a list is `close`.
fn has_close_member(value: &[u8]) -> bool
    ensures { result ≡ list_any is_close (members value.now) }
{
    value.split(|b| *b == b',').any(|member| is_close(member))
}

fn is_close(member: &[u8]) -> bool
    ensures { result ≡ is_close member.now }
{
    trimmed(member).eq_ignore_ascii_case(b"close")
}

// The bytes without the spaces and tabs at both ends.
#[tactic(auto, unfolding(httparse::specs::Grammar::trim_ows))]
fn trimmed(text: &[u8]) -> &[u8]
    ensures { result.now ≡ trim_ows text.now }
{
    without_end(without_front(text))
}

fn without_front(text: &[u8]) -> &[u8]
    ensures { result.now ≡ skip_ows text.now }
{
    let mut rest = text;
    while let [b' ' | b'\t', others @ ..] = rest {
        rest = others;
    }
    rest
}

fn without_end(text: &[u8]) -> &[u8]
    ensures { result.now ≡ reverse (skip_ows (reverse text.now)) }
{
    let mut rest = text;
    while let [others @ .., b' ' | b'\t'] = rest {
        rest = others;
    }
    rest
}
