//! The head of a request (RFC 9112, sections 2 and 3).

ghost use Rattle.std.specs.Prelude.{◌≡◌, List, ℕ, Bool, IfSome, IfNone, IfOk, OnErr, length};
ghost use Rattle.httparse.specs.Grammar.{RequestHead};
ghost use Rattle.httparse.specs.Spans.{IsRequestWithin, IsRequestAt};
ghost use Rattle.ept_http.specs.declared.asked.Asked.{Asked};
ghost use Rattle.ept_http.specs.WholeHead.{IsHead};
ghost use Rattle.ept_http.specs.Answers.{refusal_of, closes, HeadAsks, is_last, IsAnswer, IsJudge};

use crate::asked::Asked;
use crate::fields::{has_close, is_faulty};
use crate::target::asked_of;
use ept_point::Memory;
use httparse::Status;
use httparse::spans::{EMPTY_HEADER_SPAN, HeaderSpan, RequestSpans, parse_request};
use std::alloc::Global;

/// The most fields that a head may have.
const MAX_FIELDS: usize = 64;

/// Returns what the head of a request asks for, and whether the connection ends after the response. It ends if the
/// status of the response ends it, or if a `Connection` field has the member `close`.
///
/// # Errors
///
/// Memory ran out for the name of a file.
pub fn read_request(alloc: Global, head: &[u8]) -> Result<(Asked, bool), Memory>
    ensures ok { IfOk result (λ answer. IsAnswer head.now answer.0 answer.1) }
    ensures memory { OnErr result ((name : List ℕ) × (last : Bool) × IsAnswer head.now (Asked.File name) last) }
    ensures value { (judge : List ℕ → Asked × Bool) → IsJudge judge → IfOk result (λ answer. answer ≡ judge head.now) }
{
    let mut lines = [EMPTY_HEADER_SPAN; MAX_FIELDS];
    let Some(found) = whole_head(head, &mut lines) else {
        return Ok((Asked::Refuse(400), true));
    };
    let asked = asked_in(alloc, head, &lines, &found)?;
    let last = is_last(&asked) || has_close(head, &lines[..found.headers]);
    Ok((asked, last))
}

// The spans of the head's parts, if all the bytes are one head.
fn whole_head(head: &[u8], lines: &mut [HeaderSpan; 64]) -> Option<RequestSpans>
    ensures within { IfSome result (IsRequestWithin head.now lines.new) }
    ensures len { IfSome result (λ found. found.len ≡ length head.now) }
    ensures some { IfSome result (λ found. (whole : RequestHead) × (IsHead head.now whole × IsRequestAt head.now lines.new found whole)) }
    ensures none { IfNone result ((whole : RequestHead) → ¬ IsHead head.now whole) }
{
    match parse_request(head, lines) {
        Ok(Status::Complete(found)) if found.len == head.len() => Some(found),
        _ => None,
    }
}

// What the head asks for.
fn asked_in(
    alloc: Global,
    head: &[u8],
    lines: &[HeaderSpan; 64],
    found: &RequestSpans,
) -> Result<Asked, Memory>
    requires within { IsRequestWithin head.now lines.now found.now }
    requires len { found.now.len ≡ length head.now }
    ensures ok { IfOk result (λ asked. (whole : RequestHead) → IsRequestAt head.now lines.now found.now whole → HeadAsks whole asked) }
    ensures memory { OnErr result ((name : List ℕ) × ((whole : RequestHead) → IsRequestAt head.now lines.now found.now whole → HeadAsks whole (Asked.File name))) }
{
    match refusal(head, lines, found) {
        Some(status) => Ok(Asked::Refuse(status)),
        None => asked_of(alloc, found.path.of(head)),
    }
}

// The status with which the head is refused before its target is read.
#[tactic(auto, unfolding(crate::specs::Answers::refusal_of))]
fn refusal(head: &[u8], lines: &[HeaderSpan; 64], found: &RequestSpans) -> Option<u16>
    requires within { IsRequestWithin head.now lines.now found.now }
    requires len { found.now.len ≡ length head.now }
    ensures { (whole : RequestHead) → IsRequestAt head.now lines.now found.now whole → result ≡ refusal_of whole }
{
    if is_faulty(found.version, head, &lines[..found.headers]) {
        Some(400)
    } else if found.method.of(head) != b"GET".as_slice() {
        Some(405)
    } else if found.version == 0 {
        Some(505)
    } else {
        None
    }
}

// Whether the status of the response ends the connection.
fn is_last(asked: &Asked) -> bool
    ensures { result ≡ is_last asked.now }
{
    match asked {
        Asked::File(_) | Asked::Query(..) | Asked::Select(..) => false,
        Asked::Refuse(status) => closes(*status),
    }
}

// Whether a connection ends after a response with this status.
fn closes(status: u16) -> bool
    ensures { result ≡ closes status }
{
    matches!(status, 400 | 431 | 503 | 505 | 507)
}
