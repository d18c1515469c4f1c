//! Heads of requests and of responses, and the words of queries.

use crate::escaped::{push_escaped, unescape};
use crate::row::{RowError, cut, number, plain};
use ept_filter::Sift;
use ept_http::{Asked, HeadKind, read_box, read_depths, read_request, response_head};
use ept_space::Box3;
use std::alloc::{AllocError, Global};
use std::fmt::Write as _;

/// `head BYTES`: what `read_request` returns.
pub(crate) fn head(alloc: Global, text: &str, answer: &mut String) -> Result<(), RowError> {
    let head = unescape(alloc, text)?;
    let (asked, last) = read_request(alloc, &head)?;
    push_asked(answer, &asked, last)?;
    Ok(())
}

/// Writes what a request asks for, and `last` if the connection ends after the response.
pub(crate) fn push_asked(answer: &mut String, asked: &Asked, last: bool) -> Result<(), AllocError> {
    match asked {
        Asked::File(name) => push_file(answer, name.as_str())?,
        Asked::Query(area, first, last) => push_query(answer, area, *first, *last)?,
        Asked::Select(area, first, last, sift) => {
            push_select(answer, area, (*first, *last), sift)?;
        }
        Asked::Refuse(status) => write!(answer, "refuse {status}")?,
    }
    if last {
        answer.push_str(" last")?;
    }
    Ok(())
}

fn push_file(answer: &mut String, name: &str) -> Result<(), AllocError> {
    write!(answer, "file {name}")
}

fn push_query(answer: &mut String, area: &Box3, first: u8, last: u8) -> Result<(), AllocError> {
    answer.push_str("query ")?;
    push_box(answer, area)?;
    write!(answer, " {first},{last}")
}

fn push_select(
    answer: &mut String,
    area: &Box3,
    depths: (u8, u8),
    sift: &Sift,
) -> Result<(), AllocError> {
    let (first, last) = depths;
    answer.push_str("select ")?;
    push_box(answer, area)?;
    write!(answer, " {first},{last}")?;
    push_classes(answer, sift)?;
    push_time(answer, sift)?;
    answer.push_str(" dims")?;
    for row in sift.dims.rows() {
        write!(answer, " {row}")?;
    }
    Ok(())
}

fn push_classes(answer: &mut String, sift: &Sift) -> Result<(), AllocError> {
    answer.push_str(" classes")?;
    let Some(classes) = &sift.classes else {
        return answer.push_str(" any");
    };
    for class in 0..=255 {
        if classes.contains(class) {
            write!(answer, " {class}")?;
        }
    }
    Ok(())
}

fn push_time(answer: &mut String, sift: &Sift) -> Result<(), AllocError> {
    answer.push_str(" time ")?;
    let Some(time) = &sift.time else {
        return answer.push_str("any");
    };
    for byte in time {
        write!(answer, "{byte:02x}")?;
    }
    Ok(())
}

fn push_box(answer: &mut String, area: &Box3) -> Result<(), AllocError> {
    let [min_x, min_y, min_z] = area.min;
    let [max_x, max_y, max_z] = area.max;
    write!(answer, "{min_x},{min_y},{min_z},{max_x},{max_y},{max_z}")
}

/// `box TEXT`: what `read_box` returns.
pub(crate) fn area(text: &str, answer: &mut String) -> Result<(), RowError> {
    match read_box(plain(text).as_bytes()) {
        Some(area) => push_box(answer, &area)?,
        None => answer.push_str("none")?,
    }
    Ok(())
}

/// `depths TEXT`: what `read_depths` returns.
pub(crate) fn depths(text: &str, answer: &mut String) -> Result<(), RowError> {
    match read_depths(plain(text).as_bytes()) {
        Some((first, last)) => write!(answer, "{first},{last}")?,
        None => answer.push_str("none")?,
    }
    Ok(())
}

/// `answer json LENGTH END`, `answer binary LENGTH END`, `answer query END` or `answer refuse STATUS END`, with `last`
/// or `open` for END: the head that `response_head` writes.
pub(crate) fn answer_head(text: &str, answer: &mut String) -> Result<(), RowError> {
    let kind = kind_of(text)?;
    let mut into = [0; 256];
    let head = written(&kind, &mut into).ok_or(RowError::Form)?;
    push_escaped(answer, head)?;
    Ok(())
}

fn kind_of(text: &str) -> Result<HeadKind, RowError> {
    let (kind, rest) = cut(text)?;
    match kind {
        "json" => file_kind(true, rest),
        "binary" => file_kind(false, rest),
        "query" => Ok(HeadKind::Query {
            last: is_last(rest)?,
        }),
        "refuse" => refusal_kind(rest),
        _ => Err(RowError::Form),
    }
}

fn file_kind(json: bool, text: &str) -> Result<HeadKind, RowError> {
    let (length, end) = cut(text)?;
    Ok(HeadKind::File {
        json,
        length: number(length)?,
        last: is_last(end)?,
    })
}

fn refusal_kind(text: &str) -> Result<HeadKind, RowError> {
    let (status, end) = cut(text)?;
    Ok(HeadKind::Refusal {
        status: status.parse::<u16>().map_err(|_| RowError::Form)?,
        last: is_last(end)?,
    })
}

fn is_last(word: &str) -> Result<bool, RowError> {
    match word {
        "last" => Ok(true),
        "open" => Ok(false),
        _ => Err(RowError::Form),
    }
}

// The head of a response, or `None` if no response has the status.
fn written<'a>(kind: &HeadKind, into: &'a mut [u8; 256]) -> Option<&'a [u8]> {
    let known = match kind {
        HeadKind::Refusal { status, .. } => matches!(
            status,
            400 | 404 | 405 | 431 | 503 | 505 | 507
        ),
        _ => true,
    };
    if !known {
        return None;
    }
    let len = response_head(kind, into);
    into.get(..len)
}
