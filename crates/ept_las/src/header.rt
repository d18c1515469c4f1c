//! The public header block (LAS 1.4 R15, section 2.4).

ghost use Rattle.std.specs.Prelude.{◌≡◌, ◌≤◌, ◌<◌, length, take, IsTrue, ◌↔◌, IfOk};
ghost use Rattle.ept_las.specs.Format.{IsFormat, record_length};
ghost use Rattle.ept_las.specs.LasHeader.{least_size, minor_of, points_of, DiffersFrom, HasOtherVersion, HasShortHeader, HeaderReadsAs, FirstFaultIs};

use crate::format::{is_format, record_length};
use crate::las_error::LasError;
use crate::words::{bits, u16_at, u32_at, u64_at};

/// The greatest length of a header that is read: the least header size of LAS 1.4.
pub const HEAD_LENGTH: usize = 375;

// The first bytes of a LAS file.
const SIGNATURE: [u8; 4] = *b"LASF";

// The least header size of LAS 1.2, which is the least of all, and the least of LAS 1.3.
const LEAST_SIZE: usize = 227;

const LEAST_SIZE_OF_1_3: usize = 235;

const MAJOR: u8 = 1;

const FIRST_MINOR: u8 = 2;

const LAST_MINOR: u8 = 4;

// The places of the fields, in bytes.
const MAJOR_AT: usize = 24;

const MINOR_AT: usize = 25;

const SIZE_AT: usize = 94;

const OFFSET_AT: usize = 96;

const FORMAT_AT: usize = 104;

const LENGTH_AT: usize = 105;

const LEGACY_POINTS_AT: usize = 107;

const SCALE_AT: usize = 131;

const POINTS_AT: usize = 247;

/// How many bytes the scales and offsets have.
pub const SCALE_WIDTH: usize = 48;

// A compressed file sets this bit of the format, or the one above it.
const COMPRESSED_BIT: u8 = 6;

/// What a header says of a file's points.
#[derive(Clone, Copy, Debug, PartialEq, Eq)]
pub struct Header {
    /// The minor version: the file has LAS 1.`minor`.
    pub minor: u8,
    /// The point data record format, one of the six that are read.
    pub format: u8,
    /// The length of a record in bytes, which is at least that of its format.
    pub length: u16,
    /// The place of the first record in the file, in bytes.
    pub offset: u32,
    /// The number of records.
    pub points: u64,
}

fn least_size(minor: u8) -> usize
    ensures { result ≡ least_size minor }
{
    match minor {
        LAST_MINOR => HEAD_LENGTH,
        FIRST_MINOR => LEAST_SIZE,
        _ => LEAST_SIZE_OF_1_3,
    }
}

fn are_same(a: &[u8], b: &[u8]) -> bool
    ensures { IsTrue result ↔ (a.now ≡ b.now) }
{
    a == b
}

fn has_other_version(head: &[u8]) -> bool
    requires { LEAST_SIZE ≤ length head.now }
    ensures { IsTrue result ↔ HasOtherVersion head.now }
{
    head[MAJOR_AT] != MAJOR || head[MINOR_AT] < FIRST_MINOR || head[MINOR_AT] > LAST_MINOR
}

fn has_short_header(head: &[u8]) -> bool
    requires { LEAST_SIZE ≤ length head.now }
    ensures { IsTrue result ↔ HasShortHeader head.now }
{
    let least = least_size(head[MINOR_AT]);
    usize::from(u16_at(head, SIZE_AT)) < least || head.len() < least
}

fn differs_from(head: &[u8], expect: Option<[u8; SCALE_WIDTH]>) -> bool
    requires { LEAST_SIZE ≤ length head.now }
    ensures { IsTrue result ↔ DiffersFrom expect head.now }
{
    match expect {
        None => false,
        Some(expect) => !are_same(&head[SCALE_AT..SCALE_AT + SCALE_WIDTH], &expect),
    }
}

// The first fault of a header, in the order of the variants.
fn fault_of(head: &[u8], expect: Option<[u8; SCALE_WIDTH]>) -> Option<LasError>
    ensures { FirstFaultIs head.now expect result }
{
    if head.len() < LEAST_SIZE {
        return Some(LasError::Short);
    }
    if !are_same(&head[..SIGNATURE.len()], &SIGNATURE) {
        return Some(LasError::Signature);
    }
    if has_other_version(head) {
        return Some(LasError::Version);
    }
    if has_short_header(head) {
        return Some(LasError::HeaderSize);
    }
    let format = head[FORMAT_AT];
    if bits(format, COMPRESSED_BIT, 2) != 0 {
        return Some(LasError::Compressed);
    }
    if !is_format(format) {
        return Some(LasError::Format);
    }
    if u16_at(head, LENGTH_AT) < record_length(format) {
        return Some(LasError::RecordLength);
    }
    if u32_at(head, OFFSET_AT) < u32::from(u16_at(head, SIZE_AT)) {
        return Some(LasError::PointOffset);
    }
    if differs_from(head, expect) {
        return Some(LasError::Expect);
    }
    None
}

#[tactic(auto, unfolding(crate::specs::LasHeader::points_of))]
fn points_of(head: &[u8]) -> u64
    requires least { LEAST_SIZE ≤ length head.now }
    requires whole { least_size (minor_of head.now) ≤ length head.now }
    ensures { result ≡ points_of head.now }
{
    if head[MINOR_AT] == LAST_MINOR {
        let points = u64_at(head, POINTS_AT);
        if points != 0 {
            return points;
        }
    }
    u64::from(u32_at(head, LEGACY_POINTS_AT))
}

/// Reads a header from the first `len` of these bytes, which are all bytes of the file or its first 375. If `expect` is
/// given, the scales and offsets have to be these bytes. It takes no memory.
///
/// # Errors
///
/// The first fault in the order of the variants, if and only if the header has one.
pub fn read_header(
    bytes: &[u8; HEAD_LENGTH],
    len: usize,
    expect: Option<[u8; SCALE_WIDTH]>,
) -> Result<Header, LasError>
    requires { len ≤ HEAD_LENGTH }
    ensures reads { HeaderReadsAs (take len bytes.now) expect result }
    ensures format { IfOk result (λ h. IsFormat h.format) }
    ensures length { IfOk result (λ h. record_length h.format ≤ h.length) }
{
    let head = &bytes[..len];
    if let Some(fault) = fault_of(head, expect) {
        return Err(fault);
    }
    Ok(Header {
        minor: head[MINOR_AT],
        format: head[FORMAT_AT],
        length: u16_at(head, LENGTH_AT),
        offset: u32_at(head, OFFSET_AT),
        points: points_of(head),
    })
}
