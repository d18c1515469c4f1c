//! The bytes of a source that were read and are not yet used.

ghost use Rattle.std.specs.Prelude.{◌≡◌, ◌<◌, ◌≤◌, ◌+◌, ◌-◌, IfOk, OnOk, Ok, true, false, [], length, take, drop, max};
ghost use Rattle.std.specs.Io.KnownBytes.{prepend_known, Keeps, IsAtEnd};
ghost use Rattle.ept_base.specs.Causes.{HasCause};
ghost use Rattle.ept_scan.specs.Reach.{HasLeftOf};

use ept_base::{Failed, Source, read_full};
use std::alloc::{AllocError, Global};
use std::marker::Model;

/// How many bytes of a file are read at once, and held, at most. It is more than the longest record of a LAS file,
/// which has 65,535 bytes.
pub const PIECE: usize = 262_144;

/// The bytes of a source that were read and are not yet used, in a buffer of the size of a piece.
#[derive(Debug, Drop)]
pub(crate) struct Window {
    buffer: Vec<u8>,
    start: usize,
    end: usize,
}

impl Model for Window {
    ghost use Rattle.std.specs.Prelude.{◌≡◌, ◌≤◌, ◌-◌, ℕ, List, take, drop, vec_len};
    ghost use Rattle.ept_scan.specs.declared.window.TheConstants.{PIECE};

    ghost Value = { List ℕ };

    ghost view = { λ w. take (w.end - w.start) (drop w.start w.buffer.items) };

    ghost invariant = { λ w. (w.start ≤ w.end) × (w.end ≤ PIECE) × (vec_len w.buffer ≡ PIECE) };
}

impl Window {
    /// A window without bytes.
    pub(crate) fn new(alloc: Global) -> Result<Window, AllocError>
        ensures { IfOk result (λ w. w ≡ []) }
    {
        let buffer = Vec::from_elem(alloc, 0, PIECE)?;
        Ok(Window {
            buffer,
            start: 0,
            end: 0,
        })
    }

    /// Discards all bytes.
    pub(crate) fn clear(&mut self)
        ensures { self.new ≡ [] }
    {
        self.start = 0;
        self.end = 0;
    }

    pub(crate) fn len(&self) -> usize
        ensures { result ≡ length self.now }
    {
        self.end - self.start
    }

    pub(crate) fn bytes(&self) -> &[u8]
        ensures { result.now ≡ self.now }
    {
        &self.buffer[self.start..self.end]
    }

    /// Discards the first bytes.
    pub(crate) fn consume(&mut self, count: usize)
        requires { count ≤ length self.old }
        ensures { self.new ≡ drop count self.old }
    {
        self.start += count;
    }

    /// Reads more bytes, up to `most`, if there are fewer than `least`. Returns whether there are now at least `least`.
    #[inline(always)]
    pub(crate) fn fill<S: Source>(
        &mut self,
        source: &mut S,
        least: usize,
        most: usize,
    ) -> Result<bool, Failed>
        requires order { least ≤ most }
        requires piece { most ≤ PIECE }
        ensures ahead { OnOk result (Keeps (prepend_known self.old (S.left source.old))
            (prepend_known self.new (S.left source.new))) }
        ensures held { result ≡ Ok true → least ≤ length self.new }
        ensures short { result ≡ Ok false → (length self.new < least) × IsAtEnd (S.left source.new) }
        ensures bound { length self.new ≤ max (length self.old) most }
        ensures more { OnOk result (length self.old ≤ length self.new) }
        ensures left { HasLeftOf (S.left source.old) (S.left source.new) (most - length self.old) }
        ensures given { S.given source.new ≤ S.given source.old + (most - length self.old) }
        ensures gained { OnOk result (S.given source.new + length self.old
            ≤ S.given source.old + length self.new) }
        ensures same { S.whole source.new ≡ S.whole source.old }
        ensures cause { HasCause (S.faults source.old) (S.faults source.new) result }
    {
        if self.len() >= least {
            return Ok(true);
        }
        self.refill(source, most)?;
        Ok(self.len() >= least)
    }

    /// Reads more bytes until there are `most`, or the source is at its end.
    #[inline(never)]
    pub(crate) fn refill<S: Source>(&mut self, source: &mut S, most: usize) -> Result<(), Failed>
        requires { most ≤ PIECE }
        ensures ahead { OnOk result (Keeps (prepend_known self.old (S.left source.old))
            (prepend_known self.new (S.left source.new))) }
        ensures bound { length self.new ≤ max (length self.old) most }
        ensures more { OnOk result (length self.old ≤ length self.new) }
        ensures filled { OnOk result (length self.new < most → IsAtEnd (S.left source.new)) }
        ensures left { HasLeftOf (S.left source.old) (S.left source.new) (most - length self.old) }
        ensures given { S.given source.new ≤ S.given source.old + (most - length self.old) }
        ensures gained { OnOk result (S.given source.new + length self.old
            ≤ S.given source.old + length self.new) }
        ensures same { S.whole source.new ≡ S.whole source.old }
        ensures cause { HasCause (S.faults source.old) (S.faults source.new) result }
    {
        let end = read_behind(source, &mut self.buffer, self.start, self.end, most)?;
        self.start = 0;
        self.end = end;
        Ok(())
    }
}

// Moves the bytes from `start` to `end` to the start of the buffer. Then it reads more bytes after them until there are
// `most`, or the source is at its end. Returns the number of bytes that are then at the start.
fn read_behind<S: Source>(
    source: &mut S,
    buffer: &mut [u8],
    start: usize,
    end: usize,
    most: usize,
) -> Result<usize, Failed>
    requires order { start ≤ end }
    requires within { end ≤ length buffer.old }
    requires room { most ≤ length buffer.old }
    ensures ahead { IfOk result (λ n. Keeps
        (prepend_known (take (end - start) (drop start buffer.old)) (S.left source.old))
        (prepend_known (take n buffer.new) (S.left source.new))) }
    ensures bound { IfOk result (λ n. n ≤ max (end - start) most) }
    ensures more { IfOk result (λ n. end - start ≤ n) }
    ensures filled { IfOk result (λ n. n < most → IsAtEnd (S.left source.new)) }
    ensures size { length buffer.new ≡ length buffer.old }
    ensures left { HasLeftOf (S.left source.old) (S.left source.new) (most - (end - start)) }
    ensures given { S.given source.new ≤ S.given source.old + (most - (end - start)) }
    ensures gained { IfOk result (λ n. S.given source.new + (end - start) ≤ S.given source.old + n) }
    ensures same { S.whole source.new ≡ S.whole source.old }
    ensures cause { HasCause (S.faults source.old) (S.faults source.new) result }
{
    let kept = end - start;
    buffer.copy_within(start..end, 0);
    if kept < most {
        let count = read_full(source, &mut buffer[kept..most])?;
        return Ok(kept + count);
    }
    Ok(kept)
}
