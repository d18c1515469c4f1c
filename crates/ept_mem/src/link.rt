ghost use Rattle.std.specs.Prelude.{◌≡◌, []};
ghost use Rattle.ept_mem.specs.Cut.{bytes_of_all, rest_of_piece};

use crate::plan::Plan;
use ept_base::{Failed, Link};
use std::alloc::Global;

/// A link in memory. The bytes that come are cut in pieces, and a read gives at most the rest of one piece; an empty
/// piece is skipped. What is written is gathered.
#[derive(Debug, Drop)]
pub struct MemLink {
    pieces: Vec<Vec<u8>>,
    taken: Vec<u8>,
    written: Vec<u8>,
    reads: Vec<(usize, usize)>,
    plan: Plan,
}

/// What is left, after `place` bytes, of the piece that has the next byte.
fn rest_of(pieces: &[Vec<u8>], place: usize) -> &[u8]
    ensures { result.now ≡ rest_of_piece pieces.now place }
{
    let mut behind = place;
    for piece in pieces {
        if behind < piece.len() {
            return &piece[behind..];
        }
        behind -= piece.len();
    }
    &[]
}

impl MemLink {
    ghost use Rattle.ept_mem.specs.Objects.{link_wire, link_faults, link_fails, link_calls};

    /// A link over which these pieces come, one after another. Its calls of these numbers fail. It takes no memory.
    pub fn new(alloc: Global, pieces: Vec<Vec<u8>>, fails: Vec<u64>) -> Self
        ensures left { (link_wire result).left ≡ bytes_of_all pieces.items }
        ensures untaken { (link_wire result).taken ≡ [] }
        ensures unwritten { (link_wire result).written ≡ [] }
        ensures unread { (link_wire result).reads ≡ [] }
        ensures sound { link_faults result ≡ 0 }
        ensures fails { link_fails result ≡ fails.items }
        ensures unused { link_calls result ≡ 0 }
    {
        MemLink {
            pieces,
            taken: Vec::new(alloc),
            written: Vec::new(alloc),
            reads: Vec::new(alloc),
            plan: Plan::new(fails),
        }
    }

    /// The bytes written.
    pub fn written(&self) -> &[u8]
        ensures { result.now ≡ (link_wire self.now).written }
    {
        &self.written
    }
}

impl Link for MemLink {
    ghost use Rattle.std.specs.Prelude.{Some, ◌<◌, IfOk, OnErr, IsErr, length, min, take};
    ghost use Rattle.std.specs.Io.{ReadsAtMost, WritesAtMost};
    ghost use Rattle.ept_base.specs.Causes.{HasCause};
    ghost use Rattle.ept_base.specs.Links.{Reads, FailsToRead, Writes};
    ghost use Rattle.ept_mem.specs.Objects.{link_wire, link_piece, link_faults, link_plan};
    ghost use Rattle.ept_mem.specs.Plans.{IsToFail, IsOneCallMore};

    ghost wire = { λ link. Some (link_wire link) };

    ghost faults = { link_faults };

    fn read(&mut self, into: &mut [u8]) -> Result<usize, Failed>
        ensures bound { ReadsAtMost result into.new }
        ensures ok { IfOk result (λ n. Reads (take n into.new) (link_wire self.old) (link_wire self.new)) }
        ensures end { IfOk result (λ n. n ≡ 0 → 0 < length into.new → (link_wire self.new).left ≡ []) }
        ensures failed { OnErr result (FailsToRead (link_wire self.old) (link_wire self.new)) }
        ensures unchanged { OnErr result (into.new ≡ into.old) }
        ensures cause { HasCause (link_faults self.old) (link_faults self.new) result }
        ensures most { IfOk result (λ n. n ≡ min (length into.new) (length (link_piece self.old))) }
        ensures to_fail { IsToFail (link_plan self.old) → IsErr result }
        ensures numbered { IsOneCallMore (link_plan self.old) (link_plan self.new) }
    {
        let is_to_fail = self.plan.next();
        let before = (self.taken.len(), self.written.len());
        // A link has no error for running out of memory.
        if self.reads.push(before).is_err() || is_to_fail {
            return Err(self.plan.fault());
        }
        let rest = rest_of(&self.pieces, self.taken.len());
        let count = rest.len().min(into.len());
        if self.taken.extend_from_slice(&rest[..count]).is_err() {
            return Err(self.plan.fault());
        }
        into[..count].copy_from_slice(&rest[..count]);
        Ok(count)
    }

    fn write(&mut self, from: &[u8]) -> Result<usize, Failed>
        ensures bound { WritesAtMost result from.now }
        ensures some { IfOk result (λ n. 0 < length from.now → 0 < n) }
        ensures ok { IfOk result (λ n. Writes (take n from.now) (link_wire self.old) (link_wire self.new)) }
        ensures unchanged { OnErr result (Some (link_wire self.new) ≡ Some (link_wire self.old)) }
        ensures cause { HasCause (link_faults self.old) (link_faults self.new) result }
        ensures most { IfOk result (λ n. n ≡ length from.now) }
        ensures to_fail { IsToFail (link_plan self.old) → IsErr result }
        ensures numbered { IsOneCallMore (link_plan self.old) (link_plan self.new) }
    {
        if self.plan.next() {
            return Err(self.plan.fault());
        }
        match self.written.extend_from_slice(from) {
            Ok(()) => Ok(from.len()),
            Err(_) => Err(self.plan.fault()),
        }
    }
}
