ghost use Rattle.std.specs.Prelude.{◌≡◌, ◌<◌, ◌≤◌, IfSome, IfOk, length, take};
ghost use Rattle.std.specs.Io.KnownBytes.{Consumes, IsAtEnd};

use std::alloc::Global;
use std::io::{self, Read};

/// All the bytes of a reader. If it has at most `size` bytes, and gives them at once, two reads are enough: one for the
/// bytes and one for their end.
pub(crate) fn read_all<F: Read>(alloc: Global, reader: &mut F, size: u64) -> io::Result<Vec<u8>>
    ensures { IfOk result (λ bytes. IfSome (F.remaining reader.old) (λ all. bytes.items ≡ all)) }
{
    let room = (size as usize).saturating_add(1);
    let mut bytes = vec![in alloc; 0u8; room]?;
    let count = fill(reader, &mut bytes)?;
    bytes.truncate(count);
    if count == room {
        reader.read_to_end(&mut bytes)?;
    }
    Ok(bytes)
}

// Fills a buffer, or stops at the end of the reader, and returns the number of bytes read.
fn fill<F: Read>(reader: &mut F, into: &mut [u8]) -> io::Result<usize>
    ensures fits { IfOk result (λ n. n ≤ length into.new) }
    ensures room { length into.new ≡ length into.old }
    ensures bytes { IfOk result (λ n. Consumes (F.remaining reader.old) (F.remaining reader.new) (take n into.new)) }
    ensures end { IfOk result (λ n. n < length into.new → IsAtEnd (F.remaining reader.new)) }
{
    let mut filled = 0;
    while filled < into.len() {
        let count = reader.read(&mut into[filled..])?;
        if count == 0 {
            return Ok(filled);
        }
        filled += count;
    }
    Ok(filled)
}
