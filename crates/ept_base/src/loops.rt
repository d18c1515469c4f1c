ghost use Rattle.std.specs.Prelude.{◌≡◌, ◌+◌, ◌≤◌, IfOk, OnOk, OnErr, length};
ghost use Rattle.std.specs.Io.KnownBytes.{Appends};
ghost use Rattle.ept_base.specs.Causes.{HasCause};
ghost use Rattle.ept_base.specs.Devices.{ReadsFull, ReadsSome, AppendsPrefix};

use crate::{Failed, Sink, Source};

/// Fills `into`, or stops at the end of the source, and returns the number of bytes read. The source gives no more than
/// these.
///
/// After `Failed` the place is past the bytes that were read, which are a prefix of `into`.
pub fn read_full<S: Source>(source: &mut S, into: &mut [u8]) -> Result<usize, Failed>
    ensures ok { IfOk result (λ n. ReadsFull (S.left source.old) (S.left source.new) n into.new) }
    ensures failed { OnErr result (ReadsSome (S.left source.old) (S.left source.new) into.new) }
    ensures given { S.given source.new ≤ S.given source.old + length into.new }
    ensures gained { IfOk result (λ n. S.given source.new ≤ S.given source.old + n) }
    ensures same { S.whole source.new ≡ S.whole source.old }
    ensures cause { HasCause (S.faults source.old) (S.faults source.new) result }
{
    let mut filled = 0;
    while filled < into.len() {
        let count = source.read(&mut into[filled..])?;
        if count == 0 {
            return Ok(filled);
        }
        filled += count;
    }
    Ok(filled)
}

/// Appends all of `from`. After `Failed` a prefix of it was appended.
pub fn write_full<O: Sink>(out: &mut O, from: &[u8]) -> Result<(), Failed>
    ensures ok { OnOk result (Appends (O.written out.old) (O.written out.new) from.now) }
    ensures failed { OnErr result (AppendsPrefix (O.written out.old) (O.written out.new) from.now) }
    ensures cause { HasCause (O.faults out.old) (O.faults out.new) result }
{
    let mut rest = from;
    while !rest.is_empty() {
        let count = out.write(rest)?;
        rest = rest.split_at(count).1;
    }
    Ok(())
}
