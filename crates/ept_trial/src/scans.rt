//! The generated scans as LAS files (LAS 1.2, point data record format 0).

ghost use Rattle.std.specs.Prelude.{◌≡◌, ◌≤◌, ◌<◌, ◌+◌, ◌*◌, ◌++◌, IfOk, OnOk};
ghost use Rattle.byteorder.specs.Endian.{little_bytes};
ghost use Rattle.ept_trial.specs.Trials.{state};
ghost use Rattle.ept_trial.specs.Scans.{drawn, record_bytes, header_bytes, scan_bytes};

use ept_num::lcg;
use ept_point::Memory;
use std::alloc::Global;

// X and Y are below `WIDE`, and Z is below `HIGH`.
const WIDE: u32 = 100_000;

const HIGH: u32 = 1_000;

// How many steps of the generator the three points of the other inputs take.
const OTHERS: u32 = 9;

/// The file of one of the four inputs, if there are `count` points in all.
#[tactic(auto, unfolding(crate::specs::Scans::scan_bytes))]
pub(crate) fn scan_of(alloc: Global, count: u32, input: u32) -> Result<Vec<u8>, Memory>
    requires few { count ≤ 10000000 }
    requires input { input ≤ 3 }
    ensures { IfOk result (λ bytes. bytes.items ≡ scan_bytes count input) }
{
    let records = (count + 3 - input) / 4;
    let mut bytes = header(alloc, records)?;
    let mut at = stepped(u64::from(count), 3 * input);
    for number in 0..records {
        at = append_record(&mut bytes, at, 4 * number + input)?;
        at = stepped(at, OTHERS);
    }
    Ok(bytes)
}

// The header of a file with this number of records.
#[tactic(auto, unfolding(crate::specs::Scans::header_bytes))]
fn header(alloc: Global, records: u32) -> Result<Vec<u8>, Memory>
    ensures { IfOk result (λ bytes. bytes.items ≡ header_bytes records) }
{
    let mut bytes = Vec::from_slice(alloc, b"LASF")?;
    bytes.extend_from_slice(&[0; 20])?;
    bytes.extend_from_slice(&[1, 2])?;
    bytes.extend_from_slice(&[0; 68])?;
    bytes.extend_from_slice(&[227, 0, 227, 0, 0, 0, 0, 0, 0, 0, 0, 20, 0])?;
    bytes.extend_from_slice(&records.to_le_bytes())?;
    bytes.extend_from_slice(&[0; 116])?;
    Ok(bytes)
}

// The state of the generator after this number of steps.
fn stepped(from: u64, steps: u32) -> u64
    ensures { result ≡ state from steps }
{
    let mut at = from;
    for _ in 0..steps {
        at = lcg(at);
    }
    at
}

// Appends the record of the point of this number, and returns the state of the generator after it.
#[tactic(auto, unfolding(crate::specs::Scans::record_bytes))]
fn append_record(out: &mut Vec<u8>, at: u64, number: u32) -> Result<u64, Memory>
    ensures state { IfOk result (λ next. next ≡ state at 3) }
    ensures bytes { OnOk result (out.new.items ≡ out.old.items ++ record_bytes at number) }
{
    let x = lcg(at);
    let y = lcg(x);
    let z = lcg(y);
    append_u32(out, coordinate(x, WIDE))?;
    append_u32(out, coordinate(y, WIDE))?;
    append_u32(out, coordinate(z, HIGH))?;
    append(out, &((number % 65_536) as u16).to_le_bytes())?;
    append(out, &[0; 6])?;
    Ok(z)
}

fn append(out: &mut Vec<u8>, bytes: &[u8]) -> Result<(), Memory>
    ensures { OnOk result (out.new.items ≡ out.old.items ++ bytes.now) }
{
    out.extend_from_slice(bytes)?;
    Ok(())
}

fn append_u32(out: &mut Vec<u8>, number: u32) -> Result<(), Memory>
    ensures { OnOk result (out.new.items ≡ out.old.items ++ little_bytes 4 number) }
{
    append(out, &number.to_le_bytes())
}

// The number that a state gives, below another one.
fn coordinate(at: u64, below: u32) -> u32
    requires { 0 < below }
    ensures { result ≡ drawn at below }
{
    ((at >> 33) % u64::from(below)) as u32
}
