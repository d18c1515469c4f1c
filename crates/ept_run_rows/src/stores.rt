//! Lines that say which calls fail, and that change the store.

use crate::bench::{Bench, Faults, file};
use crate::words::{Miss, first_word, number, size};
use ept_base::{PutError, Store};
use ept_mem::Crash;

/// Carries out a line that lets a call fail, or that changes the store.
pub(crate) fn change(bench: &mut Bench, call: &str, rest: &str) -> Result<(), Miss> {
    let (name, text) = first_word(rest);
    match call {
        "fail" => fail(bench, name, text),
        "forget" => {
            bench.faults.forgets = true;
            Ok(())
        }
        "sink" => {
            bench.faults.most = size(name)?;
            Ok(())
        }
        "store" => renew(bench),
        "keep" => keep(bench),
        "base" => base(bench),
        "put" => put(bench, name, text),
        "damage" => damage(bench, name),
        "remove" => spoil(bench, "remove", name),
        "swap" => swap(bench, name, text),
        "replace" => replace(bench, name, text),
        "fuse" => fuse(bench, number(name)?),
        "wear" => wear(bench, number(name)?),
        "crash" => crash(bench, crash_of(name)?),
        _ => Err(Miss::Form),
    }
}

// `fail DEVICE CALL`: the call of this number of a device fails, in each run from now on; `fail store CALL` begins with
// a new store. `fail nothing`: no call fails.
fn fail(bench: &mut Bench, device: &str, call: &str) -> Result<(), Miss> {
    if device == "nothing" {
        bench.faults = Faults::NONE;
        return Ok(());
    }
    fail_at(bench, device, number(call)?)
}

/// Lets the call of this number of a device fail, in each run from now on. If it is the store, begins with a new one.
pub(crate) fn fail_at(bench: &mut Bench, device: &str, call: u64) -> Result<(), Miss> {
    let call = Some(call);
    match device {
        "open" => bench.faults.open = call,
        "read" => bench.faults.read = call,
        "make" => bench.faults.make = call,
        "spill" => bench.faults.spill = call,
        "write" => bench.faults.write = call,
        "store" => {
            let fresh = bench.new_store(call)?;
            bench.replace_store(fresh);
        }
        _ => return Err(Miss::Form),
    }
    Ok(())
}

/// `store`: begins with a new store.
pub(crate) fn renew(bench: &mut Bench) -> Result<(), Miss> {
    let fresh = bench.new_store(None)?;
    bench.replace_store(fresh);
    Ok(())
}

// `keep`: keeps the store to compare with, and begins with a new one.
fn keep(bench: &mut Bench) -> Result<(), Miss> {
    let fresh = bench.new_store(None)?;
    bench.kept = bench.replace_store(fresh);
    Ok(())
}

// `base`: from now on a new store has the files that are to be compared, as the store has them now.
fn base(bench: &mut Bench) -> Result<(), Miss> {
    let mut files = Vec::new(bench.alloc);
    for name in &bench.names {
        if let Some(bytes) = bench.store.file(name.as_str()) {
            files.push(file(bench.alloc, name.as_str(), bytes)?)?;
        }
    }
    bench.base = files;
    Ok(())
}

// `put NAME HEX`: puts a file into the store.
fn put(bench: &mut Bench, name: &str, digits: &str) -> Result<(), Miss> {
    let bytes = hex::decode(bench.alloc, digits)?;
    bench.store.put(name, &bytes).map_err(of_put)
}

// `damage NAME`: cuts the last byte of a file of the store.
fn damage(bench: &mut Bench, name: &str) -> Result<(), Miss> {
    spoil(bench, "cut", name)
}

// `swap NAME NAME`: exchanges two files of the store.
fn swap(bench: &mut Bench, first: &str, second: &str) -> Result<(), Miss> {
    let one = content(bench, first)?;
    let other = content(bench, second)?;
    bench.store.put(first, &other).map_err(of_put)?;
    bench.store.put(second, &one).map_err(of_put)
}

// `replace NAME FROM|TO`: writes the second text in place of the first one in a file of the store, where it occurs
// first.
fn replace(bench: &mut Bench, name: &str, texts: &str) -> Result<(), Miss> {
    let (from, to) = texts.split_once('|').ok_or(Miss::Form)?;
    let bytes = content(bench, name)?;
    let text = str::from_utf8(&bytes).map_err(|_| Miss::Form)?;
    let (before, after) = text.split_once(from).ok_or(Miss::Form)?;
    let text = format!(in bench.alloc; "{before}{to}{after}")?;
    bench.store.put(name, text.as_bytes()).map_err(of_put)
}

// The bytes of a file of the store.
fn content(bench: &Bench, name: &str) -> Result<Vec<u8>, Miss> {
    let bytes = bench.store.file(name).ok_or(Miss::Form)?;
    Ok(Vec::from_slice(bench.alloc, bytes)?)
}

/// Spoils a file of the store: `remove` takes it away, `cut` its last byte, and `raise` raises its first byte by one.
pub(crate) fn spoil(bench: &mut Bench, how: &str, name: &str) -> Result<(), Miss> {
    let mut bytes = content(bench, name)?;
    match how {
        "remove" => return bench.store.remove(name).map_err(of_put),
        "cut" => {
            bytes.pop().ok_or(Miss::Form)?;
        }
        "raise" => {
            let first = bytes.first_mut().ok_or(Miss::Form)?;
            *first = first.wrapping_add(1);
        }
        _ => return Err(Miss::Form),
    }
    bench.store.put(name, &bytes).map_err(of_put)
}

fn of_put(error: PutError) -> Miss {
    match error {
        PutError::Memory => Miss::Memory,
        PutError::Failed => Miss::Form,
    }
}

/// `fuse CALLS`: the store passes this number of calls, and fails each one after them.
pub(crate) fn fuse(bench: &mut Bench, calls: u64) -> Result<(), Miss> {
    let fresh = bench.new_store(None)?;
    let store = bench.replace_store(fresh);
    bench.store = store.with_fuse(calls);
    Ok(())
}

// `wear CALLS`: the store as it is passes this number of further calls, and fails each one after them.
fn wear(bench: &mut Bench, calls: u64) -> Result<(), Miss> {
    let fresh = bench.new_store(None)?;
    let store = bench.replace_store(fresh);
    bench.store = store.with_fuse(calls);
    Ok(())
}

/// `crash HOW`: what is left of the store. What was put since the last flush is as it was, as it was put, missing or
/// junk.
pub(crate) fn crash(bench: &mut Bench, how: Crash) -> Result<(), Miss> {
    let fresh = bench.new_store(None)?;
    let store = bench.replace_store(fresh);
    bench.store = store.crash(how);
    Ok(())
}

fn crash_of(word: &str) -> Result<Crash, Miss> {
    match word {
        "old" => Ok(Crash::Old),
        "new" => Ok(Crash::New),
        "absent" => Ok(Crash::Absent),
        "junk" => Ok(Crash::Junk),
        _ => Err(Miss::Form),
    }
}
