//! Lines that look at what a run left.

use crate::bench::Bench;
use crate::words::{Miss, first_word, number};
use ept_mem::MemStore;
use ept_save::open;
use std::alloc::Global;
use std::fmt::Write;

/// Writes what a line looks at.
pub(crate) fn answer(
    bench: &mut Bench,
    call: &str,
    rest: &str,
    out: &mut String,
) -> Result<(), Miss> {
    let (name, text) = first_word(rest);
    match call {
        "has" => has(bench, rest, out),
        "show" => show(bench, name, out),
        "bytes" => bytes(bench, name, out),
        "size" => size(bench, name, out),
        "begins" => tell(out, text_of(&bench.store, name).starts_with(text)),
        "ends" => tell(out, text_of(&bench.store, name).ends_with(text)),
        "part" => tell(out, text_of(&bench.store, name).contains(text)),
        "names" => names(bench, rest, out),
        "same" => same(bench, out),
        "keeps" => tell(out, number(name)? <= bench.left.keeps),
        "kept" => Ok(write!(out, "{}", bench.left.keeps)?),
        "checkpoint" => checkpoint(bench.alloc, &mut bench.store, out),
        _ => Err(Miss::Form),
    }
}

// Whether it is so.
fn tell(out: &mut String, is_so: bool) -> Result<(), Miss> {
    out.push_str(if is_so { "yes" } else { "no" })?;
    Ok(())
}

// The text of a file of the store; empty if there is no such file.
fn text_of<'a>(store: &'a MemStore, name: &str) -> &'a str {
    str::from_utf8(store.file(name).unwrap_or(b"")).unwrap_or("")
}

// `has NAME ..`: whether the store has each of these files.
fn has(bench: &Bench, names: &str, out: &mut String) -> Result<(), Miss> {
    for name in names.split(' ') {
        if !out.is_empty() {
            out.push(' ')?;
        }
        tell(out, bench.store.file(name).is_some())?;
    }
    Ok(())
}

// `show NAME`: the text of a file of the store.
fn show(bench: &Bench, name: &str, out: &mut String) -> Result<(), Miss> {
    out.push_str(match bench.store.file(name) {
        Some(bytes) => str::from_utf8(bytes).unwrap_or("no text"),
        None => "none",
    })?;
    Ok(())
}

// `bytes NAME`: the bytes of a file of the store.
fn bytes(bench: &Bench, name: &str, out: &mut String) -> Result<(), Miss> {
    match bench.store.file(name) {
        Some(bytes) => append_bytes(out, bytes),
        None => Ok(out.push_str("none")?),
    }
}

// `size NAME`: how many bytes a file of the store has.
fn size(bench: &Bench, name: &str, out: &mut String) -> Result<(), Miss> {
    match bench.store.file(name) {
        Some(bytes) => Ok(write!(out, "{}", bytes.len())?),
        None => Ok(out.push_str("none")?),
    }
}

/// Writes how many bytes there are, and then each that is not zero with its place.
pub(crate) fn append_bytes(out: &mut String, bytes: &[u8]) -> Result<(), Miss> {
    write!(out, "{} bytes", bytes.len())?;
    for (place, byte) in bytes.iter().enumerate() {
        if *byte != 0 {
            write!(out, " {place}:{byte:02x}")?;
        }
    }
    Ok(())
}

// `names NAME ..`: the files that are compared from now on.
fn names(bench: &mut Bench, names: &str, out: &mut String) -> Result<(), Miss> {
    bench.names.clear();
    for name in names.split(' ') {
        bench.names.push(String::from_str(bench.alloc, name)?)?;
    }
    write!(out, "{} names", bench.names.len())?;
    Ok(())
}

// `same`: how many of the files are there and the same in both stores, and how many are in neither.
fn same(bench: &Bench, out: &mut String) -> Result<(), Miss> {
    let mut present = 0u32;
    let mut absent = 0u32;
    for name in &bench.names {
        let left = bench.store.file(name.as_str());
        if left != bench.kept.file(name.as_str()) {
            write!(out, "differs {name}")?;
            return Ok(());
        }
        match left {
            Some(_) => present = present.saturating_add(1),
            None => absent = absent.saturating_add(1),
        }
    }
    write!(out, "{present} same, {absent} absent")?;
    Ok(())
}

/// Whether each of the files is the same in both stores, or in neither.
pub(crate) fn is_same(bench: &Bench) -> bool {
    bench.names.iter().all(|name| bench.store.file(name.as_str()) == bench.kept.file(name.as_str()))
}

/// Whether each of the files, except those of `ept-work`, is the same in both stores, or in neither.
pub(crate) fn is_same_output(bench: &Bench) -> bool {
    bench
        .names
        .iter()
        .filter(|name| !name.as_str().starts_with("ept-work/"))
        .all(|name| bench.store.file(name.as_str()) == bench.kept.file(name.as_str()))
}

/// Whether each of the files is as it was in the spoiled store.
pub(crate) fn is_as_before(bench: &Bench) -> bool {
    bench.names.iter().all(|name| bench.store.file(name.as_str())
        == bench.before.file(name.as_str()))
}

/// How many points the current checkpoint of a store has, and which generation it is; no points and no generation if
/// there is none.
pub(crate) fn current(alloc: Global, store: &mut MemStore) -> Result<(u64, u64), Miss> {
    let Ok(saved) = open(alloc, store) else {
        return Err(Miss::Form);
    };
    Ok(
        saved.current().map_or((0, 0), |checkpoint| {
            (checkpoint.inserted, checkpoint.generation)
        }),
    )
}

// `checkpoint`: how many points the current checkpoint has, and which generation it is.
fn checkpoint(alloc: Global, store: &mut MemStore, out: &mut String) -> Result<(), Miss> {
    let (inserted, generation) = current(alloc, store)?;
    write!(out, "{inserted} points in generation {generation}")?;
    Ok(())
}
