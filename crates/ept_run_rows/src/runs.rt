//! Lines that run the words of a command line.

use crate::bench::Bench;
use crate::looks::append_bytes;
use crate::stores::renew;
use crate::words::{Miss, first_word};
use ept_rendezvous::MeetGate;
use std::fmt::Write;
use std::sync::Wait;
use std::thread::Threads;

/// Runs the words of a line, and writes how that ended.
pub(crate) fn answer<R: Threads + Wait + Sync>(
    rt: &R,
    bench: &mut Bench,
    call: &str,
    rest: &str,
    out: &mut String,
) -> Result<(), Miss> {
    match call {
        "run" => {
            bench.carry_out(rt, rest)?;
            append_end(bench, out)
        }
        "query" => query(rt, bench, rest, out),
        "select" => select(rt, bench, rest, out),
        "meet" => meet(rt, bench, rest, out),
        _ => Err(Miss::Form),
    }
}

/// Writes the status of the last run, the text that it wrote, and whether the metadata are in the store. If the file
/// `other` is no longer what it was, it also writes that this file is lost.
pub(crate) fn append_end(bench: &Bench, out: &mut String) -> Result<(), Miss> {
    let text = str::from_utf8(&bench.left.written).unwrap_or("no text");
    let left = if bench.store.file("ept.json").is_some() {
        "complete"
    } else {
        "nothing"
    };
    write!(out, "{} {text:?} {left}", bench.left.status)?;
    if bench.store.file("other") != Some(b"kept".as_slice()) {
        out.push_str(" lost")?;
    }
    Ok(())
}

// `query BOX DEPTHS`: the status of a query of the folder, and the bytes of its points.
fn query<R: Threads + Wait + Sync>(
    rt: &R,
    bench: &mut Bench,
    asked: &str,
    out: &mut String,
) -> Result<(), Miss> {
    let (area, depths) = first_word(asked);
    let words = format!(in bench.alloc; "query|out|{area}|{depths}")?;
    ask(rt, bench, words.as_str(), out)
}

// `select BOX DEPTHS CLASSES TIME DIMS`: the status of a selection from the folder, and the bytes of what it keeps.
fn select<R: Threads + Wait + Sync>(
    rt: &R,
    bench: &mut Bench,
    asked: &str,
    out: &mut String,
) -> Result<(), Miss> {
    let (area, rest) = first_word(asked);
    let (depths, rest) = first_word(rest);
    let (classes, rest) = first_word(rest);
    let (time, dims) = first_word(rest);
    let words = format!(in bench.alloc; "select|out|{area}|{depths}|{classes}|{time}|{dims}")?;
    ask(rt, bench, words.as_str(), out)
}

// Runs words that ask for points, and writes the status and the bytes.
fn ask<R: Threads + Wait + Sync>(
    rt: &R,
    bench: &mut Bench,
    words: &str,
    out: &mut String,
) -> Result<(), Miss> {
    bench.carry_out(rt, words)?;
    write!(out, "{} ", bench.left.status)?;
    append_bytes(out, &bench.left.written)
}

// How often a worker that is held checks for another worker, at most.
const TURNS: u64 = 10_000_000;

// The number of attempts, in case the machine lets no other worker run while one is held.
const TRIES: usize = 4;

// `meet WORDS`: runs the words through a gate that holds a worker in a node until another worker is in another node.
// Writes how that ended once two workers met. Each attempt begins with a new store.
fn meet<R: Threads + Wait + Sync>(
    rt: &R,
    bench: &mut Bench,
    words: &str,
    out: &mut String,
) -> Result<(), Miss> {
    for _ in 0..TRIES {
        let gate = MeetGate::new(TURNS);
        renew(bench)?;
        bench.run(rt, words, &gate)?;
        if gate.met() {
            out.push_str("met ")?;
            return append_end(bench, out);
        }
    }
    out.push_str("no worker met another one")?;
    Ok(())
}
