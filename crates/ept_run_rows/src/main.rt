//! Rows of builds, parts, merges, queries, selections, checks and trials over devices in memory. A line of the input
//! makes a file, lets a call fail, runs a command line or looks at what a run left. The program prints its result.
#![tactic(auto)]

mod bench;
mod devices;
mod files;
mod looks;
mod runs;
mod sentences;
mod stops;
mod stores;
mod words;

use crate::bench::Bench;
use crate::words::{Miss, first_word};
use std::io;
use std::sync::Wait;
use std::thread::Threads;

fn main(rt: HostRuntime) -> io::Result<()> {
    let mut bench = Bench::new(rt.alloc());
    let mut out = String::new(rt.alloc());
    answer_lines(&rt, &mut bench, &mut out)
}

// Prints the result of each line.
fn answer_lines<R: Input + Print + AllocGlobal + Threads + Wait + Sync>(
    rt: &R,
    bench: &mut Bench,
    out: &mut String,
) -> io::Result<()> {
    for line in rt.lines(rt.alloc()) {
        out.clear();
        match answer(rt, bench, line?.as_str(), out) {
            Ok(()) => println!(rt; "{out}")?,
            Err(Miss::Form) => println!(rt; "?")?,
            Err(Miss::Memory) => println!(rt; "memory")?,
        }
    }
    Ok(())
}

// Writes the result of a line, which is the line itself if it is a comment or empty.
fn answer<R: Threads + Wait + Sync>(
    rt: &R,
    bench: &mut Bench,
    line: &str,
    out: &mut String,
) -> Result<(), Miss> {
    if line.is_empty() || line.starts_with('#') {
        out.push_str(line)?;
        return Ok(());
    }
    let (call, rest) = first_word(line);
    match call {
        "new" | "text" | "scan" | "zeros" | "set" | "add" | "cut" | "pad" | "generate" => {
            files::change(bench, call, rest)?;
            done(out)
        }
        "fail"
        | "forget"
        | "sink"
        | "store"
        | "keep"
        | "base"
        | "put"
        | "damage"
        | "remove"
        | "swap"
        | "replace"
        | "fuse"
        | "wear"
        | "crash" => {
            stores::change(bench, call, rest)?;
            done(out)
        }
        "run" | "query" | "select" | "meet" => runs::answer(rt, bench, call, rest, out),
        "stops" | "halts" | "fails" | "spoils" => stops::answer(rt, bench, call, rest, out),
        "say" | "starve" | "differ" | "differ-hex" => sentences::answer(bench, call, rest, out),
        _ => looks::answer(bench, call, rest, out),
    }
}

// The result of a line that changes something.
fn done(out: &mut String) -> Result<(), Miss> {
    out.push_str("ok")?;
    Ok(())
}
