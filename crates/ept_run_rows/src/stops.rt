//! Lines that run a build, a part or a merge again. Before that they stop it at each call of a device in turn, or spoil
//! a file that a build left.

use crate::bench::Bench;
use crate::looks::{current, is_as_before, is_same, is_same_output};
use crate::runs::append_end;
use crate::stores::{crash, fail_at, fuse, renew, spoil};
use crate::words::{Miss, first_word, range};
use ept_mem::Crash;
use std::fmt::Write;
use std::sync::Wait;
use std::thread::Threads;

// The words of the build.
const BUILD: &str = "build|a.json|out";

// The words of a build of more inputs.
const MORE: &str = "build|b.json|out";

/// Writes whether builds that were stopped resume.
pub(crate) fn answer<R: Threads + Wait + Sync>(
    rt: &R,
    bench: &mut Bench,
    call: &str,
    rest: &str,
    out: &mut String,
) -> Result<(), Miss> {
    let (first, others) = first_word(rest);
    match call {
        "stops" => {
            let (calls, line) = range(rest)?;
            stops(rt, bench, calls, line, out)
        }
        "fails" => {
            let (calls, line) = range(others)?;
            fails(rt, bench, first, calls, line, out)
        }
        "halts" => {
            let (calls, rest) = range(rest)?;
            let (words, line) = first_word(rest);
            halts(rt, bench, calls, words, line, out)
        }
        "spoils" => spoils(rt, bench, first, others, out),
        _ => Err(Miss::Form),
    }
}

// A checkpoint: how many points it has, and its generation.
type Checkpoint = (u64, u64);

// `stops FIRST LAST LINE`: stops a build after FIRST, .. calls of its store, fewer than LAST. What was not yet flushed
// is then as it was, as it was put, missing or junk. Each time the build is run again: then it ends with this line, and
// the files are those that are kept. Writes how often, and which checkpoints the stopped builds left.
fn stops<R: Threads + Wait + Sync>(
    rt: &R,
    bench: &mut Bench,
    (first, last): (u64, u64),
    line: &str,
    out: &mut String,
) -> Result<(), Miss> {
    let mut seen = Vec::new(bench.alloc);
    for calls in first..last {
        if !all_go_on(rt, bench, calls, line, &mut seen)? {
            write!(out, "stopped after {calls}: ")?;
            return append_end(bench, out);
        }
    }
    append_checkpoints(&mut seen, out)
}

// Whether the build resumes from what each kind of stop after this number of calls leaves.
fn all_go_on<R: Threads + Wait + Sync>(
    rt: &R,
    bench: &mut Bench,
    calls: u64,
    line: &str,
    seen: &mut Vec<Checkpoint>,
) -> Result<bool, Miss> {
    for how in [Crash::Old, Crash::New, Crash::Absent, Crash::Junk] {
        renew(bench)?;
        fuse(bench, calls)?;
        bench.carry_out(rt, BUILD)?;
        crash(bench, how)?;
        let checkpoint = current(bench.alloc, &mut bench.store)?;
        if !seen.contains(&checkpoint) {
            seen.push(checkpoint)?;
        }
        if !goes_on(rt, bench, line)? {
            return Ok(false);
        }
    }
    Ok(true)
}

// Runs the build again: whether it ends with this line, and its files are those that are kept.
fn goes_on<R: Threads + Wait + Sync>(rt: &R, bench: &mut Bench, line: &str) -> Result<bool, Miss> {
    bench.carry_out(rt, BUILD)?;
    Ok(bench.left.status == 0 && written(bench) == line && is_same(bench))
}

// What the last run wrote, without the line feed at its end.
fn written(bench: &Bench) -> &str {
    str::from_utf8(&bench.left.written).unwrap_or("").trim_end()
}

fn append_checkpoints(seen: &mut Vec<Checkpoint>, out: &mut String) -> Result<(), Miss> {
    seen.sort()?;
    out.push_str("each goes on, from")?;
    for (points, generation) in seen.iter() {
        write!(out, " {points}/{generation}")?;
    }
    Ok(())
}

// `halts FIRST LAST WORDS LINE`: stops these words after FIRST, .. calls of the store. It ends with the first words
// that are carried out all the same, or at LAST. What was not yet flushed is then as it was, as it was put, missing or
// junk. Each time they are run again, or the build if the folder has a checkpoint by then. That ends with this line,
// and the files are those that are kept. Writes whether it was ever the build.
fn halts<R: Threads + Wait + Sync>(
    rt: &R,
    bench: &mut Bench,
    (first, last): (u64, u64),
    words: &str,
    line: &str,
    out: &mut String,
) -> Result<(), Miss> {
    let mut is_built = false;
    for calls in first..last {
        let mut is_done = false;
        for how in [Crash::Old, Crash::New, Crash::Absent, Crash::Junk] {
            is_done = is_halted(rt, bench, calls, words, how)?;
            if !comes_again(rt, bench, words, line, &mut is_built)? {
                write!(out, "stopped after {calls}: ")?;
                return append_end(bench, out);
            }
        }
        if is_done {
            break;
        }
    }
    out.push_str(if is_built {
        "each goes on, some by a build"
    } else {
        "each goes on"
    })?;
    Ok(())
}

// Runs the words over a new store that fails after this number of calls, and then crashes. Whether they were carried
// out.
fn is_halted<R: Threads + Wait + Sync>(
    rt: &R,
    bench: &mut Bench,
    calls: u64,
    words: &str,
    how: Crash,
) -> Result<bool, Miss> {
    renew(bench)?;
    fuse(bench, calls)?;
    bench.carry_out(rt, words)?;
    let is_done = bench.left.status == 0;
    crash(bench, how)?;
    Ok(is_done)
}

// Runs the words again, or the build if they are refused because of a checkpoint, which is noted. Returns whether that
// ends with this line, and the files are those that are kept.
fn comes_again<R: Threads + Wait + Sync>(
    rt: &R,
    bench: &mut Bench,
    words: &str,
    line: &str,
    is_built: &mut bool,
) -> Result<bool, Miss> {
    bench.carry_out(rt, words)?;
    if written(bench) == "error 6 checkpoint" {
        *is_built = true;
        return goes_on(rt, bench, line);
    }
    Ok(bench.left.status == 0 && written(bench) == line && is_same(bench))
}

// `fails DEVICE FIRST LAST LINE`: lets the calls FIRST, .. of a device fail in a build, one in each build. It ends with
// the first build that is done all the same, or at LAST. Each build that is refused ends with status 7 and says which
// device it is. Then comes a crash that leaves what was put. The build is run again over that, with sound devices. It
// ends with this line, and the files are those that are kept.
fn fails<R: Threads + Wait + Sync>(
    rt: &R,
    bench: &mut Bench,
    device: &str,
    (first, last): (u64, u64),
    line: &str,
    out: &mut String,
) -> Result<(), Miss> {
    for call in first..last {
        let is_done = is_done(rt, bench, device, call)?;
        let is_told = is_done || is_said(bench, device, line);
        crash(bench, Crash::New)?;
        if !is_told || !goes_on(rt, bench, line)? {
            write!(out, "call {call}: ")?;
            return append_end(bench, out);
        }
        if is_done {
            out.push_str("done, and each goes on")?;
            return Ok(());
        }
    }
    out.push_str("refused, and each goes on")?;
    Ok(())
}

// Builds into a new store over devices, one of which fails at its call of this number. They are sound again after it.
fn is_done<R: Threads + Wait + Sync>(
    rt: &R,
    bench: &mut Bench,
    device: &str,
    call: u64,
) -> Result<bool, Miss> {
    renew(bench)?;
    let sound = bench.faults;
    fail_at(bench, device, call)?;
    let ended = bench.carry_out(rt, BUILD);
    bench.faults = sound;
    ended?;
    Ok(bench.left.status == 0)
}

// Whether the last run says that this device failed. A sink says it if only the beginning of this line was written.
fn is_said(bench: &Bench, device: &str, line: &str) -> bool {
    let written = written(bench);
    let is_right = match device {
        "open" | "read" => written == "error 7 source",
        "store" => written == "error 7 store",
        "write" => line.starts_with(written),
        _ => written == "error 7 spill",
    };
    bench.left.status == 7 && is_right
}

// `spoils HOW NAME`: builds into a new store, spoils a file of it, and builds more inputs. Writes how that ended, and
// whether the files are right. If the build is done, the output is the one that is kept. Otherwise each file is as it
// was.
fn spoils<R: Threads + Wait + Sync>(
    rt: &R,
    bench: &mut Bench,
    how: &str,
    name: &str,
    out: &mut String,
) -> Result<(), Miss> {
    build_and_spoil(rt, bench, how, name)?;
    let fresh = bench.new_store(None)?;
    bench.before = bench.replace_store(fresh);
    build_and_spoil(rt, bench, how, name)?;
    bench.carry_out(rt, MORE)?;
    append_end(bench, out)?;
    let is_right = if bench.left.status == 0 {
        is_same_output(bench)
    } else {
        is_as_before(bench)
    };
    out.push_str(if is_right { " right" } else { " other" })?;
    Ok(())
}

// Builds into a new store, and spoils a file of it.
fn build_and_spoil<R: Threads + Wait + Sync>(
    rt: &R,
    bench: &mut Bench,
    how: &str,
    name: &str,
) -> Result<(), Miss> {
    renew(bench)?;
    bench.carry_out(rt, BUILD)?;
    spoil(bench, how, name)
}
