//! Carries out the lines of its standard input. Each is a call of one of the crates that read configurations, scans,
//! checkpoints and the texts of an output.
#![tactic(auto)]

mod bytes;
mod checkpoints;
mod configs;
mod crashes;
mod differences;
mod files;
mod hierarchies;
mod las;
mod merges;
mod numbers;
mod parts;
mod phases;
mod plans;
mod points;
mod publishing;
mod readings;
mod row;
mod saves;
mod scans;
mod stop;
mod texts;

use crate::row::Row;
use crate::stop::{Answered, Stop};
use std::io;

fn main(rt: HostRuntime) -> io::Result<()> {
    let alloc = rt.alloc();
    let all = io::read_to_string(alloc, rt.reader())?;
    for line in all.lines() {
        let mut answer = String::new(alloc);
        let row = Row {
            alloc,
            all: &all,
            rest: line,
        };
        match answer_line(row, &mut answer) {
            Ok(()) => println!(rt; "{answer}")?,
            Err(Stop::BadLine) => println!(rt; "?")?,
            Err(Stop::Memory) => println!(rt; "memory")?,
        }
    }
    Ok(())
}

// Copies a comment, an empty line and a line that gives a name, and carries out each other line.
fn answer_line(row: Row<'_>, out: &mut String) -> Answered {
    let line = row.rest;
    let (call, rest) = line.split_once(' ').unwrap_or((line, ""));
    match call {
        "" | "#" | "let" => Ok(out.push_str(line)?),
        _ => answer(Row { rest, ..row }, call, out),
    }
}

fn answer(row: Row<'_>, call: &str, out: &mut String) -> Answered {
    match call {
        "config" => configs::config(row, out),
        "config-bytes" => configs::config_bytes(row, out),
        "settings" => configs::settings(row, out),
        "kept" => configs::kept(row, out),
        "path" => configs::path(row, out),
        "reference" => configs::reference(row, out),
        "hierarchy" => hierarchies::hierarchy(row, out),
        "hierarchy-file" => hierarchies::hierarchy_file(row, out),
        "hierarchy-again" => hierarchies::hierarchy_again(row, out),
        "scan" => scans::scan_all(row, out),
        "scan-from" => scans::scan_from(row, out),
        "extent" => scans::extent(row, out),
        "read" => readings::read(row, out),
        "read-packed" => readings::read_packed(row, out),
        "checkpoint" => checkpoints::checkpoint(row, out),
        "body" => checkpoints::body(row, out),
        "body-parts" => checkpoints::body_parts(row, out),
        "metadata" => texts::metadata(row, out),
        "manifest" => texts::manifest(row, out),
        "build" => texts::build(row, out),
        "build-file" => texts::build_file(row, out),
        "build-bytes" => texts::build_bytes(row, out),
        "differs" => differences::differs(row, out),
        "plan" => plans::plan(row, out),
        "open" => saves::open_store(row, out),
        "load" => saves::load(row, out),
        "save" => saves::save(row, out),
        "migrate" => saves::take_over(row, out),
        "done" => saves::done(row, out),
        "crash" => crashes::crash(row, out),
        "phase-load" => phases::load(row, out),
        "phase-save" => phases::save(row, out),
        "publish" => publishing::publish_nodes(row, out),
        "part" => parts::make(row, out),
        "merge" => merges::merge_parts(row, out),
        "merge-stop" => merges::merge_stopped(row, out),
        _ => Err(Stop::BadLine),
    }
}
