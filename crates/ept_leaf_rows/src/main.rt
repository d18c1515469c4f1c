//! Rows of calls of the lower crates: each line of the input makes one, and the program prints its result.
#![tactic(auto)]

mod filters;
mod grids;
mod las;
mod lying;
mod machine;
mod nodes;
mod notation;
mod numbers;
mod octrees;
mod packing;
mod sampling;
mod slots;
mod space;
mod words;
mod writing;

use crate::words::{Miss, Words};
use std::alloc::Global;
use std::io::{self, BufRead, BufReader};

fn main(rt: HostRuntime) -> io::Result<()> {
    let mut out = String::new(rt.alloc());
    for line in BufReader::new(rt.alloc(), rt.reader())?.lines(rt.alloc()) {
        let line = line?;
        out.clear();
        match answer(rt.alloc(), line.as_str(), &mut out) {
            Ok(()) => println!(rt; "{out}")?,
            Err(Miss::Form) => println!(rt; "?")?,
            Err(Miss::Memory) => println!(rt; "memory")?,
        }
    }
    Ok(())
}

// Writes the result of a line, which is the line itself if it is a comment or empty.
fn answer(alloc: Global, line: &str, out: &mut String) -> Result<(), Miss> {
    if line.is_empty() || line.starts_with('#') {
        out.push_str(line)?;
        return Ok(());
    }
    let mut words = Words::of(line);
    let subject = words.word()?;
    let call = words.word()?;
    match subject {
        "num" | "json" | "clock" => numbers::answer(alloc, call, &mut words, out),
        "point" => packing::answer(alloc, call, &mut words, out),
        "filter" => filters::answer(alloc, call, &mut words, out),
        "space" => space::answer(alloc, call, &mut words, out),
        "las" => las::answer(alloc, call, &mut words, out),
        "sample" => sampling::answer(alloc, call, &mut words, out),
        "grid" => grids::answer(alloc, call, &mut words, out),
        "core" => machine::answer(alloc, call, &mut words, out),
        "node" => nodes::answer(alloc, call, &mut words, out),
        "forest" => slots::answer(alloc, call, &mut words, out),
        "octree" => octrees::answer(alloc, call, &mut words, out),
        _ => Err(Miss::Form),
    }
}
