//! Reads rows from stdin, each a call with its arguments, and prints what the call returns.
#![tactic(auto)]

mod connections;
mod crowds;
mod escaped;
mod folder;
mod heads;
mod polls;
mod queries;
mod row;
mod turns;
mod words;

use crate::folder::Folder;
use crate::row::RowError;
use std::io;
use std::random::RandomSource;
use std::sync::Wait;

fn main(rt: HostRuntime) -> io::Result<()> {
    let mut folder = Folder::new(rt.alloc());
    for line in rt.lines(rt.alloc()) {
        print_answer(&rt, &mut folder, line?.as_str())?;
    }
    Ok(())
}

// Prints the result of a row. Empty lines and comments are copied.
fn print_answer<R: Print + Wait + RandomSource + AllocGlobal>(
    rt: &R,
    folder: &mut Folder,
    line: &str,
) -> io::Result<()> {
    if line.is_empty() || line.starts_with('#') {
        return rt.println(line);
    }
    let mut answer = String::new(rt.alloc());
    match answer_row(rt, folder, line, &mut answer) {
        Ok(()) => rt.println(answer.as_str()),
        Err(RowError::Form) => rt.println("?"),
        Err(RowError::Memory) => rt.println("memory"),
        Err(RowError::System) => rt.println("system"),
    }
}

// Writes what the call of a row returns.
fn answer_row<R: Wait + RandomSource + AllocGlobal>(
    rt: &R,
    folder: &mut Folder,
    line: &str,
    answer: &mut String,
) -> Result<(), RowError> {
    let alloc = rt.alloc();
    let (call, text) = line.split_once(' ').unwrap_or((line, ""));
    match call {
        "head" => heads::head(alloc, text, answer),
        "box" => heads::area(text, answer),
        "depths" => heads::depths(text, answer),
        "answer" => heads::answer_head(text, answer),
        "folder" => folder.empty(answer),
        "file" => folder.add(text, answer),
        "query" => queries::query_row(alloc, folder, text, answer),
        "select" => queries::select_row(alloc, folder, text, answer),
        "again" => queries::again(alloc, folder, text, answer),
        "plan" => queries::plan(alloc, folder, text, answer),
        "turns" => turns::turns(alloc, text, answer),
        "serve" => connections::serve(alloc, folder, text, answer),
        "poll" => polls::poll(rt, folder, text, answer),
        "polls" => polls::polls(rt, folder, text, answer),
        "crowd" => crowds::crowd(rt, folder, text, answer),
        "turn" => crowds::one_turn(rt, folder, text, answer),
        "words" => words::words(alloc, text, answer),
        _ => Err(RowError::Form),
    }
}
