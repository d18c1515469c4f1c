//! Queries over the folder.

use crate::escaped::push_escaped;
use crate::folder::Folder;
use crate::row::{RowError, cut, numbers};
use ept_filter::{Sift, read_sift};
use ept_http::{read_box, read_depths};
use ept_mem::{MemSink, MemStore};
use ept_query::{QueryError, QueryFile, QueryPlan, query, query_plan, query_tile, select};
use ept_space::{Box3, Key};
use std::alloc::{AllocError, Global};
use std::fmt::Write as _;

/// How many bytes the sink takes in one write.
const SINK: usize = 7;

/// What a query asks for.
#[derive(Clone, Copy)]
struct Question {
    area: Box3,
    depths: (u8, u8),
}

/// `query BOX DEPTHS STORE SINK`: the number of points or the refusal, and the bytes that were written. STORE and SINK
/// list the calls that fail.
pub(crate) fn query_row(
    alloc: Global,
    folder: &Folder,
    text: &str,
    answer: &mut String,
) -> Result<(), RowError> {
    let (question, text) = question_of(text)?;
    let (store, sink) = cut(text)?;
    let mut store = folder.store(store)?;
    let mut sink = MemSink::new(alloc, SINK, numbers(alloc, sink)?);
    ask(alloc, &mut store, &question, &mut sink, answer)
}

/// `select BOX DEPTHS CLASSES TIME DIMS STORE SINK`: the number of points that pass or the refusal, and the bytes that
/// were written.
pub(crate) fn select_row(
    alloc: Global,
    folder: &Folder,
    text: &str,
    answer: &mut String,
) -> Result<(), RowError> {
    let (question, text) = question_of(text)?;
    let (sift, text) = sift_of(text)?;
    let (store, sink) = cut(text)?;
    let mut store = folder.store(store)?;
    let mut sink = MemSink::new(alloc, SINK, numbers(alloc, sink)?);
    let Question { area, depths } = question;
    let found = select(alloc, &mut store, &area, depths, &sift, &mut sink);
    push_found(found, &sink, answer)
}

// The selection that a text begins with, and the rest of the text.
fn sift_of(text: &str) -> Result<(Sift, &str), RowError> {
    let (classes, text) = cut(text)?;
    let (time, text) = cut(text)?;
    let (dims, text) = cut(text)?;
    let sift = read_sift(classes.as_bytes(), time.as_bytes(), dims.as_bytes());
    Ok((sift.ok_or(RowError::Form)?, text))
}

/// `again BOX DEPTHS STORE`: the results of one query that runs twice over the same store and the same sink.
pub(crate) fn again(
    alloc: Global,
    folder: &Folder,
    text: &str,
    answer: &mut String,
) -> Result<(), RowError> {
    let (question, store) = question_of(text)?;
    let mut store = folder.store(store)?;
    let mut sink = MemSink::new(alloc, SINK, Vec::new(alloc));
    ask(alloc, &mut store, &question, &mut sink, answer)?;
    answer.push_str("; ")?;
    ask(alloc, &mut store, &question, &mut sink, answer)
}

// The question that a text begins with, and the rest of the text.
fn question_of(text: &str) -> Result<(Question, &str), RowError> {
    let (area, text) = cut(text)?;
    let (depths, text) = text.split_once(' ').unwrap_or((text, "-"));
    let area = read_box(area.as_bytes()).ok_or(RowError::Form)?;
    let depths = read_depths(depths.as_bytes()).ok_or(RowError::Form)?;
    Ok((Question { area, depths }, text))
}

fn ask(
    alloc: Global,
    store: &mut MemStore,
    question: &Question,
    sink: &mut MemSink,
    answer: &mut String,
) -> Result<(), RowError> {
    let found = query(alloc, store, &question.area, question.depths, sink);
    push_found(found, sink, answer)
}

// Writes how many points were found, or the refusal, and the bytes that were written.
fn push_found(
    found: Result<u64, QueryError>,
    sink: &MemSink,
    answer: &mut String,
) -> Result<(), RowError> {
    match found {
        Ok(count) => write!(answer, "{count}")?,
        Err(error) => push_refusal(answer, &error)?,
    }
    answer.push(' ')?;
    push_escaped(answer, sink.bytes())?;
    Ok(())
}

/// `plan BOX DEPTHS`: the key of each tile of the plan, with the number of its points in the box and their bytes.
pub(crate) fn plan(
    alloc: Global,
    folder: &Folder,
    text: &str,
    answer: &mut String,
) -> Result<(), RowError> {
    let (question, fails) = question_of(text)?;
    let mut store = folder.store(fails)?;
    match query_plan(alloc, &mut store, &question.area, question.depths) {
        Ok(plan) => push_plan(alloc, &mut store, &plan, answer),
        Err(error) => push_refusal(answer, &error),
    }
}

fn push_plan(
    alloc: Global,
    store: &mut MemStore,
    plan: &QueryPlan,
    answer: &mut String,
) -> Result<(), RowError> {
    if plan.is_empty() {
        answer.push_str("empty")?;
    }
    let mut bytes = Vec::from_slice(alloc, b"before")?;
    for number in 0..plan.len() {
        push_key(answer, &plan.key(number))?;
        answer.push(' ')?;
        match query_tile(alloc, store, plan, number, &mut bytes) {
            Ok(count) => write!(answer, "{count}")?,
            Err(error) => push_refusal(answer, &error)?,
        }
        answer.push(' ')?;
        push_escaped(answer, &bytes)?;
        answer.push(';')?;
    }
    Ok(())
}

fn push_refusal(answer: &mut String, error: &QueryError) -> Result<(), RowError> {
    answer.push_str("refused ")?;
    match error {
        QueryError::NotComplete => answer.push_str("NotComplete")?,
        QueryError::Damaged { file } => push_damaged(answer, file)?,
        QueryError::StoreFault => answer.push_str("StoreFault")?,
        QueryError::SinkFault => answer.push_str("SinkFault")?,
        QueryError::Memory => return Err(RowError::Memory),
    }
    Ok(())
}

/// Writes which file is damaged.
pub(crate) fn push_damaged(answer: &mut String, file: &QueryFile) -> Result<(), AllocError> {
    match file {
        QueryFile::BuildJson => answer.push_str("Damaged build"),
        QueryFile::Hierarchy(key) => push_keyed(answer, "hierarchy", key),
        QueryFile::Tile(key) => push_keyed(answer, "tile", key),
    }
}

fn push_keyed(answer: &mut String, kind: &str, key: &Key) -> Result<(), AllocError> {
    write!(answer, "Damaged {kind} ")?;
    push_key(answer, key)
}

fn push_key(answer: &mut String, key: &Key) -> Result<(), AllocError> {
    let Key { depth, x, y, z } = *key;
    write!(answer, "{depth}-{x}-{y}-{z}")
}
