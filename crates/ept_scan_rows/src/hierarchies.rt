//! Hierarchy files.

use crate::bytes::{bytes_of, show};
use crate::row::Row;
use crate::stop::{Answered, Stop};
use ept_hier::{HierError, HierFile, hierarchy_files, keys_ascend, read_hierarchy_file};
use ept_point::Memory;
use ept_space::{Key, read_key};
use std::alloc::Global;

/// A node with the number of its points.
type Counted = (Key, u64);

/// `hierarchy STEP NODES`: the files of these nodes, each with its key.
pub(crate) fn hierarchy(row: Row<'_>, out: &mut String) -> Answered {
    let (step, words) = row.rest.split_once(' ').ok_or(Stop::BadLine)?;
    let step = step.parse().ok().ok_or(Stop::BadLine)?;
    match files_of(row, step, words)? {
        Some(files) => show_files(&files, out),
        None => Ok(out.push_str("not ascending")?),
    }
}

// The files of the nodes `KEY=COUNT`, where their keys ascend.
fn files_of(row: Row<'_>, step: u8, words: &str) -> Result<Option<Vec<HierFile>>, Stop> {
    let nodes = nodes_of(row, words)?;
    if keys_ascend(&nodes) {
        Ok(Some(hierarchy_files(row.alloc, &nodes, step)?))
    } else {
        Ok(None)
    }
}

fn nodes_of(row: Row<'_>, words: &str) -> Result<Vec<Counted>, Stop> {
    let mut nodes = Vec::new(row.alloc);
    for word in words.split(' ').filter(|word| *word != "-") {
        nodes.push(node(word)?)?;
    }
    Ok(nodes)
}

fn node(word: &str) -> Result<Counted, Stop> {
    let (key, count) = word.split_once('=').ok_or(Stop::BadLine)?;
    let key = read_key(key.as_bytes()).ok_or(Stop::BadLine)?;
    let count = count.parse().ok().ok_or(Stop::BadLine)?;
    Ok((key, count))
}

fn show_files(files: &[HierFile], out: &mut String) -> Answered {
    write!(out, "{} files", files.len())?;
    for file in files {
        out.push(' ')?;
        show_key(&file.key, out)?;
        out.push(' ')?;
        show(file.text.as_slice(), out)?;
    }
    Ok(())
}

/// Appends a key as `D-X-Y-Z`.
pub(crate) fn show_key(key: &Key, out: &mut String) -> Answered {
    Ok(write!(out, "{}-{}-{}-{}", key.depth, key.x, key.y, key.z)?)
}

/// `hierarchy-file BYTES`: the entries of a file, after an entry `0-0-0-0=-1` that was there before.
pub(crate) fn hierarchy_file(row: Row<'_>, out: &mut String) -> Answered {
    let bytes = bytes_of(row, row.rest)?;
    let mut entries = Vec::new(row.alloc);
    entries.push((Key::ROOT, -1))?;
    if let Err(refusal) = read_hierarchy_file(row.alloc, &bytes, &mut entries) {
        write!(out, "refused {refusal:?}")?;
    } else {
        out.push_str("accepted")?;
    }
    show_entries(&entries, out)
}

fn show_entries(entries: &[(Key, i64)], out: &mut String) -> Answered {
    for (key, count) in entries {
        out.push(' ')?;
        show_key(key, out)?;
        write!(out, "={count}")?;
    }
    Ok(())
}

/// `hierarchy-again STEP NODES`: how many files these nodes have. It also reports how many entries all files have
/// together, how many of these are links, and the sum of the counts of the others.
pub(crate) fn hierarchy_again(row: Row<'_>, out: &mut String) -> Answered {
    let (step, words) = row.rest.split_once(' ').ok_or(Stop::BadLine)?;
    let step = step.parse().ok().ok_or(Stop::BadLine)?;
    match files_of(row, step, words)? {
        Some(files) => read_again(row.alloc, &files, out),
        None => Ok(out.push_str("not ascending")?),
    }
}

fn read_again(alloc: Global, files: &[HierFile], out: &mut String) -> Answered {
    let mut entries = Vec::new(alloc);
    for file in files {
        if let Err(refusal) = read_hierarchy_file(alloc, file.text.as_slice(), &mut entries) {
            return Ok(write!(out, "refused {refusal:?}")?);
        }
    }
    let links = entries.iter().filter(|entry| entry.1 == -1).count();
    let sum = entries
        .iter()
        .filter(|entry| entry.1 != -1)
        .fold(0i64, |sum, entry| sum.saturating_add(entry.1));
    Ok(write!(
        out,
        "{} files, {} entries, {links} links, {sum} points",
        files.len(),
        entries.len()
    )?)
}
