//! Calls of `ept_sample`.

use crate::notation::{classes_of, cube_of, points_of};
use crate::words::{Miss, Words};
use crate::writing::write_tiles;
use ept_sample::{are_in_cube, ids_ascend, sample};
use ept_space::Rules;
use std::alloc::Global;

/// Carries out a call, and writes its result.
pub(crate) fn answer(
    alloc: Global,
    call: &str,
    words: &mut Words<'_>,
    out: &mut String,
) -> Result<(), Miss> {
    match call {
        "nodes" => nodes(alloc, words, out),
        "groups" => groups(alloc, words, out),
        _ => Err(Miss::Form),
    }
}

/// A cube and a threshold, which are the next two words.
pub(crate) fn rules_of(words: &mut Words<'_>) -> Result<Rules, Miss> {
    let cube = cube_of(words.word()?)?;
    Ok(Rules::plain(cube, words.number()?))
}

// `sample nodes CUBE THRESHOLD POINT POINT ..`: the nodes of the sampling of the points.
fn nodes(alloc: Global, words: &mut Words<'_>, out: &mut String) -> Result<(), Miss> {
    let rules = rules_of(words)?;
    write_nodes(alloc, &rules, words, out)
}

// `sample groups CUBE THRESHOLD LIST LAST POINT POINT ..`: the same if these classes come first, and withheld points
// last if LAST is 1.
fn groups(alloc: Global, words: &mut Words<'_>, out: &mut String) -> Result<(), Miss> {
    let mut rules = rules_of(words)?;
    rules.first = classes_of(alloc, words.word()?)?;
    rules.withheld_last = words.number::<u8>()? == 1;
    write_nodes(alloc, &rules, words, out)
}

fn write_nodes(
    alloc: Global,
    rules: &Rules,
    words: &Words<'_>,
    out: &mut String,
) -> Result<(), Miss> {
    let points = points_of(alloc, words.rest())?;
    if !ids_ascend(points.as_slice()) || !are_in_cube(points.as_slice(), &rules.cube) {
        return Err(Miss::Form);
    }
    let tiles = sample(alloc, points.as_slice(), rules)?;
    write_tiles(&tiles, out)
}
