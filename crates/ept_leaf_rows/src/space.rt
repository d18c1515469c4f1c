//! Calls of `ept_space`.

ghost use Rattle.std.specs.Prelude.{IsTrue};
ghost use Rattle.ept_space.specs.OctreeCube.{InBox, InCube};

use crate::notation::{bounds_of, box_of, cube_of, key_of, place_of, point_at, quoted};
use crate::words::{Miss, Words};
use crate::writing::write_key;
use ept_sample::are_in_cube;
use ept_space::{
    Cube, Key, cell, centre_distance, child, contains, meets, node_box, octant, read_key,
};
use std::alloc::Global;
use std::fmt::Write;

/// Carries out a call, and writes its result.
pub(crate) fn answer(
    alloc: Global,
    call: &str,
    words: &mut Words<'_>,
    out: &mut String,
) -> Result<(), Miss> {
    match call {
        "cube" => cube(words, out),
        "distance" => distance(words, out),
        "cell" => cell_at(words, out),
        "octant" => octant_at(words, out),
        "child" => child_at(words, out),
        "before" => before(words, out),
        "box" => box_at(words, out),
        "contains" => is_in(words, out),
        "meets" => do_meet(words, out),
        "key" => key(alloc, words, out),
        _ => Err(Miss::Form),
    }
}

// `space cube MIN..MAX S DEPTH`: the corner on an axis, the exponent of the side and the greatest depth of a cube. It
// is that of the bounds, a span of 2^S cells and at most that depth.
fn cube(words: &mut Words<'_>, out: &mut String) -> Result<(), Miss> {
    let bounds = bounds_of(words.word()?)?;
    let s = words.number()?;
    let max_depth = words.number()?;
    match Cube::of(&bounds, s, max_depth) {
        Some(cube) => write_cube(&cube, out),
        None => Ok(out.push_str("none")?),
    }
}

fn write_cube(cube: &Cube, out: &mut String) -> Result<(), Miss> {
    let [_x, _y, corner] = cube.corner;
    let side = cube.e;
    let depth = cube.depth;
    write!(out, "{corner} {side} {depth}")?;
    Ok(())
}

// `space distance CUBE DEPTH PLACE`: how far the place is from the centre of its cell of that depth.
fn distance(words: &mut Words<'_>, out: &mut String) -> Result<(), Miss> {
    let cube = cube_of(words.word()?)?;
    let depth = words.number::<u8>()?;
    let place = place_of(words.word()?)?;
    if depth > cube.depth || !is_in_cube(&cube, place) {
        return Err(Miss::Form);
    }
    write!(out, "{}", centre_distance(&cube, depth, place))?;
    Ok(())
}

// `space cell CUBE DEPTH PLACE`: the cell of that depth in which the place lies.
fn cell_at(words: &mut Words<'_>, out: &mut String) -> Result<(), Miss> {
    let cube = cube_of(words.word()?)?;
    let depth = words.number::<u8>()?;
    let place = place_of(words.word()?)?;
    if depth > cube.depth || !is_in_cube(&cube, place) {
        return Err(Miss::Form);
    }
    let [x, y, z] = cell(&cube, depth, place);
    write!(out, "{x},{y},{z}")?;
    Ok(())
}

fn is_in_cube(cube: &Cube, place: [i32; 3]) -> bool
    ensures { IsTrue result → InCube cube.now place }
{
    are_in_cube(&[point_at(0, 0, place)], cube)
}

// `space octant CUBE KEY PLACE`: the octant of the key's box in which the place lies.
fn octant_at(words: &mut Words<'_>, out: &mut String) -> Result<(), Miss> {
    let cube = cube_of(words.word()?)?;
    let key = key_of(words.word()?)?;
    let place = place_of(words.word()?)?;
    if key.depth >= cube.depth || !contains(&node_box(&cube, &key), place) {
        return Err(Miss::Form);
    }
    write!(out, "{}", octant(&cube, &key, place))?;
    Ok(())
}

// `space child KEY OCTANT`: the key of the octant.
fn child_at(words: &mut Words<'_>, out: &mut String) -> Result<(), Miss> {
    let key = key_of(words.word()?)?;
    let octant = words.up_to(7)?;
    if key.depth >= Key::MAX_DEPTH {
        return Err(Miss::Form);
    }
    write_key(&child(&key, octant), out)
}

// `space before KEY KEY`: whether the first key comes before the second.
fn before(words: &mut Words<'_>, out: &mut String) -> Result<(), Miss> {
    let key = key_of(words.word()?)?;
    let other = key_of(words.word()?)?;
    write!(out, "{}", key.is_before(&other))?;
    Ok(())
}

// `space box CUBE KEY`: the box of the key.
fn box_at(words: &mut Words<'_>, out: &mut String) -> Result<(), Miss> {
    let cube = cube_of(words.word()?)?;
    let key = key_of(words.word()?)?;
    if key.depth > cube.depth {
        return Err(Miss::Form);
    }
    let area = node_box(&cube, &key);
    let [x, y, z] = area.min;
    write!(out, "{x},{y},{z}..")?;
    let [x, y, z] = area.max;
    write!(out, "{x},{y},{z}")?;
    Ok(())
}

// `space contains BOX PLACE`: whether the place is in the box.
fn is_in(words: &mut Words<'_>, out: &mut String) -> Result<(), Miss> {
    let area = box_of(words.word()?)?;
    let place = place_of(words.word()?)?;
    write!(out, "{}", contains(&area, place))?;
    Ok(())
}

// `space meets BOX BOX`: whether some place is in both boxes, asked of the first and of the second.
fn do_meet(words: &mut Words<'_>, out: &mut String) -> Result<(), Miss> {
    let area = box_of(words.word()?)?;
    let other = box_of(words.word()?)?;
    write!(out, "{} {}", meets(&area, &other), meets(&other, &area))?;
    Ok(())
}

// `space key "TEXT"`: the text of the key whose text it is.
fn key(alloc: Global, words: &Words<'_>, out: &mut String) -> Result<(), Miss> {
    let text = quoted(alloc, words.rest())?;
    match read_key(text.as_slice()) {
        Some(key) => write_key(&key, out),
        None => Ok(out.push_str("none")?),
    }
}
