//! Calls of `ept_point`: points, their packed form, and tiles.

use crate::notation::{bytes_of, list_of, quoted};
use crate::words::{Miss, Words};
use crate::writing::{write_bytes, write_refusal};
use ept_point::{
    Layout, List, MAX_CHANNEL, MAX_CLASS_FLAGS, MAX_FLAG, MAX_RETURNS, OLD_LENGTH, PACKED_LENGTH,
    Point, Text, TileError, pack, read_old_tile, read_tile, tile_bytes, unpack, unpack_old,
};
use std::alloc::Global;
use std::fmt::Write;

/// Carries out a call, and writes its result.
pub(crate) fn answer(
    alloc: Global,
    call: &str,
    words: &mut Words<'_>,
    out: &mut String,
) -> Result<(), Miss> {
    match call {
        "pack" => write_bytes(alloc, &pack(&fields(alloc, words)?), out),
        "unpack" => unpacked(alloc, words, out),
        "unpackold" => unpacked_old(alloc, words, out),
        "tile" => tile(alloc, Layout::New, words, out),
        "oldtile" => tile(alloc, Layout::Old, words, out),
        "list" => list(alloc, words, out),
        "text" => text(alloc, words, out),
        _ => Err(Miss::Form),
    }
}

// The point of the 21 words that follow: its fields in the order in which they are packed.
fn fields(alloc: Global, words: &mut Words<'_>) -> Result<Point, Miss> {
    Ok(Point {
        x: words.number()?,
        y: words.number()?,
        z: words.number()?,
        intensity: words.number()?,
        return_number: words.up_to(MAX_RETURNS)?,
        number_of_returns: words.up_to(MAX_RETURNS)?,
        scan_direction: words.up_to(MAX_FLAG)?,
        edge: words.up_to(MAX_FLAG)?,
        class: words.number()?,
        class_flags: words.up_to(MAX_CLASS_FLAGS)?,
        channel: words.up_to(MAX_CHANNEL)?,
        angle_rank: words.number()?,
        angle: words.number()?,
        user: words.number()?,
        source_id: words.number()?,
        gps: eight_bytes(alloc, words.word()?)?,
        red: words.number()?,
        green: words.number()?,
        blue: words.number()?,
        origin: words.number()?,
        number: words.number()?,
    })
}

fn eight_bytes(alloc: Global, word: &str) -> Result<[u8; 8], Miss> {
    let bytes = bytes_of(alloc, word)?;
    bytes.first_chunk().copied().ok_or(Miss::Form)
}

// `point unpack HEX`: the fields of the point whose packed form the bytes are.
fn unpacked(alloc: Global, words: &mut Words<'_>, out: &mut String) -> Result<(), Miss> {
    let bytes = bytes_of(alloc, words.word()?)?;
    let packed = bytes.first_chunk::<PACKED_LENGTH>().ok_or(Miss::Form)?;
    match unpack(packed) {
        Some(point) => write_point(alloc, &point, out),
        None => Ok(out.push_str("none")?),
    }
}

// `point unpackold HEX`: the fields of the point whose old packed form the bytes are.
fn unpacked_old(alloc: Global, words: &mut Words<'_>, out: &mut String) -> Result<(), Miss> {
    let bytes = bytes_of(alloc, words.word()?)?;
    let packed = bytes.first_chunk::<OLD_LENGTH>().ok_or(Miss::Form)?;
    match unpack_old(packed) {
        Some(point) => write_point(alloc, &point, out),
        None => Ok(out.push_str("none")?),
    }
}

// The fields as `fields` reads them.
fn write_point(alloc: Global, point: &Point, out: &mut String) -> Result<(), Miss> {
    write_pulse(point, out)?;
    let angles = [i64::from(point.angle_rank), i64::from(point.angle)];
    for n in angles {
        write!(out, "{n} ")?;
    }
    let marks = [u32::from(point.user), u32::from(point.source_id)];
    for n in marks {
        write!(out, "{n} ")?;
    }
    write_bytes(alloc, &point.gps, out)?;
    let colours = [point.red, point.green, point.blue];
    for n in colours {
        write!(out, " {n}")?;
    }
    write!(out, " {} {}", point.origin, point.number)?;
    Ok(())
}

// The fields before the scan angle, with a blank after each.
fn write_pulse(point: &Point, out: &mut String) -> Result<(), Miss> {
    for n in [point.x, point.y, point.z] {
        write!(out, "{n} ")?;
    }
    let others = [
        point.intensity,
        u16::from(point.return_number),
        u16::from(point.number_of_returns),
        u16::from(point.scan_direction),
        u16::from(point.edge),
        u16::from(point.class),
        u16::from(point.class_flags),
        u16::from(point.channel),
    ];
    for n in others {
        write!(out, "{n} ")?;
    }
    Ok(())
}

// `point tile HEX HEX ..`: how many points the bytes are the tile of, and the bytes of the tile of these. If they are
// no tile, why, and how many points are read then. `point oldtile HEX HEX ..`: the same of a tile in the old layout.
fn tile(alloc: Global, layout: Layout, words: &Words<'_>, out: &mut String) -> Result<(), Miss> {
    let mut bytes = Vec::new(alloc);
    for word in words.rest().split_whitespace() {
        bytes.extend_from_slice(&bytes_of(alloc, word)?)?;
    }
    let mut points = Vec::new(alloc);
    let read = match layout {
        Layout::Old => read_old_tile(bytes.as_slice(), &mut points),
        Layout::New => read_tile(bytes.as_slice(), &mut points),
    };
    match read {
        Ok(()) => write_tile(alloc, points.as_slice(), out),
        Err(TileError::Memory) => Err(Miss::Memory),
        Err(refused) => {
            write_refusal(&refused, out)?;
            Ok(write!(out, " | {}", points.len())?)
        }
    }
}

// How many points there are, and the bytes of their tile.
fn write_tile(alloc: Global, points: &[Point], out: &mut String) -> Result<(), Miss> {
    let mut bytes = Vec::new(alloc);
    tile_bytes(points, &mut bytes)?;
    write!(out, "{} | ", points.len())?;
    write_bytes(alloc, bytes.as_slice(), out)
}

// `point list N,N,..`: the items of a list of these numbers, and how many it returns.
fn list(alloc: Global, words: &mut Words<'_>, out: &mut String) -> Result<(), Miss> {
    let list = List::of(list_of(alloc, words.word()?)?);
    for n in list.as_slice() {
        write!(out, "{n} ")?;
    }
    write!(out, "of {}", list.into_vec().len())?;
    Ok(())
}

// `point text "TEXT"`: the text, and how many bytes it returns.
fn text(alloc: Global, words: &Words<'_>, out: &mut String) -> Result<(), Miss> {
    let bytes = quoted(alloc, words.rest())?;
    let spelled = str::from_utf8(bytes.as_slice()).map_err(|_| Miss::Form)?;
    let text = Text::of(String::from_str(alloc, spelled)?);
    out.push_str(text.as_str())?;
    write!(out, " of {}", text.into_string().len())?;
    Ok(())
}
