//! What words mean: bytes, texts, lists, places, cubes, boxes, keys and points.

ghost use Rattle.std.specs.Prelude.{◌≡◌, ◌≤◌, ◌∷◌, []};

use crate::words::{Miss, number, parted};
use ept_class::ClassSet;
use ept_point::{MAX_CLASS_FLAGS, Point, PointId, PointNumber};
use ept_space::{Bounds, Box3, Cube, Key, read_key};
use hex::FromHexError;
use std::alloc::Global;

/// Bytes in hexadecimal.
pub(crate) fn bytes_of(alloc: Global, word: &str) -> Result<Vec<u8>, Miss> {
    match hex::decode(alloc, word) {
        Ok(bytes) => Ok(bytes),
        Err(FromHexError::OutOfMemory) => Err(Miss::Memory),
        Err(_) => Err(Miss::Form),
    }
}

/// The bytes of a text between two quotation marks. In it `\x` and two digits are a byte, and each other character is
/// itself.
pub(crate) fn quoted(alloc: Global, text: &str) -> Result<Vec<u8>, Miss> {
    let inner = text
        .strip_prefix('"')
        .and_then(|behind| behind.strip_suffix('"'))
        .ok_or(Miss::Form)?;
    let mut bytes = Vec::new(alloc);
    for (at, part) in inner.split("\\x").enumerate() {
        let plain = if at == 0 {
            part
        } else {
            bytes.extend_from_slice(&bytes_of(alloc, part.get(..2).ok_or(Miss::Form)?)?)?;
            part.get(2..).ok_or(Miss::Form)?
        };
        bytes.extend_from_slice(plain.as_bytes())?;
    }
    Ok(bytes)
}

/// Numbers with commas between them, or `-` for none.
pub(crate) fn list_of(alloc: Global, word: &str) -> Result<Vec<u32>, Miss> {
    let mut numbers = Vec::new(alloc);
    if word == "-" {
        return Ok(numbers);
    }
    for part in word.split(',') {
        numbers.push(number(part)?)?;
    }
    Ok(numbers)
}

/// The numbers of a word as numbers of calls.
pub(crate) fn calls_of(alloc: Global, word: &str) -> Result<Vec<u64>, Miss> {
    let mut calls = Vec::new(alloc);
    for call in list_of(alloc, word)?.iter() {
        calls.push(u64::from(*call))?;
    }
    Ok(calls)
}

/// `X,Y,Z`.
pub(crate) fn place_of(word: &str) -> Result<[i32; 3], Miss> {
    let (x, rest) = parted(word, ",")?;
    let (y, z) = parted(rest, ",")?;
    Ok([number(x)?, number(y)?, number(z)?])
}

/// `X,Y,Z..X,Y,Z`: a least and a greatest place.
pub(crate) fn box_of(word: &str) -> Result<Box3, Miss> {
    let (min, max) = parted(word, "..")?;
    Ok(Box3 {
        min: wide(place_of(min)?),
        max: wide(place_of(max)?),
    })
}

fn wide(place: [i32; 3]) -> [i64; 3] {
    [
        i64::from(place[0]),
        i64::from(place[1]),
        i64::from(place[2]),
    ]
}

/// `MIN..MAX`: the bounds from MIN to MAX on each axis.
pub(crate) fn bounds_of(word: &str) -> Result<Bounds, Miss> {
    let (min, max) = parted(word, "..")?;
    Ok(Bounds {
        min: [number(min)?; 3],
        max: [number(max)?; 3],
    })
}

/// `MIN..MAX:S:DEPTH`: the cube of those bounds, a span of 2^S cells, and nodes down to that depth.
pub(crate) fn cube_of(word: &str) -> Result<Cube, Miss> {
    let (bounds, rest) = parted(word, ":")?;
    let (s, depth) = parted(rest, ":")?;
    Cube::of(&bounds_of(bounds)?, number(s)?, number(depth)?).ok_or(Miss::Form)
}

/// `D-X-Y-Z`.
pub(crate) fn key_of(word: &str) -> Result<Key, Miss> {
    read_key(word.as_bytes()).ok_or(Miss::Form)
}

/// The set of the classes of a list.
pub(crate) fn classes_of(alloc: Global, word: &str) -> Result<ClassSet, Miss> {
    let mut set = ClassSet::new();
    for class in list_of(alloc, word)?.iter() {
        set.insert(u8::try_from(*class).map_err(|_| Miss::Form)?);
    }
    Ok(set)
}

/// `ORIGIN:NUMBER@X,Y,Z`: the point of that id at that place. With `/CLASS/FLAGS` after it, the point has that class
/// and those class flags.
pub(crate) fn point_of(word: &str) -> Result<Point, Miss> {
    let (id, place) = parted(word, "@")?;
    let (origin, record) = parted(id, ":")?;
    let (place, kind) = place.split_once("/").unwrap_or((place, "0/0"));
    let (class, flags) = parted(kind, "/")?;
    let flags = number::<u8>(flags)?;
    if flags > MAX_CLASS_FLAGS {
        return Err(Miss::Form);
    }
    let id = PointId {
        origin: number(origin)?,
        number: number(record)?,
    };
    Ok(point_of_class(id, place_of(place)?, number(class)?, flags))
}

/// Points, one for each word.
pub(crate) fn points_of(alloc: Global, words: &str) -> Result<Vec<Point>, Miss> {
    let mut points = Vec::new(alloc);
    for word in words.split_whitespace() {
        points.push(point_of(word)?)?;
    }
    Ok(points)
}

/// The point of this id at this place: the only return of its pulse, and all else is 0.
pub(crate) fn point_at(origin: u32, number: PointNumber, place: [i32; 3]) -> Point
    ensures { result.x ∷ result.y ∷ result.z ∷ [] ≡ place }
{
    point_of_class(PointId { origin, number }, place, 0, 0)
}

// The same of a point with this class and these class flags.
fn point_of_class(id: PointId, place: [i32; 3], class: u8, class_flags: u8) -> Point
    requires { class_flags ≤ 15 }
    ensures { result.x ∷ result.y ∷ result.z ∷ [] ≡ place }
{
    Point {
        x: place[0],
        y: place[1],
        z: place[2],
        intensity: 0,
        return_number: 1,
        number_of_returns: 1,
        scan_direction: 0,
        edge: 0,
        class,
        class_flags,
        channel: 0,
        angle_rank: 0,
        angle: 0,
        user: 0,
        source_id: 0,
        gps: [0; 8],
        red: 0,
        green: 0,
        blue: 0,
        origin: id.origin,
        number: id.number,
    }
}
