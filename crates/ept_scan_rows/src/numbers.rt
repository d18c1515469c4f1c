//! Numbers as words.

ghost use Rattle.std.specs.Prelude.{IfOk};
ghost use Rattle.ept_space.specs.CubeOfBounds.{HasPlace};

use crate::stop::Stop;
use ept_space::Bounds;

/// A whole number that is not negative.
pub(crate) fn whole(word: &str) -> Result<usize, Stop> {
    Ok(word.parse()?)
}

/// A number of points or calls.
pub(crate) fn count(word: &str) -> Result<u64, Stop> {
    Ok(word.parse()?)
}

/// A place `X,Y,Z`.
pub(crate) fn place(words: &str) -> Result<[i32; 3], Stop> {
    let mut numbers = words.split(',');
    let mut found = [0; 3];
    for number in &mut found {
        *number = coordinate(numbers.next())?;
    }
    match numbers.next() {
        None => Ok(found),
        Some(_) => Err(Stop::BadLine),
    }
}

fn coordinate(word: Option<&str>) -> Result<i32, Stop> {
    match word {
        Some(word) => Ok(word.parse()?),
        None => Err(Stop::BadLine),
    }
}

/// Bounds `X,Y,Z..X,Y,Z`, the least place first.
pub(crate) fn bounds(words: &str) -> Result<Bounds, Stop> {
    let (least, greatest) = words.split_once("..").ok_or(Stop::BadLine)?;
    Ok(Bounds {
        min: place(least)?,
        max: place(greatest)?,
    })
}

/// The same, where the least place is nowhere above the greatest.
pub(crate) fn ordered_bounds(words: &str) -> Result<Bounds, Stop>
    ensures { IfOk result HasPlace }
{
    let bounds = bounds(words)?;
    let [a, b, c] = bounds.min;
    let [d, e, f] = bounds.max;
    if a <= d && b <= e && c <= f {
        Ok(bounds)
    } else {
        Err(Stop::BadLine)
    }
}
