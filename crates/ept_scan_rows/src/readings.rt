//! Second readings of scans.

ghost use Rattle.std.specs.Prelude.{◌≡◌, length, All};
ghost use Rattle.ept_config.specs.Counts.{IsCount};

use crate::files::shelf_of;
use crate::numbers::{count, whole};
use crate::row::Row;
use crate::stop::{Answered, Stop};
use ept_config::{Config, Kept, SourceCount, total_of};
use ept_config_text::read_config;
use ept_mem::MemShelf;
use ept_point::{Point, pack};
use ept_scan::{ReadError, reader, scan};
use std::alloc::Global;

/// What a second reading is to do: how many records were drawn before, how many may be drawn, and the sizes of two
/// batches. If there are fewer records, all were drawn.
#[derive(Clone, Copy)]
struct Wish {
    drawn: u64,
    allowed: u64,
    sizes: [usize; 2],
    shown: Shown,
}

/// `read CONFIG | FILES | NOW | FAILS | DRAWN ALLOWED SIZE SIZE`: scans the inputs as they are in FILES. Reads them as
/// they are NOW, after DRAWN records; of each source the calls of these numbers fail then. It reports what comes of two
/// batches of these sizes, how many records were drawn in the end, and the points.
pub(crate) fn read(row: Row<'_>, out: &mut String) -> Answered {
    read_and_show(row, Shown::Places, out)
}

/// `read-packed ..`: the same, where the points are shown as tiles have them.
pub(crate) fn read_packed(row: Row<'_>, out: &mut String) -> Answered {
    read_and_show(row, Shown::Packed, out)
}

/// How points are shown.
#[derive(Clone, Copy)]
enum Shown {
    /// As `X,Y,Z#INPUT.NUMBER`.
    Places,
    /// As the bytes of a tile, in hexadecimal digits.
    Packed,
}

fn read_and_show(row: Row<'_>, shown: Shown, out: &mut String) -> Answered {
    let mut before = shelf_of(row, row.part(1)?, "-")?;
    let mut now = shelf_of(row, row.part(2)?, row.part(3)?)?;
    let wish = wish_of(row.part(4)?, shown)?;
    match read_config(row.alloc, row.part(0)?.as_bytes()) {
        Ok(config) => scan_and_read(row.alloc, &config, &mut before, &mut now, wish, out),
        Err(_) => Err(Stop::BadLine),
    }
}

fn wish_of(words: &str, shown: Shown) -> Result<Wish, Stop> {
    let mut words = words.split(' ');
    let mut next = || words.next().ok_or(Stop::BadLine);
    Ok(Wish {
        drawn: count(next()?)?,
        allowed: count(next()?)?,
        sizes: [whole(next()?)?, whole(next()?)?],
        shown,
    })
}

fn scan_and_read(
    alloc: Global,
    config: &Config,
    before: &mut MemShelf,
    now: &mut MemShelf,
    wish: Wish,
    out: &mut String,
) -> Answered {
    let Ok(done) = scan(alloc, before, config, 0, None) else {
        return Err(Stop::BadLine);
    };
    let kept = config.kept(alloc, &done.bounds)?;
    read_again(alloc, &kept, done.counts.as_slice(), now, wish, out)
}

fn read_again(
    alloc: Global,
    kept: &Kept,
    counts: &[SourceCount],
    shelf: &mut MemShelf,
    wish: Wish,
    out: &mut String,
) -> Answered
    requires each { length counts.now ≡ length kept.now.inputs }
    requires sound { All (IsCount kept.now.bounds) counts.now }
{
    let mut points = Vec::new(alloc);
    let drawn = draw(alloc, kept, counts, shelf, wish, &mut points);
    show(alloc, &drawn, &points, wish.shown, out)
}

// What comes of two batches, and how many records were drawn.
#[derive(Clone, Copy)]
struct Drawn {
    first: Result<(), ReadError>,
    second: Result<(), ReadError>,
    records: u64,
}

fn draw(
    alloc: Global,
    kept: &Kept,
    counts: &[SourceCount],
    shelf: &mut MemShelf,
    wish: Wish,
    points: &mut Vec<Point>,
) -> Result<Drawn, ReadError>
    requires each { length counts.now ≡ length kept.now.inputs }
    requires sound { All (IsCount kept.now.bounds) counts.now }
{
    let behind = wish.drawn.min(total_of(counts));
    let mut reader = reader(alloc, shelf, kept, counts, behind)?;
    reader.allow(wish.allowed);
    let first = reader.next_batch(wish.sizes[0], points);
    let second = reader.next_batch(wish.sizes[1], points);
    let records = reader.drawn();
    reader.retire_all(shelf);
    Ok(Drawn {
        first,
        second,
        records,
    })
}

fn show(
    alloc: Global,
    drawn: &Result<Drawn, ReadError>,
    points: &[Point],
    shown: Shown,
    out: &mut String,
) -> Answered {
    match drawn {
        Ok(drawn) => {
            show_batch(drawn.first, out)?;
            show_batch(drawn.second, out)?;
            write!(out, "{} drawn", drawn.records)?;
            show_points(alloc, points, shown, out)
        }
        Err(refusal) => Ok(write!(out, "refused {refusal:?}")?),
    }
}

fn show_batch(batch: Result<(), ReadError>, out: &mut String) -> Answered {
    match batch {
        Ok(()) => Ok(out.push_str("ok ")?),
        Err(refusal) => Ok(write!(out, "refused {refusal:?} ")?),
    }
}

fn show_points(alloc: Global, points: &[Point], shown: Shown, out: &mut String) -> Answered {
    for point in points {
        out.push(' ')?;
        match shown {
            Shown::Places => show_place(point, out)?,
            Shown::Packed => out.push_str(hex::encode(alloc, pack(point))?.as_str())?,
        }
    }
    Ok(())
}

fn show_place(point: &Point, out: &mut String) -> Answered {
    let Point {
        x,
        y,
        z,
        origin,
        number,
        ..
    } = *point;
    Ok(write!(out, "{x},{y},{z}#{origin}.{number}")?)
}
