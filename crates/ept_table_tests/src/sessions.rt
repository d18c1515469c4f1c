//! Tables that return what they were made of.

ghost use Rattle.std.specs.Prelude.{◌≤◌};

use crate::session::{Found, Left, session};
use ept_forest::{Forest, Full};
use ept_mem::{MemRoom, MemSource, MemSpill};
use ept_space::Key;
use ept_table_fixtures::{Known, read_known, shelf_of};
use std::alloc::Global;
use std::marker::Brand;
use std::process::Abort;
use std::sync::Wait;
use std::test::Fail;

const CONFIG: &str =
    r#"{"input":"a.las","scale":0,"bounds":[0,0,0,7,7,7],"span":2,"minNodeSize":0,"maxDepth":2}"#;

// What a session at a table found, and how many slots were drawn then. Also what a further draw gave, and the places of
// the points that the reader gave after it.
#[derive(Drop)]
struct Visited {
    found: Option<[Found; 4]>,
    used: u32,
    more: Result<u32, Full>,
    places: Vec<[i32; 3]>,
}

fn hold_session<H: Wait>(
    rt: &H,
    alloc: Global,
    most: u32,
    places: &[[i32; 3]],
) -> Result<Visited, Fail>
    requires { 1 ≤ most }
{
    let mut shelf = shelf_of(alloc, places)?;
    let mut room = MemRoom::new(alloc, Vec::new(alloc), Vec::new(alloc));
    let Some(known) = read_known(alloc, &mut shelf, CONFIG, 9) else {
        return Err(Fail::new("no reader"));
    };
    let forest = match Forest::new(alloc, &mut room, most, &known.rules) {
        Ok(forest) => forest,
        Err(refused) => {
            let Known {
                reader,
                rules: _,
                kept: _,
                counts: _,
                points: _,
            } = known;
            reader.retire_all(&mut shelf);
            return Err(refused.into());
        }
    };
    let Left {
        mut forest,
        mut reader,
        found,
    } = session::<MemSpill, MemSource, Brand, H>(rt, alloc, forest, known, most);
    let used = forest.used();
    let more = forest.add();
    let mut points = Vec::new(alloc);
    let read = reader.next_batch(9, &mut points);
    forest.retire_all(&mut room);
    reader.retire_all(&mut shelf);
    read?;
    let mut places = Vec::new(alloc);
    for point in points.as_slice() {
        places.push([point.x, point.y, point.z])?;
    }
    Ok(Visited {
        found,
        used,
        more,
        places,
    })
}

const READER: Found = Found::Reader { drawn: 0 };

const ROOT: Found = Found::Node {
    key: Key::ROOT,
    count: 0,
    opened: 0,
};

// At a table of `most` nodes the last slot has this, and a further draw gives that.
fn expect_session<H: Wait + Abort>(
    rt: &H,
    alloc: Global,
    most: u32,
    places: &[[i32; 3]],
    last: Found,
    more: Result<u32, Full>,
) -> Result<(), Fail>
    requires { 1 ≤ most }
{
    let visited = hold_session(rt, alloc, most, places)?;
    assert!(rt; visited.found == Some([READER, ROOT, last, ROOT]));
    assert!(rt; visited.used == 1);
    assert!(rt; visited.more == more);
    assert!(rt; visited.places.as_slice() == places);
    Ok(())
}

#[test]
fn a_table_gives_back_what_it_was_made_of(rt: HostRuntime) -> Result<(), Fail> {
    let alloc = rt.alloc();
    let some = [[1, 1, 1], [1, 1, 5], [5, 5, 5]];
    expect_session(&rt, alloc, 1, &[], ROOT, Err(Full))?;
    expect_session(&rt, alloc, 3, &[], Found::Blank, Ok(2))?;
    expect_session(&rt, alloc, 1, &some, ROOT, Err(Full))?;
    expect_session(&rt, alloc, 3, &some, Found::Blank, Ok(2))
}
