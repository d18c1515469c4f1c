//! Parts of builds.

use crate::files::{compare_files, failing_store_of, shelf_of};
use crate::numbers::count;
use crate::row::Row;
use crate::stop::{Answered, Stop};
use ept_config::Config;
use ept_config_text::read_config;
use ept_mem::{MemShelf, MemStore};
use ept_part::part;

/// `part OCTANTS | CONFIG | FAILS | FILES | FAILS | STORE | FILES`: how many points and nodes a part has, or why there is
/// none. The calls of these numbers fail, of the shelf's sources and of the store. Then of each file whether the store
/// has it so.
pub(crate) fn make(row: Row<'_>, out: &mut String) -> Answered {
    let octants = u8::try_from(count(row.part(0)?)?)?;
    let mut shelf = shelf_of(row, row.part(3)?, row.part(2)?)?;
    let mut store = failing_store_of(row, row.part(5)?, row.part(4)?)?;
    match read_config(row.alloc, row.part(1)?.as_bytes()) {
        Ok(config) => made(row, &config, octants, &mut shelf, &mut store, out)?,
        Err(_) => return Err(Stop::BadLine),
    }
    compare_files(row, &store, row.part(6)?, out)
}

fn made(
    row: Row<'_>,
    config: &Config,
    octants: u8,
    shelf: &mut MemShelf,
    store: &mut MemStore,
    out: &mut String,
) -> Answered {
    if octants == 0 {
        return Err(Stop::BadLine);
    }
    match part(row.alloc, config, octants, shelf, store) {
        Ok(done) => Ok(write!(out, "points {} nodes {}", done.points, done.nodes)?),
        Err(refusal) => Ok(write!(out, "refused {refusal:?}")?),
    }
}
