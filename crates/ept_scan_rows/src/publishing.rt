//! The files of small outputs.

use crate::files::{compare_files, failing_store_of, store_of};
use crate::row::Row;
use crate::saves::is_old;
use crate::scans::counts_of;
use crate::stop::{Answered, Stop};
use ept_config::Kept;
use ept_mem::MemStore;
use ept_meta::read_build_json;
use ept_publish::{PublishError, publish, published_law};
use ept_save::{Saved, open};

/// `publish FAILS | STORE | COUNT | BUILD FILE | FILES`: publishes the current checkpoint of a store, whose one input is
/// that of a build file and has this count. The checkpoint is opened first; of the calls after that those of these
/// numbers fail. It reports the result, and whether the store has these files.
pub(crate) fn publish_nodes(row: Row<'_>, out: &mut String) -> Answered {
    let mut store = failing_store_of(row, row.part(1)?, row.part(0)?)?;
    publish_into(row, &mut store, out)?;
    compare_files(row, &store, row.part(4)?, out)
}

fn publish_into(row: Row<'_>, store: &mut MemStore, out: &mut String) -> Answered {
    let mut sound = store_of(row, row.part(1)?)?;
    let Ok(saved) = open(row.alloc, &mut sound) else {
        return Err(Stop::BadLine);
    };
    match read_build_json(row.alloc, row.part(3)?.as_bytes()) {
        Ok(kept) => publish_saved(row, store, &saved, &kept, out),
        Err(_) => Err(Stop::BadLine),
    }
}

fn publish_saved(
    row: Row<'_>,
    store: &mut MemStore,
    saved: &Saved,
    kept: &Kept,
    out: &mut String,
) -> Answered {
    let counts = counts_of(row, row.part(2)?)?;
    let Some(first) = counts.first() else {
        return Err(Stop::BadLine);
    };
    if is_old(saved) || counts.len() != kept.inputs.as_slice().len() {
        return Err(Stop::BadLine);
    }
    let outcome = publish(
        row.alloc,
        store,
        saved,
        kept,
        &counts,
        &first.extent,
        first.points,
    );
    show(outcome, out)
}

fn show(outcome: Result<(), PublishError>, out: &mut String) -> Answered {
    published_law();
    match outcome {
        Ok(()) => Ok(out.push_str("ok")?),
        Err(refusal) => Ok(write!(out, "refused {refusal:?}")?),
    }
}
