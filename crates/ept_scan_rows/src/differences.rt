//! What is given, compared with what is kept.

use crate::bytes::show;
use crate::configs::kept_of;
use crate::row::Row;
use crate::stop::{Answered, Stop};
use ept_config::Kept;
use ept_config_diff::{Difference, first_difference};
use std::alloc::Global;

/// `differs CONFIG | CONFIG`: the first difference of what the second one keeps from what the first one keeps.
pub(crate) fn differs(row: Row<'_>, out: &mut String) -> Answered {
    let kept = kept_of(row.alloc, row.part(0)?)?;
    differs_from(row, &kept, out)
}

fn differs_from(row: Row<'_>, kept: &Kept, out: &mut String) -> Answered {
    let given = kept_of(row.alloc, row.part(1)?)?;
    compare(row.alloc, kept, &given, out)
}

fn compare(alloc: Global, kept: &Kept, given: &Kept, out: &mut String) -> Answered {
    match first_difference(alloc, kept, given) {
        Ok(Some(found)) => show_difference(&found, out),
        Ok(None) => Ok(out.push_str("none")?),
        Err(_) => Err(Stop::Memory),
    }
}

/// Appends a difference as `FIELD: KEPT, GIVEN`.
pub(crate) fn show_difference(found: &Difference, out: &mut String) -> Answered {
    write!(out, "{:?}: ", found.field)?;
    show(&found.kept, out)?;
    out.push_str(", ")?;
    show(&found.given, out)
}
