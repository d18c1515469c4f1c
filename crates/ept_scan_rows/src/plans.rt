//! Plans of builds.

use crate::differences::show_difference;
use crate::files::{shelf_of, store_of};
use crate::row::Row;
use crate::scans::{show_bounds, show_counts};
use crate::stop::{Answered, Stop};
use ept_config::Config;
use ept_config_text::read_config;
use ept_mem::MemShelf;
use ept_plan::{Plan, PlanError, make_plan};
use ept_save::{Saved, open};

/// `plan CONFIG | STORE | FILES`: the plan over the checkpoints of a store, and the paths that were asked for.
pub(crate) fn plan(row: Row<'_>, out: &mut String) -> Answered {
    let mut store = store_of(row, row.part(1)?)?;
    match open(row.alloc, &mut store) {
        Ok(saved) => plan_over(row, &saved, out),
        Err(_) => Err(Stop::BadLine),
    }
}

fn plan_over(row: Row<'_>, saved: &Saved, out: &mut String) -> Answered {
    let mut shelf = shelf_of(row, row.part(2)?, "-")?;
    match read_config(row.alloc, row.part(0)?.as_bytes()) {
        Ok(config) => show(row, &config, saved, &mut shelf, out),
        Err(_) => Err(Stop::BadLine),
    }
}

fn show(
    row: Row<'_>,
    config: &Config,
    saved: &Saved,
    shelf: &mut MemShelf,
    out: &mut String,
) -> Answered {
    match make_plan(row.alloc, config, shelf, saved) {
        Ok(plan) => show_plan(&plan, out)?,
        Err(PlanError::Differs(found)) => show_difference(&found, out)?,
        Err(PlanError::Scan(refusal)) => write!(out, "refused {refusal:?}")?,
    }
    show_asked(shelf, out)
}

fn show_plan(plan: &Plan, out: &mut String) -> Answered {
    let inputs = plan.kept.inputs.as_slice().len();
    write!(
        out,
        "{} of {} points of {inputs} inputs are inserted, within ",
        plan.inserted, plan.points
    )?;
    show_bounds(&plan.kept.bounds, out)?;
    out.push(':')?;
    show_counts(plan.counts.as_slice(), out)
}

fn show_asked(shelf: &MemShelf, out: &mut String) -> Answered {
    out.push_str("; asked for")?;
    for path in shelf.asked() {
        write!(out, " {}", path.as_str())?;
    }
    Ok(())
}
