//! The first reading of the inputs.

ghost use Rattle.std.specs.Prelude.{◌≡◌, ◌≤◌, ◌+◌, [], ◌∷◌, List, None, IfOk, IfErr, IfSome, MatchOption, length};
ghost use Rattle.std.specs.List.{AllZip, All};
ghost use Rattle.ept_base.specs.Causes.{HasCauseOf};
ghost use Rattle.ept_base.specs.Files.{Tells};
ghost use Rattle.ept_point.specs.declared.point.Point as at;
ghost use Rattle.ept_space.specs.CubeOfBounds.{HasPlace};
ghost use Rattle.ept_config.specs.Extents.{HasExtent};
ghost use Rattle.ept_config.specs.Counts.{IsCount, IsCountOf};
ghost use Rattle.ept_scan.specs.Counts.{FindsCount};
ghost use Rattle.ept_scan.specs.Scans.{in_order, Blames, HasPoints, PathIsRefused, AreBounds, IsScan, ScanIsRefused};
ghost use Rattle.ept_scan.specs.Found.{limits_of, FindsLists};
ghost use Rattle.ept_scan.specs.Reach.{TakesOfPath, ReadsWithin};
ghost use Rattle.ept_scan.specs.Asking.{AsksFor, OpensThese, StopsAt, paths_from};
ghost use Rattle.ept_scan.specs.Refusals.{NamesInput};

use crate::extent::united;
use crate::inputs::reading_of;
use crate::las_file::scan_file;
use crate::reading::Reading;
use crate::scan_done::ScanDone;
use crate::scan_error::ScanError;
use crate::window::Window;
use ept_base::Shelf;
use ept_config::{Config, SourceCount};
use ept_point::List;
use ept_space::Bounds;
use std::alloc::Global;

/// Reads the inputs from the place `from` on, each from its first byte to its last record. Returns how many points each
/// has and the bounds in which they lie. Points have to lie within the kept bounds. If there are none, they have to lie
/// within the given bounds, if there are any.
///
/// The inputs are opened in their order, each once. No input before `from` is opened, nor one after a refused input. In
/// total, at most the first 375 bytes of each file are read, or its bytes up to the end of the last record. The latter
/// are read only if the header is accepted and states a record.
///
/// # Errors
///
/// The first cause in the order that [`ScanError`] states.
pub fn scan<H: Shelf>(
    alloc: Global,
    shelf: &mut H,
    config: &Config,
    from: u32,
    kept: Option<Bounds>,
) -> Result<ScanDone, ScanError>
    requires from { from ≤ length config.now.inputs }
    requires first { kept ≡ None → from ≡ 0 }
    requires kept { IfSome kept HasPlace }
    ensures scan { IfOk result (λ done. Tells
        (λ all. (points : List at.Point)
        × IsScan all config.now.scale
        (limits_of kept config.now.bounds) config.now.inputs from points done) (H.files shelf.old)) }
    ensures refused { IfErr result (λ e. Tells
        (λ all. ScanIsRefused all config.now.scale
        (limits_of kept config.now.bounds) config.now.inputs from e) (H.files shelf.old)) }
    ensures one_each { IfOk result (λ done. from + length done.counts ≡ length config.now.inputs) }
    ensures sound { IfOk result (λ done. All (IsCount done.bounds) done.counts) }
    ensures ordered { IfOk result (λ done. HasPlace done.bounds) }
    ensures bounds { IfOk result (λ done. IfSome (limits_of kept config.now.bounds) (λ limits. done.bounds ≡ limits)) }
    ensures far { Tells
        (λ all. ReadsWithin all config.now.scale
        (limits_of kept config.now.bounds) config.now.inputs from (H.given shelf.old) (H.given shelf.new))
        (H.files shelf.old) }
    ensures asked { OpensThese (paths_from config.now.inputs from) result (H.asked shelf.old)
        (H.asked shelf.new) }
    ensures stopped { IfErr result (StopsAt config.now.inputs from (H.asked shelf.old)
        (H.asked shelf.new)) }
    ensures files { H.files shelf.new ≡ H.files shelf.old }
    ensures cause { HasCauseOf ScanError.SourceFault (H.faults shelf.old) (H.faults shelf.new) result }
{
    let limits = limits_of(kept, config.bounds);
    let counts = scan_inputs(alloc, shelf, config, from, limits)?;
    match bounds_of(limits, &counts) {
        Some(bounds) => Ok(ScanDone {
            counts: List::of(counts),
            bounds,
        }),
        None => Err(ScanError::NoBounds),
    }
}

fn limits_of(kept: Option<Bounds>, given: Option<Bounds>) -> Option<Bounds>
    ensures { result ≡ limits_of kept given }
{
    match kept {
        Some(kept) => Some(kept),
        None => given,
    }
}

// Reads the inputs from the place `from` on.
fn scan_inputs<H: Shelf>(
    alloc: Global,
    shelf: &mut H,
    config: &Config,
    from: u32,
    limits: Option<Bounds>,
) -> Result<Vec<SourceCount>, ScanError>
    requires from { from ≤ length config.now.inputs }
    ensures found { IfOk result (λ counts. FindsLists
        (H.files shelf.old) config.now.scale limits config.now.inputs from
        (length config.now.inputs) counts.items) }
    ensures refused { IfErr result (λ e. Tells
        (λ all. ScanIsRefused all config.now.scale limits config.now.inputs from e)
        (H.files shelf.old)) }
    ensures far { Tells
        (λ all. ReadsWithin all config.now.scale limits config.now.inputs from (H.given shelf.old)
        (H.given shelf.new)) (H.files shelf.old) }
    ensures asked { OpensThese (paths_from config.now.inputs from) result (H.asked shelf.old)
        (H.asked shelf.new) }
    ensures stopped { IfErr result (StopsAt config.now.inputs from (H.asked shelf.old)
        (H.asked shelf.new)) }
    ensures files { H.files shelf.new ≡ H.files shelf.old }
    ensures cause { HasCauseOf ScanError.SourceFault (H.faults shelf.old) (H.faults shelf.new) result }
{
    let mut window = Window::new(alloc)?;
    let mut counts = Vec::new(alloc);
    for index in from..config.inputs.as_slice().len() as u32 {
        let input = config.input(index as usize);
        let reading = reading_of(input, config.scale, index, limits);
        let count = scan_path(shelf, &mut window, input.path.as_str(), &reading)?;
        counts.push(count)?;
    }
    Ok(counts)
}

// Reads the file of this path.
fn scan_path<H: Shelf>(
    shelf: &mut H,
    window: &mut Window,
    path: &str,
    reading: &Reading,
) -> Result<SourceCount, ScanError>
    ensures count { IfOk result (FindsCount reading.now.limits
        (λ points. Tells (λ all. HasPoints all path.now reading.now points) (H.files shelf.old))) }
    ensures refused { IfErr result (λ e. Tells
        (λ all. Blames e (PathIsRefused all path.now reading.now e)) (H.files shelf.old)) }
    ensures far { Tells
        (λ all. TakesOfPath all path.now reading.now (H.given shelf.old) (H.given shelf.new))
        (H.files shelf.old) }
    ensures named { IfErr result (NamesInput reading.now.origin) }
    ensures asked { OpensThese (path.now ∷ []) result (H.asked shelf.old) (H.asked shelf.new) }
    ensures opened { IfErr result (λ e. Blames e (AsksFor (path.now ∷ []) (H.asked shelf.old) (H.asked shelf.new))) }
    ensures files { H.files shelf.new ≡ H.files shelf.old }
    ensures cause { HasCauseOf ScanError.SourceFault (H.faults shelf.old) (H.faults shelf.new) result }
{
    let mut source = shelf.open(path)?;
    let found = scan_file(window, &mut source, reading);
    shelf.retire(source);
    found
}

// The bounds of the points with these counts: the limits, or their extent.
fn bounds_of(limits: Option<Bounds>, counts: &[SourceCount]) -> Option<Bounds>
    ensures { (lists : List (List at.Point)) → AllZip IsCountOf lists counts.now
        → MatchOption result ((limits ≡ None) × (in_order lists ≡ []))
        (AreBounds limits (in_order lists)) }
{
    match limits {
        Some(limits) => Some(limits),
        None => whole_extent(counts),
    }
}

/// The extent of all points with these counts, in stored units: the union of their extents. It is `None` if no input
/// has a point. A [`scan`] without bounds returns this extent as its bounds.
pub fn whole_extent(counts: &[SourceCount]) -> Option<Bounds>
    ensures { (lists : List (List at.Point)) → AllZip IsCountOf lists counts.now
        → HasExtent (in_order lists) result }
{
    let mut extent = None;
    for count in counts {
        extent = united(extent, count.extent);
    }
    extent
}
