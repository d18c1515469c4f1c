//! The configuration of a trial, and its scans on a shelf.

ghost use Rattle.std.specs.Prelude.{◌≡◌, ◌≤◌, true, length, IfOk, string_bytes};
ghost use Rattle.std.specs.List.{list_all};
ghost use Rattle.ept_config.specs.Texts.{is_path, is_shown};
ghost use Rattle.ept_mem_infallible.specs.Objects.{shelf_files_of};
ghost use Rattle.ept_trial.specs.Scans.{HasScans, scan_bytes};
ghost use Rattle.ept_trial.specs.Settings.{IsTrialInput, AreTrialInputs, IsTrialConfig};

use crate::scans::scan_of;
use ept_class::ClassSet;
use ept_config::{Config, Input, Srs};
use ept_mem_infallible::SureShelf;
use ept_point::{List, Memory, Text};
use ept_space::Bounds;
use std::alloc::Global;

/// The configuration of a trial with `workers` threads, and with at most `cache` nodes in memory while these run.
pub(crate) fn config_of(alloc: Global, workers: u32, cache: u32) -> Result<Config, Memory>
    requires some { 1 ≤ workers }
    requires threads { workers ≤ 64 }
    requires room { workers ≤ cache }
    requires cache { cache ≤ 65536 }
    ensures { IfOk result IsTrialConfig }
{
    let inputs = inputs(alloc)?;
    Ok(Config {
        scale: 2,
        offset: [0; 3],
        bounds: Some(Bounds {
            min: [0, 0, 0],
            max: [99_999, 99_999, 999],
        }),
        s: 7,
        threshold: 4_096,
        max_depth: 32,
        step: 0,
        srs: Srs {
            authority: None,
            horizontal: None,
            vertical: None,
            wkt: None,
        },
        first: ClassSet::new(),
        withheld_last: false,
        inputs,
        threads: workers,
        cache,
        max_nodes: 65_536,
        checkpoint: 10_000_000,
    })
}

// The four inputs, in order.
fn inputs(alloc: Global) -> Result<List<Input>, Memory>
    ensures { IfOk result AreTrialInputs }
{
    let mut inputs = Vec::new(alloc);
    inputs.push(input(alloc, "trial-0.las")?)?;
    inputs.push(input(alloc, "trial-1.las")?)?;
    inputs.push(input(alloc, "trial-2.las")?)?;
    inputs.push(input(alloc, "trial-3.las")?)?;
    Ok(List::of(inputs))
}

// The input of a path.
fn input(alloc: Global, path: &str) -> Result<Input, Memory>
    requires shown { list_all is_shown path.now ≡ true }
    requires some { 1 ≤ length path.now }
    requires short { length path.now ≤ 4096 }
    ensures { IfOk result (IsTrialInput path.now) }
{
    path_law(path);
    let text = String::from_str(alloc, path)?;
    let path = Text::of(text);
    Ok(Input {
        path,
        scale: 2,
        shift: [0; 3],
        expect: None,
    })
}

// A text without control bytes that is neither empty nor long is a path.
fn path_law(path: &str)
    requires shown { list_all is_shown path.now ≡ true }
    requires some { 1 ≤ length path.now }
    requires short { length path.now ≤ 4096 }
    ensures { is_path path.now ≡ true }
{}

/// A shelf that has the generated scans of `count` points.
pub(crate) fn shelf_of(alloc: Global, count: u32) -> Result<SureShelf, Memory>
    requires { count ≤ 10000000 }
    ensures { IfOk result (λ shelf. HasScans count (shelf_files_of shelf)) }
{
    let mut files = Vec::new(alloc);
    files.push(file(alloc, "trial-0.las", count, 0)?)?;
    files.push(file(alloc, "trial-1.las", count, 1)?)?;
    files.push(file(alloc, "trial-2.las", count, 2)?)?;
    files.push(file(alloc, "trial-3.las", count, 3)?)?;
    Ok(SureShelf::new(alloc, files))
}

// The file of an input under its path.
fn file(alloc: Global, path: &str, count: u32, input: u32) -> Result<(String, Vec<u8>), Memory>
    requires few { count ≤ 10000000 }
    requires input { input ≤ 3 }
    ensures path { IfOk result (λ file. string_bytes file.0 ≡ path.now) }
    ensures bytes { IfOk result (λ file. file.1.items ≡ scan_bytes count input) }
{
    let name = String::from_str(alloc, path)?;
    let bytes = scan_of(alloc, count, input)?;
    Ok((name, bytes))
}
