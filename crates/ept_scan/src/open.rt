//! Opening the second reading.

ghost use Rattle.std.specs.Prelude.{◌≡◌, ◌≢◌, ◌<◌, ◌≤◌, ◌+◌, ◌^◌, ℕ, List, [], Err, IfOk, OnOk, OnErr, length, drop, All, Some, None, slice_get, vec_len, vec_capacity};
ghost use Rattle.ept_base.specs.Causes.{HasCauseOf, Rose};
ghost use Rattle.ept_base.specs.Files.{Tells};
ghost use Rattle.ept_point.specs.declared.point.Point as at;
ghost use Rattle.ept_config.specs.Counts.{IsCount, total};
ghost use Rattle.ept_config.specs.declared.input.Input as config;
ghost use Rattle.ept_scan.specs.Opening.{IsKeptScan, StartsAt, HasFailed, AddsInput, IsFileOf, HasBytesOf, HasOpened};
ghost use Rattle.ept_scan.specs.Reader.{drawn_of, allowed_of, left_of, refusal_of, files_of, HasFault, IsRest, ReadsNoFurther, GivesNoMore, IsReader};
ghost use Rattle.ept_scan.specs.Asking.{OpensThese, path_left, paths_left};

use crate::inputs::reading_of;
use crate::part::{Cursor, Part};
use crate::queue::Queue;
use crate::read_error::ReadError;
use crate::second_reading::Reader;
use crate::window::Window;
use ept_base::{Shelf, Source};
use ept_config::{Kept, SourceCount, total_of};
use ept_point::PointNumber;
use std::alloc::Global;

/// Opens the inputs of which records are left after the first `drawn` records of all, in their order and each once. An
/// input whose records were all drawn, or that has no points, is not opened. The counts state what a first reading
/// found of each input: the number of its points, and their extent.
///
/// # Errors
///
/// `Memory`, and `SourceFault` only if the shelf's count of faults rose.
pub fn reader<S: Source, H: Shelf<Source = S>>(
    alloc: Global,
    shelf: &mut H,
    kept: &Kept,
    counts: &[SourceCount],
    drawn: u64,
) -> Result<Reader<S>, ReadError>
    requires each { length counts.now ≡ length kept.now.inputs }
    requires sound { All (IsCount kept.now.bounds) counts.now }
    requires drawn { drawn ≤ total counts.now }
    ensures drawn { IfOk result (λ r. drawn_of r ≡ drawn) }
    ensures left { IfOk result (λ r. left_of r + drawn ≡ total counts.now) }
    ensures allowed { IfOk result (λ r. allowed_of r ≡ 0) }
    ensures refusal { IfOk result (λ r. refusal_of r ≡ None) }
    ensures inputs { IfOk result (λ r. All (IsFileOf kept.now counts.now) (files_of S.whole r)) }
    ensures bytes { IfOk result (λ r. Tells
        (λ all. All (HasBytesOf all kept.now.inputs) (files_of S.whole r)) (H.files shelf.old)) }
    ensures rest { IfOk result (λ r. Tells
        (λ all. (points : List at.Point) → IsKeptScan all kept.now counts.now points
        → IsRest S.whole r (drop drawn points)) (H.files shelf.old)) }
    ensures far { IfOk result (ReadsNoFurther S.whole S.left) }
    ensures given { IfOk result (GivesNoMore S.whole S.given) }
    ensures faultless { IfOk result (λ r. HasFault S.faults r → ⊥) }
    ensures reader { IfOk result (IsReader S.whole S.left S.given S.faults) }
    ensures no_change { (source number : ℕ) → result ≢ Err (ReadError.SourceChanged source number) }
    ensures asked { OpensThese (paths_left kept.now.inputs counts.now drawn) result
        (H.asked shelf.old) (H.asked shelf.new) }
    ensures files { H.files shelf.new ≡ H.files shelf.old }
    ensures cause { HasCauseOf ReadError.SourceFault (H.faults shelf.old) (H.faults shelf.new) result }
{
    let window = Window::new(alloc)?;
    let mut parts = Vec::with_capacity(alloc, counts.len())?;
    let start = start_of(counts, drawn);
    match open_parts(shelf, kept, counts, start.index, &mut parts) {
        Ok(()) => Ok(Reader {
            queue: Queue {
                parts,
                at: 0,
                cursor: Cursor::before(start.number),
                window,
            },
            drawn,
            left: total_of(counts) - drawn,
            allowed: 0,
            refused: None,
        }),
        Err(refused) => {
            retire_parts(parts, shelf);
            Err(refused)
        }
    }
}

impl<S: Source> Reader<S> {
    /// Returns all sources to the shelf. It takes no memory.
    pub fn retire_all<H: Shelf<Source = S>>(self, shelf: &mut H)
        ensures later { H.faults shelf.old ≤ H.faults shelf.new }
        ensures failed { HasFault S.faults self → Rose (H.faults shelf.old) (H.faults shelf.new) }
        ensures sound { (HasFault S.faults self → ⊥) → H.faults shelf.new ≡ H.faults shelf.old }
        ensures asked { H.asked shelf.new ≡ H.asked shelf.old }
        ensures files { H.files shelf.new ≡ H.files shelf.old }
    {
        let Reader {
            queue,
            drawn: _,
            left: _,
            allowed: _,
            refused: _,
        } = self;
        let Queue {
            parts,
            at: _,
            cursor: _,
            window: _,
        } = queue;
        retire_parts(parts, shelf);
    }
}

// Returns sources to the shelf.
fn retire_parts<S: Source, H: Shelf<Source = S>>(mut parts: Vec<Part<S>>, shelf: &mut H)
    ensures later { H.faults shelf.old ≤ H.faults shelf.new }
    ensures failed { HasFailed S.faults parts.items → Rose (H.faults shelf.old) (H.faults shelf.new) }
    ensures sound { (HasFailed S.faults parts.items → ⊥) → H.faults shelf.new ≡ H.faults shelf.old }
    ensures asked { H.asked shelf.new ≡ H.asked shelf.old }
    ensures files { H.files shelf.new ≡ H.files shelf.old }
{
    while let Some(part) = parts.pop() {
        let Part {
            source,
            reading: _,
            points: _,
        } = part;
        shelf.retire(source);
    }
    parts.destroy_empty();
}

// The input and its record that come after the records that were drawn.
#[derive(Clone, Copy, Debug)]
struct Start {
    index: usize,
    number: PointNumber,
}

fn start_of(counts: &[SourceCount], drawn: u64) -> Start
    requires drawn { drawn ≤ total counts.now }
    ensures { StartsAt counts.now drawn result.index result.number }
{
    let mut passed = drawn;
    for index in 0..counts.len() {
        let points = counts[index].points;
        if passed < points {
            return Start {
                index,
                number: passed,
            };
        }
        passed -= points;
    }
    Start {
        index: counts.len(),
        number: 0,
    }
}

// Opens the inputs with points from the place `from` on, and pushes them onto a list that has room for them.
fn open_parts<S: Source, H: Shelf<Source = S>>(
    shelf: &mut H,
    kept: &Kept,
    counts: &[SourceCount],
    from: usize,
    parts: &mut Vec<Part<S>>,
) -> Result<(), ReadError>
    requires each { length counts.now ≡ length kept.now.inputs }
    requires sound { All (IsCount kept.now.bounds) counts.now }
    requires within { from ≤ length counts.now }
    requires none { parts.old.items ≡ [] }
    requires room { length counts.now ≤ vec_capacity parts.old }
    ensures opened { OnOk result (HasOpened S.whole S.left S.given S.faults
        (H.files shelf.old) kept.now counts.now from (length counts.now) parts.new.items) }
    ensures fresh { HasFailed S.faults parts.new.items → ⊥ }
    ensures no_change { (source number : ℕ) → result ≢ Err (ReadError.SourceChanged source number) }
    ensures asked { OpensThese (paths_left (drop from kept.now.inputs) (drop from counts.now) 0) result
        (H.asked shelf.old) (H.asked shelf.new) }
    ensures files { H.files shelf.new ≡ H.files shelf.old }
    ensures cause { HasCauseOf ReadError.SourceFault (H.faults shelf.old) (H.faults shelf.new) result }
{
    for index in from..counts.len() {
        open_input(shelf, kept, counts[index], index, parts)?;
    }
    Ok(())
}

// Opens an input if it has points.
fn open_input<S: Source, H: Shelf<Source = S>>(
    shelf: &mut H,
    kept: &Kept,
    count: SourceCount,
    index: usize,
    parts: &mut Vec<Part<S>>,
) -> Result<(), ReadError>
    requires within { index < length kept.now.inputs }
    requires sound { IsCount kept.now.bounds count }
    requires room { vec_len parts.old < vec_capacity parts.old }
    ensures adds { OnOk result (AddsInput S.whole S.left S.given S.faults
        (H.files shelf.old) kept.now index count.points count.extent parts.old.items parts.new.items) }
    ensures one { vec_len parts.new ≤ vec_len parts.old + 1 }
    ensures room { vec_capacity parts.new ≡ vec_capacity parts.old }
    ensures unchanged { OnErr result (parts.new.items ≡ parts.old.items) }
    ensures no_change { (source number : ℕ) → result ≢ Err (ReadError.SourceChanged source number) }
    ensures asked { (input : config.Input) → slice_get kept.now.inputs index ≡ Some input
        → OpensThese (path_left input count 0) result (H.asked shelf.old) (H.asked shelf.new) }
    ensures files { H.files shelf.new ≡ H.files shelf.old }
    ensures cause { HasCauseOf ReadError.SourceFault (H.faults shelf.old) (H.faults shelf.new) result }
{
    let Some(extent) = count.extent else {
        return Ok(());
    };
    let input = kept.input(index);
    let reading = reading_of(input, kept.scale, index as u32, Some(extent));
    let source = shelf.open(input.path.as_str())?;
    parts.push_reserved(Part {
        source,
        reading,
        points: count.points,
    });
    Ok(())
}
