//! Where a configuration differs from what is kept.

ghost use Rattle.std.specs.Prelude.{◌≡◌, ◌↔◌, [], IsTrue, Ok, None, IfOk, IfSome, OnOk};
ghost use Rattle.ept_config_diff.specs.Differing.{ArePrefix, IsAsKept, GoesOnFrom, IsFirst, AreTexts, AreInputTexts, IsDifference};

use crate::equal::{alike, is_prefix, is_same_bounds, is_same_offset, is_same_set, is_same_srs};
use ept_config::{Input, Kept};
use ept_meta::{Field, field_json, input_json};
use ept_point::Memory;
use std::alloc::Global;

// The fields in the order in which they are compared.
const FIELDS: [Field; 11] = [
    Field::Scale,
    Field::Offset,
    Field::Bounds,
    Field::Span,
    Field::MinNodeSize,
    Field::MaxDepth,
    Field::HierarchyStep,
    Field::Srs,
    Field::FirstClasses,
    Field::WithheldLast,
    Field::Input,
];

/// The first field in which what is given differs from what is kept, with both values as the build file has them. If
/// the field is the inputs, the values are those of the first input that differs. The given value is empty if the given
/// list ends before that input.
#[derive(Debug, Drop)]
pub struct Difference {
    pub field: Field,
    pub kept: Vec<u8>,
    pub given: Vec<u8>,
}

/// Returns the first difference of what is given from what is kept, if there is one. More inputs may be given than are
/// kept.
pub fn first_difference(
    alloc: Global,
    kept: &Kept,
    given: &Kept,
) -> Result<Option<Difference>, Memory>
    ensures none { result ≡ Ok None → GoesOnFrom kept.now given.now }
    ensures some { IfOk result (λ found. IfSome found (IsDifference kept.now given.now)) }
{
    match first_field(kept, given) {
        None => Ok(None),
        Some(field) => Ok(Some(told(alloc, kept, given, field)?)),
    }
}

// The first field that differs, if there is one.
fn first_field(kept: &Kept, given: &Kept) -> Option<Field>
    ensures none { result ≡ None → GoesOnFrom kept.now given.now }
    ensures some { IfSome result (IsFirst kept.now given.now) }
{
    for field in FIELDS {
        if !is_as_kept(kept, given, field) {
            return Some(field);
        }
    }
    None
}

// Whether a field is given as it is kept.
fn is_as_kept(kept: &Kept, given: &Kept, field: Field) -> bool
    ensures { IsTrue result ↔ IsAsKept kept.now given.now field }
{
    match field {
        Field::Scale => given.scale == kept.scale,
        Field::Offset => is_same_offset(&kept.offset, &given.offset),
        Field::Bounds => is_same_bounds(&kept.bounds, &given.bounds),
        Field::Span => given.s == kept.s,
        Field::MinNodeSize => given.threshold == kept.threshold,
        Field::MaxDepth => given.max_depth == kept.max_depth,
        Field::HierarchyStep => given.step == kept.step,
        Field::Srs => is_same_srs(&kept.srs, &given.srs),
        Field::FirstClasses => is_same_set(&kept.first, &given.first),
        Field::WithheldLast => given.withheld_last == kept.withheld_last,
        Field::Input => is_prefix(kept.inputs.as_slice(), given.inputs.as_slice()),
    }
}

// The difference in a field that differs.
fn told(alloc: Global, kept: &Kept, given: &Kept, field: Field) -> Result<Difference, Memory>
    requires { ¬ IsAsKept kept.now given.now field }
    ensures field { IfOk result (λ d. d.field ≡ field) }
    ensures texts { IfOk result (λ d. AreTexts kept.now given.now field d.kept.items d.given.items) }
{
    let mut one = Vec::new(alloc);
    let mut other = Vec::new(alloc);
    match field {
        Field::Input => {
            let inputs = given.inputs.as_slice();
            append_inputs(kept.inputs.as_slice(), inputs, &mut one, &mut other)?
        }
        _ => {
            field_json(kept, field, &mut one)?;
            field_json(given, field, &mut other)?
        }
    }
    Ok(Difference {
        field,
        kept: one,
        given: other,
    })
}

// Appends the first input that differs: as it is kept to `one`, and as it is given, if it is, to `other`.
fn append_inputs(
    kept: &[Input],
    given: &[Input],
    one: &mut Vec<u8>,
    other: &mut Vec<u8>,
) -> Result<(), Memory>
    requires differ { ¬ ArePrefix kept.now given.now }
    requires empty_one { one.old.items ≡ [] }
    requires empty_other { other.old.items ≡ [] }
    ensures texts { OnOk result (AreInputTexts kept.now given.now one.new.items other.new.items) }
{
    let at = alike(kept, given);
    input_json(&kept[at], one)?;
    if at < given.len() {
        input_json(&given[at], other)?;
    }
    Ok(())
}
