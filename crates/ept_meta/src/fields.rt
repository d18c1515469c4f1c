//! The fields of the build file, one by one.

ghost use Rattle.std.specs.Prelude.{◌≡◌, ◌++◌, OnOk, OnErr};
ghost use Rattle.ept_meta.specs.BuildText.{field_text, input_text};

use crate::build::{append_input, append_input_list, append_stored_bounds};
use crate::classes::{append_classes, append_flag};
use crate::pieces::{append_number, append_wholes};
use crate::srs_object::append_srs;
use crate::units::span;
use ept_config::{Input, Kept};
use ept_point::Memory;

/// A field of the build file.
#[derive(Clone, Copy, Debug, PartialEq, Eq)]
pub enum Field {
    Scale,
    Offset,
    Bounds,
    Span,
    MinNodeSize,
    MaxDepth,
    HierarchyStep,
    Srs,
    FirstClasses,
    WithheldLast,
    Input,
}

/// Appends the value of a field, as the build file has it. If memory runs out, `out` is as it was.
pub fn field_json(kept: &Kept, field: Field, out: &mut Vec<u8>) -> Result<(), Memory>
    ensures text { OnOk result (out.new.items ≡ out.old.items ++ field_text field kept.now) }
    ensures unchanged { OnErr result (out.new.items ≡ out.old.items) }
{
    let mut text = Vec::new(*out.allocator());
    append_field(&mut text, kept, field)?;
    out.extend_from_slice(&text)?;
    Ok(())
}

/// Appends an input, as the build file has it. If memory runs out, `out` is as it was.
pub fn input_json(input: &Input, out: &mut Vec<u8>) -> Result<(), Memory>
    ensures text { OnOk result (out.new.items ≡ out.old.items ++ input_text input.now) }
    ensures unchanged { OnErr result (out.new.items ≡ out.old.items) }
{
    let mut text = Vec::new(*out.allocator());
    append_input(&mut text, input)?;
    out.extend_from_slice(&text)?;
    Ok(())
}

fn append_field(text: &mut Vec<u8>, kept: &Kept, field: Field) -> Result<(), Memory>
    ensures { OnOk result (text.new.items ≡ text.old.items ++ field_text field kept.now) }
{
    match field {
        Field::Scale => append_number(text, u64::from(kept.scale)),
        Field::Offset => append_wholes(text, &kept.offset),
        Field::Bounds => append_stored_bounds(text, &kept.bounds),
        Field::Span => append_number(text, span(kept)),
        Field::MinNodeSize => append_number(text, kept.threshold),
        Field::MaxDepth => append_number(text, u64::from(kept.max_depth)),
        Field::HierarchyStep => append_number(text, u64::from(kept.step)),
        Field::Srs => append_srs(text, &kept.srs),
        Field::FirstClasses => append_classes(text, &kept.first),
        Field::WithheldLast => append_flag(text, kept.withheld_last),
        Field::Input => append_input_list(text, kept.inputs.as_slice()),
    }
}
