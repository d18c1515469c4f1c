//! The build file.

ghost use Rattle.std.specs.Prelude.{◌≡◌, ◌++◌, codes, OnOk, OnErr};
ghost use Rattle.std.specs.List.{join_by};
ghost use Rattle.hex.specs.Hex.{encode_lower};
ghost use Rattle.ept_meta.specs.Json.{quoted};
ghost use Rattle.ept_meta.specs.BuildText.{build_text, units_text, stored_bounds_text, octree_text};
ghost use Rattle.ept_meta.specs.BuildText.{inputs_text, input_list_text, input_text, expect_text};

use crate::classes::{append_first, append_last};
use crate::pieces::{
    append, append_comma, append_number, append_number_member, append_quoted, append_whole_items,
    append_wholes,
};
use crate::srs_object::append_srs;
use crate::units::{span, wide};
use ept_config::{EXPECT_WIDTH, Input, Kept};
use ept_point::Memory;
use ept_space::Bounds;

/// Appends the build file: everything in the configuration that the output depends on, with the bounds in stored units.
///
/// The text is made in a buffer of its own first. So if memory runs out, `out` is as it was.
pub fn build_json(kept: &Kept, out: &mut Vec<u8>) -> Result<(), Memory>
    ensures text { OnOk result (out.new.items ≡ out.old.items ++ build_text kept.now) }
    ensures unchanged { OnErr result (out.new.items ≡ out.old.items) }
{
    let mut text = Vec::new(*out.allocator());
    append_build(&mut text, kept)?;
    out.extend_from_slice(&text)?;
    Ok(())
}

#[tactic(auto, unfolding(crate::specs::BuildText::build_text))]
fn append_build(text: &mut Vec<u8>, kept: &Kept) -> Result<(), Memory>
    ensures { OnOk result (text.new.items ≡ text.old.items ++ build_text kept.now) }
{
    append_units(text, kept)?;
    append_octree(text, kept)?;
    append(text, b",\"srs\":")?;
    append_srs(text, &kept.srs)?;
    append_first(text, &kept.first)?;
    append_last(text, kept.withheld_last)?;
    append_inputs(text, kept.inputs.as_slice())?;
    append(text, b"}")?;
    Ok(())
}

#[tactic(auto, unfolding(crate::specs::BuildText::units_text))]
fn append_units(text: &mut Vec<u8>, kept: &Kept) -> Result<(), Memory>
    ensures { OnOk result (text.new.items ≡ text.old.items ++ units_text kept.now) }
{
    append(text, b"{\"scale\":")?;
    append_number(text, u64::from(kept.scale))?;
    append(text, b",\"offset\":")?;
    append_wholes(text, &kept.offset)?;
    append(text, b",\"bounds\":")?;
    append_stored_bounds(text, &kept.bounds)?;
    Ok(())
}

/// Appends bounds in stored units.
#[tactic(auto, unfolding(crate::specs::BuildText::stored_bounds_text))]
pub(crate) fn append_stored_bounds(text: &mut Vec<u8>, bounds: &Bounds) -> Result<(), Memory>
    ensures { OnOk result (text.new.items
        ≡ text.old.items ++ stored_bounds_text bounds.now) }
{
    append(text, b"[")?;
    append_whole_items(text, &wide(&bounds.min))?;
    append(text, b",")?;
    append_whole_items(text, &wide(&bounds.max))?;
    append(text, b"]")?;
    Ok(())
}

#[tactic(auto, unfolding(crate::specs::BuildText::octree_text))]
fn append_octree(text: &mut Vec<u8>, kept: &Kept) -> Result<(), Memory>
    ensures { OnOk result (text.new.items ≡ text.old.items ++ octree_text kept.now) }
{
    append_number_member(text, b"span", span(kept))?;
    append_number_member(text, b"minNodeSize", kept.threshold)?;
    append_number_member(text, b"maxDepth", u64::from(kept.max_depth))?;
    append_number_member(text, b"hierarchyStep", u64::from(kept.step))?;
    Ok(())
}

#[tactic(auto, unfolding(crate::specs::BuildText::inputs_text))]
fn append_inputs(text: &mut Vec<u8>, inputs: &[Input]) -> Result<(), Memory>
    ensures { OnOk result (text.new.items ≡ text.old.items ++ inputs_text inputs.now) }
{
    append(text, b",\"input\":[")?;
    append_input_items(text, inputs)?;
    append(text, b"]")?;
    Ok(())
}

/// Appends the inputs as an array.
#[tactic(auto, unfolding(crate::specs::BuildText::input_list_text))]
pub(crate) fn append_input_list(text: &mut Vec<u8>, inputs: &[Input]) -> Result<(), Memory>
    ensures { OnOk result (text.new.items ≡ text.old.items ++ input_list_text inputs.now) }
{
    append(text, b"[")?;
    append_input_items(text, inputs)?;
    append(text, b"]")?;
    Ok(())
}

fn append_input_items(text: &mut Vec<u8>, inputs: &[Input]) -> Result<(), Memory>
    ensures { OnOk result (text.new.items ≡ text.old.items ++ join_by input_text (codes ",") inputs.now) }
{
    for (at, input) in inputs.iter().enumerate() {
        append_comma(text, at > 0)?;
        append_input(text, input)?;
    }
    Ok(())
}

/// Appends the object of an input.
#[tactic(auto, unfolding(crate::specs::BuildText::input_text))]
pub(crate) fn append_input(text: &mut Vec<u8>, input: &Input) -> Result<(), Memory>
    ensures { OnOk result (text.new.items ≡ text.old.items ++ input_text input.now) }
{
    append(text, b"{\"path\":")?;
    append_quoted(text, input.path.as_str())?;
    append_number_member(text, b"scale", u64::from(input.scale))?;
    append(text, b",\"shift\":")?;
    append_wholes(text, &input.shift)?;
    append_expect(text, &input.expect)?;
    append(text, b"}")?;
    Ok(())
}

fn append_expect(text: &mut Vec<u8>, expect: &Option<[u8; EXPECT_WIDTH]>) -> Result<(), Memory>
    ensures { OnOk result (text.new.items ≡ text.old.items ++ expect_text expect.now) }
{
    if let Some(bytes) = expect {
        append(text, b",\"expect\":")?;
        append_hexadecimal(text, bytes)?;
    }
    Ok(())
}

fn append_hexadecimal(text: &mut Vec<u8>, bytes: &[u8; EXPECT_WIDTH]) -> Result<(), Memory>
    ensures { OnOk result (text.new.items ≡ text.old.items ++ quoted (encode_lower bytes.now)) }
{
    let digits = hex::encode(*text.allocator(), bytes.as_slice())?;
    append_quoted(text, digits.as_str())
}
