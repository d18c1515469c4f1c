//! Copies of a configuration's parts.

ghost use Rattle.std.specs.Prelude.{◌≡◌, IfOk};

use crate::input::Input;
use crate::srs::Srs;
use ept_point::{List, Memory, Text};
use std::alloc::Global;

/// A copy of a text.
pub fn copy_of_text(alloc: Global, text: &Text) -> Result<Text, Memory>
    ensures { IfOk result (λ copy. copy ≡ text.now) }
{
    let copy = String::from_str(alloc, text.as_str())?;
    Ok(Text::of(copy))
}

/// A copy of an input.
pub fn copy_of_input(alloc: Global, input: &Input) -> Result<Input, Memory>
    ensures { IfOk result (λ copy. copy ≡ input.now) }
{
    Ok(Input {
        path: copy_of_text(alloc, &input.path)?,
        scale: input.scale,
        shift: input.shift,
        expect: input.expect,
    })
}

fn copy_of_member(alloc: Global, text: &Option<Text>) -> Result<Option<Text>, Memory>
    ensures { IfOk result (λ copy. copy ≡ text.now) }
{
    match text {
        Some(text) => Ok(Some(copy_of_text(alloc, text)?)),
        None => Ok(None),
    }
}

/// A copy of a spatial reference.
pub fn copy_of_srs(alloc: Global, srs: &Srs) -> Result<Srs, Memory>
    ensures { IfOk result (λ copy. copy ≡ srs.now) }
{
    Ok(Srs {
        authority: copy_of_member(alloc, &srs.authority)?,
        horizontal: copy_of_member(alloc, &srs.horizontal)?,
        vertical: copy_of_member(alloc, &srs.vertical)?,
        wkt: copy_of_member(alloc, &srs.wkt)?,
    })
}

/// A copy of the inputs.
pub fn copy_of_inputs(alloc: Global, inputs: &List<Input>) -> Result<List<Input>, Memory>
    ensures { IfOk result (λ copy. copy ≡ inputs.now) }
{
    let items = inputs.as_slice();
    let mut copy = Vec::with_capacity(alloc, items.len())?;
    for input in items {
        copy.push(copy_of_input(alloc, input)?)?;
    }
    Ok(List::of(copy))
}
