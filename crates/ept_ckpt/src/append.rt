//! Numbers, texts and bounds, as bytes that are appended to others.

ghost use Rattle.std.specs.Prelude.{◌≡◌, ◌<◌, ◌≤◌, ◌^◌, ◌++◌, ◌∷◌, [], length, true, OnOk};
ghost use Rattle.std.specs.Option.{ForSome};
ghost use Rattle.std.specs.Int.{w32, w64, cast_unsigned};
ghost use Rattle.byteorder.specs.Endian.{little_bytes};
ghost use Rattle.ept_config.specs.Texts.{is_path, is_srs_text};
ghost use Rattle.ept_ckpt.specs.Body.{i32_bytes, i64_bytes, bounds_bytes, text_bytes, optional, flag};

use ept_point::{Memory, Text};
use ept_space::Bounds;

/// Appends these bytes.
pub(crate) fn append(out: &mut Vec<u8>, bytes: &[u8]) -> Result<(), Memory>
    ensures { OnOk result (out.new.items ≡ out.old.items ++ bytes.now) }
{
    out.extend_from_slice(bytes)?;
    Ok(())
}

/// Appends a number of 8 bits.
pub(crate) fn append_u8(out: &mut Vec<u8>, number: u8) -> Result<(), Memory>
    ensures { OnOk result (out.new.items ≡ out.old.items ++ (number ∷ [])) }
{
    out.push(number)?;
    Ok(())
}

/// Appends a number of 32 bits.
pub(crate) fn append_u32(out: &mut Vec<u8>, number: u32) -> Result<(), Memory>
    ensures { OnOk result (out.new.items ≡ out.old.items ++ little_bytes 4 number) }
{
    append(out, &number.to_le_bytes())
}

/// Appends a number of 64 bits.
pub(crate) fn append_u64(out: &mut Vec<u8>, number: u64) -> Result<(), Memory>
    ensures { OnOk result (out.new.items ≡ out.old.items ++ little_bytes 8 number) }
{
    append(out, &number.to_le_bytes())
}

/// Appends a signed number of 32 bits.
pub(crate) fn append_i32(out: &mut Vec<u8>, number: &i32) -> Result<(), Memory>
    ensures { OnOk result (out.new.items ≡ out.old.items ++ little_bytes 4 (cast_unsigned w32 number.now)) }
{
    append(out, &number.to_le_bytes())
}

/// Appends a signed number of 64 bits.
pub(crate) fn append_i64(out: &mut Vec<u8>, number: &i64) -> Result<(), Memory>
    ensures { OnOk result (out.new.items ≡ out.old.items ++ little_bytes 8 (cast_unsigned w64 number.now)) }
{
    append(out, &number.to_le_bytes())
}

/// Appends signed numbers of 32 bits.
pub(crate) fn append_i32s(out: &mut Vec<u8>, numbers: &[i32]) -> Result<(), Memory>
    ensures { OnOk result (out.new.items ≡ out.old.items ++ i32_bytes numbers.now) }
{
    for number in numbers {
        append_i32(out, number)?;
    }
    Ok(())
}

/// Appends signed numbers of 64 bits.
pub(crate) fn append_i64s(out: &mut Vec<u8>, numbers: &[i64]) -> Result<(), Memory>
    ensures { OnOk result (out.new.items ≡ out.old.items ++ i64_bytes numbers.now) }
{
    for number in numbers {
        append_i64(out, number)?;
    }
    Ok(())
}

/// Appends bounds: their least coordinates, and then their greatest ones.
#[tactic(auto, unfolding(crate::specs::Body::bounds_bytes))]
pub(crate) fn append_bounds(out: &mut Vec<u8>, bounds: &Bounds) -> Result<(), Memory>
    ensures { OnOk result (out.new.items ≡ out.old.items ++ bounds_bytes bounds.now) }
{
    append_i32s(out, &bounds.min)?;
    append_i32s(out, &bounds.max)?;
    Ok(())
}

/// Appends the length of a text, and then its bytes.
#[tactic(auto, unfolding(crate::specs::Body::text_bytes))]
pub(crate) fn append_text(out: &mut Vec<u8>, text: &str) -> Result<(), Memory>
    requires { length text.now < 2 ^ 32 }
    ensures { OnOk result (out.new.items ≡ out.old.items ++ text_bytes text.now) }
{
    append_u32(out, text.len() as u32)?;
    append(out, text.as_bytes())?;
    Ok(())
}

/// Appends the path of an input.
pub(crate) fn append_path(out: &mut Vec<u8>, path: &Text) -> Result<(), Memory>
    requires { is_path path.now ≡ true }
    ensures { OnOk result (out.new.items ≡ out.old.items ++ text_bytes path.now) }
{
    append_text(out, path.as_str())
}

/// Appends a text of a spatial reference, if there is one.
pub(crate) fn append_srs_text(out: &mut Vec<u8>, text: &Option<Text>) -> Result<(), Memory>
    requires { ForSome text.now (λ text. is_srs_text text ≡ true) }
    ensures { OnOk result (out.new.items ≡ out.old.items ++ optional text_bytes text.now) }
{
    if let Some(text) = text {
        append_text(out, text.as_str())?;
    }
    Ok(())
}

/// 1 if there is a value, otherwise 0.
pub(crate) fn flag<T>(value: &Option<T>) -> u8
    ensures flag { result ≡ flag value.now }
    ensures most { result ≤ 1 }
{
    if value.is_some() { 1 } else { 0 }
}
