//! The pieces of a JSON text (RFC 8259).

ghost use Rattle.std.specs.Prelude.{◌≡◌, ◌++◌, [], OnOk, codes, if◌then◌else◌};
ghost use Rattle.std.specs.Fmt.{decimal, signed_decimal};
ghost use Rattle.std.specs.List.{flat_map, join_by};
ghost use Rattle.ept_meta.specs.Json.{quoted, escaped, number_member, naturals_text, wholes, wholes_text};

use ept_point::Memory;
use itoa::Buffer;

/// Appends these bytes.
pub(crate) fn append(text: &mut Vec<u8>, bytes: &[u8]) -> Result<(), Memory>
    ensures { OnOk result (text.new.items ≡ text.old.items ++ bytes.now) }
{
    text.extend_from_slice(bytes)?;
    Ok(())
}

/// Appends a number.
pub(crate) fn append_number(text: &mut Vec<u8>, number: u64) -> Result<(), Memory>
    ensures { OnOk result (text.new.items ≡ text.old.items ++ decimal number) }
{
    append(text, Buffer::new().format(number).as_bytes())
}

/// Appends a member that is a number, after other members.
#[tactic(auto, unfolding(crate::specs::Json::number_member))]
pub(crate) fn append_number_member(
    text: &mut Vec<u8>,
    key: &[u8],
    number: u64,
) -> Result<(), Memory>
    ensures { OnOk result (text.new.items ≡ text.old.items ++ number_member key.now number) }
{
    append(text, b",\"")?;
    append(text, key)?;
    append(text, b"\":")?;
    append_number(text, number)?;
    Ok(())
}

/// Appends a comma if there are items or members before it.
pub(crate) fn append_comma(text: &mut Vec<u8>, some: bool) -> Result<(), Memory>
    ensures { OnOk result (text.new.items ≡ text.old.items ++ (if some then codes "," else [])) }
{
    if some {
        append(text, b",")?;
    }
    Ok(())
}

/// Appends a whole number.
#[tactic(auto, using(crate::proofs::Passed::passed_numbers))]
pub(crate) fn append_whole(text: &mut Vec<u8>, number: &i64) -> Result<(), Memory>
    ensures { OnOk result (text.new.items ≡ text.old.items ++ signed_decimal number.now) }
{
    append(text, Buffer::new().format(*number).as_bytes())
}

/// Appends an array of whole numbers.
#[tactic(auto, unfolding(crate::specs::Json::wholes_text))]
pub(crate) fn append_wholes(text: &mut Vec<u8>, numbers: &[i64]) -> Result<(), Memory>
    ensures { OnOk result (text.new.items ≡ text.old.items ++ wholes_text numbers.now) }
{
    append(text, b"[")?;
    append_whole_items(text, numbers)?;
    append(text, b"]")?;
    Ok(())
}

/// Appends whole numbers with commas between them.
pub(crate) fn append_whole_items(text: &mut Vec<u8>, numbers: &[i64]) -> Result<(), Memory>
    ensures { OnOk result (text.new.items ≡ text.old.items ++ wholes numbers.now) }
{
    for (at, number) in numbers.iter().enumerate() {
        append_comma(text, at > 0)?;
        append_whole(text, number)?;
    }
    Ok(())
}

/// Appends an array of numbers.
#[tactic(auto, unfolding(crate::specs::Json::naturals_text))]
pub(crate) fn append_naturals(text: &mut Vec<u8>, numbers: &[u8]) -> Result<(), Memory>
    ensures { OnOk result (text.new.items ≡ text.old.items ++ naturals_text numbers.now) }
{
    append(text, b"[")?;
    append_natural_items(text, numbers)?;
    append(text, b"]")?;
    Ok(())
}

fn append_natural_items(text: &mut Vec<u8>, numbers: &[u8]) -> Result<(), Memory>
    ensures { OnOk result (text.new.items ≡ text.old.items ++ join_by decimal (codes ",") numbers.now) }
{
    for (at, number) in numbers.iter().enumerate() {
        append_comma(text, at > 0)?;
        append_small(text, *number)?;
    }
    Ok(())
}

fn append_small(text: &mut Vec<u8>, number: u8) -> Result<(), Memory>
    ensures { OnOk result (text.new.items ≡ text.old.items ++ decimal number) }
{
    append_number(text, u64::from(number))
}

/// Appends a string, with a backslash before each of its quotation marks and backslashes.
#[tactic(auto, unfolding(crate::specs::Json::quoted))]
pub(crate) fn append_quoted(text: &mut Vec<u8>, string: &str) -> Result<(), Memory>
    ensures { OnOk result (text.new.items ≡ text.old.items ++ quoted string.now) }
{
    append(text, b"\"")?;
    append_escaped(text, string.as_bytes())?;
    append(text, b"\"")?;
    Ok(())
}

fn append_escaped(text: &mut Vec<u8>, string: &[u8]) -> Result<(), Memory>
    ensures { OnOk result (text.new.items ≡ text.old.items ++ flat_map escaped string.now) }
{
    for byte in string {
        append_byte(text, *byte)?;
    }
    Ok(())
}

fn append_byte(text: &mut Vec<u8>, byte: u8) -> Result<(), Memory>
    ensures { OnOk result (text.new.items ≡ text.old.items ++ escaped byte) }
{
    if byte == b'"' || byte == b'\\' {
        append(text, &[b'\\', byte])
    } else {
        append(text, &[byte])
    }
}
