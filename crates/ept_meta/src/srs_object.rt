//! The spatial reference.

ghost use Rattle.std.specs.Prelude.{◌≡◌, ◌++◌, ◌||◌, is_some, OnOk, IfOk};
ghost use Rattle.ept_meta.specs.SrsObject.{srs_text, member_part};

use crate::pieces::{append, append_comma, append_quoted};
use ept_config::Srs;
use ept_point::{Memory, Text};

/// Appends the spatial reference: an object of the texts that are there.
#[tactic(auto, unfolding(crate::specs::SrsObject::srs_text))]
pub(crate) fn append_srs(text: &mut Vec<u8>, srs: &Srs) -> Result<(), Memory>
    ensures { OnOk result (text.new.items ≡ text.old.items ++ srs_text srs.now) }
{
    append(text, b"{")?;
    let some = append_member(text, false, "authority", &srs.authority)?;
    let some = append_member(text, some, "horizontal", &srs.horizontal)?;
    let some = append_member(text, some, "vertical", &srs.vertical)?;
    append_member(text, some, "wkt", &srs.wkt)?;
    append(text, b"}")?;
    Ok(())
}

// Appends a member if its text is there, after a comma if `some` says that the object has members already. Returns
// whether the object then has members.
#[tactic(auto, unfolding(crate::specs::SrsObject::member_text))]
fn append_member(
    text: &mut Vec<u8>,
    some: bool,
    key: &str,
    value: &Option<Text>,
) -> Result<bool, Memory>
    ensures text { OnOk result (text.new.items ≡ text.old.items ++ member_part some key.now value.now) }
    ensures some { IfOk result (λ after. after ≡ some || is_some value.now) }
{
    let Some(value) = value else {
        return Ok(some);
    };
    append_comma(text, some)?;
    append_quoted(text, key)?;
    append(text, b":")?;
    append_quoted(text, value.as_str())?;
    Ok(true)
}
