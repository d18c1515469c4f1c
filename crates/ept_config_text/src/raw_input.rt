//! What a configuration says of an input, before its ranges are checked.

ghost use Rattle.std.specs.Prelude.{◌≡◌, option_map, IfSome};
ghost use Rattle.std.specs.Option.{ForSome};
ghost use Rattle.serde_json.specs.View.{view};
ghost use Rattle.ept_config_text.specs.Inputs.{path_member, scale_member, shift_member, expect_member, raw_input, input_members, input_object};
ghost use Rattle.ept_config_text.specs.RawInputs.{members_of};
ghost use Rattle.ept_config.specs.InputRanges.{AreBytes};

use crate::expected::expected_bytes;
use crate::json::{has_only, three_wholes, whole};
use ept_config::EXPECT_WIDTH;
use serde_json::Value;

/// The members of an input. They have the right types, and may be out of range.
#[derive(Drop)]
pub struct RawInput<'a> {
    pub path: &'a str,
    pub scale: Option<i128>,
    pub shift: Option<[i128; 3]>,
    pub expect: Option<[u8; EXPECT_WIDTH]>,
}

/// The members of an input, which has to be a text or an object.
#[tactic(auto, unfolding(crate::specs::Inputs::raw_input))]
pub fn raw_input(value: &Value) -> Option<RawInput<'_>>
    ensures value { option_map members_of result ≡ raw_input (view value.now) }
    ensures expect { IfSome result (λ raw. ForSome raw.expect (AreBytes 48)) }
{
    match value.as_str() {
        Some(path) => Some(RawInput {
            path,
            scale: None,
            shift: None,
            expect: None,
        }),
        None => input_object(value),
    }
}

#[tactic(auto, unfolding(crate::specs::Inputs::input_object))]
fn input_object(value: &Value) -> Option<RawInput<'_>>
    ensures value { option_map members_of result ≡ input_object (view value.now) }
    ensures expect { IfSome result (λ raw. ForSome raw.expect (AreBytes 48)) }
{
    if has_only(&["path", "scale", "shift", "expect"], value) {
        input_members(value)
    } else {
        None
    }
}

#[tactic(auto, unfolding(crate::specs::Inputs::input_members))]
fn input_members(object: &Value) -> Option<RawInput<'_>>
    ensures value { option_map members_of result ≡ input_members (view object.now) }
    ensures expect { IfSome result (λ raw. ForSome raw.expect (AreBytes 48)) }
{
    let path = path_member(object)?;
    let scale = scale_member(object)?;
    let shift = shift_member(object)?;
    let expect = expect_member(object)?;
    Some(RawInput {
        path,
        scale,
        shift,
        expect,
    })
}

#[tactic(auto, unfolding(crate::specs::Inputs::path_member))]
fn path_member(object: &Value) -> Option<&str>
    ensures { option_map (λ text. text.now) result ≡ path_member (view object.now) }
{
    object.get("path").and_then(Value::as_str)
}

// A member that may be missing. The result is `None` if the member is there and has the wrong type.
#[tactic(auto, unfolding(crate::specs::Inputs::scale_member))]
fn scale_member(object: &Value) -> Option<Option<i128>>
    ensures { result ≡ scale_member (view object.now) }
{
    match object.get("scale") {
        Some(value) => Some(Some(whole(value)?)),
        None => Some(None),
    }
}

#[tactic(auto, unfolding(crate::specs::Inputs::shift_member))]
fn shift_member(object: &Value) -> Option<Option<[i128; 3]>>
    ensures { result ≡ shift_member (view object.now) }
{
    match object.get("shift") {
        Some(value) => Some(Some(three_wholes(value)?)),
        None => Some(None),
    }
}

#[tactic(auto, unfolding(crate::specs::Inputs::expect_member, crate::specs::Inputs::expect_of))]
fn expect_member(object: &Value) -> Option<Option<[u8; EXPECT_WIDTH]>>
    ensures value { result ≡ expect_member (view object.now) }
    ensures range { IfSome result (λ expect. ForSome expect (AreBytes 48)) }
{
    match object.get("expect") {
        Some(value) => Some(Some(expected_bytes(value.as_str()?)?)),
        None => Some(None),
    }
}
