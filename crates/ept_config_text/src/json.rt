//! What a JSON value is read as. `specs/Json.antt` has definitions of the same names.

ghost use Rattle.std.specs.Prelude.{◌≡◌, map, option_map, string_bytes};
ghost use Rattle.std.specs.List.{list_all, list_any};
ghost use Rattle.std.specs.BTreeMap.{keys as map_keys};
ghost use Rattle.std.specs.Str.{bytes_eq};
ghost use Rattle.serde_json.specs.View.{view};
ghost use Rattle.serde_json.specs.Find.{as_object};
ghost use Rattle.ept_config_text.specs.Json.{whole, wholes, wholes_of, array_items, has_only, is_among};

use serde_json::{Map, Number, Value};

/// A whole number of 64 bits, signed or unsigned.
#[tactic(auto, unfolding(crate::specs::Json::whole))]
pub fn whole(value: &Value) -> Option<i128>
    ensures { result ≡ whole (view value.now) }
{
    value.as_number().and_then(Number::as_i128)
}

/// The items of an array.
#[tactic(auto, unfolding(crate::specs::Json::array_items))]
pub fn array_items(value: &Value) -> Option<&[Value]>
    ensures { option_map (λ items. map view items.now) result ≡ array_items (view value.now) }
{
    match value.as_array() {
        Some(items) => Some(items.as_slice()),
        None => None,
    }
}

/// An array of three whole numbers.
#[tactic(auto, unfolding(crate::specs::Json::wholes))]
pub fn three_wholes(value: &Value) -> Option<[i128; 3]>
    ensures { result ≡ wholes 3 (view value.now) }
{
    three_of(array_items(value)?)
}

#[tactic(auto, using(crate::proofs::Wholes::wholes_below, crate::proofs::Wholes::wholes_above))]
fn three_of(items: &[Value]) -> Option<[i128; 3]>
    ensures { result ≡ wholes_of 3 (map view items.now) }
{
    let [x, y, z] = items else {
        return None;
    };
    Some([whole(x)?, whole(y)?, whole(z)?])
}

/// An array of six whole numbers.
#[tactic(auto, unfolding(crate::specs::Json::wholes))]
pub fn six_wholes(value: &Value) -> Option<[i128; 6]>
    ensures { result ≡ wholes 6 (view value.now) }
{
    six_of(array_items(value)?)
}

#[tactic(auto, using(crate::proofs::Wholes::wholes_below, crate::proofs::Wholes::wholes_above))]
fn six_of(items: &[Value]) -> Option<[i128; 6]>
    ensures { result ≡ wholes_of 6 (map view items.now) }
{
    let [a, b, c, d, e, f] = items else {
        return None;
    };
    Some([
        whole(a)?,
        whole(b)?,
        whole(c)?,
        whole(d)?,
        whole(e)?,
        whole(f)?,
    ])
}

/// Whether the value is an object that has no keys except these.
#[tactic(auto, unfolding(crate::specs::Json::has_only))]
pub fn has_only(keys: &[&str], value: &Value) -> bool
    ensures { result ≡ has_only (map (λ key. key.now) keys.now) (view value.now) }
{
    match value.as_object() {
        Some(members) => has_members_among(keys, members),
        None => false,
    }
}

fn has_members_among(keys: &[&str], members: &Map<String, Value>) -> bool
    ensures { result ≡ list_all
        (λ key. list_any (λ other. bytes_eq (string_bytes key) other.now) keys.now) (map_keys members.now) }
{
    members.keys().all(|key| is_among(keys, key.as_str()))
}

fn is_among(keys: &[&str], key: &str) -> bool
    ensures { result ≡ list_any (λ other. bytes_eq key.now other.now) keys.now }
{
    keys.iter().any(|other| key == *other)
}
