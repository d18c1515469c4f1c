//! The value of each key. Its type is checked before its range.

ghost use Rattle.std.specs.Prelude.{◌≡◌, ◌≤◌, ◌^◌, IfOk};
ghost use Rattle.serde_json.specs.View.{view};
ghost use Rattle.ept_config_text.specs.Values.{natural, span, offset, bounds, natural_at, span_at, offset_at, bounds_at};
ghost use Rattle.ept_config.specs.InputRanges.{AreThreeWithin};
ghost use Rattle.ept_config.specs.Ranges.{GivenBoundsInRange};

use crate::config_error::ConfigError;
use crate::config_key::ConfigKey;
use crate::json::{six_wholes, three_wholes, whole};
use crate::limits::DEFAULT_SPAN;
use crate::numbers::{bounds_within, natural_within, span_exponent, three_within};
use ept_config::MAX_OFFSET;
use ept_space::Bounds;
use serde_json::Value;

/// A whole number from `least` to `greatest`.
#[tactic(auto, unfolding(crate::specs::Values::natural))]
pub fn natural(key: ConfigKey, least: u64, greatest: u64, value: &Value) -> Result<u64, ConfigError>
    ensures value { result ≡ natural key least greatest (view value.now) }
    ensures range { IfOk result (λ n. (least ≤ n) × (n ≤ greatest)) }
{
    let n = whole(value).ok_or(ConfigError::Kind { key })?;
    natural_within(least, greatest, n).ok_or(ConfigError::Range { key })
}

/// The number of a key of the top object, or the default if the key is missing.
#[tactic(auto, unfolding(crate::specs::Values::natural_at))]
pub fn natural_at(
    key: ConfigKey,
    least: u64,
    greatest: u64,
    default: u64,
    top: &Value,
) -> Result<u64, ConfigError>
    requires low { least ≤ default }
    requires high { default ≤ greatest }
    ensures value { result ≡ natural_at key least greatest default (view top.now) }
    ensures range { IfOk result (λ n. (least ≤ n) × (n ≤ greatest)) }
{
    match top.get(key.name()) {
        Some(value) => natural(key, least, greatest, value),
        None => Ok(default),
    }
}

/// The exponent of the span.
#[tactic(auto, unfolding(crate::specs::Values::span_at, crate::specs::Values::span))]
pub fn span_at(top: &Value) -> Result<u8, ConfigError>
    ensures value { result ≡ span_at (view top.now) }
    ensures range { IfOk result (λ s. (1 ≤ s) × (s ≤ 10)) }
{
    let key = ConfigKey::Span;
    let Some(value) = top.get(key.name()) else {
        return Ok(DEFAULT_SPAN);
    };
    let n = whole(value).ok_or(ConfigError::Kind { key })?;
    span_exponent(n).ok_or(ConfigError::Range { key })
}

/// The offset.
#[tactic(auto, unfolding(crate::specs::Values::offset_at, crate::specs::Values::offset))]
pub fn offset_at(top: &Value) -> Result<[i64; 3], ConfigError>
    ensures value { result ≡ offset_at (view top.now) }
    ensures range { IfOk result (AreThreeWithin (10 ^ 9)) }
{
    let key = ConfigKey::Offset;
    let Some(value) = top.get(key.name()) else {
        return Ok([0; 3]);
    };
    let numbers = three_wholes(value).ok_or(ConfigError::Kind { key })?;
    three_within(MAX_OFFSET, numbers).ok_or(ConfigError::Range { key })
}

/// The bounds, if they are given.
#[tactic(auto, unfolding(crate::specs::Values::bounds_at, crate::specs::Values::bounds))]
pub fn bounds_at(top: &Value) -> Result<Option<Bounds>, ConfigError>
    ensures value { result ≡ bounds_at (view top.now) }
    ensures range { IfOk result GivenBoundsInRange }
{
    let key = ConfigKey::Bounds;
    let Some(value) = top.get(key.name()) else {
        return Ok(None);
    };
    let numbers = six_wholes(value).ok_or(ConfigError::Kind { key })?;
    let bounds = bounds_within(numbers).ok_or(ConfigError::Range { key })?;
    Ok(Some(bounds))
}
