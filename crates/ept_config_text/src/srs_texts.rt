//! The spatial reference of a configuration.

ghost use Rattle.std.specs.Prelude.{◌≡◌, ◌≢◌, option_map, true, IfOk, IfErr};
ghost use Rattle.std.specs.Option.{ForSome};
ghost use Rattle.serde_json.specs.View.{view};
ghost use Rattle.ept_config.specs.Facts.{srs_facts};
ghost use Rattle.ept_config_text.specs.SrsTexts.{raw_srs, srs_member, srs_members, fits_srs};
ghost use Rattle.ept_config_text.specs.RawSrs.{raw_srs_facts};
ghost use Rattle.ept_config.specs.Texts.{is_srs_text};
ghost use Rattle.ept_config_text.specs.Values.{srs, srs_at, srs_text, srs_texts};

use crate::config_error::ConfigError;
use crate::config_key::ConfigKey;
use crate::json::has_only;
use ept_config::{Srs, is_srs_text};
use ept_point::Text;
use serde_json::Value;
use std::alloc::Global;

/// The texts of a spatial reference, of any length.
#[derive(Drop)]
pub struct RawSrs<'a> {
    pub authority: Option<&'a str>,
    pub horizontal: Option<&'a str>,
    pub vertical: Option<&'a str>,
    pub wkt: Option<&'a str>,
}

/// The spatial reference. It has no texts if the key is missing.
#[tactic(auto, unfolding(crate::specs::Values::srs_at))]
pub fn srs_at(alloc: Global, top: &Value) -> Result<Srs, ConfigError>
    ensures ok { IfOk result (λ texts. srs_at (view top.now) ≡ Ok (srs_facts texts)) }
    ensures refused { IfErr result (λ e. e ≢ ConfigError.Memory → srs_at (view top.now) ≡ Err e) }
{
    match top.get(ConfigKey::Srs.name()) {
        Some(value) => srs(alloc, value),
        None => Ok(Srs {
            authority: None,
            horizontal: None,
            vertical: None,
            wkt: None,
        }),
    }
}

#[tactic(auto, unfolding(crate::specs::Values::srs))]
fn srs(alloc: Global, value: &Value) -> Result<Srs, ConfigError>
    ensures ok { IfOk result (λ texts. srs (view value.now) ≡ Ok (srs_facts texts)) }
    ensures refused { IfErr result (λ e. e ≢ ConfigError.Memory → srs (view value.now) ≡ Err e) }
{
    let key = ConfigKey::Srs;
    let raw = raw_srs(value).ok_or(ConfigError::Kind { key })?;
    srs_texts(alloc, &raw)
}

#[tactic(auto, unfolding(crate::specs::SrsTexts::raw_srs))]
fn raw_srs(value: &Value) -> Option<RawSrs<'_>>
    ensures { option_map raw_srs_facts result ≡ raw_srs (view value.now) }
{
    if has_only(&["authority", "horizontal", "vertical", "wkt"], value) {
        srs_members(value)
    } else {
        None
    }
}

#[tactic(auto, unfolding(crate::specs::SrsTexts::srs_members))]
fn srs_members(object: &Value) -> Option<RawSrs<'_>>
    ensures { option_map raw_srs_facts result ≡ srs_members (view object.now) }
{
    let authority = srs_member(object, "authority")?;
    let horizontal = srs_member(object, "horizontal")?;
    let vertical = srs_member(object, "vertical")?;
    let wkt = srs_member(object, "wkt")?;
    Some(RawSrs {
        authority,
        horizontal,
        vertical,
        wkt,
    })
}

// A text that may be missing. The result is `None` if the member is there and is no text.
#[tactic(auto, unfolding(crate::specs::SrsTexts::srs_member))]
fn srs_member<'a>(object: &'a Value, name: &str) -> Option<Option<&'a str>>
    ensures { option_map (λ text. option_map (λ t. t.now) text) result
        ≡ srs_member name.now (view object.now) }
{
    match object.get(name) {
        Some(value) => Some(Some(value.as_str()?)),
        None => Some(None),
    }
}

#[tactic(auto, unfolding(crate::specs::Values::srs_texts))]
fn srs_texts(alloc: Global, raw: &RawSrs) -> Result<Srs, ConfigError>
    ensures ok { IfOk result (λ texts. srs_texts (raw_srs_facts raw.now) ≡ Ok (srs_facts texts)) }
    ensures refused { IfErr result (λ e. e ≢ ConfigError.Memory
        → srs_texts (raw_srs_facts raw.now) ≡ Err e) }
{
    Ok(Srs {
        authority: srs_text(alloc, raw.authority)?,
        horizontal: srs_text(alloc, raw.horizontal)?,
        vertical: srs_text(alloc, raw.vertical)?,
        wkt: srs_text(alloc, raw.wkt)?,
    })
}

#[tactic(auto, unfolding(crate::specs::Values::srs_text, crate::specs::SrsTexts::fits_srs))]
fn srs_text(alloc: Global, text: Option<&str>) -> Result<Option<Text>, ConfigError>
    ensures ok { IfOk result (λ kept. srs_text (option_map (λ t. t.now) text.entry) ≡ Ok kept) }
    ensures refused { IfErr result (λ e. e ≢ ConfigError.Memory
        → srs_text (option_map (λ t. t.now) text.entry) ≡ Err e) }
    ensures fits { IfOk result (λ kept. ForSome kept (λ t. is_srs_text t ≡ true)) }
{
    let Some(text) = text else {
        return Ok(None);
    };
    if !is_srs_text(text) {
        return Err(ConfigError::Range {
            key: ConfigKey::Srs,
        });
    }
    let text = String::from_str(alloc, text)?;
    Ok(Some(Text::of(text)))
}
