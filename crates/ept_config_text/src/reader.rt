//! The text of a configuration.

ghost use Rattle.std.specs.Prelude.{◌≡◌, ◌≢◌, ◌<◌, IfOk, IfErr, Ok, Err};
ghost use Rattle.serde_json.specs.View.{view};
ghost use Rattle.ept_config.specs.Facts.{facts};
ghost use Rattle.ept_json.specs.Document.{document};
ghost use Rattle.ept_config_text.specs.Json.{has_only};
ghost use Rattle.ept_config_text.specs.Configuration.{reading, value_reading, object_reading, settings, top_keys};
ghost use Rattle.serde_json.specs.Find.{get};
ghost use Rattle.ept_config_text.specs.Keys.{name_of};
ghost use Rattle.ept_config_text.specs.Steps.{required};

use crate::classes::{first_classes_at, withheld_last_at};
use crate::config_error::ConfigError;
use crate::config_key::ConfigKey;
use crate::inputs::inputs;
use crate::json::has_only;
use crate::limits::{DEFAULT_DEPTH, DEFAULT_STEP, DEFAULT_THRESHOLD, MAX_LENGTH};
use crate::srs_texts::srs_at;
use crate::values::{bounds_at, natural, natural_at, offset_at, span_at};
use crate::work::work_at;
use ept_config::{Config, MAX_DEPTH, MAX_SCALE, MAX_STEP, MAX_THRESHOLD};
use ept_json::document;
use serde_json::Value;
use std::alloc::Global;

/// The keys of a configuration.
const KEYS: [&str; 15] = [
    "input",
    "scale",
    "offset",
    "bounds",
    "span",
    "minNodeSize",
    "maxDepth",
    "hierarchyStep",
    "srs",
    "firstClasses",
    "withheldLast",
    "threads",
    "cacheSize",
    "maxNodes",
    "checkpoint",
];

/// Reads a configuration from its JSON text, which has to be an object.
///
/// `input` and `scale` are required, and each other key has a default. An input is a text, its path, or an object of
/// `path` and, if they are given, `scale`, `shift` and `expect`. A whole number is written without a fraction or an
/// exponent and fits into 64 bits. If a key is there twice, the last value counts.
///
/// # Errors
///
/// The first check that fails:
///
/// - `Long` if there are more than `MAX_LENGTH` bytes.
/// - `Json` if they are not the text of a JSON value.
/// - `Kind` of `Top` if the value is no object.
/// - `Unknown` if the object has another key.
/// - `Missing` for `input`, and then for `scale`.
/// - `Kind` before `Range` for `scale`, and then for each other key in this order: `input`, `offset`, `bounds`, `span`,
///   `minNodeSize`, `maxDepth`, `hierarchyStep`, `srs`, `firstClasses`, `withheldLast`, `threads`, `cacheSize`,
///   `maxNodes`, `checkpoint`.
/// - `Threads` if `cacheSize` is below `threads`.
///
/// `Memory` may come at any place.
#[tactic(auto, unfolding(crate::specs::Configuration::reading))]
pub fn read_config(alloc: Global, bytes: &[u8]) -> Result<Config, ConfigError>
    ensures ok { IfOk result (λ config. reading bytes.now ≡ Ok (facts config)) }
    ensures refused { IfErr result (λ e. e ≢ ConfigError.Memory → reading bytes.now ≡ Err e) }
{
    if bytes.len() > MAX_LENGTH {
        return Err(ConfigError::Long);
    }
    let value = document(alloc, bytes)?;
    read_value(alloc, &value)
}

fn has_known_keys(top: &Value) -> bool
    ensures { result ≡ has_only top_keys (view top.now) }
{
    has_only(&KEYS, top)
}

/// Reads a configuration from its JSON value, as [`read_config`] reads it from its text. The text may have had any
/// length.
///
/// # Errors
///
/// Those of [`read_config`] except `Long` and `Json`.
#[tactic(auto, unfolding(crate::specs::Configuration::value_reading))]
pub fn read_value(alloc: Global, top: &Value) -> Result<Config, ConfigError>
    ensures ok { IfOk result (λ config. value_reading (view top.now) ≡ Ok (facts config)) }
    ensures refused { IfErr result (λ e. e ≢ ConfigError.Memory
        → value_reading (view top.now) ≡ Err e) }
{
    if !top.is_object() {
        return Err(ConfigError::Kind {
            key: ConfigKey::Top,
        });
    }
    if !has_known_keys(top) {
        return Err(ConfigError::Unknown);
    }
    read_object(alloc, top)
}

#[tactic(auto, unfolding(crate::specs::Configuration::object_reading, crate::specs::Configuration::settings, crate::specs::Configuration::values))]
fn read_object(alloc: Global, top: &Value) -> Result<Config, ConfigError>
    ensures ok { IfOk result (λ config. object_reading (view top.now) ≡ Ok (facts config)) }
    ensures refused { IfErr result (λ e. e ≢ ConfigError.Memory
        → object_reading (view top.now) ≡ Err e) }
{
    let input = required(ConfigKey::Input, top)?;
    let scale = required(ConfigKey::Scale, top)?;
    let scale = natural(ConfigKey::Scale, 0, u64::from(MAX_SCALE), scale)? as u8;
    let inputs = inputs(alloc, scale, input)?;
    let offset = offset_at(top)?;
    let bounds = bounds_at(top)?;
    let s = span_at(top)?;
    let threshold = natural_at(
        ConfigKey::MinNodeSize,
        0,
        MAX_THRESHOLD,
        DEFAULT_THRESHOLD,
        top,
    )?;
    let max_depth = natural_at(
        ConfigKey::MaxDepth,
        0,
        u64::from(MAX_DEPTH),
        DEFAULT_DEPTH,
        top,
    )?;
    let step = natural_at(
        ConfigKey::HierarchyStep,
        0,
        u64::from(MAX_STEP),
        DEFAULT_STEP,
        top,
    )?;
    let srs = srs_at(alloc, top)?;
    let first = first_classes_at(top)?;
    let withheld_last = withheld_last_at(top)?;
    let work = work_at(top)?;
    if work.cache < work.threads {
        return Err(ConfigError::Threads);
    }
    Ok(Config {
        scale,
        offset,
        bounds,
        s,
        threshold,
        max_depth: max_depth as u8,
        step: step as u8,
        srs,
        first,
        withheld_last,
        inputs,
        threads: work.threads,
        cache: work.cache,
        max_nodes: work.max_nodes,
        checkpoint: work.checkpoint,
    })
}

// The value of a required key.
fn required(key: ConfigKey, top: &Value) -> Result<&Value, ConfigError>
    ensures ok { IfOk result (λ value. required key (get (name_of key) (view top.now))
        ≡ Ok (view value.now)) }
    ensures refused { IfErr result (λ e. required key (get (name_of key) (view top.now)) ≡ Err e) }
{
    top.get(key.name()).ok_or(ConfigError::Missing { key })
}
