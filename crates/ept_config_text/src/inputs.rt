//! The inputs of a configuration.

ghost use Rattle.std.specs.Prelude.{◌≡◌, ◌≢◌, ◌≤◌, ◌^◌, ◌∷◌, [], map, length, IfOk, IfErr, IfSome, IsTrue, true};
ghost use Rattle.std.specs.Option.{ForSome};
ghost use Rattle.std.specs.List.{All, list_all};
ghost use Rattle.serde_json.specs.View.{view};
ghost use Rattle.ept_config.specs.Facts.{input_facts};
ghost use Rattle.ept_config.specs.InputRanges.{AreBytes, AreThreeWithin};
ghost use Rattle.ept_config_text.specs.Inputs.{input_scale, input_shift, input_within, is_input};
ghost use Rattle.ept_config_text.specs.RawInputs.{members_of};
ghost use Rattle.ept_config_text.specs.Values.{input, inputs, list_inputs, each_input, is_input_count};
ghost use Rattle.ept_config_text.specs.Steps.{in_range};
ghost use Rattle.ept_config_text.specs.declared.config_key.ConfigKey.TheVariants as key;

use crate::config_error::ConfigError;
use crate::config_key::ConfigKey;
use crate::json::array_items;
use crate::numbers::{natural_within, three_within};
use crate::raw_input::{RawInput, raw_input};
use ept_config::{Input, MAX_INPUTS, MAX_SHIFT, is_path};
use ept_point::{List, Text};
use serde_json::Value;
use std::alloc::Global;

/// The inputs: a text, or an array of texts and objects. `scale` is the configuration's.
#[tactic(auto, unfolding(crate::specs::Values::inputs, crate::specs::Inputs::input_items))]
pub fn inputs(alloc: Global, scale: u8, value: &Value) -> Result<List<Input>, ConfigError>
    requires { scale ≤ 9 }
    ensures ok { IfOk result (λ list. inputs scale (view value.now) ≡ Ok (map input_facts list)) }
    ensures refused { IfErr result (λ e. e ≢ ConfigError.Memory
        → inputs scale (view value.now) ≡ Err e) }
    ensures some { IfOk result (λ list. 1 ≤ length list) }
    ensures most { IfOk result (λ list. length list ≤ 65535) }
    ensures scales { IfOk result (λ list. All (λ input. input.scale ≤ scale) list) }
{
    if value.is_string() {
        return one_input(alloc, scale, value);
    }
    match array_items(value) {
        Some(items) => list_inputs(alloc, scale, items),
        None => Err(ConfigError::Kind {
            key: ConfigKey::Input,
        }),
    }
}

#[tactic(auto, unfolding(crate::specs::Values::list_inputs), using(crate::proofs::Objects::mapped))]
fn list_inputs(alloc: Global, scale: u8, items: &[Value]) -> Result<List<Input>, ConfigError>
    requires { scale ≤ 9 }
    ensures ok { IfOk result (λ list. list_inputs scale (map view items.now)
        ≡ Ok (map input_facts list)) }
    ensures refused { IfErr result (λ e. e ≢ ConfigError.Memory
        → list_inputs scale (map view items.now) ≡ Err e) }
    ensures some { IfOk result (λ list. 1 ≤ length list) }
    ensures most { IfOk result (λ list. length list ≤ 65535) }
    ensures scales { IfOk result (λ list. All (λ input. input.scale ≤ scale) list) }
{
    let key = ConfigKey::Input;
    if !are_inputs(items) {
        return Err(ConfigError::Kind { key });
    }
    if !is_input_count(items.len()) {
        return Err(ConfigError::Range { key });
    }
    inputs_of(alloc, scale, items)
}

fn is_input_count(count: usize) -> bool
    ensures value { result ≡ is_input_count count }
    ensures some { IsTrue result → 1 ≤ count }
    ensures most { IsTrue result → count ≤ 65535 }
{
    1 <= count && count <= MAX_INPUTS
}

fn are_inputs(items: &[Value]) -> bool
    ensures { result ≡ list_all (λ item. is_input (view item)) items.now }
{
    items.iter().all(is_input)
}

fn is_input(value: &Value) -> bool
    ensures { result ≡ is_input (view value.now) }
{
    raw_input(value).is_some()
}

/// An input's own scale, or the configuration's if none is given.
#[tactic(auto, unfolding(crate::specs::Inputs::input_scale))]
fn input_scale(scale: u8, given: Option<i128>) -> Option<u8>
    ensures value { result ≡ input_scale scale given }
    ensures range { IfSome result (λ own. own ≤ scale) }
{
    match given {
        Some(n) => Some(natural_within(0, u64::from(scale), n)? as u8),
        None => Some(scale),
    }
}

#[tactic(auto, unfolding(crate::specs::Inputs::input_shift))]
fn input_shift(given: Option<[i128; 3]>) -> Option<[i64; 3]>
    ensures value { result ≡ input_shift given }
    ensures range { IfSome result (AreThreeWithin (10 ^ 15)) }
{
    match given {
        Some(numbers) => three_within(MAX_SHIFT, numbers),
        None => Some([0; 3]),
    }
}

#[tactic(auto, unfolding(crate::specs::Inputs::input_within))]
fn input_within(alloc: Global, scale: u8, raw: &RawInput) -> Result<Input, ConfigError>
    requires scale { scale ≤ 9 }
    requires expect { ForSome raw.now.expect (AreBytes 48) }
    ensures ok { IfOk result (λ input. in_range key.Input (input_within scale (members_of raw.now))
        ≡ Ok (input_facts input)) }
    ensures refused { IfErr result (λ e. e ≢ ConfigError.Memory
        → in_range key.Input (input_within scale (members_of raw.now)) ≡ Err e) }
    ensures scale { IfOk result (λ input. input.scale ≤ scale) }
{
    let key = ConfigKey::Input;
    if !is_path(raw.path) {
        return Err(ConfigError::Range { key });
    }
    let own = input_scale(scale, raw.scale).ok_or(ConfigError::Range { key })?;
    let shift = input_shift(raw.shift).ok_or(ConfigError::Range { key })?;
    let path = String::from_str(alloc, raw.path)?;
    Ok(Input {
        path: Text::of(path),
        scale: own,
        shift,
        expect: raw.expect,
    })
}

// One input.
#[tactic(auto, unfolding(crate::specs::Values::input))]
fn input_of(alloc: Global, scale: u8, value: &Value) -> Result<Input, ConfigError>
    requires { scale ≤ 9 }
    ensures ok { IfOk result (λ i. input scale (view value.now) ≡ Ok (input_facts i)) }
    ensures refused { IfErr result (λ e. e ≢ ConfigError.Memory
        → input scale (view value.now) ≡ Err e) }
    ensures scale { IfOk result (λ i. i.scale ≤ scale) }
{
    let key = ConfigKey::Input;
    let raw = raw_input(value).ok_or(ConfigError::Kind { key })?;
    input_within(alloc, scale, &raw)
}

// A list of one input.
#[tactic(auto, unfolding(crate::specs::Values::list_inputs))]
fn one_input(alloc: Global, scale: u8, value: &Value) -> Result<List<Input>, ConfigError>
    requires scale { scale ≤ 9 }
    requires kind { is_input (view value.now) ≡ true }
    ensures ok { IfOk result (λ list. list_inputs scale (view value.now ∷ [])
        ≡ Ok (map input_facts list)) }
    ensures refused { IfErr result (λ e. e ≢ ConfigError.Memory
        → list_inputs scale (view value.now ∷ []) ≡ Err e) }
    ensures count { IfOk result (λ list. length list ≡ 1) }
    ensures scales { IfOk result (λ list. All (λ input. input.scale ≤ scale) list) }
{
    let mut list = Vec::new(alloc);
    list.push(input_of(alloc, scale, value)?)?;
    Ok(List::of(list))
}

// The inputs of the items, one for each.
fn inputs_of(alloc: Global, scale: u8, items: &[Value]) -> Result<List<Input>, ConfigError>
    requires { scale ≤ 9 }
    ensures ok { IfOk result (λ list. each_input scale (map view items.now)
        ≡ Ok (map input_facts list)) }
    ensures refused { IfErr result (λ e. e ≢ ConfigError.Memory
        → each_input scale (map view items.now) ≡ Err e) }
    ensures count { IfOk result (λ list. length list ≡ length items.now) }
    ensures scales { IfOk result (λ list. All (λ input. input.scale ≤ scale) list) }
{
    let mut list = Vec::with_capacity(alloc, items.len())?;
    for item in items {
        list.push(input_of(alloc, scale, item)?)?;
    }
    Ok(List::of(list))
}
