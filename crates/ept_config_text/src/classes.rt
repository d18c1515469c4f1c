//! Which points come first, and which last.

ghost use Rattle.std.specs.Prelude.{◌≡◌, map, ℕ, option_map, Ok, Some, IfOk, IfErr, IfSome, IsNone};
ghost use Rattle.std.specs.List.{list_all};
ghost use Rattle.serde_json.specs.View.{view};
ghost use Rattle.ept_class.specs.ClassSet.{has_class};
ghost use Rattle.ept_config_text.specs.Classes.{is_whole, whole_items, class_of, distinct_classes, is_listed};
ghost use Rattle.ept_config_text.specs.Values.{first_classes, first_classes_at, withheld_last_at};

use crate::config_error::ConfigError;
use crate::config_key::ConfigKey;
use crate::json::{array_items, whole};
use crate::numbers::natural_within;
use ept_class::ClassSet;
use serde_json::Value;

/// The greatest class.
const MAX_CLASS: u64 = 255;

/// The classes that come first, or no class if the key is missing.
#[tactic(auto, unfolding(crate::specs::Values::first_classes_at))]
pub fn first_classes_at(top: &Value) -> Result<ClassSet, ConfigError>
    ensures ok { IfOk result (λ set. first_classes_at (view top.now) ≡ Ok (has_class set)) }
    ensures refused { IfErr result (λ e. first_classes_at (view top.now) ≡ Err e) }
{
    match top.get(ConfigKey::FirstClasses.name()) {
        Some(value) => first_classes(value),
        None => Ok(ClassSet::new()),
    }
}

#[tactic(auto, unfolding(crate::specs::Values::first_classes))]
fn first_classes(value: &Value) -> Result<ClassSet, ConfigError>
    ensures ok { IfOk result (λ set. first_classes (view value.now) ≡ Ok (has_class set)) }
    ensures refused { IfErr result (λ e. first_classes (view value.now) ≡ Err e) }
{
    let key = ConfigKey::FirstClasses;
    let items = whole_items(value).ok_or(ConfigError::Kind { key })?;
    distinct_classes(items).ok_or(ConfigError::Range { key })
}

// The items of an array of whole numbers.
#[tactic(auto, using(crate::proofs::Objects::mapped), unfolding(crate::specs::Classes::whole_items))]
fn whole_items(value: &Value) -> Option<&[Value]>
    ensures { option_map (λ items. map view items.now) result ≡ whole_items (view value.now) }
{
    let items = array_items(value)?;
    if are_whole(items) { Some(items) } else { None }
}

fn are_whole(items: &[Value]) -> bool
    ensures { result ≡ list_all (λ item. is_whole (view item)) items.now }
{
    items.iter().all(is_whole)
}

fn is_whole(item: &Value) -> bool
    ensures { result ≡ is_whole (view item.now) }
{
    whole(item).is_some()
}

// The set of the classes that the items name, if each item names a class, and no class twice.
fn distinct_classes(items: &[Value]) -> Option<ClassSet>
    ensures some { IfSome result (λ set.
        option_map is_listed (distinct_classes (map view items.now)) ≡ Some (has_class set)) }
    ensures none { IsNone result → IsNone (distinct_classes (map view items.now)) }
{
    let mut set = ClassSet::new();
    let mut at = items.len();
    while at > 0 {
        at -= 1;
        let class = class_of(&items[at])?;
        if set.contains(class) {
            return None;
        }
        set.insert(class);
    }
    Some(set)
}

// The class that an item names.
#[tactic(auto, unfolding(crate::specs::Classes::class_of))]
fn class_of(item: &Value) -> Option<u8>
    ensures { result ≡ class_of (view item.now) }
{
    let class = natural_within(0, MAX_CLASS, whole(item)?)?;
    Some(class as u8)
}

/// Whether withheld points come last. If the key is missing, they do not.
#[tactic(auto, unfolding(crate::specs::Values::withheld_last_at))]
pub fn withheld_last_at(top: &Value) -> Result<bool, ConfigError>
    ensures value { result ≡ withheld_last_at (view top.now) }
{
    let key = ConfigKey::WithheldLast;
    match top.get(key.name()) {
        Some(value) => value.as_bool().ok_or(ConfigError::Kind { key }),
        None => Ok(false),
    }
}
