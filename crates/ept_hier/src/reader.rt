//! Hierarchy files as entries.

ghost use Rattle.std.specs.Prelude.{◌≡◌, ◌≢◌, ◌++◌, ◌∷◌, [], List, Some, None, map, ◌⊎◌, Err, IsPermutation, IsOk, OnOk, OnErr, IfOk, IfErr};
ghost use Rattle.std.specs.List.{AllZip};
ghost use Rattle.std.specs.List.Sorted.{IsSortedByKey};
ghost use Rattle.serde_json.specs.View.{view};
ghost use Rattle.ept_space.specs.VoxelKey.{key_cmp};
ghost use Rattle.ept_hier.specs.Hierarchy.{Entry};
ghost use Rattle.ept_hier.specs.Reading.{IsReading, IsEntryOf, Appends, RefusesMembers, RefusesFile, number_in};
ghost use Rattle.ept_hier.specs.Objects.{member_at, IsTaken, RefusesName};
ghost use Rattle.ept_hier.specs.declared.hier_error.HierError.{HierError};

use crate::hier_error::HierError;
use ept_json::document;
use ept_point::Memory;
use ept_space::{Key, read_key};
use serde_json::{Map, Value};
use std::alloc::Global;

/// Reads a hierarchy file and appends its entries in key order (Entwine Point Tile 1.1.0, "ept-hierarchy"). An entry is
/// a key and the number of its node's points. It is -1 if that number is in the file of that key.
///
/// The text may have white space, and its members may be in any order. If a name is there twice, the last value counts.
/// All names are judged before any value. After a refusal the list is as it was.
pub fn read_hierarchy_file(
    alloc: Global,
    bytes: &[u8],
    out: &mut Vec<(Key, i64)>,
) -> Result<(), HierError>
    ensures ok { OnOk result (Appends bytes.now out.old.items out.new.items) }
    ensures refused { IfErr result (RefusesFile bytes.now) }
    ensures refusal_comes { (e : HierError) → e ≢ HierError.Memory → RefusesFile bytes.now e
        → (result ≡ Err e) ⊎ (result ≡ Err HierError.Memory) }
    ensures accepted { (entries : List Entry) → IsReading bytes.now entries
        → IsOk result ⊎ (result ≡ Err HierError.Memory) }
    ensures unchanged { OnErr result (out.new.items ≡ out.old.items) }
{
    let entries = read_entries(alloc, bytes)?;
    append(entries, out)?;
    Ok(())
}

// The entries in key order.
fn read_entries(alloc: Global, bytes: &[u8]) -> Result<Vec<(Key, i64)>, HierError>
    ensures ok { IfOk result (λ v. IsReading bytes.now v.items) }
    ensures refused { IfErr result (RefusesFile bytes.now) }
{
    let value = document(alloc, bytes)?;
    let members = match value.as_object() {
        Some(members) => members,
        None => return Err(HierError::Json),
    };
    let mut entries = entries_of(alloc, members)?;
    sort(&mut entries)?;
    Ok(entries)
}

// The entries of the members.
fn entries_of(alloc: Global, members: &Map<String, Value>) -> Result<Vec<(Key, i64)>, HierError>
    ensures ok { IfOk result (λ v. AllZip IsEntryOf (map member_at members.now.entries) v.items) }
    ensures refused { IfErr result (RefusesMembers (map member_at members.now.entries)) }
{
    let mut entries = Vec::new(alloc);
    let mut counted = true;
    for (name, value) in members.iter() {
        counted &= read_member(name.as_str(), value, &mut entries)?;
    }
    if counted {
        Ok(entries)
    } else {
        Err(HierError::Count)
    }
}

// Appends the entry of a member whose name is the text of a key. Returns whether its value is a count. If it is not,
// nothing is appended.
fn read_member(name: &str, value: &Value, entries: &mut Vec<(Key, i64)>) -> Result<bool, HierError>
    ensures ok { IfOk result (λ counted.
        IsTaken (name.now, view value.now) counted entries.old.items entries.new.items) }
    ensures refused { IfErr result (RefusesName name.now) }
{
    let key = match read_key(name.as_bytes()) {
        Some(key) => key,
        None => return Err(HierError::Key),
    };
    match number_in(value) {
        Some(number) => {
            push(entries, (key, number))?;
            Ok(true)
        }
        None => Ok(false),
    }
}

// Appends an entry to the others.
fn push(entries: &mut Vec<(Key, i64)>, entry: (Key, i64)) -> Result<(), Memory>
    ensures { OnOk result (entries.new.items ≡ entries.old.items ++ entry ∷ []) }
{
    entries.push(entry)?;
    Ok(())
}

// The number of a value, if it is a whole number from -1 up.
#[tactic(auto, unfolding(crate::specs::Reading::number_in))]
fn number_in(value: &Value) -> Option<i64>
    ensures { result ≡ number_in (view value.now) }
{
    value.as_i64().filter(|number| *number >= -1)
}

// Sorts the entries by their keys.
fn sort(entries: &mut Vec<(Key, i64)>) -> Result<(), Memory>
    ensures { OnOk result (IsPermutation entries.old.items entries.new.items
        × IsSortedByKey (λ (e : Entry). e.0) key_cmp entries.new.items) }
{
    entries.sort_by_key(|entry| entry.0)?;
    Ok(())
}

// Moves the entries to the end of the list.
fn append(mut entries: Vec<(Key, i64)>, out: &mut Vec<(Key, i64)>) -> Result<(), Memory>
    ensures ok { OnOk result (out.new.items ≡ out.old.items ++ entries.items) }
    ensures unchanged { OnErr result (out.new.items ≡ out.old.items) }
{
    out.append(&mut entries)?;
    Ok(())
}
