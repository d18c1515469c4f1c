//! The texts of keys.

ghost use Rattle.std.specs.Prelude.{◌≡◌, ◌≢◌, ℕ, ◌+◌, ◌^◌, ◌<◌, ◌≤◌, List, ◌∷◌, ◌++◌, length, take, slice_index, decimal, Some, IfSome, IfNone, IsSomeAnd};
ghost use Rattle.ept_space.specs.VoxelKey.{VoxelKey, IsKey};
ghost use Rattle.ept_space.specs.KeyText.{key_text};

use crate::key::Key;
use itoa::Buffer;
use std::str;

/// What separates the numbers of a key's text.
const DASH: &[u8] = b"-";

/// Writes the text `D-X-Y-Z` of the key to the start of `into`, and returns its length.
pub fn key_text(key: &Key, into: &mut [u8; 40]) -> usize
    ensures text { take result into.new ≡ key_text key.now }
    ensures len { result ≡ length (key_text key.now) }
    ensures others { (k : ℕ) → result ≤ k → slice_index into.new k ≡ slice_index into.old k }
{
    let end = append_number(u32::from(key.depth), into, 0);
    let end = append(DASH, into, end);
    let end = append_number(key.x, into, end);
    let end = append(DASH, into, end);
    let end = append_number(key.y, into, end);
    let end = append(DASH, into, end);
    append_number(key.z, into, end)
}

/// The key whose text it is. `None` if it is the text of no key: each number of a key has one spelling.
pub fn read_key(text: &[u8]) -> Option<Key>
    ensures some { IfSome result (λ key. key_text key ≡ text.now) }
    ensures key { IfSome result IsKey }
    ensures none { IfNone result ((key : VoxelKey) → IsKey key → key_text key ≢ text.now) }
{
    let key = numbers(str::from_utf8(text).ok()?)?;
    let mut spelled = [0; 40];
    let length = key_text(&key, &mut spelled);
    (&spelled[..length] == text).then_some(key)
}

/// The key of the four numbers of a text, which may be spelled in other ways than a key's.
fn numbers(text: &str) -> Option<Key>
    ensures { (key : VoxelKey) → IsKey key → text.now ≡ key_text key → result ≡ Some key }
{
    let (depth, rest) = next_number(text)?;
    let (x, rest) = next_number(rest)?;
    let (y, rest) = next_number(rest)?;
    let z = number(rest)?;
    key_of(depth, x, y, z)
}

/// The key of these numbers; `None` if no key has them.
fn key_of(depth: u32, x: u32, y: u32, z: u32) -> Option<Key>
    ensures { IsKey (record { depth = depth; x = x; y = y; z = z })
        → result ≡ Some (record { depth = depth; x = x; y = y; z = z }) }
{
    if depth > u32::from(Key::MAX_DEPTH) {
        return None;
    }
    let indices = 1u32 << depth;
    if x >= indices || y >= indices || z >= indices {
        return None;
    }
    Some(Key {
        depth: depth as u8,
        x,
        y,
        z,
    })
}

/// The number before the first dash, and what follows the dash.
fn next_number(text: &str) -> Option<(u32, &str)>
    ensures { (n : ℕ) (rest : List ℕ) → n < 2 ^ 32 → text.now ≡ decimal n ++ 45 ∷ rest
        → IsSomeAnd result (λ r. (r.0 ≡ n) × (r.1.now ≡ rest)) }
{
    let (digits, rest) = text.split_once('-')?;
    Some((number(digits)?, rest))
}

/// The number that a text of digits represents.
fn number(text: &str) -> Option<u32>
    ensures { (n : ℕ) → n < 2 ^ 32 → text.now ≡ decimal n → result ≡ Some n }
{
    text.parse().ok()
}

/// Writes a number in decimal at a place, and returns the place after it.
fn append_number(n: u32, into: &mut [u8; 40], at: usize) -> usize
    requires { at + length (decimal n) ≤ 40 }
    ensures text { take result into.new ≡ take at into.old ++ decimal n }
    ensures len { result ≡ at + length (decimal n) }
    ensures others { (k : ℕ) → result ≤ k → slice_index into.new k ≡ slice_index into.old k }
{
    append(Buffer::new().format(n).as_bytes(), into, at)
}

/// Writes bytes at a place, and returns the place after them.
fn append(bytes: &[u8], into: &mut [u8; 40], at: usize) -> usize
    requires { at + length bytes.now ≤ 40 }
    ensures text { take result into.new ≡ take at into.old ++ bytes.now }
    ensures len { result ≡ at + length bytes.now }
    ensures others { (k : ℕ) → result ≤ k → slice_index into.new k ≡ slice_index into.old k }
{
    let end = at + bytes.len();
    into[at..end].copy_from_slice(bytes);
    end
}
