//! Numbers in bytes, the lowest byte first.

ghost use Rattle.std.specs.Prelude.{◌≡◌, ◌+◌, ◌≤◌, ◌<◌, ◌^◌, ℕ, length, take, drop, slice_index};
ghost use Rattle.ept_las.specs.Words.{u16_at, u32_at, u64_at, i8_at, i16_at, i32_at, bits};

use byteorder::{ByteOrder, LittleEndian};

/// The next N bytes from a place on.
pub fn bytes_at<const N: usize>(bytes: &[u8], at: usize) -> [u8; N]
    requires { at + N ≤ length bytes.now }
    ensures value { result ≡ take N (drop at bytes.now) }
    ensures len { length result ≡ N }
    ensures bytes { (i : ℕ) → slice_index result i < 2 ^ 8 }
{
    *bytes[at..].first_chunk().unwrap()
}

#[tactic(auto, unfolding(crate::specs::Words::u16_at))]
pub fn u16_at(bytes: &[u8], at: usize) -> u16
    requires { at + 2 ≤ length bytes.now }
    ensures { result ≡ u16_at bytes.now at }
{
    LittleEndian::read_u16(&bytes[at..])
}

#[tactic(auto, unfolding(crate::specs::Words::u32_at))]
pub fn u32_at(bytes: &[u8], at: usize) -> u32
    requires { at + 4 ≤ length bytes.now }
    ensures { result ≡ u32_at bytes.now at }
{
    LittleEndian::read_u32(&bytes[at..])
}

#[tactic(auto, unfolding(crate::specs::Words::u64_at))]
pub fn u64_at(bytes: &[u8], at: usize) -> u64
    requires { at + 8 ≤ length bytes.now }
    ensures { result ≡ u64_at bytes.now at }
{
    LittleEndian::read_u64(&bytes[at..])
}

#[tactic(auto, unfolding(crate::specs::Words::i8_at))]
pub fn i8_at(bytes: &[u8], at: usize) -> i8
    requires { at < length bytes.now }
    ensures { result ≡ i8_at bytes.now at }
{
    bytes[at].cast_signed()
}

#[tactic(auto, unfolding(crate::specs::Words::i16_at))]
pub fn i16_at(bytes: &[u8], at: usize) -> i16
    requires { at + 2 ≤ length bytes.now }
    ensures { result ≡ i16_at bytes.now at }
{
    LittleEndian::read_i16(&bytes[at..])
}

#[tactic(auto, unfolding(crate::specs::Words::i32_at))]
pub fn i32_at(bytes: &[u8], at: usize) -> i32
    requires { at + 4 ≤ length bytes.now }
    ensures { result ≡ i32_at bytes.now at }
{
    LittleEndian::read_i32(&bytes[at..])
}

/// `count` bits of a byte, from the bit `low` up.
#[tactic(auto, unfolding(crate::specs::Words::bits))]
pub fn bits(byte: u8, low: u8, count: u8) -> u8
    requires { low + count ≤ 8 }
    ensures value { result ≡ bits byte low count }
    ensures bound { result < 2 ^ count }
{
    ((u32::from(byte) >> low) % (1 << count)) as u8
}
