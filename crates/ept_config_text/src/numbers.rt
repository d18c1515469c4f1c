//! Which numbers are in range.

ghost use Rattle.std.specs.Prelude.{◌≡◌, ◌≤◌, ◌<◌, ◌==◌, position, IfSome, IsTrue, ◌≤ℤ◌, FitsSigned, int_le, unsigned_abs};
ghost use Rattle.std.specs.Int.{w32};
ghost use Rattle.ept_space.specs.CubeOfBounds.{HasPlace};
ghost use Rattle.std.specs.Option.{SomeIff};
ghost use Rattle.ept_config_text.specs.Numbers.{natural_within, spans, exponent_of, span_exponent, all_within, coordinate_of, is_ordered, place_of, bounds_between, bounds_within};
ghost use Rattle.ept_config.specs.InputRanges.{AreThreeWithin};
ghost use Rattle.ept_config.specs.Ranges.{AreCoordinates, BoundsInRange};

use ept_space::Bounds;

/// The spans, each twice the one before.
const SPANS: [u64; 10] = [2, 4, 8, 16, 32, 64, 128, 256, 512, 1024];

/// A whole number from `least` to `greatest`.
#[tactic(auto, unfolding(crate::specs::Numbers::natural_within))]
pub fn natural_within(least: u64, greatest: u64, n: i128) -> Option<u64>
    ensures value { result ≡ natural_within least greatest n }
    ensures range { IfSome result (λ n. (least ≤ n) × (n ≤ greatest)) }
{
    let n = u64::try_from(n).ok()?;
    if least <= n && n <= greatest {
        Some(n)
    } else {
        None
    }
}

/// The exponent of a span, from 1 to 10.
#[tactic(auto, unfolding(crate::specs::Numbers::span_exponent))]
pub fn span_exponent(span: i128) -> Option<u8>
    ensures value { result ≡ span_exponent span }
    ensures range { IfSome result (λ s. (1 ≤ s) × (s ≤ 10)) }
{
    exponent_of(natural_within(2, 1024, span)?)
}

#[tactic(auto, unfolding(crate::specs::Numbers::exponent_of))]
fn exponent_of(cells: u64) -> Option<u8>
    ensures value { result ≡ exponent_of cells }
    ensures range { IfSome result (λ s. (1 ≤ s) × (s ≤ 10)) }
{
    let at = place_among_spans(cells)?;
    Some(at as u8 + 1)
}

fn place_among_spans(cells: u64) -> Option<usize>
    ensures value { result ≡ position (λ span. span == cells) spans }
    ensures range { IfSome result (λ at. at < 10) }
{
    SPANS.iter().position(|span| *span == cells)
}

/// Three numbers, if the absolute value of each is at most `greatest`.
#[tactic(auto, unfolding(crate::specs::Numbers::all_within))]
pub fn three_within(greatest: u64, numbers: [i128; 3]) -> Option<[i64; 3]>
    requires { greatest ≤ 9223372036854775807 }
    ensures value { result ≡ all_within greatest numbers }
    ensures range { IfSome result (AreThreeWithin greatest) }
{
    let [x, y, z] = numbers;
    Some([
        within(greatest, x)?,
        within(greatest, y)?,
        within(greatest, z)?,
    ])
}

fn within(greatest: u64, n: i128) -> Option<i64>
    requires { greatest ≤ 9223372036854775807 }
    ensures { SomeIff result (unsigned_abs n ≤ greatest) n }
{
    let n = i64::try_from(n).ok()?;
    if n.unsigned_abs() <= greatest {
        Some(n)
    } else {
        None
    }
}

/// The bounds of six numbers: a least place and then a greatest one. Each number has to fit into 32 bits, and the least
/// place has to be at most the greatest one on each axis.
#[tactic(auto, unfolding(crate::specs::Numbers::bounds_within), using(crate::proofs::Signed::signed))]
pub fn bounds_within(numbers: [i128; 6]) -> Option<Bounds>
    ensures value { result ≡ bounds_within numbers }
    ensures range { IfSome result BoundsInRange }
{
    let [a, b, c, d, e, f] = numbers;
    let min = place_of([a, b, c])?;
    bounds_between(min, place_of([d, e, f])?)
}

#[tactic(auto, unfolding(crate::specs::Numbers::bounds_between))]
fn bounds_between(min: [i32; 3], max: [i32; 3]) -> Option<Bounds>
    ensures value { result ≡ bounds_between min max }
    ensures range { AreCoordinates min → AreCoordinates max → IfSome result BoundsInRange }
{
    if is_ordered(&min, &max) {
        Some(Bounds { min, max })
    } else {
        None
    }
}

// Three coordinates, if each number fits into 32 bits.
#[tactic(auto, unfolding(crate::specs::Numbers::place_of), using(crate::proofs::Signed::signed))]
fn place_of(numbers: [i128; 3]) -> Option<[i32; 3]>
    ensures value { result ≡ place_of numbers }
    ensures range { IfSome result AreCoordinates }
{
    let [x, y, z] = numbers;
    Some([coordinate_of(x)?, coordinate_of(y)?, coordinate_of(z)?])
}

#[tactic(auto, unfolding(crate::specs::Numbers::coordinate_of))]
fn coordinate_of(n: i128) -> Option<i32>
    ensures value { result ≡ coordinate_of n }
    ensures fits { IfSome result (FitsSigned w32) }
{
    i32::try_from(n).ok()
}

// Whether the first place is at most the second one on each axis.
#[tactic(auto, unfolding(crate::specs::Numbers::is_ordered), using(crate::proofs::Signed::signed))]
fn is_ordered(min: &[i32; 3], max: &[i32; 3]) -> bool
    ensures value { result ≡ is_ordered min.now max.now }
    ensures ordered { IsTrue result → HasPlace (record { min = min.now; max = max.now }) }
{
    is_at_most(min[0], max[0]) && is_at_most(min[1], max[1]) && is_at_most(min[2], max[2])
}

fn is_at_most(a: i32, b: i32) -> bool
    ensures value { result ≡ int_le a b }
    ensures order { IsTrue result → a ≤ℤ b }
{
    a <= b
}
