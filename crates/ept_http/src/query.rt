//! The words of a query: a box of places and a range of depths.

ghost use Rattle.std.specs.Prelude.{◌≡◌, ◌≢◌, ℕ, ℤ, List, pos, ◌≤◌, ◌≤ℤ◌, ◌↔◌, ◌∷◌, ◌++◌, FitsSigned, IsTrue, IfSome, IfNone, IsSomeAnd};
ghost use Rattle.std.specs.Int.{w64};
ghost use Rattle.std.specs.List.{AllByRecursion};
ghost use Rattle.std.specs.Fmt.{signed_decimal};
ghost use Rattle.ept_space.specs.declared.box3.Box3.{Box3};
ghost use Rattle.ept_http.specs.QueryWords.{IsOrdered, IsBoxText, IsDepthsText};

use ept_num::read_whole;
use ept_space::Box3;

/// The greatest depth that a query may name.
const MAX_DEPTH: i64 = 32;

/// Reads a box as six whole numbers with commas between them: the least x, y and z, and then the greatest, in stored
/// units. Returns no box if the text is malformed, or if a least number is above its greatest.
///
/// Each number has one spelling, so a box has one text.
pub fn read_box(text: &[u8]) -> Option<Box3>
    ensures some { IfSome result (λ area. IsBoxText text.now area) }
    ensures none { IfNone result ((area : Box3) → ¬ IsBoxText text.now area) }
{
    let (min_x, rest) = next_whole(text)?;
    let (min_y, rest) = next_whole(rest)?;
    let (min_z, rest) = next_whole(rest)?;
    let (max_x, rest) = next_whole(rest)?;
    let (max_y, rest) = next_whole(rest)?;
    let max_z = read_whole(rest)?;
    ordered(Box3 {
        min: [min_x, min_y, min_z],
        max: [max_x, max_y, max_z],
    })
}

// The box, if on no axis its least coordinate is above its greatest.
fn ordered(area: Box3) -> Option<Box3>
    ensures some { IfSome result (λ given. (given ≡ area) × IsOrdered given) }
    ensures none { IfNone result (¬ IsOrdered area) }
{
    is_ordered(&area).then_some(area)
}

// Whether on no axis the least coordinate is above the greatest.
fn is_ordered(area: &Box3) -> bool
    ensures { IsTrue result ↔ IsOrdered area.now }
{
    let x = is_at_most(area.min[0], area.max[0]);
    let y = is_at_most(area.min[1], area.max[1]);
    let z = is_at_most(area.min[2], area.max[2]);
    x & y & z
}

fn is_at_most(least: i64, greatest: i64) -> bool
    ensures { IsTrue result ↔ (least ≤ℤ greatest) }
{
    least <= greatest
}

/// Reads the first and the last depth as two whole numbers with a comma between them. Each is from 0 to 32, and the
/// first is not above the last. Returns no depths for any other text.
pub fn read_depths(text: &[u8]) -> Option<(u8, u8)>
    ensures some { IfSome result (λ depths. IsDepthsText text.now depths.0 depths.1) }
    ensures none { IfNone result ((first last : ℕ) → ¬ IsDepthsText text.now first last) }
{
    let (first, rest) = next_whole(text)?;
    let last = read_whole(rest)?;
    depths_of(first, last)
}

// The two depths, if a query may name them.
fn depths_of(first: i64, last: i64) -> Option<(u8, u8)>
    ensures some { IfSome result (λ depths. (first ≡ pos depths.0) × (last ≡ pos depths.1) × (depths.0 ≤ depths.1) × (depths.1 ≤ 32)) }
    ensures none { IfNone result ((m n : ℕ) → first ≡ pos m → last ≡ pos n → m ≤ n → n ≤ 32 → ⊥) }
{
    if first < 0 || first > last || last > MAX_DEPTH {
        return None;
    }
    Some((first as u8, last as u8))
}

// The number before the first comma, and what follows the comma.
fn next_whole(text: &[u8]) -> Option<(i64, &[u8])>
    ensures some { IfSome result (λ r. text.now ≡ signed_decimal r.0 ++ 44 ∷ r.1.now) }
    ensures found { (n : ℤ) (rest : List ℕ) → FitsSigned w64 n → text.now ≡ signed_decimal n ++ 44 ∷ rest
        → IsSomeAnd result (λ r. (r.0 ≡ n) × (r.1.now ≡ rest)) }
{
    let (digits, rest) = split_once(text, b',')?;
    let number = read_whole(digits)?;
    Some((number, rest))
}

/// The bytes before the first `mark`, and the bytes that follow it.
pub(crate) fn split_once(text: &[u8], mark: u8) -> Option<(&[u8], &[u8])>
    ensures some { IfSome result (λ r. text.now ≡ r.0.now ++ mark ∷ r.1.now) }
    ensures found { (front rest : List ℕ) → AllByRecursion (λ b. b ≢ mark) front → text.now ≡ front ++ mark ∷ rest
        → IsSomeAnd result (λ r. (r.0.now ≡ front) × (r.1.now ≡ rest)) }
{
    let at = text.iter().position(|b| *b == mark)?;
    Some((&text[..at], &text[at + 1..]))
}
