ghost use Rattle.std.specs.Prelude.{◌≡◌, ◌≢◌, ℤ, FitsSigned, IfSome, IfNone};
ghost use Rattle.std.specs.Int.{w64};
ghost use Rattle.std.specs.Fmt.{signed_decimal};

use itoa::Buffer;

/// The whole number that a text spells: `0`, or digits that begin with 1 to 9, after a `-` if the number is negative.
///
/// Each number of an `i64` has one such spelling. Any other text is refused, among them `-0`, `01`, `+1` and a number
/// outside the type's range.
pub fn read_whole(text: &[u8]) -> Option<i64>
    ensures read { IfSome result (λ n. text.now ≡ signed_decimal n) }
    ensures refused { IfNone result ((n : ℤ) → FitsSigned w64 n → text.now ≢ signed_decimal n) }
{
    let Ok(digits) = str::from_utf8(text) else {
        return None;
    };
    let Ok(n) = digits.parse::<i64>() else {
        return None;
    };
    // `parse` also takes `+1` and `01`: the spelling has to be the one that the number is printed in.
    if Buffer::new().format(n).as_bytes() == text {
        Some(n)
    } else {
        None
    }
}
