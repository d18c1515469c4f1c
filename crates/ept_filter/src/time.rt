//! The text of the GPS time that is asked for.

ghost use Rattle.std.specs.Prelude.{◌≡◌, ℕ, List, IfSome, IfNone, Option};
ghost use Rattle.ept_filter.specs.SiftText.{IsTimeText, IsTimeDigits};

use ept_point::GPS_WIDTH;

/// The number of digits that spell the bytes of a time.
const TIME_DIGITS: usize = 2 * GPS_WIDTH;

/// The time that a text asks for: any time if it is `-`, otherwise the bytes that its digits spell.
pub(crate) fn read_time(text: &[u8]) -> Option<Option<[u8; GPS_WIDTH]>>
    ensures some { IfSome result (IsTimeText text.now) }
    ensures none { IfNone result ((time : Option (List ℕ)) → ¬ IsTimeText text.now time) }
{
    if text == b"-".as_slice() {
        return Some(None);
    }
    let time = read_digits(text)?;
    Some(Some(time))
}

// The bytes that lower-case hexadecimal digits spell.
fn read_digits(text: &[u8]) -> Option<[u8; GPS_WIDTH]>
    ensures some { IfSome result (IsTimeDigits text.now) }
    ensures none { IfNone result ((time : List ℕ) → ¬ IsTimeDigits text.now time) }
{
    let mut time = [0; GPS_WIDTH];
    if hex::decode_to_slice(text, &mut time).is_err() {
        return None;
    }
    // Decoding takes upper-case digits too, so the text is compared with the spelling that the bytes are written in.
    let mut spelled = [0; TIME_DIGITS];
    if hex::encode_to_slice(time.as_slice(), &mut spelled).is_err() {
        return None;
    }
    if spelled.as_slice() == text {
        Some(time)
    } else {
        None
    }
}
