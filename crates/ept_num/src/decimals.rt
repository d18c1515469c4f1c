ghost use Rattle.std.specs.Prelude.{◌≡◌, ◌+◌, ◌^◌, ◌<◌, ◌≤◌, length, take, drop};
ghost use Rattle.ept_num.specs.Decimals.{decimal_text_of, scaled_text, fraction_text};

use itoa::write_digits;

/// The most bytes that a decimal text is given room for: a sign, twenty digits, a point, and two more.
const ROOM: usize = 24;

/// Writes `n` divided by 10^`places` to the start of `into`, and returns how many bytes it took.
///
/// The text has exactly `places` decimals and at least one digit before the point, as `-0.05` for -5 at two places. It
/// has no point if `places` is 0. `places` is at most 9.
pub fn decimal_text(n: i64, places: u8, into: &mut [u8; 24]) -> usize
    requires { places ≤ 9 }
    ensures text { take result into.new ≡ decimal_text_of n places }
    ensures len { result ≡ length (decimal_text_of n places) }
    ensures within { result ≤ 24 }
    ensures rest { drop result into.new ≡ drop result into.old }
{
    let mut text = [0; ROOM];
    let start = write_signed(n, places, &mut text);
    let len = ROOM - start;
    into[..len].copy_from_slice(&text[start..]);
    len
}

// Writes the sign and what follows it so that they end with `text`, and returns where they start.
fn write_signed(n: i64, places: u8, text: &mut [u8; 24]) -> usize
    requires { places ≤ 9 }
    ensures written { drop result text.new ≡ decimal_text_of n places }
    ensures start { result ≤ 24 }
{
    let start = write_scaled(n.unsigned_abs(), places, text);
    if n < 0 {
        text[start - 1] = b'-';
        return start - 1;
    }
    start
}

// The same for the whole part, the point and the fraction.
fn write_scaled(magnitude: u64, places: u8, text: &mut [u8; 24]) -> usize
    requires { places ≤ 9 }
    ensures written { drop result text.new ≡ scaled_text magnitude places }
    ensures above { 1 ≤ result }
    ensures start { result ≤ 24 }
{
    let unit = power_of_ten(places);
    if places == 0 {
        return write_digits(magnitude, text, ROOM);
    }
    let point = write_fraction(magnitude % unit, places, text);
    write_digits(magnitude / unit, text, point)
}

// The same for the point and the fraction, which is below 10^`places`.
fn write_fraction(fraction: u64, places: u8, text: &mut [u8; 24]) -> usize
    requires some { 1 ≤ places }
    requires most { places ≤ 9 }
    requires fraction { fraction < 10 ^ places }
    ensures written { drop result text.new ≡ fraction_text places fraction }
    ensures start { result + places + 1 ≡ 24 }
{
    // One more digit, a 1, is written before the others, so that their zeros are written too. The point takes its
    // place.
    let start = write_digits(power_of_ten(places) + fraction, text, ROOM);
    text[start] = b'.';
    start
}

fn power_of_ten(places: u8) -> u64
    requires { places ≤ 9 }
    ensures value { result ≡ 10 ^ places }
    ensures some { 1 ≤ result }
    ensures most { result ≤ 10 ^ 9 }
{
    10u64.pow(u32::from(places))
}
