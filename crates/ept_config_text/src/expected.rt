//! The bytes of a LAS header that an input expects, as a configuration writes them.

ghost use Rattle.std.specs.Prelude.{◌≡◌, IfSome};
ghost use Rattle.std.specs.List.{list_all};
ghost use Rattle.ept_config.specs.InputRanges.{AreBytes};
ghost use Rattle.ept_config_text.specs.Inputs.{is_lower_digit, expected_bytes};

use ept_config::EXPECT_WIDTH;
use hex::FromHex;

/// The bytes of 96 hexadecimal digits in lower case.
#[tactic(auto, unfolding(crate::specs::Inputs::expected_bytes))]
pub fn expected_bytes(text: &str) -> Option<[u8; EXPECT_WIDTH]>
    ensures value { result ≡ expected_bytes text.now }
    ensures range { IfSome result (AreBytes 48) }
{
    if !are_lower_digits(text.as_bytes()) {
        return None;
    }
    <[u8; EXPECT_WIDTH] as FromHex>::from_hex(text).ok()
}

fn are_lower_digits(text: &[u8]) -> bool
    ensures { result ≡ list_all is_lower_digit text.now }
{
    text.iter().all(|c| matches!(*c, b'0'..=b'9' | b'a'..=b'f'))
}
