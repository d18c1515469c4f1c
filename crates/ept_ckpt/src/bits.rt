//! Bits of a byte.

ghost use Rattle.std.specs.Prelude.{◌≡◌, ◌==◌, ◌<◌};
ghost use Rattle.std.specs.Int.{bit_at};

/// Whether a bit of a byte is set.
pub(crate) fn has_bit(byte: u8, bit: u8) -> bool
    requires { bit < 8 }
    ensures { result ≡ (bit_at byte bit == 1) }
{
    byte >> bit & 1 == 1
}
