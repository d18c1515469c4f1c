//! Why points are not sifted.

use ept_point::Memory;

/// Why points are not sifted.
#[derive(Clone, Copy, Debug, PartialEq, Eq)]
pub enum SiftError {
    /// The number of bytes is no multiple of a packed point's length.
    Length,
    /// Memory ran out.
    Memory,
}

impl From<Memory> for SiftError {
    ghost use Rattle.std.specs.Prelude.{◌≡◌};
    ghost use Rattle.ept_filter.specs.declared.sift_error.SiftError.TheVariants as variant;

    ghost from_gives = { λ _ e. e ≡ variant.Memory };

    fn from(_error: Memory) -> SiftError {
        SiftError::Memory
    }
}
