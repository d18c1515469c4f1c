//! The two versions of a tile.

/// One of the two versions of a node's tile, or of the two bodies.
#[derive(Clone, Copy, Debug, PartialEq, Eq)]
pub enum Letter {
    /// The version named a.
    A,
    /// The version named b.
    B,
}

impl Letter {
    ghost use Rattle.std.specs.Prelude.{◌≡◌};
    ghost use Rattle.ept_ckpt.specs.Body.{letter_code};

    /// The number that represents the letter.
    pub(crate) fn code(self) -> u8
        ensures { result ≡ letter_code self }
    {
        match self {
            Letter::A => 0,
            Letter::B => 1,
        }
    }
}
