//! Why points and open octants are no node.

use ept_point::Memory;

/// Why points and open octants are no node of a key: the first cause in the order of the variants.
#[derive(Clone, Copy, Debug, PartialEq, Eq)]
pub enum GridError {
    /// A point lies outside the key's box. This is the number of the first such point, from 0.
    Outside { at: u64 },
    /// A point loses in an open octant. This is the number of the first such point, from 0.
    OpenLoser { at: u64 },
    /// A closed octant above the greatest depth has more losers than the threshold: the first such octant.
    TooMany { octant: u8 },
    /// An octant is open at the greatest depth.
    Deep,
    /// Memory ran out.
    Memory,
}

impl From<Memory> for GridError {
    ghost use Rattle.std.specs.Prelude.{◌≡◌};
    ghost use Rattle.ept_grid.specs.declared.error.GridError.TheVariants.{Memory as OutOfMemory};

    ghost from_gives = { λ _ e. e ≡ OutOfMemory };

    fn from(_error: Memory) -> GridError {
        GridError::Memory
    }
}
