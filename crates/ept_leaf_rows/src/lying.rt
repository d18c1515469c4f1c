//! A spill file that returns what it likes.

ghost use Rattle.std.specs.Prelude.{None, ℕ, List, Option};

use ept_base::{Failed, PutError, SpillFile};

/// A spill file whose contents are not visible. It reports `found` bytes, and returns one byte in place of each.
#[derive(Debug, Drop)]
pub(crate) struct Lying {
    found: usize,
    byte: u8,
    keeps: u64,
}

impl Lying {
    pub(crate) fn new(found: usize, byte: u8) -> Lying {
        Lying {
            found,
            byte,
            keeps: 0,
        }
    }
}

impl SpillFile for Lying {
    ghost held = { λ _. None };

    ghost faults = { λ _. 0 };

    ghost keeps = { λ file. file.keeps };

    fn keep(&mut self, _bytes: &[u8]) -> Result<(), PutError> {
        self.keeps = self.keeps.saturating_add(1);
        Ok(())
    }

    fn load(&mut self, into: &mut [u8]) -> Result<usize, Failed> {
        into.fill(self.byte);
        Ok(self.found)
    }
}
