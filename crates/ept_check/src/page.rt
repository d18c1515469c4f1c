//! Bits, one for each number of a page.

ghost use Rattle.std.specs.Prelude.{◌≡◌, ℕ, IfOk, length, slice_index};

use std::alloc::{AllocError, Global};

/// How many bytes the bits of a page take.
const BYTES: usize = 8_192;

/// A set of numbers of 16 bits: a number `n` is a member if the bit `n % 8` of the byte `n / 8` is set.
#[derive(Drop)]
pub(crate) struct Page {
    bytes: Vec<u8>,
    ghost whole: { length bytes.items ≡ 8192 },
}

impl Page {
    ghost use Rattle.std.specs.Prelude.{◌==◌, ◌||◌, false};
    ghost use Rattle.ept_check.specs.Pages.{has_number};

    /// No numbers.
    pub(crate) fn new(alloc: Global) -> Result<Page, AllocError>
        ensures { IfOk result (λ page. (number : ℕ) → has_number page number ≡ false) }
    {
        Ok(Page {
            bytes: zeros(alloc, BYTES)?,
        })
    }

    /// Whether a number is a member.
    pub(crate) fn contains(&self, number: u16) -> bool
        ensures { result ≡ has_number self.now number }
    {
        self.bytes[usize::from(number / 8)] >> (number % 8) & 1 == 1
    }

    /// Makes a number a member.
    pub(crate) fn insert(&mut self, number: u16)
        ensures { (other : ℕ) → has_number self.new other ≡ (other == number || has_number self.old other) }
    {
        self.bytes[usize::from(number / 8)] |= 1 << (number % 8);
    }
}

// A list of `count` bytes, all of which are 0.
fn zeros(alloc: Global, count: usize) -> Result<Vec<u8>, AllocError>
    ensures length { IfOk result (λ bytes. length bytes.items ≡ count) }
    ensures zeros { IfOk result (λ bytes. (i : ℕ) → slice_index bytes.items i ≡ 0) }
{
    let bytes = vec![in alloc; 0; count]?;
    Ok(bytes)
}
