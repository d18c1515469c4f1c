//! A set of classes.

ghost use Rattle.ept_class.specs.Bytes.{AreSetBytes};

/// How many bytes a set takes: a bit for each class.
pub const SET_LENGTH: usize = 32;

/// A set of classes, each a number from 0 to 255. A class `c` is a member if the bit `c % 8` of the byte `c / 8` is
/// set.
#[derive(Clone, Copy, Debug, PartialEq, Eq)]
pub struct ClassSet {
    pub bytes: [u8; SET_LENGTH],
    // What the type of the bytes says, since a definition sees lists without a length and numbers without a width.
    ghost set_bytes: { AreSetBytes bytes },
}

impl ClassSet {
    ghost use Rattle.std.specs.Prelude.{◌≡◌, ◌==◌, ◌||◌, ℕ, false, not};
    ghost use Rattle.ept_class.specs.ClassSet.{has_class, has_member};
    ghost use Rattle.ept_class.specs.NoClass.{no_class};

    /// The set without a member.
    pub fn new() -> ClassSet
        ensures empty { (class : ℕ) → has_class result class ≡ false }
        ensures value { result ≡ no_class }
    {
        ClassSet {
            bytes: [0; SET_LENGTH],
        }
    }

    /// The set of these bytes.
    pub fn of(bytes: [u8; SET_LENGTH]) -> ClassSet
        ensures { result.bytes ≡ bytes }
    {
        ClassSet { bytes }
    }

    /// Whether a class is a member.
    pub fn contains(&self, class: u8) -> bool
        ensures member { result ≡ has_class self.now class }
    {
        self.bytes[usize::from(class / 8)] >> (class % 8) & 1 == 1
    }

    /// Whether no class is a member.
    pub fn is_empty(&self) -> bool
        ensures none { result ≡ not (has_member self.now) }
    {
        self.bytes.iter().fold(0, |all, byte| all | *byte) == 0
    }

    /// Makes a class a member.
    pub fn insert(&mut self, class: u8)
        ensures members { (other : ℕ) → has_class self.new other ≡ (other == class || has_class self.old other) }
    {
        self.bytes[usize::from(class / 8)] |= 1 << (class % 8);
    }
}
