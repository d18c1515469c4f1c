//! The two layouts of a point in bytes.

/// How a point is laid out in bytes: the number of its record has eight bytes, or in the old layout four.
#[derive(Clone, Copy, Debug, PartialEq, Eq)]
pub enum Layout {
    /// The number of the record has four bytes. Tiles were once written in this layout, and are only read in it now.
    Old,
    /// The number of the record has eight bytes.
    New,
}
