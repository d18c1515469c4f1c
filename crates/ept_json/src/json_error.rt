//! Why bytes have no value.

/// Why bytes have no value.
#[derive(Clone, Copy, Debug, PartialEq, Eq)]
pub enum JsonError {
    /// The bytes are not the text of a JSON value.
    NoText,
    /// Memory ran out.
    Memory,
}
