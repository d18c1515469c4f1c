//! What a seat knows. No value of these types is made: they are for contracts and proofs.

/// A slot that a seat holds, and what it took there.
pub struct Held<T> {
    pub slot: usize,
    pub item: T,
}

/// What a seat of a table knows.
pub struct View<T, N> {
    /// Up to which number slots are drawn.
    pub most: u32,
    /// Its part of the whole that all seats share. A seat that ended has none.
    pub parts: u64,
    /// How many draws of it were refused: at most one for each of its parts.
    pub refused: u64,
    /// The permits that it has.
    pub permits: u64,
    /// The slot that it holds, if it holds one.
    pub hold: Option<Held<T>>,
    /// Its note under the caller's rule.
    pub note: N,
}
