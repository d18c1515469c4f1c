//! The greatest length of a configuration's text, and the values of missing keys.

/// The greatest length of a configuration's text, in bytes.
pub const MAX_LENGTH: usize = 16_777_216;

/// The exponent of the span if none is given: 128 cells on each axis.
pub const DEFAULT_SPAN: u8 = 7;

/// How many points an octant keeps in its node, if no number is given.
pub const DEFAULT_THRESHOLD: u64 = 4_096;

/// The greatest depth of a node, if none is given.
pub const DEFAULT_DEPTH: u64 = 32;

/// How many depths a hierarchy file has, if no number is given: 0, which means one file.
pub const DEFAULT_STEP: u64 = 0;

/// The number of threads, if none is given.
pub const DEFAULT_THREADS: u64 = 4;

/// How many nodes are kept in memory, if no number is given.
pub const DEFAULT_CACHE: u64 = 64;

/// How many nodes there may be, if no number is given.
pub const DEFAULT_NODES: u64 = 65_536;

/// How many records are inserted between two commits, if no number is given.
pub const DEFAULT_CHECKPOINT: u64 = 10_000_000;
