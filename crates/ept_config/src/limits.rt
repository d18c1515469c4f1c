//! The greatest and least values of a configuration.

/// The greatest number of inputs.
pub const MAX_INPUTS: usize = 65_535;

/// The greatest length of an input's path, in bytes.
pub const MAX_PATH: usize = 4_096;

/// The greatest scale. With it a stored unit is 10^-9 native units.
pub const MAX_SCALE: u8 = 9;

/// The greatest absolute value of an offset, in native units.
pub const MAX_OFFSET: u64 = 1_000_000_000;

/// The greatest absolute value of a shift, in stored units.
pub const MAX_SHIFT: u64 = 1_000_000_000_000_000;

/// How many bytes of a LAS header an input may expect: its scales and offsets.
pub const EXPECT_WIDTH: usize = 48;

/// The greatest number of points that an octant keeps in its node.
pub const MAX_THRESHOLD: u64 = 2_147_483_648;

/// The greatest depth of a node that may be asked for.
pub const MAX_DEPTH: u8 = 32;

/// The greatest number of depths in a hierarchy file.
pub const MAX_STEP: u8 = 32;

/// The greatest length of a text of the spatial reference, in bytes.
pub const MAX_SRS_TEXT: usize = 65_536;

/// The greatest number of threads.
pub const MAX_THREADS: u32 = 64;

/// The greatest number of nodes that are kept in memory while threads run.
pub const MAX_CACHE: u32 = 1_048_576;

/// The greatest number of nodes.
pub const MAX_NODES: u32 = 1_048_576;

/// The greatest number of records between two commits.
pub const MAX_CHECKPOINT: u64 = 1_099_511_627_776;
