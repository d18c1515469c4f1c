//! The statuses with which the program ends.

/// The work is done.
pub const OK: u8 = 0;

/// The words are no command.
pub const USAGE: u8 = 2;

/// The configuration is refused.
pub const BAD_CONFIGURATION: u8 = 3;

/// A LAS file is refused, or the points of the inputs have no bounds or lie outside of them.
pub const BAD_SCAN: u8 = 4;

/// There are more points, or more nodes, than there may be.
pub const TOO_MANY: u8 = 5;

/// The folder of a query, a selection or a check has no complete dataset.
pub const NOT_COMPLETE: u8 = 6;

/// The folder of a build was built with another configuration.
pub const DIFFERS: u8 = 6;

/// The octree of a part, or of a merge, has only the root, which has no octants.
pub const SHALLOW: u8 = 6;

/// The folder of a merge has a checkpoint. Or one of the parts is missing, or was made with another configuration or
/// of other inputs.
pub const NOT_MERGED: u8 = 6;

/// A device failed: the shelf, the store, the room or the sink.
pub const DEVICE: u8 = 7;

/// A file of the dataset or of a part, or a checkpoint of a build, is missing or malformed. Or a checked dataset is not
/// the sampling of its own points. Or a spill file returned other bytes than were kept.
pub const DAMAGED: u8 = 8;

/// Memory ran out.
pub const MEMORY: u8 = 9;
