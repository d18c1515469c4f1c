//! A checkpoint.

ghost use Rattle.ept_ckpt.specs.Valid.{IsCheckpoint};
ghost use Rattle.std.proofs.Props.{props};

use crate::node_line::NodeLine;
use crate::version::BodyVersion;
use ept_config::{Kept, SourceCount};
use ept_point::List;

/// How far a build has come: the first points of its inputs are inserted, and their nodes are in files.
///
/// There is a count for each input. The nodes are a whole octree of the inserted points, in the order of their keys.
#[derive(Debug, Drop)]
pub struct Checkpoint {
    /// The version of its body.
    pub version: BodyVersion,
    /// The number of commits, this one included. It is at most the number of inserted points and inputs together. From
    /// version 2 on it may be one more, for the commit that took over a checkpoint of version 1.
    pub generation: u64,
    /// What the output depends on.
    pub kept: Kept,
    /// What was found of each input.
    pub counts: List<SourceCount>,
    /// How many of the inputs' points are inserted: the first ones in order.
    pub inserted: u64,
    /// The nodes, in the order of their keys.
    pub nodes: List<NodeLine>,
    pub ghost is_checkpoint: { IsCheckpoint version generation kept counts inserted nodes } by { Prim.hlevel props },
}
