//! All fields of a body.

ghost use Rattle.ept_ckpt.specs.Drafts.{IsDraft};
ghost use Rattle.std.proofs.Props.{props};

use crate::node_line::NodeLine;
use crate::precedence::Precedence;
use crate::settings::Settings;
use crate::sources::Sources;
use crate::version::BodyVersion;
use ept_point::List;

/// The values of all fields of a body, before the nodes are judged together.
#[derive(Drop)]
pub(crate) struct Draft {
    pub(crate) version: BodyVersion,
    pub(crate) generation: u64,
    pub(crate) settings: Settings,
    pub(crate) precedence: Precedence,
    pub(crate) sources: Sources,
    pub(crate) inserted: u64,
    pub(crate) nodes: List<NodeLine>,
    pub(crate) ghost is_draft: { IsDraft version generation settings precedence sources inserted nodes } by { Prim.hlevel props },
}
