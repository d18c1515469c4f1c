//! The laws of checkpoints. Each is the contract of a function that does nothing.

ghost use Rattle.ept_ckpt.specs.Laws.{BodyOnce, CheckpointByFacts};

/// A body is that of one checkpoint only, and two checkpoints with the same facts are the same.
pub fn body_once_law()
    ensures once { BodyOnce }
    ensures facts { CheckpointByFacts }
{}
