//! The laws of lines, each on the contract of a function that does nothing.

ghost use Rattle.ept_octree_ckpt.specs.LinesLaws.{WholeIsTold, ToldIsWhole, KeptIsEach};
ghost use Rattle.ept_octree_ckpt.specs.SavedLaws.{LoadedIsSampled, SampledIsSaved};

/// Lines that describe the nodes of a whole octree are those of a checkpoint. Nodes that a checkpoint describes are a
/// whole octree. If none of these is gone, each node of the checkpoint is there.
pub fn lines_law()
    ensures told { WholeIsTold }
    ensures whole { ToldIsWhole }
    ensures each { KeptIsEach }
{}

/// Nodes that are loaded from the tiles of some points' sampling are those of the sampling. Nodes of a sampling are saved
/// by lines that describe them and name their tiles.
pub fn saved_law()
    ensures loaded { LoadedIsSampled }
    ensures saved { SampledIsSaved }
{}
