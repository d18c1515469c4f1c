//! The law of trees, on the contract of a function that does nothing.

ghost use Rattle.ept_tree.specs.TreeLaws.{GrownIsSampled};

/// Once the first of some points are inserted, the nodes are those of their sampling.
pub fn sampled_law()
    ensures grown { GrownIsSampled }
{}
