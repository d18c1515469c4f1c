//! The bound of the number of nodes, on the contract of a function that does nothing.

ghost use Rattle.ept_node_bound.specs.Few.{NodesAreGivenMany, NoneIsGivenTwice, DepthsHaveFewNodes, NodesAreFew, TilesAreFew};

/// The nodes of a sampling are few. Below the root, a depth has at most one node for each whole group among the points.
/// A group has one point more than the threshold. No node lies below the greatest depth.
pub fn few_nodes_law()
    ensures given { NodesAreGivenMany }
    ensures once { NoneIsGivenTwice }
    ensures each_depth { DepthsHaveFewNodes }
    ensures few { NodesAreFew }
    ensures few_tiles { TilesAreFew }
{}
