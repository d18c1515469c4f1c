//! The laws, each on the contract of a function that does nothing.

ghost use Rattle.ept_fit.specs.FitLaws.{FitIsSampled, SampledIsFit};
ghost use Rattle.ept_fit.specs.WalkLaws.{AboveComesFirst, OctantsAscend, SubtreesAreTogether, WalkHasNodes, WalkIsOnce};

/// Nodes are fit if and only if their points can be sampled and they are the sampling of these points.
pub fn fit_law()
    ensures sampled { FitIsSampled }
    ensures fit { SampledIsFit }
{}

/// In preorder a node comes before all nodes below it, and these come together, octant by octant. The ids of the points
/// of a walk are distinct if and only if those of the nodes are. Nodes in preorder are the walk of nodes whose keys are
/// in any other order.
pub fn walk_law()
    ensures above { AboveComesFirst }
    ensures octants { OctantsAscend }
    ensures together { SubtreesAreTogether }
    ensures once { WalkIsOnce }
    ensures nodes { WalkHasNodes }
{}
