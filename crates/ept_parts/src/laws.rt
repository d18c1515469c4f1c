//! The laws, each on the contract of a function that does nothing.

ghost use Rattle.ept_parts.specs.PartLaws.{PartHasItsRoot, PartHasItsNodes, PartHasNoOther, RootsJoin};
ghost use Rattle.ept_parts.specs.MergeLaws.{MergedIsSampled};

/// In its octants, the sampling of a part has the nodes of the sampling of all points, and in others none. Its root has
/// those points of the root that lie in its octants. The roots of parts that have each octant once are together the
/// root of all.
pub fn parts_law()
    ensures root { PartHasItsRoot }
    ensures nodes { PartHasItsNodes }
    ensures no_other { PartHasNoOther }
    ensures roots { RootsJoin }
{}

/// So the nodes of the parts, with their roots joined, are the sampling of all points.
pub fn merge_law()
    ensures merged { MergedIsSampled }
{}
