//! What holds of every folder that is complete. Each law is the contract of a function that does nothing.

ghost use Rattle.ept_query.specs.CompleteLaws.{CompleteHasPlan, CompleteHasTiles, PlansAreWhole, PlansAnswer, TileIsOfOne};
ghost use Rattle.ept_query.specs.Listed.{EverywhereIsMet, NodesAreOfOne, RootIsThere, NodesAreInOctree, PlanIsUncalled, PlanIsCalledOnce, NodesAreGot, CompleteHasNodes};

use ept_hier::reading_law;
use ept_meta::output_once_law;

/// In a folder that is complete for some points, an area and depths have their plan. Each tile of a plan is there, with
/// the points that the sampling puts into its node. The tiles of a plan are the nodes of the sampling that are asked
/// for. Their points in the area, one tile after another, are the result of the query. A tile of any folder has one
/// list of points.
pub fn complete_law()
    ensures plan { CompleteHasPlan }
    ensures tiles { CompleteHasTiles }
    ensures nodes { PlansAreWhole }
    ensures answered { PlansAnswer }
    ensures once { TileIsOfOne }
{
    reading_law();
    output_once_law();
}

/// A folder has one list of all nodes, and the root is one of them. No node lies outside what is looked for, and the
/// keys are those of an octree. Files call for at most one refusal of a listing, and for none if the nodes are listed.
/// The nodes of a folder that is complete for some points are those of the sampling, and the tile of each is there.
pub fn nodes_law()
    ensures met { EverywhereIsMet }
    ensures once { NodesAreOfOne }
    ensures root { RootIsThere }
    ensures in_octree { NodesAreInOctree }
    ensures uncalled { PlanIsUncalled }
    ensures called_once { PlanIsCalledOnce }
    ensures got { NodesAreGot }
    ensures complete { CompleteHasNodes }
{
    reading_law();
    output_once_law();
}
