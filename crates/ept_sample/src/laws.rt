//! The laws of ids, of beating, of arrivals and of samplings, each on the contract of a function that does
//! nothing.

ghost use Rattle.ept_sample.specs.IdLaws.{TestsAreOfIds, OrderKeepsPoints, OrderAscends, AscendingIsOrdered};
ghost use Rattle.ept_sample.specs.BeatLaws.{NoneBeatsItself, BeatingGoesOn, OneOfTwoBeats, BeatingIsInOneCell, TheNearestBeats, ALowerGroupBeats};
ghost use Rattle.ept_sample.specs.ArrivalLaws.{WinnersBeatLosers, SameOnesLose, OpenSendsItsLosers, EachStaysOrLeaves, ArrivalsHaveNoOrder, BatchesJoin};
ghost use Rattle.ept_sample.specs.SamplingLaws.{EachPointIsInOneNode, PointsHaveNoOrder, KeysAreTheNodes, KeysAscend, RootIsNode, ParentsAreNodes, NodesHavePoints, NodesHaveKeys, NodesAreShallow, MorePointsKeepNodes, MorePointsHaveMoreNodes, PointsLieInBoxes, PointsAscend};

/// Points in id order are the same points, and their ids ascend.
pub fn id_law()
    ensures tests { TestsAreOfIds }
    ensures same_points { OrderKeepsPoints }
    ensures ascend { OrderAscends }
    ensures ordered { AscendingIsOrdered }
{}

/// Beating is a strict order of the points of each cell: by group, and then by the distance from its
/// centre.
pub fn beat_law()
    ensures none_itself { NoneBeatsItself }
    ensures goes_on { BeatingGoesOn }
    ensures one_of_two { OneOfTwoBeats }
    ensures one_cell { BeatingIsInOneCell }
    ensures nearest { TheNearestBeats }
    ensures lower_group { ALowerGroupBeats }
{}

/// A point that loses at a node is beaten by one that stays, the losers of open octants leave, and no point is lost.
pub fn arrival_law()
    ensures winners { WinnersBeatLosers }
    ensures same_lose { SameOnesLose }
    ensures open_sends { OpenSendsItsLosers }
    ensures parts { EachStaysOrLeaves }
{}

/// Points may arrive at a node in any order, and in any batches.
pub fn batch_law()
    ensures no_order { ArrivalsHaveNoOrder }
    ensures join { BatchesJoin }
{}

/// Each point is in one node of the sampling, whatever the order of the points.
pub fn point_law()
    ensures one_node { EachPointIsInOneNode }
    ensures no_order { PointsHaveNoOrder }
    ensures in_boxes { PointsLieInBoxes }
    ensures ascend { PointsAscend }
{}

/// The nodes of a sampling are the root and nodes below it that have points.
pub fn node_law()
    ensures keys { KeysAreTheNodes }
    ensures ascend { KeysAscend }
    ensures root { RootIsNode }
    ensures parents { ParentsAreNodes }
    ensures have_points { NodesHavePoints }
    ensures have_keys { NodesHaveKeys }
    ensures shallow { NodesAreShallow }
    ensures stay_nodes { MorePointsKeepNodes }
    ensures more_nodes { MorePointsHaveMoreNodes }
{}
