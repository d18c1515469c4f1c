//! The law of added points, on the contract of a function that does nothing.

ghost use Rattle.ept_grow.specs.Grow.{SameOnesStay};

/// With more points, a node keeps its points if no key within the node's has more of them.
pub fn stay_law()
    ensures same { SameOnesStay }
{}
