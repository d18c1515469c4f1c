//! What may be wrong with a node.

ghost use Rattle.std.specs.Prelude.{◌≡◌};
ghost use Rattle.ept_check.specs.Facts.{number_of};

/// What is wrong with a node of a folder: the first of these, in the order of the variants.
#[derive(Clone, Copy, Debug, PartialEq, Eq)]
pub enum Fault {
    /// The node is not the root, and its parent is in no hierarchy file.
    Orphan,
    /// A point of its tile lies outside the box of its key.
    Outside,
    /// A point of its tile loses in an octant whose child is a node. The point should be at the child or below it.
    OpenLoser,
    /// An octant whose child is no node has more losers than a node may keep.
    TooMany,
    /// A point of its tile should be in a node above it: none of that node's points beats it.
    Above,
    /// A child of it and the nodes below the child have too few points, by the counts of the hierarchy. The points
    /// should be in the node itself.
    Few,
    /// It is not the root, and has no point.
    Empty,
    /// A point of it is also in a node before it.
    Twice,
}

impl Fault {
    /// The number of the fault.
    pub fn number(self) -> u8
        ensures { result ≡ number_of self }
    {
        match self {
            Fault::Orphan => 1,
            Fault::Outside => 2,
            Fault::OpenLoser => 3,
            Fault::TooMany => 4,
            Fault::Above => 6,
            Fault::Few => 7,
            Fault::Empty => 8,
            Fault::Twice => 9,
        }
    }
}
