//! The laws of a table, each on the contract of a function that does nothing.

ghost use Rattle.ept_table.specs.Laws.{TakeKeeps, ReturnKeeps, WishKeeps, BrokenKeeps, AbandonKeeps, MergeKeeps, SplitKeeps, JoinKeeps, ReadKeeps, DrawKeeps, RefusalKeeps, RefusalIsTrue, ArrivalKeeps, TakeFits, LackIsTooMany, FullIsTooMany, StateKeepsLaw, FirstSeatHolds, BeginningIsLanded, LastSeatTells, LandedIsSampling};
ghost use Rattle.ept_table.specs.OctreeLaws.{LandedFillsSlots, LandedKeepsBegun, LandedIsSound, LandedIsRead, LandedIsWhole, LandedIsSampled, LandedGoesOn, ResumedIsLanded};

/// A seat may take a slot and return its item as it was, or its node after a move to or from its file. It may note an
/// octant or the refusal of a node. It may abandon its flights, and merge the last two.
pub fn move_law()
    ensures take { TakeKeeps }
    ensures give_back { ReturnKeeps }
    ensures wish { WishKeeps }
    ensures broken { BrokenKeeps }
    ensures abandon { AbandonKeeps }
    ensures merge { MergeKeeps }
{}

/// A seat may be divided, and may end in another.
pub fn seat_law()
    ensures split { SplitKeeps }
    ensures join { JoinKeeps }
{}

/// The reader may be returned with points drawn.
pub fn read_law()
    ensures { ReadKeeps }
{}

/// A slot may be drawn for the child of an octant. If all slots are drawn, the draw is refused. If contents are
/// visible, the sampling then has more nodes.
pub fn draw_law()
    ensures draw { DrawKeeps }
    ensures refusal { RefusalKeeps }
    ensures too_many { RefusalIsTrue }
{}

/// A node may be returned after a flight has arrived at it.
pub fn arrival_law()
    ensures { ArrivalKeeps }
{}

/// What a seat takes fits it. If a slot is lacking and contents are visible, the sampling has more nodes than there may
/// be.
pub fn take_law()
    ensures fits { TakeFits }
    ensures lacks { LackIsTooMany }
    ensures full { FullIsTooMany }
{}

/// If contents are visible, the table and its seats show at every moment a state that keeps the law of the machine.
pub fn state_law()
    ensures { StateKeepsLaw }
{}

/// How a table begins and how it ends. If nothing flies at the end and contents are visible, the nodes are the sampling
/// of the points that were drawn.
pub fn end_law()
    ensures first { FirstSeatHolds }
    ensures beginning { BeginningIsLanded }
    ensures last { LastSeatTells }
    ensures sampling { LandedIsSampling }
{}

/// What is known of the nodes of a landed table. They are in the first slots, and each node of the beginning is in its
/// own. Each key has one slot, and each open octant has the slot of its child. The nodes are sound and a whole octree,
/// and the number of their points is the number that was drawn. If contents are visible, the nodes are the sampling of
/// the points that were drawn.
pub fn landed_law()
    ensures slots { LandedFillsSlots }
    ensures begun { LandedKeepsBegun }
    ensures sound { LandedIsSound }
    ensures read { LandedIsRead }
    ensures whole { LandedIsWhole }
    ensures sampled { LandedIsSampled }
{}

/// A landed table continues: with another end of the reader's allowance it is landed too, and every node has to stay.
pub fn go_on_law()
    ensures { LandedGoesOn }
{}

/// The nodes of a checkpoint, in slots and linked, are landed with the reader that has drawn their points.
pub fn resume_law()
    ensures { ResumedIsLanded }
{}
