//! The laws of keys, boxes, cells and groups, each on the contract of a function that does nothing.

ghost use Rattle.ept_space.specs.KeyLaws.{ChildHasParent, ChildHasOctant, ParentHasChild, EightOctants, ChildIsDeeper, ChildIsKey, ParentIsKey, OneRoot, WithinByParents, BelowIsDeeper, WithinItself, WithinAndOn, WithinInOrder, OneOfEachDepth, RootHasAll, BelowIsInAChild, ChildrenAreApart, BelowByParent, SameKeyTells, KeysAreOrdered, LessIsBefore, EqualIsSame, ParentIsBefore, OneSpelling};
ghost use Rattle.ept_space.specs.CubeOfBounds.{InsideByPlaces, BoundsAreInCube, BoundsHaveOneCube, FunctionGivesCube};
ghost use Rattle.ept_space.specs.BoxLaws.{PlaceHasKey, PlaceHasOneKey, PlaceHasRoot, NextKeyIsChild, NextKeyHasParent, NextKeyHasOctant, PlaceHasOctant, KeysOfPlaceNest, AboveIsKeyOfPlace, BelowIsInItsOctant, RootBoxIsCube, BoxIsInCube, BoxesNest, ChildBoxIsInParent, PlaceHasChild, PlaceHasOneChild, ChildBoxesAreApart};
ghost use Rattle.ept_space.specs.CellLaws.{PlaceHasCell, PlaceHasOneCell, SameCellTells, CellsNest, CellIsInOneBox, CellIsInOneOctant, DistanceIsSmall};
ghost use Rattle.ept_space.specs.GroupLaws.{AllAreOfGroupZero, PlainRulesHaveNoGroups};

/// Parents and children undo each other, and keys have keys as parents and children.
pub fn family_law()
    ensures parent_of_child { ChildHasParent }
    ensures octant_of_child { ChildHasOctant }
    ensures child_of_parent { ParentHasChild }
    ensures eight { EightOctants }
    ensures deeper { ChildIsDeeper }
    ensures child_is_key { ChildIsKey }
    ensures parent_is_key { ParentIsKey }
    ensures one_root { OneRoot }
{}

/// A key is within another if parent steps reach it. Being within is an order, and the keys that a key is within are a
/// chain.
pub fn within_law()
    ensures by_parents { WithinByParents }
    ensures below { BelowIsDeeper }
    ensures itself { WithinItself }
    ensures and_on { WithinAndOn }
    ensures in_order { WithinInOrder }
    ensures one_a_depth { OneOfEachDepth }
    ensures root_has_all { RootHasAll }
    ensures in_a_child { BelowIsInAChild }
    ensures in_one_child { ChildrenAreApart }
    ensures below_by_parent { BelowByParent }
    ensures same_key { SameKeyTells }
{}

/// Keys are ordered by depth, then x, y and z.
pub fn order_law()
    ensures total { KeysAreOrdered }
    ensures less { LessIsBefore }
    ensures equal { EqualIsSame }
    ensures parent_first { ParentIsBefore }
{}

/// A key has one spelling.
pub fn text_law()
    ensures one_spelling { OneSpelling }
{}

/// Bounds lie within others by their places. They have one cube, in which their places lie; the function of the bounds
/// returns it.
pub fn bounds_law()
    ensures inside { InsideByPlaces }
    ensures in_cube { BoundsAreInCube }
    ensures one_cube { BoundsHaveOneCube }
    ensures cube_of { FunctionGivesCube }
{}

/// A place of the cube has one key at each depth, each the child of the one before.
pub fn place_law()
    ensures has_key { PlaceHasKey }
    ensures has_one_key { PlaceHasOneKey }
    ensures has_root { PlaceHasRoot }
    ensures next_is_child { NextKeyIsChild }
    ensures next_has_parent { NextKeyHasParent }
    ensures next_has_octant { NextKeyHasOctant }
    ensures has_octant { PlaceHasOctant }
    ensures nest { KeysOfPlaceNest }
    ensures above { AboveIsKeyOfPlace }
    ensures in_its_octant { BelowIsInItsOctant }
{}

/// A box is divided among the boxes of its eight children.
pub fn box_law()
    ensures root { RootBoxIsCube }
    ensures in_cube { BoxIsInCube }
    ensures nest { BoxesNest }
    ensures child_in_parent { ChildBoxIsInParent }
    ensures has_child { PlaceHasChild }
    ensures has_one_child { PlaceHasOneChild }
    ensures apart { ChildBoxesAreApart }
{}

/// A place of the cube has one cell at each depth. The cell lies in one cell, box and octant of each depth above. The
/// place's distance from the cell's centre fits 64 bits.
pub fn cell_law()
    ensures has_cell { PlaceHasCell }
    ensures has_one_cell { PlaceHasOneCell }
    ensures same_cell { SameCellTells }
    ensures nest { CellsNest }
    ensures in_one_box { CellIsInOneBox }
    ensures in_one_octant { CellIsInOneOctant }
    ensures small { DistanceIsSmall }
{}

/// All points are of one group if no class comes first and withheld points are like others.
pub fn group_law()
    ensures zero { AllAreOfGroupZero }
    ensures plain { PlainRulesHaveNoGroups }
{}
