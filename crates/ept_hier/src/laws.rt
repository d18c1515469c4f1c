//! The laws of hierarchy files. Each is the contract of a function that does nothing.

ghost use Rattle.ept_hier.specs.ReadingLaws.{ReadingIsOne, TextsAreReadBack, FilesAreReadBack};
ghost use Rattle.ept_hier.specs.HierarchyLaws.{CountsStandOnce, LinksHaveFiles};

/// A reader that starts at the root's file and follows the links finds the count of each node once.
pub fn hierarchy_law()
    ensures once { CountsStandOnce }
    ensures links { LinksHaveFiles }
{}

/// Bytes have one reading. The file of a node is read as its entries, if the counts are below 2^63.
pub fn reading_law()
    ensures one { ReadingIsOne }
    ensures texts { TextsAreReadBack }
    ensures files { FilesAreReadBack }
{}
