//! What holds of files that were put. Each law is the contract of a function that does nothing.

ghost use Rattle.ept_publish.specs.PublishingLaws.{OutputIsThere, OutputIsGained, OnlyTheseChange};

/// If points can be sampled, the files of their output have different names. So once these were put, one after another,
/// each is there with its bytes. Whichever files were put, no other name has changed.
pub fn published_law()
    ensures there { OutputIsThere }
    ensures gains { OutputIsGained }
    ensures only { OnlyTheseChange }
{}
