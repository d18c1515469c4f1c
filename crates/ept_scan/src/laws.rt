//! What holds of all scans. Each law is the contract of a function that does nothing.

ghost use Rattle.ept_scan.specs.Laws.{FileInOneWay, FileOrRefusal, FileForOneCause, ScanInOneWay, ScanOrRefusal, ScanForOneCause};
ghost use Rattle.ept_scan.specs.Laws.{ScanIsKept, ScanLiesWithin, ScanAscends, ScanHasDistinctIds, ScanIsNumbered, ScanComesFromInputs};
ghost use Rattle.ept_scan.specs.Laws.{ScansJoin, ScanFront, ScanBack, RefusedBehind, ChangeIsOfInput};

/// A file reads as one list of points.
pub fn file_once_law()
    ensures { FileInOneWay }
{}

/// A file that reads as points is not refused.
pub fn file_or_refusal_law()
    ensures { FileOrRefusal }
{}

/// A file is refused for one cause.
pub fn one_cause_law()
    ensures { FileForOneCause }
{}

/// Inputs have one list of points.
pub fn scan_once_law()
    ensures { ScanInOneWay }
{}

/// Inputs that have points and bounds are not refused. So `scan` returns `Ok` for them, unless a source fails or memory
/// runs out.
pub fn scan_or_refusal_law()
    ensures { ScanOrRefusal }
{}

/// Inputs are refused for one cause. If there is a cause, `scan` returns it, unless a source fails or memory runs out.
pub fn one_refusal_law()
    ensures { ScanForOneCause }
{}

/// Inputs that were scanned have the same points and counts within the bounds that were found. So the result of
/// [`scan`](crate::scan) can be kept for a second reading.
pub fn kept_law()
    ensures { ScanIsKept }
{}

/// Each point that was scanned lies within the bounds that were found, both ends included.
pub fn placed_law()
    ensures { ScanLiesWithin }
{}

/// The points that were scanned are in the order of their ids: by the place of the input, then by the number of the
/// record. No two of them have the same id.
pub fn ascending_law()
    ensures ascending { ScanAscends }
    ensures distinct { ScanHasDistinctIds }
{}

/// Each point that was scanned has a number below the greatest count of an input.
pub fn numbered_law()
    ensures { ScanIsNumbered }
{}

/// Each point that was scanned carries the place of one of the inputs.
pub fn origin_law()
    ensures { ScanComesFromInputs }
{}

/// The scan of all inputs is the scan of the first inputs, then that of the later inputs. Within the same bounds it has
/// the points of both in order, and the counts of both. So what was kept of the first inputs and what
/// [`scan`](crate::scan) returns for the later inputs can be joined. Conversely, a scan of all inputs within bounds can
/// be divided into these two parts.
pub fn joined_law()
    ensures joined { ScansJoin }
    ensures front { ScanFront }
    ensures back { ScanBack }
{}

/// After a scan of the first inputs, the later inputs are refused for the same cause as all inputs, within these
/// bounds.
pub fn refused_behind_law()
    ensures { RefusedBehind }
{}

/// A change that a [`Reader`](crate::Reader) reports is a change of an input that it was opened on. The header of that
/// input, or the record with the reported number, is not as it was counted.
pub fn changed_law()
    ensures { ChangeIsOfInput }
{}
