//! What a request asks for.

use ept_filter::Sift;
use ept_point::Text;
use ept_space::Box3;

/// What a request asks for.
#[derive(Debug, Drop)]
pub enum Asked {
    /// The file of this name, as the store of a dataset names it.
    File(Text),
    /// The points in a box, in stored units, of the depths from the first to the last.
    Query(Box3, u8, u8),
    /// The points of such a query that pass a selection, each with the dimensions that it keeps.
    Select(Box3, u8, u8, Sift),
    /// Nothing that is served. The response has this status (RFC 9110, section 15).
    Refuse(u16),
}
