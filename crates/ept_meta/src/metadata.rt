//! The metadata.

ghost use Rattle.std.specs.Prelude.{◌≡◌, ◌++◌, OnOk, OnErr};
ghost use Rattle.std.specs.Option.{option_copied};
ghost use Rattle.ept_meta.specs.EptText.{place_text, points_text, ept_text};

use crate::pieces::{append, append_number_member};
use crate::schema::append_schema;
use crate::srs_object::append_srs;
use crate::units::{append_bounds, append_cube, span};
use ept_config::Kept;
use ept_point::Memory;
use ept_space::Bounds;

/// Appends the metadata of a dataset (Entwine Point Tile 1.1.0, "ept.json"). It has the cube of the octree, the extent
/// of the points in native units, and the number of points. It also has the dimensions of a point, the span and the
/// spatial reference.
///
/// `extent` is in stored units. If there is none, the bounds of the build are used. The text is made in a buffer of its
/// own first. So if memory runs out, `out` is as it was.
pub fn ept_json(
    kept: &Kept,
    extent: Option<&Bounds>,
    points: u64,
    out: &mut Vec<u8>,
) -> Result<(), Memory>
    ensures text { OnOk result (out.new.items
        ≡ out.old.items ++ ept_text kept.now (option_copied extent.entry) points) }
    ensures unchanged { OnErr result (out.new.items ≡ out.old.items) }
{
    let mut text = Vec::new(*out.allocator());
    append_ept(&mut text, kept, extent, points)?;
    out.extend_from_slice(&text)?;
    Ok(())
}

#[tactic(auto, unfolding(crate::specs::EptText::ept_text))]
fn append_ept(
    text: &mut Vec<u8>,
    kept: &Kept,
    extent: Option<&Bounds>,
    points: u64,
) -> Result<(), Memory>
    ensures { OnOk result (text.new.items
        ≡ text.old.items ++ ept_text kept.now (option_copied extent.entry) points) }
{
    append_place(text, kept, extent)?;
    append_points(text, kept, points)?;
    append_number_member(text, b"span", span(kept))?;
    append(text, b",\"srs\":")?;
    append_srs(text, &kept.srs)?;
    append(text, b",\"version\":\"1.1.0\"}")?;
    Ok(())
}

#[tactic(auto, unfolding(crate::specs::EptText::place_text))]
fn append_place(text: &mut Vec<u8>, kept: &Kept, extent: Option<&Bounds>) -> Result<(), Memory>
    ensures { OnOk result (text.new.items
        ≡ text.old.items ++ place_text kept.now (option_copied extent.entry)) }
{
    append(text, b"{\"bounds\":")?;
    append_cube(text, kept)?;
    append(text, b",\"boundsConforming\":")?;
    append_bounds(text, kept, extent.unwrap_or(&kept.bounds))?;
    Ok(())
}

#[tactic(auto, unfolding(crate::specs::EptText::points_text))]
fn append_points(text: &mut Vec<u8>, kept: &Kept, points: u64) -> Result<(), Memory>
    ensures { OnOk result (text.new.items ≡ text.old.items ++ points_text kept.now points) }
{
    append(text, b",\"dataType\":\"binary\",\"hierarchyType\":\"json\"")?;
    append_number_member(text, b"points", points)?;
    append(text, b",\"schema\":")?;
    append_schema(text, kept)?;
    Ok(())
}
