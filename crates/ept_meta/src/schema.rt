//! The schema: the dimensions of a packed point.

ghost use Rattle.std.specs.Prelude.{◌≡◌, ◌≤◌, ◌++◌, pos, OnOk};
ghost use Rattle.ept_num.specs.Decimals.{decimal_text_of};
ghost use Rattle.ept_meta.specs.Dimensions.{row_text, rows_text, transform_text, schema_text};

use crate::pieces::{append, append_comma, append_number_member, append_quoted, append_whole};
use ept_config::Kept;
use ept_num::decimal_text;
use ept_point::{GPS_WIDTH, Memory, NUMBER_WIDTH};

/// How the bytes of a dimension are read.
#[derive(Clone, Copy)]
enum Kind {
    Signed,
    Unsigned,
    Float,
}

impl Kind {
    ghost use Rattle.std.specs.Prelude.{◌≡◌};
    ghost use Rattle.ept_meta.specs.Dimensions.{kind_name, kind_of};

    /// The kind as the schema spells it.
    fn name(self) -> &'static str
        ensures { result.now ≡ kind_name (kind_of self) }
    {
        match self {
            Kind::Signed => "signed",
            Kind::Unsigned => "unsigned",
            Kind::Float => "float",
        }
    }
}

/// The axis of a coordinate.
#[derive(Clone, Copy)]
enum Axis {
    X,
    Y,
    Z,
}

impl Axis {
    ghost use Rattle.std.specs.Prelude.{◌≡◌, ◌<◌};
    ghost use Rattle.ept_meta.specs.Dimensions.{axis_number};

    /// Its place in the order x, y, z.
    fn number(self) -> usize
        ensures value { result ≡ axis_number self }
        ensures range { result < 3 }
    {
        match self {
            Axis::X => 0,
            Axis::Y => 1,
            Axis::Z => 2,
        }
    }
}

/// A row of the schema: the name of a dimension, how its bytes are read, and how many there are. If it is a coordinate,
/// the row has its axis.
#[derive(Clone, Copy)]
struct Row(&'static str, Kind, usize, Option<Axis>);

/// The dimensions of a packed point in the order of its bytes (Entwine Point Tile 1.1.0, "schema").
const ROWS: [Row; 21] = [
    Row("X", Kind::Signed, 4, Some(Axis::X)),
    Row("Y", Kind::Signed, 4, Some(Axis::Y)),
    Row("Z", Kind::Signed, 4, Some(Axis::Z)),
    Row("Intensity", Kind::Unsigned, 2, None),
    Row("ReturnNumber", Kind::Unsigned, 1, None),
    Row("NumberOfReturns", Kind::Unsigned, 1, None),
    Row("ScanDirectionFlag", Kind::Unsigned, 1, None),
    Row("EdgeOfFlightLine", Kind::Unsigned, 1, None),
    Row("Classification", Kind::Unsigned, 1, None),
    Row("ClassFlags", Kind::Unsigned, 1, None),
    Row("ScanChannel", Kind::Unsigned, 1, None),
    Row("ScanAngleRank", Kind::Signed, 1, None),
    Row("ScanAngle", Kind::Signed, 2, None),
    Row("UserData", Kind::Unsigned, 1, None),
    Row("PointSourceId", Kind::Unsigned, 2, None),
    Row("GpsTime", Kind::Float, GPS_WIDTH, None),
    Row("Red", Kind::Unsigned, 2, None),
    Row("Green", Kind::Unsigned, 2, None),
    Row("Blue", Kind::Unsigned, 2, None),
    Row("OriginId", Kind::Unsigned, 4, None),
    Row("PointId", Kind::Unsigned, NUMBER_WIDTH, None),
];

/// Appends the schema of the points.
pub(crate) fn append_schema(text: &mut Vec<u8>, kept: &Kept) -> Result<(), Memory>
    ensures { OnOk result (text.new.items ≡ text.old.items ++ schema_text kept.now) }
{
    append(text, b"[")?;
    append_rows(text, kept, &ROWS)?;
    append(text, b"]")?;
    Ok(())
}

#[tactic(auto, unfolding(crate::specs::Dimensions::rows_text))]
fn append_rows(text: &mut Vec<u8>, kept: &Kept, rows: &[Row]) -> Result<(), Memory>
    ensures { OnOk result (text.new.items ≡ text.old.items ++ rows_text kept.now rows.now) }
{
    for (at, row) in rows.iter().enumerate() {
        append_comma(text, at > 0)?;
        append_row(text, kept, row)?;
    }
    Ok(())
}

#[tactic(auto, unfolding(crate::specs::Dimensions::row_text, crate::specs::Dimensions::dimension_text))]
fn append_row(text: &mut Vec<u8>, kept: &Kept, row: &Row) -> Result<(), Memory>
    ensures { OnOk result (text.new.items ≡ text.old.items ++ row_text kept.now row.now) }
{
    let Row(name, kind, size, axis) = *row;
    append(text, b"{\"name\":")?;
    append_quoted(text, name)?;
    append(text, b",\"type\":")?;
    append_quoted(text, kind.name())?;
    append_number_member(text, b"size", size as u64)?;
    append_transform(text, kept, axis)?;
    append(text, b"}")?;
    Ok(())
}

// Appends how stored coordinates on an axis become native ones.
fn append_transform(text: &mut Vec<u8>, kept: &Kept, axis: Option<Axis>) -> Result<(), Memory>
    ensures { OnOk result (text.new.items ≡ text.old.items ++ transform_text kept.now axis) }
{
    if let Some(axis) = axis {
        append(text, b",\"scale\":")?;
        append_unit(text, kept.scale)?;
        append(text, b",\"offset\":")?;
        append_whole(text, &kept.offset[axis.number()])?;
    }
    Ok(())
}

// Appends the stored unit, 10^-scale native units.
fn append_unit(text: &mut Vec<u8>, scale: u8) -> Result<(), Memory>
    requires { scale ≤ 9 }
    ensures { OnOk result (text.new.items ≡ text.old.items ++ decimal_text_of (pos 1) scale) }
{
    let mut digits = [0; 24];
    let length = decimal_text(1, scale, &mut digits);
    append(text, &digits[..length])
}
