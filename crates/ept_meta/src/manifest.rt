//! The manifest.

ghost use Rattle.std.specs.Prelude.{◌≡◌, ◌++◌, length, codes, OnOk, OnErr};
ghost use Rattle.std.specs.List.{join_by, zip};
ghost use Rattle.ept_meta.specs.ManifestText.{manifest_text, source_text, extent_text};

use crate::pieces::{append, append_comma, append_number_member, append_quoted};
use crate::units::append_bounds;
use ept_config::{Input, Kept, SourceCount};
use ept_point::Memory;
use ept_space::Bounds;

/// Appends the manifest of the inputs in order (Entwine Point Tile 1.1.0, "ept-sources"). It has the path of each, the
/// number of its points, and their extent in native units if there are any.
///
/// The counts are those of the inputs, in their order. The text is made in a buffer of its own first. So if memory runs
/// out, `out` is as it was.
pub fn manifest_json(kept: &Kept, counts: &[SourceCount], out: &mut Vec<u8>) -> Result<(), Memory>
    requires { length counts.now ≡ length kept.now.inputs }
    ensures text { OnOk result (out.new.items ≡ out.old.items ++ manifest_text kept.now counts.now) }
    ensures unchanged { OnErr result (out.new.items ≡ out.old.items) }
{
    let mut text = Vec::new(*out.allocator());
    append_manifest(&mut text, kept, counts)?;
    out.extend_from_slice(&text)?;
    Ok(())
}

#[tactic(auto, unfolding(crate::specs::ManifestText::manifest_text))]
fn append_manifest(text: &mut Vec<u8>, kept: &Kept, counts: &[SourceCount]) -> Result<(), Memory>
    requires { length counts.now ≡ length kept.now.inputs }
    ensures { OnOk result (text.new.items ≡ text.old.items ++ manifest_text kept.now counts.now) }
{
    append(text, b"[")?;
    append_sources(text, kept, counts)?;
    append(text, b"]")?;
    Ok(())
}

fn append_sources(text: &mut Vec<u8>, kept: &Kept, counts: &[SourceCount]) -> Result<(), Memory>
    requires { length counts.now ≡ length kept.now.inputs }
    ensures { OnOk result (text.new.items
        ≡ text.old.items ++ join_by (source_text kept.now) (codes ",") (zip kept.now.inputs counts.now)) }
{
    for (at, count) in counts.iter().enumerate() {
        append_comma(text, at > 0)?;
        append_source(text, kept, kept.input(at), count)?;
    }
    Ok(())
}

#[tactic(auto, unfolding(crate::specs::ManifestText::source_text))]
fn append_source(
    text: &mut Vec<u8>,
    kept: &Kept,
    input: &Input,
    count: &SourceCount,
) -> Result<(), Memory>
    ensures { OnOk result (text.new.items ≡ text.old.items ++ source_text kept.now (input.now, count.now)) }
{
    append(text, b"{\"path\":")?;
    append_quoted(text, input.path.as_str())?;
    append_number_member(text, b"points", count.points)?;
    append_extent(text, kept, &count.extent)?;
    append(text, b",\"inserted\":true}")?;
    Ok(())
}

fn append_extent(text: &mut Vec<u8>, kept: &Kept, extent: &Option<Bounds>) -> Result<(), Memory>
    ensures { OnOk result (text.new.items ≡ text.old.items ++ extent_text kept.now extent.now) }
{
    if let Some(extent) = extent {
        append(text, b",\"bounds\":")?;
        append_bounds(text, kept, extent)?;
    }
    Ok(())
}
