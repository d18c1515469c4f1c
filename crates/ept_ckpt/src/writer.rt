//! How the body of a checkpoint is written.

ghost use Rattle.std.specs.Prelude.{◌≡◌, ◌++◌, length, map, OnOk, OnErr};
ghost use Rattle.std.specs.List.{flat_map, zip};
ghost use Rattle.ept_config.specs.Facts.{input_facts, srs_facts};
ghost use Rattle.ept_ckpt.specs.Body.{kept_bytes, precedence_bytes, srs_bytes, source_bytes, node_bytes, optional, bounds_bytes, body};
ghost use Rattle.ept_ckpt.specs.Facts.{kept_facts, precedence_of, facts};

use crate::append::{
    append, append_bounds, append_i64s, append_path, append_srs_text, append_u8, append_u32,
    append_u64, flag,
};
use crate::checkpoint::Checkpoint;
use crate::node_line::NodeLine;
use crate::version::BodyVersion;
use ept_config::{EXPECT_WIDTH, Input, Kept, SourceCount, Srs};
use ept_point::Memory;
use ept_space::Bounds;

/// Appends the body of a checkpoint. The body is made in a buffer of its own first. So if memory runs out, `out` is as
/// it was.
pub fn write_ckpt(checkpoint: &Checkpoint, out: &mut Vec<u8>) -> Result<(), Memory>
    ensures body { OnOk result (out.new.items ≡ out.old.items ++ body (facts checkpoint.now)) }
    ensures unchanged { OnErr result (out.new.items ≡ out.old.items) }
{
    let mut bytes = Vec::new(*out.allocator());
    append_body(&mut bytes, checkpoint)?;
    out.extend_from_slice(&bytes)?;
    Ok(())
}

#[tactic(auto, unfolding(crate::specs::Body::body))]
fn append_body(out: &mut Vec<u8>, checkpoint: &Checkpoint) -> Result<(), Memory>
    ensures { OnOk result (out.new.items ≡ out.old.items ++ body (facts checkpoint.now)) }
{
    let counts = checkpoint.counts.as_slice();
    let nodes = checkpoint.nodes.as_slice();
    append(out, &checkpoint.version.mark())?;
    append_u64(out, checkpoint.generation)?;
    append_kept(out, &checkpoint.kept)?;
    append_precedence(out, checkpoint.version, &checkpoint.kept)?;
    append_u32(out, counts.len() as u32)?;
    append_sources(out, &checkpoint.kept, counts)?;
    append_u64(out, checkpoint.inserted)?;
    append_u32(out, nodes.len() as u32)?;
    append_nodes(out, nodes)?;
    Ok(())
}

// Appends which points come first and last, if the version has this.
fn append_precedence(out: &mut Vec<u8>, version: BodyVersion, kept: &Kept) -> Result<(), Memory>
    ensures { OnOk result (out.new.items ≡ out.old.items ++ precedence_bytes version (precedence_of kept.now)) }
{
    if version == BodyVersion::V3 {
        append(out, &kept.first.bytes)?;
        append_u8(out, u8::from(kept.withheld_last))?;
    }
    Ok(())
}

#[tactic(auto, unfolding(crate::specs::Body::kept_bytes))]
fn append_kept(out: &mut Vec<u8>, kept: &Kept) -> Result<(), Memory>
    ensures { OnOk result (out.new.items ≡ out.old.items ++ kept_bytes (kept_facts kept.now)) }
{
    append(out, &[kept.scale, kept.s, kept.max_depth, kept.step])?;
    append_u32(out, kept.threshold as u32)?;
    append_i64s(out, &kept.offset)?;
    append_bounds(out, &kept.bounds)?;
    append_srs(out, &kept.srs)?;
    Ok(())
}

#[tactic(auto, unfolding(crate::specs::Body::srs_bytes))]
fn append_srs(out: &mut Vec<u8>, srs: &Srs) -> Result<(), Memory>
    ensures { OnOk result (out.new.items ≡ out.old.items ++ srs_bytes (srs_facts srs.now)) }
{
    let there = flag(&srs.authority)
        + 2 * flag(&srs.horizontal)
        + 4 * flag(&srs.vertical)
        + 8 * flag(&srs.wkt);
    append_u8(out, there)?;
    append_srs_text(out, &srs.authority)?;
    append_srs_text(out, &srs.horizontal)?;
    append_srs_text(out, &srs.vertical)?;
    append_srs_text(out, &srs.wkt)?;
    Ok(())
}

fn append_sources(out: &mut Vec<u8>, kept: &Kept, counts: &[SourceCount]) -> Result<(), Memory>
    requires { length counts.now ≡ length kept.now.inputs }
    ensures { OnOk result (out.new.items
        ≡ out.old.items ++ flat_map source_bytes (zip (map input_facts kept.now.inputs) counts.now)) }
{
    for (at, count) in counts.iter().enumerate() {
        append_source(out, kept.input(at), count)?;
    }
    Ok(())
}

#[tactic(auto, unfolding(crate::specs::Body::source_bytes))]
fn append_source(out: &mut Vec<u8>, input: &Input, count: &SourceCount) -> Result<(), Memory>
    ensures { OnOk result (out.new.items ≡ out.old.items ++ source_bytes (input_facts input.now, count.now)) }
{
    append_path(out, &input.path)?;
    append_u8(out, input.scale)?;
    append_i64s(out, &input.shift)?;
    append_u8(out, flag(&input.expect))?;
    append_expect(out, &input.expect)?;
    append_u64(out, count.points)?;
    append_u8(out, flag(&count.extent))?;
    append_extent(out, &count.extent)?;
    Ok(())
}

fn append_expect(out: &mut Vec<u8>, expect: &Option<[u8; EXPECT_WIDTH]>) -> Result<(), Memory>
    ensures { OnOk result (out.new.items ≡ out.old.items ++ optional (λ bytes. bytes) expect.now) }
{
    if let Some(bytes) = expect {
        append(out, bytes)?;
    }
    Ok(())
}

fn append_extent(out: &mut Vec<u8>, extent: &Option<Bounds>) -> Result<(), Memory>
    ensures { OnOk result (out.new.items ≡ out.old.items ++ optional bounds_bytes extent.now) }
{
    if let Some(extent) = extent {
        append_bounds(out, extent)?;
    }
    Ok(())
}

fn append_nodes(out: &mut Vec<u8>, nodes: &[NodeLine]) -> Result<(), Memory>
    ensures { OnOk result (out.new.items ≡ out.old.items ++ flat_map node_bytes nodes.now) }
{
    for line in nodes {
        append_node(out, line)?;
    }
    Ok(())
}

#[tactic(auto, unfolding(crate::specs::Body::node_bytes))]
fn append_node(out: &mut Vec<u8>, line: &NodeLine) -> Result<(), Memory>
    ensures { OnOk result (out.new.items ≡ out.old.items ++ node_bytes line.now) }
{
    let key = &line.key;
    append_u8(out, key.depth)?;
    append_u32(out, key.x)?;
    append_u32(out, key.y)?;
    append_u32(out, key.z)?;
    append_u64(out, line.count)?;
    append(out, &[line.mask, line.letter.code()])?;
    Ok(())
}
