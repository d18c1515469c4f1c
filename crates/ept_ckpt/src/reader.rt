//! The body of a checkpoint, read.

ghost use Rattle.std.specs.Prelude.{◌≡◌, ◌≢◌, ◌≤◌, [], length, Ok, Err, IfOk, IfErr};
ghost use Rattle.std.specs.List.{All};
ghost use Rattle.ept_ckpt.specs.declared.checkpoint.Checkpoint as kept;
ghost use Rattle.ept_ckpt.specs.Body.{body};
ghost use Rattle.ept_ckpt.specs.Facts.{facts, draft_facts, kept_facts, settings_facts};
ghost use Rattle.ept_ckpt.specs.Forms.{fields};
ghost use Rattle.ept_ckpt.specs.Octree.{AreNodesOf};
ghost use Rattle.ept_ckpt.specs.Refusals.{RefusesBody};

use crate::checkpoint::Checkpoint;
use crate::ckpt_error::CkptError;
use crate::cursor::Cursor;
use crate::draft::Draft;
use crate::field_error::FieldError;
use crate::precedence::Precedence;
use crate::settings::Settings;
use crate::sources::Sources;
use crate::whole_octree::are_nodes_of;
use ept_config::{Input, Kept};
use ept_point::List;
use std::alloc::Global;

/// Reads a checkpoint from the bytes of its body. It accepts the bodies that [`write_ckpt`](crate::write_ckpt) writes,
/// and no others.
///
/// # Errors
///
/// The fields are read in order, and the first bad one decides:
///
/// - `Length` if the bytes end before the field does.
/// - `Version` if the first bytes are not those of a [`BodyVersion`](crate::BodyVersion).
/// - `Field` if the field is out of its range.
///
/// After the last field, these are judged in order:
///
/// - `Length` if bytes are left.
/// - `Field` for the generation. It is from 1 to the number of inserted points and inputs together, and may be one more
///   in versions 2 and 3.
/// - `Tree` if the nodes are no whole octree of the inserted points.
///
/// `Memory` may come at any place.
pub fn read_ckpt(alloc: Global, bytes: &[u8]) -> Result<Checkpoint, CkptError>
    ensures read { IfOk result (λ c. bytes.now ≡ body (facts c)) }
    ensures comes { (c : kept.Checkpoint) → bytes.now ≡ body (facts c)
        → IfOk result (λ found. found ≡ c) × IfErr result (λ e. e ≡ CkptError.Memory) }
    ensures refused { IfErr result (λ e. e ≢ CkptError.Memory → RefusesBody bytes.now e) }
{
    read(alloc, bytes)
}

// Reads a checkpoint, by its fields.
fn read(alloc: Global, bytes: &[u8]) -> Result<Checkpoint, CkptError>
    ensures read { IfOk result (λ c. fields (length bytes.now) bytes.now ≡ Ok (facts c, [])) }
    ensures refused { IfErr result (λ e. e ≢ CkptError.Memory → RefusesBody bytes.now e) }
{
    let draft = draft_of(alloc, bytes)?;
    if !are_nodes_of(draft.inserted, draft.nodes.as_slice()) {
        return Err(CkptError::Tree);
    }
    Ok(checkpoint_of(draft))
}

// All fields of a body.
fn draft_of(alloc: Global, bytes: &[u8]) -> Result<Draft, FieldError>
    ensures read { IfOk result (λ draft. fields (length bytes.now) bytes.now ≡ Ok (draft_facts draft, [])) }
    ensures refused { IfErr result (λ e. e ≢ FieldError.Memory
        → fields (length bytes.now) bytes.now ≡ Err e) }
{
    let mut cursor = Cursor {
        rest: bytes,
        total: bytes.len(),
    };
    cursor.draft(alloc)
}

// The checkpoint of these fields.
fn checkpoint_of(draft: Draft) -> Checkpoint
    requires { AreNodesOf draft.inserted draft.nodes }
    ensures { facts result ≡ draft_facts draft }
{
    let Draft {
        version,
        generation,
        settings,
        precedence,
        sources,
        inserted,
        nodes,
    } = draft;
    let Sources { inputs, counts } = sources;
    Checkpoint {
        version,
        generation,
        kept: kept_of(settings, precedence, inputs),
        counts,
        inserted,
        nodes,
    }
}

// What is kept of the configuration, with these inputs.
fn kept_of(settings: Settings, precedence: Precedence, inputs: List<Input>) -> Kept
    requires some { 1 ≤ length inputs }
    requires most { length inputs ≤ 65535 }
    requires scales { All (λ input. input.scale ≤ settings.scale) inputs }
    ensures settings { kept_facts result ≡ settings_facts settings }
    ensures first { result.first ≡ precedence.first }
    ensures withheld_last { result.withheld_last ≡ precedence.withheld_last }
    ensures inputs { result.inputs ≡ inputs }
{
    let Settings {
        scale,
        s,
        max_depth,
        step,
        threshold,
        offset,
        bounds,
        srs,
    } = settings;
    Kept {
        scale,
        offset,
        bounds,
        s,
        threshold,
        max_depth,
        step,
        srs,
        first: precedence.first,
        withheld_last: precedence.withheld_last,
        inputs,
    }
}
