//! The bodies of the parts.

ghost use Rattle.std.specs.Prelude.{◌≡◌, ◌≢◌, ◌⊎◌, ◌↔◌, None, Some, Err, IfOk, IfErr, IsTrue, length};
ghost use Rattle.ept_base.specs.Causes.{HasCauseOf};
ghost use Rattle.ept_base.specs.Files.{SameFiles, Tells};
ghost use Rattle.ept_base.specs.Moves.{Moves};
ghost use Rattle.ept_point.specs.declared.layout.Layout.TheVariants.{New};
ghost use Rattle.ept_ckpt.specs.declared.checkpoint.Checkpoint as ckpt;
ghost use Rattle.ept_ckpt.specs.Body.{body};
ghost use Rattle.ept_ckpt.specs.Facts.{facts};
ghost use Rattle.ept_ckpt.specs.Versions.{layout_of};
ghost use Rattle.ept_save.specs.Gates.{IsOpen};
ghost use Rattle.ept_part.specs.Names.{part_gate, part_body};
ghost use Rattle.ept_merge.specs.Errors.{IsStores};
ghost use Rattle.ept_merge.specs.Merging.{HasBody, IsBroken};
ghost use Rattle.ept_merge.specs.Joining.{IsLike, octants_of, bodies_in};
ghost use Rattle.ept_merge.specs.Putting.{HoldsBytes, IsBodyFault, HasBodies, AreLike, IsBodiesFault};

use crate::error::MergeError;
use ept_base::Store;
use ept_ckpt::{Checkpoint, CkptError, read_ckpt};
use ept_config::SourceCount;
use ept_config_diff::first_difference;
use ept_part::{part_body, part_gate};
use ept_plan::Plan;
use ept_point::{Layout, Memory};
use ept_save::is_open;
use std::alloc::Global;

/// A part, with its body.
#[derive(Drop)]
pub(crate) struct PartBody {
    pub(crate) octants: u8,
    pub(crate) body: Checkpoint,
}

/// The parts with their bodies, each like the plan. Nothing is put.
///
/// # Errors
///
/// The fault of the first part that has one: `NoPart` if its gate is not open, `PartDamaged` if its body is missing or
/// malformed, and `PartDiffers` if this is not like the plan.
pub(crate) fn bodies_of<T: Store>(
    alloc: Global,
    store: &mut T,
    parts: &[u8],
    plan: &Plan,
) -> Result<Vec<PartBody>, MergeError>
    ensures parts { IfOk result (λ bodies. octants_of bodies.items ≡ parts.now) }
    ensures like { IfOk result (λ bodies. AreLike plan.now bodies.items) }
    ensures bodies { IfOk result (λ bodies. Tells (λ all. HasBodies all plan.now parts.now (bodies_in bodies.items))
        (T.files store.old)) }
    ensures refused { IfErr result (λ e. Tells (λ all. IsBodiesFault all plan.now parts.now e) (T.files store.old)) }
    ensures any_moment { Moves T.files T.may_leave T.moment T.image_since SameFiles store.old store.new }
    ensures no_source { result ≢ Err MergeError.SourceFault }
    ensures cause { HasCauseOf MergeError.StoreFault (T.faults store.old) (T.faults store.new) result }
{
    let mut bodies = Vec::with_capacity(alloc, parts.len())?;
    for octants in parts {
        let body = body_like(alloc, store, *octants, plan)?;
        bodies.push(PartBody {
            octants: *octants,
            body,
        })?;
    }
    Ok(bodies)
}

// The body of a part, which is like the plan.
fn body_like<T: Store>(
    alloc: Global,
    store: &mut T,
    octants: u8,
    plan: &Plan,
) -> Result<Checkpoint, MergeError>
    ensures has { IfOk result (λ body. Tells (λ all. HasBody all octants body) (T.files store.old)) }
    ensures like { IfOk result (IsLike plan.now.kept plan.now.counts) }
    ensures refused { IfErr result (λ e. Tells (λ all. IsBodyFault all plan.now octants e) (T.files store.old)) }
    ensures any_moment { Moves T.files T.may_leave T.moment T.image_since SameFiles store.old store.new }
    ensures no_source { result ≢ Err MergeError.SourceFault }
    ensures cause { HasCauseOf MergeError.StoreFault (T.faults store.old) (T.faults store.new) result }
{
    let body = body_of(alloc, store, octants)?;
    match is_like(alloc, plan, &body) {
        Ok(true) => Ok(body),
        Ok(false) => Err(MergeError::PartDiffers { octants }),
        Err(_) => Err(MergeError::Memory),
    }
}

// The body of a part.
fn body_of<T: Store>(alloc: Global, store: &mut T, octants: u8) -> Result<Checkpoint, MergeError>
    ensures has { IfOk result (λ body. Tells (λ all. HasBody all octants body) (T.files store.old)) }
    ensures newest { IfOk result (λ body. layout_of body.version ≡ New) }
    ensures no_part { result ≡ Err (MergeError.NoPart octants)
        → Tells (λ all. ¬ IsOpen all (part_gate octants)) (T.files store.old) }
    ensures damaged { result ≡ Err (MergeError.PartDamaged octants None)
        → Tells (λ all. IsBroken all octants) (T.files store.old) }
    ensures only { IfErr result (λ e. (e ≡ MergeError.NoPart octants) ⊎ (e ≡ MergeError.PartDamaged octants None)
        ⊎ IsStores e) }
    ensures any_moment { Moves T.files T.may_leave T.moment T.image_since SameFiles store.old store.new }
    ensures cause { HasCauseOf MergeError.StoreFault (T.faults store.old) (T.faults store.new) result }
{
    if !is_made(alloc, store, octants)? {
        return Err(MergeError::NoPart { octants });
    }
    match bytes_of(alloc, store, octants)? {
        Some(bytes) => read_body(alloc, octants, &bytes),
        None => Err(MergeError::PartDamaged { octants, key: None }),
    }
}

// Whether a part is there: its gate is open.
fn is_made<T: Store>(alloc: Global, store: &mut T, octants: u8) -> Result<bool, MergeError>
    ensures made { IfOk result (λ made. Tells (λ all. IsTrue made ↔ IsOpen all (part_gate octants)) (T.files store.old)) }
    ensures only { IfErr result IsStores }
    ensures any_moment { Moves T.files T.may_leave T.moment T.image_since SameFiles store.old store.new }
    ensures cause { HasCauseOf MergeError.StoreFault (T.faults store.old) (T.faults store.new) result }
{
    let gate = part_gate(alloc, octants)?;
    let is_made = is_open(alloc, store, gate.as_str())?;
    Ok(is_made)
}

// The bytes of a part's body, if it is there.
fn bytes_of<T: Store>(
    alloc: Global,
    store: &mut T,
    octants: u8,
) -> Result<Option<Vec<u8>>, MergeError>
    ensures bytes { IfOk result (λ found. Tells (HoldsBytes (part_body octants) found) (T.files store.old)) }
    ensures only { IfErr result IsStores }
    ensures any_moment { Moves T.files T.may_leave T.moment T.image_since SameFiles store.old store.new }
    ensures cause { HasCauseOf MergeError.StoreFault (T.faults store.old) (T.faults store.new) result }
{
    let name = part_body(alloc, octants)?;
    let mut bytes = Vec::new(alloc);
    let is_there = store.get(name.as_str(), &mut bytes)?;
    if is_there { Ok(Some(bytes)) } else { Ok(None) }
}

// The body of a part, from its bytes.
fn read_body(alloc: Global, octants: u8, bytes: &[u8]) -> Result<Checkpoint, MergeError>
    ensures read { IfOk result (λ found. bytes.now ≡ body (facts found)) }
    ensures newest { IfOk result (λ found. layout_of found.version ≡ New) }
    ensures refused { IfErr result (λ e. (e ≡ MergeError.Memory) ⊎ ((e ≡ MergeError.PartDamaged octants None)
        × ((c : ckpt.Checkpoint) → layout_of c.version ≡ New → bytes.now ≢ body (facts c)))) }
{
    match read_ckpt(alloc, bytes) {
        Ok(found) => match found.version.layout() {
            Layout::New => Ok(found),
            Layout::Old => Err(MergeError::PartDamaged { octants, key: None }),
        },
        Err(CkptError::Memory) => Err(MergeError::Memory),
        Err(_) => Err(MergeError::PartDamaged { octants, key: None }),
    }
}

// Whether a body of the newest layout is like the plan: it keeps the same, with the same counts.
fn is_like(alloc: Global, plan: &Plan, found: &Checkpoint) -> Result<bool, Memory>
    requires { layout_of found.now.version ≡ New }
    ensures { IfOk result (λ same. IsTrue same ↔ IsLike plan.now.kept plan.now.counts found.now) }
{
    match first_difference(alloc, &found.kept, &plan.kept) {
        Ok(None) => Ok(has_inputs(plan, found)),
        Ok(Some(_)) => Ok(false),
        Err(error) => Err(error),
    }
}

// Whether a body has the same number of inputs as the plan, and the same counts.
fn has_inputs(plan: &Plan, found: &Checkpoint) -> bool
    ensures { IsTrue result ↔ (length found.now.kept.inputs ≡ length plan.now.kept.inputs)
        × (found.now.counts ≡ plan.now.counts) }
{
    let same_length = found.kept.inputs.as_slice().len() == plan.kept.inputs.as_slice().len();
    let same_counts = are_same(found.counts.as_slice(), plan.counts.as_slice());
    same_length && same_counts
}

// Whether two lists of counts are the same.
fn are_same(a: &[SourceCount], b: &[SourceCount]) -> bool
    ensures { IsTrue result ↔ (a.now ≡ b.now) }
{
    a == b
}
