//! Reading of the build file.

ghost use Rattle.std.specs.Prelude.{◌≡◌, ◌≢◌, ◌↔◌, Some, None, Err, IfOk, IsTrue};
ghost use Rattle.ept_config.specs.declared.kept.Kept.{Kept};
ghost use Rattle.ept_meta.specs.BuildText.{build_text};
ghost use Rattle.ept_meta.specs.BuildReading.{told, build_facts};

use crate::build::build_json;
use crate::meta_error::MetaError;
use ept_config::Kept;
use ept_config_text::read_value;
use ept_json::document;
use ept_point::Memory;
use std::alloc::Global;

/// Reads a build file, as [`build_json`] writes it: what the output of a build depends on.
///
/// The bytes are read as a configuration. The result is written again and compared with the bytes. So bytes are
/// accepted if and only if they are the build file of a configuration. White space, another order of the keys or
/// another spelling of a number is refused.
///
/// # Errors
///
/// `Form` if the bytes are not the build file of any configuration.
#[tactic(auto, using(crate::proofs::BuildAgain::read_again, crate::proofs::BuildAgain::told_nothing))]
pub fn read_build_json(alloc: Global, bytes: &[u8]) -> Result<Kept, MetaError>
    ensures ok { IfOk result (λ kept. bytes.now ≡ build_text kept) }
    ensures only { IfOk result (λ kept. (other : Kept) → bytes.now ≡ build_text other → other ≡ kept) }
    ensures refused { result ≡ Err MetaError.Form → (kept : Kept) → bytes.now ≢ build_text kept }
{
    let kept = kept_in(alloc, bytes)?;
    if is_of(alloc, &kept, bytes)? {
        Ok(kept)
    } else {
        Err(MetaError::Form)
    }
}

// Reads bytes as the text of a configuration with bounds.
#[tactic(auto, unfolding(crate::specs::BuildReading::told))]
fn kept_in(alloc: Global, bytes: &[u8]) -> Result<Kept, MetaError>
    ensures told { IfOk result (λ kept. told bytes.now ≡ Some (build_facts kept)) }
    ensures refused { result ≡ Err MetaError.Form → told bytes.now ≡ None }
{
    let value = document(alloc, bytes)?;
    let config = read_value(alloc, &value)?;
    let Some(bounds) = config.bounds else {
        return Err(MetaError::Form);
    };
    Ok(config.kept(alloc, &bounds)?)
}

// Whether the bytes are the build file of what is kept.
fn is_of(alloc: Global, kept: &Kept, bytes: &[u8]) -> Result<bool, Memory>
    ensures { IfOk result (λ same. IsTrue same ↔ (bytes.now ≡ build_text kept.now)) }
{
    let mut text = Vec::new(alloc);
    build_json(kept, &mut text)?;
    Ok(text.as_slice() == bytes)
}
