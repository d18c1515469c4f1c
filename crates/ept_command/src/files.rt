//! The configuration that the words name.

ghost use Rattle.std.specs.Prelude.{◌≡◌, ◌≤◌, ◌+◌, ◌^◌, ℕ, [], ◌∷◌, IfOk, IfErr, OnOk, take};
ghost use Rattle.ept_base.specs.Causes.{HasCauseOf};
ghost use Rattle.ept_base.specs.Files.{Tells};
ghost use Rattle.ept_scan.specs.Asking.{AsksFor};
ghost use Rattle.ept_command.specs.Configurations.{HasFront, HasConfiguration, ConfigurationIsRefused, IsOfConfiguration};

use crate::refusal::Refusal;
use ept_base::{GetError, Shelf, Source, read_full};
use ept_config::Config;
use ept_config_text::{MAX_LENGTH, read_config};
use std::alloc::Global;

/// How many bytes of a configuration are read at a time.
const PIECE: usize = 65_536;

/// How many bytes of a configuration are read: one more than the longest has.
const MOST: usize = MAX_LENGTH + 1;

/// Reads the configuration of this path.
///
/// # Errors
///
/// `BadConfiguration` with the cause of `read_config`, `SourceFault` and `Memory`.
pub fn read_configuration<H: Shelf>(
    alloc: Global,
    shelf: &mut H,
    path: &str,
) -> Result<Config, Refusal>
    ensures ok { IfOk result (λ config. Tells
        (λ all. HasConfiguration all path.now config) (H.files shelf.old)) }
    ensures refused { IfErr result (λ r. Tells (λ all. ConfigurationIsRefused all path.now r) (H.files shelf.old)) }
    ensures causes { IfErr result IsOfConfiguration }
    ensures opened { OnOk result (AsksFor (path.now ∷ []) (H.asked shelf.old) (H.asked shelf.new)) }
    ensures asked { (n : ℕ) × AsksFor (take n (path.now ∷ [])) (H.asked shelf.old) (H.asked shelf.new) }
    ensures given { H.given shelf.new ≤ H.given shelf.old + (2 ^ 24 + 1) }
    ensures files { H.files shelf.new ≡ H.files shelf.old }
    ensures cause { HasCauseOf Refusal.SourceFault (H.faults shelf.old) (H.faults shelf.new) result }
{
    let text = read_front(alloc, shelf, path, MOST)?;
    match read_config(alloc, &text) {
        Ok(config) => Ok(config),
        Err(error) => Err(Refusal::from(error)),
    }
}

/// Reads the first `most` bytes of the file of this path, or all of them if there are fewer.
pub fn read_front<H: Shelf>(
    alloc: Global,
    shelf: &mut H,
    path: &str,
    most: usize,
) -> Result<Vec<u8>, GetError>
    ensures front { IfOk result (λ front. Tells
        (λ all. HasFront all path.now most front.items) (H.files shelf.old)) }
    ensures opened { OnOk result (AsksFor (path.now ∷ []) (H.asked shelf.old) (H.asked shelf.new)) }
    ensures asked { (n : ℕ) × AsksFor (take n (path.now ∷ [])) (H.asked shelf.old) (H.asked shelf.new) }
    ensures given { H.given shelf.new ≤ H.given shelf.old + most }
    ensures files { H.files shelf.new ≡ H.files shelf.old }
    ensures cause { HasCauseOf GetError.Failed (H.faults shelf.old) (H.faults shelf.new) result }
{
    let mut source = shelf.open(path)?;
    let front = read_up_to(alloc, &mut source, most);
    shelf.retire(source);
    front
}

// Reads the next `most` bytes of a source, or those up to its end if there are fewer.
fn read_up_to<S: Source>(alloc: Global, source: &mut S, most: usize) -> Result<Vec<u8>, GetError>
    ensures front { IfOk result (λ front. Tells
        (λ left. front.items ≡ take most left) (S.left source.old)) }
    ensures given { S.given source.new ≤ S.given source.old + most }
    ensures same { S.whole source.new ≡ S.whole source.old }
    ensures cause { HasCauseOf GetError.Failed (S.faults source.old) (S.faults source.new) result }
{
    let mut front = Vec::new(alloc);
    let mut piece = [0; PIECE];
    while front.len() < most {
        let room = piece.len().min(most - front.len());
        let count = read_full(source, &mut piece[..room])?;
        front.extend_from_slice(&piece[..count])?;
        if count < room {
            return Ok(front);
        }
    }
    Ok(front)
}
