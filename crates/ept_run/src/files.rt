//! The LAS file that the words name.

ghost use Rattle.std.specs.Prelude.{◌≡◌, ◌≤◌, ◌+◌, ℕ, [], ◌∷◌, IfOk, IfErr, OnOk, length, take};
ghost use Rattle.ept_base.specs.Causes.{HasCauseOf};
ghost use Rattle.ept_base.specs.Files.{Tells};
ghost use Rattle.ept_scan.specs.Asking.{AsksFor};
ghost use Rattle.ept_command.specs.Configurations.{HasFront};
ghost use Rattle.ept_run.specs.Requests.{HasHeader, InfoIsRefused, IsOfHeader};

use ept_base::{Failed, GetError, Shelf, Source, read_full};
use ept_command::Refusal;
use ept_las::{HEAD_LENGTH, Header, read_header};

/// Reads the header of the LAS file of this path. It takes no memory of its own.
///
/// # Errors
///
/// `BadLas` of source 0 with the first fault of the header, `SourceFault`, and `Memory` if the shelf has none
/// to open the file.
pub(crate) fn read_file_header<H: Shelf>(shelf: &mut H, path: &str) -> Result<Header, Refusal>
    ensures ok { IfOk result (λ header. Tells (λ all. HasHeader all path.now header) (H.files shelf.old)) }
    ensures refused { IfErr result (λ r. Tells (λ all. InfoIsRefused all path.now r) (H.files shelf.old)) }
    ensures causes { IfErr result IsOfHeader }
    ensures opened { OnOk result (AsksFor (path.now ∷ []) (H.asked shelf.old) (H.asked shelf.new)) }
    ensures asked { (n : ℕ) × AsksFor (take n (path.now ∷ [])) (H.asked shelf.old) (H.asked shelf.new) }
    ensures given { H.given shelf.new ≤ H.given shelf.old + 375 }
    ensures files { H.files shelf.new ≡ H.files shelf.old }
    ensures cause { HasCauseOf Refusal.SourceFault (H.faults shelf.old) (H.faults shelf.new) result }
{
    let mut head = [0; HEAD_LENGTH];
    let count = read_head(shelf, path, &mut head)?;
    match read_header(&head, count, None) {
        Ok(header) => Ok(header),
        Err(fault) => Err(Refusal::BadLas { source: 0, fault }),
    }
}

// Reads the first bytes of the file of this path into the buffer, until that is full or the file ends. Returns their
// number.
fn read_head<H: Shelf>(shelf: &mut H, path: &str, buffer: &mut [u8]) -> Result<usize, GetError>
    ensures front { IfOk result (λ count. Tells
        (λ all. HasFront all path.now (length buffer.old) (take count buffer.new)) (H.files shelf.old)) }
    ensures fits { IfOk result (λ count. count ≤ length buffer.new) }
    ensures size { length buffer.new ≡ length buffer.old }
    ensures opened { OnOk result (AsksFor (path.now ∷ []) (H.asked shelf.old) (H.asked shelf.new)) }
    ensures asked { (n : ℕ) × AsksFor (take n (path.now ∷ [])) (H.asked shelf.old) (H.asked shelf.new) }
    ensures given { H.given shelf.new ≤ H.given shelf.old + length buffer.old }
    ensures files { H.files shelf.new ≡ H.files shelf.old }
    ensures cause { HasCauseOf GetError.Failed (H.faults shelf.old) (H.faults shelf.new) result }
{
    let mut source = shelf.open(path)?;
    let count = read_full(&mut source, buffer);
    shelf.retire(source);
    match count {
        Ok(count) => Ok(count),
        Err(Failed) => Err(GetError::Failed),
    }
}
