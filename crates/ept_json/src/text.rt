//! The value of a JSON text.

ghost use Rattle.std.specs.Prelude.{◌≡◌, ◌<◌, length, IfOk, Some, None, Err};
ghost use Rattle.serde_json.specs.Errors.{IsMemory};
ghost use Rattle.serde_json.specs.View.{view};
ghost use Rattle.ept_json.specs.Document.{document};

use crate::json_error::JsonError;
use serde_json::{Error, Value};
use std::alloc::Global;

/// The value whose JSON text the bytes are (RFC 8259). If a name occurs twice in an object, the last value counts.
///
/// # Errors
///
/// `NoText` if the bytes are not UTF-8, or not the text of a value, and `Memory` if memory runs out.
#[tactic(auto, using(crate::proofs::Documents::document_read, crate::proofs::Documents::document_refused))]
pub fn document(alloc: Global, bytes: &[u8]) -> Result<Value, JsonError>
    ensures value { IfOk result (λ value. document bytes.now ≡ Some (view value)) }
    ensures no_text { result ≡ Err JsonError.NoText → document bytes.now ≡ None }
    ensures memory { result ≡ Err JsonError.Memory → 0 < length bytes.now }
{
    match Value::from_slice(alloc, bytes) {
        Ok(value) => Ok(value),
        Err(e) => Err(cause_of(&e)),
    }
}

// Why a text has no value.
fn cause_of(e: &Error) -> JsonError
    ensures no_text { result ≡ JsonError.NoText → ¬ IsMemory e.now }
    ensures memory { result ≡ JsonError.Memory → IsMemory e.now }
{
    if e.is_memory() {
        JsonError::Memory
    } else {
        JsonError::NoText
    }
}
