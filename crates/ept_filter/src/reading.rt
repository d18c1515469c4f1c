//! The three texts of a selection.

ghost use Rattle.std.specs.Prelude.{◌≡◌, ℕ, List, IfSome, IfNone};
ghost use Rattle.ept_filter.specs.declared.sift.Sift.{Sift};
ghost use Rattle.ept_filter.specs.Asked.{asked_rows};
ghost use Rattle.ept_filter.specs.SiftText.{IsSiftText, IsDimsText, IsDimList};

use crate::classes::read_classes;
use crate::dims::Dims;
use crate::rows::{DIMENSIONS, row_named};
use crate::sift::Sift;
use crate::time::read_time;
use crate::words::first_word;

/// The selection that three texts ask for. It takes no memory.
///
/// - `classes`: `-` for any class, or whole numbers from 0 to 255 that ascend, with commas between them.
/// - `time`: `-` for any time, or the eight bytes in the order of the file, each as two lower-case hexadecimal digits.
/// - `dims`: `-` for all dimensions, or names of dimensions, none twice, with commas between them.
pub fn read_sift(classes: &[u8], time: &[u8], dims: &[u8]) -> Option<Sift>
    ensures some { IfSome result (IsSiftText classes.now time.now dims.now) }
    ensures none { IfNone result ((sift : Sift) → ¬ IsSiftText classes.now time.now dims.now sift) }
{
    let classes = read_classes(classes)?;
    let time = read_time(time)?;
    let dims = read_dims(dims)?;
    Some(Sift {
        classes,
        time,
        dims,
    })
}

// The dimensions that a text asks for: all if it is `-`, otherwise those that it names.
fn read_dims(text: &[u8]) -> Option<Dims>
    ensures some { IfSome result (λ dims. IsDimsText text.now (asked_rows dims)) }
    ensures none { IfNone result ((dims : List ℕ) → ¬ IsDimsText text.now dims) }
{
    if text == b"-".as_slice() {
        return Some(Dims::all());
    }
    read_dim_list(text)
}

// The dimensions that a text names, with commas between them.
fn read_dim_list(text: &[u8]) -> Option<Dims>
    ensures some { IfSome result (λ dims. IsDimList text.now (asked_rows dims)) }
    ensures none { IfNone result ((dims : List ℕ) → ¬ IsDimList text.now dims) }
{
    let mut rows = [0; DIMENSIONS];
    let mut len = 0;
    let mut rest = Some(text);
    while let Some(words) = rest {
        let (word, later) = first_word(words);
        let row = row_named(word)?;
        if len == DIMENSIONS || rows[..len].contains(&row) {
            return None;
        }
        rows[len] = row;
        len += 1;
        rest = later;
    }
    Some(Dims {
        rows,
        len: len as u8,
    })
}
