//! Octants of the root, as words list them.

ghost use Rattle.std.specs.Prelude.{◌≡◌, ◌≢◌, ◌≤◌, ℕ, List, ◌∷◌, length, replicate, IfSome, IfNone};
ghost use Rattle.std.specs.List.{AllZip};
ghost use Rattle.ept_command.specs.Words.{bytes_of, masks_in, IsOctantsText, ClassesAreSelected, ArePartsTexts};

use crate::parts::{MOST_PARTS, Parts};
use ept_class::{ClassSet, SET_LENGTH, class_set_law};
use ept_filter::{Dims, read_sift};
use ept_merge::are_all_parts;

/// The octants that a word lists, bit o for octant o. They are written as the classes of a selection are: numbers that
/// ascend, with commas between them.
pub(crate) fn read_octants(word: &str) -> Option<u8>
    ensures some { IfSome result (IsOctantsText word.now) }
    ensures none { IfNone result ((octants : ℕ) → ¬ IsOctantsText word.now octants) }
{
    class_set_law();
    classes_law();
    let listed = read_sift(word.as_bytes(), b"-", b"-")?;
    let numbers = listed.classes?;
    octants_of(&numbers)
}

// A text of classes is one of a selection, at any time and with all dimensions.
fn classes_law()
    ensures { ClassesAreSelected }
{
    let _dims = Dims::all();
}

// The numbers of a set as octants, if there is one and all are below 8.
fn octants_of(numbers: &ClassSet) -> Option<u8>
    ensures below_8 { IfSome result (λ octants. numbers.now.bytes ≡ octants ∷ replicate 31 0) }
    ensures some { IfSome result (λ octants. octants ≢ 0) }
    ensures none { IfNone result ((octants : ℕ) → numbers.now.bytes ≡ octants ∷ replicate 31 0 → octants ≢ 0 → ⊥) }
{
    let octants = numbers.bytes[0];
    let mut alone = [0; SET_LENGTH];
    alone[0] = octants;
    if octants == 0 || numbers.bytes != alone {
        return None;
    }
    Some(octants)
}

/// The parts that words list, if each octant is in exactly one of them.
pub(crate) fn read_parts(texts: &[String]) -> Option<Parts>
    ensures some { IfSome result (λ parts. ArePartsTexts (bytes_of texts.now) (masks_in parts)) }
    ensures none { IfNone result ((masks : List ℕ) → ¬ ArePartsTexts (bytes_of texts.now) masks) }
{
    class_set_law();
    if texts.len() > MOST_PARTS {
        return None;
    }
    let parts = list_parts(texts)?;
    if !are_all_parts(parts.as_slice()) {
        return None;
    }
    Some(parts)
}

// The octants that each of at most eight words lists.
fn list_parts(texts: &[String]) -> Option<Parts>
    requires few { length texts.now ≤ 8 }
    ensures some { IfSome result (λ parts. AllZip IsOctantsText (bytes_of texts.now) (masks_in parts)) }
    ensures none { IfNone result ((masks : List ℕ) → ¬ AllZip IsOctantsText (bytes_of texts.now) masks) }
{
    let mut masks = [0; MOST_PARTS];
    let mut len = 0;
    for text in texts {
        masks[len] = read_octants(text)?;
        len += 1;
    }
    Some(Parts {
        masks,
        len: len as u8,
    })
}
