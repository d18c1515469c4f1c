//! The text of the classes that are asked for.

ghost use Rattle.std.specs.Prelude.{◌≡◌, ◌+◌, ◌≤◌, ◌<◌, ℕ, ℤ, pos, List, IfSome, IfNone, Option};
ghost use Rattle.ept_class.specs.declared.class_set.ClassSet.{ClassSet};
ghost use Rattle.ept_filter.specs.SiftText.{IsClassesText, IsClassList, HasMembers, IsClassWord};

use crate::words::first_word;
use ept_class::ClassSet;
use ept_num::read_whole;

/// The greatest class.
const MAX_CLASS: i64 = 255;

/// The classes that a text asks for: any class if it is `-`, otherwise those that ascend in it.
pub(crate) fn read_classes(text: &[u8]) -> Option<Option<ClassSet>>
    ensures some { IfSome result (IsClassesText text.now) }
    ensures none { IfNone result ((classes : Option ClassSet) → ¬ IsClassesText text.now classes) }
{
    if text == b"-".as_slice() {
        return Some(None);
    }
    let set = read_class_list(text)?;
    Some(Some(set))
}

// The set of classes that ascend in a text, with commas between them.
fn read_class_list(text: &[u8]) -> Option<ClassSet>
    ensures some { IfSome result (λ set. (classes : List ℕ) × IsClassList text.now classes × HasMembers set classes) }
    ensures none { IfNone result ((classes : List ℕ) → ¬ IsClassList text.now classes) }
{
    let mut set = ClassSet::new();
    let mut least = 0;
    let mut rest = Some(text);
    while let Some(words) = rest {
        let (word, later) = first_word(words);
        let class = read_class(word, least)?;
        set.insert(class);
        least = u16::from(class) + 1;
        rest = later;
    }
    Some(set)
}

// The class that a word spells, if it is not below the least.
fn read_class(word: &[u8], least: u16) -> Option<u8>
    ensures some { IfSome result (λ class. IsClassWord word.now least class) }
    ensures none { IfNone result ((class : ℕ) → ¬ IsClassWord word.now least class) }
{
    let class = read_whole(word)?;
    if class < i64::from(least) || class > MAX_CLASS {
        return None;
    }
    Some(class as u8)
}
