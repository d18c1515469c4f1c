//! The words between the commas of a text.

ghost use Rattle.std.specs.Prelude.{◌≡◌, ◌∷◌, [], MatchOption};
ghost use Rattle.ept_filter.specs.Words.{words};

/// The first word, and the text after the comma that ends it.
pub(crate) fn first_word(text: &[u8]) -> (&[u8], Option<&[u8]>)
    ensures { MatchOption result.1 (words text.now ≡ result.0.now ∷ []) (λ later. words text.now ≡ result.0.now ∷ words later.now) }
{
    match text.iter().position(|b| *b == b',') {
        Some(at) => (&text[..at], Some(&text[at + 1..])),
        None => (text, None),
    }
}
