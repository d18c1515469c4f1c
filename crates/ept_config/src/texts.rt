//! Which texts a configuration may have.

ghost use Rattle.std.specs.Prelude.{◌≡◌};
ghost use Rattle.std.specs.List.{list_all};
ghost use Rattle.ept_config.specs.Texts.{is_shown, is_plain, is_path, is_srs_text};

use crate::limits::{MAX_PATH, MAX_SRS_TEXT};

/// Whether a text may be the path of an input: 1 to `MAX_PATH` bytes, none of them below 32 or equal to 127.
#[tactic(auto, unfolding(crate::specs::Texts::is_path))]
pub fn is_path(text: &str) -> bool
    ensures path { result ≡ is_path text.now }
{
    is_plain(text) && 1 <= text.len() && text.len() <= MAX_PATH
}

/// Whether a text may be one of a spatial reference: at most `MAX_SRS_TEXT` bytes, none of them below 32 or equal to
/// 127.
#[tactic(auto, unfolding(crate::specs::Texts::is_srs_text))]
pub fn is_srs_text(text: &str) -> bool
    ensures text { result ≡ is_srs_text text.now }
{
    is_plain(text) && text.len() <= MAX_SRS_TEXT
}

#[tactic(auto, unfolding(crate::specs::Texts::is_plain))]
fn is_plain(text: &str) -> bool
    ensures { result ≡ is_plain text.now }
{
    all_shown(text.as_bytes())
}

fn all_shown(bytes: &[u8]) -> bool
    ensures { result ≡ list_all is_shown bytes.now }
{
    bytes.iter().all(|byte| *byte >= 32 && *byte != 127)
}
