//! Texts in a body.

ghost use Rattle.std.specs.Prelude.{◌≡◌, true, false, IfOk, IfErr, IfSome};
ghost use Rattle.ept_config.specs.Texts.{is_path, is_srs_text};
ghost use Rattle.std.specs.Option.{ForNone};
ghost use Rattle.ept_ckpt.specs.Forms.{text, srs_text};
ghost use Rattle.ept_ckpt.specs.Reads.{Reads};

use crate::cursor::Cursor;
use crate::field_error::FieldError;
use ept_config::{MAX_PATH, MAX_SRS_TEXT, is_path, is_srs_text};
use ept_point::{Memory, Text};
use std::alloc::Global;

impl<'a> Cursor<'a> {
    /// The path in the next bytes: its length, and then its bytes.
    #[tactic(auto, unfolding(crate::specs::Forms::text))]
    pub(crate) fn path(&mut self, alloc: Global) -> Result<Text, FieldError>
        ensures reads { Reads (text 1 4096 is_path) self.old self.new result }
        ensures is_path { IfOk result (λ path. is_path path ≡ true) }
    {
        let width = self.within(4, 1, MAX_PATH as u64)? as usize;
        let at = self.place();
        let front = self.bytes(width)?;
        match path_in(front) {
            Some(text) => text_of(alloc, text),
            None => Err(FieldError::Field { at }),
        }
    }

    /// The text of a spatial reference in the next bytes: its length, and then its bytes.
    #[tactic(auto, unfolding(crate::specs::Forms::text, crate::specs::Forms::srs_text))]
    pub(crate) fn srs_text(&mut self, alloc: Global) -> Result<Text, FieldError>
        ensures reads { Reads srs_text self.old self.new result }
        ensures is_text { IfOk result (λ text. is_srs_text text ≡ true) }
    {
        let width = self.within(4, 0, MAX_SRS_TEXT as u64)? as usize;
        let at = self.place();
        let front = self.bytes(width)?;
        match srs_text_in(front) {
            Some(text) => text_of(alloc, text),
            None => Err(FieldError::Field { at }),
        }
    }
}

// A text that owns these bytes.
fn text_of(alloc: Global, text: &str) -> Result<Text, FieldError>
    ensures text { IfOk result (λ owned. owned ≡ text.now) }
    ensures refused { IfErr result (λ e. e ≡ FieldError.Memory) }
{
    Ok(Text::of(String::from_str(alloc, text)?))
}

// The path that these bytes are.
#[tactic(auto, unfolding(ept_config::specs::Texts::is_path, ept_config::specs::Texts::is_plain))]
fn path_in(bytes: &[u8]) -> Option<&str>
    ensures path { IfSome result (λ text. (text.now ≡ bytes.now) × (is_path bytes.now ≡ true)) }
    ensures no_path { ForNone result (is_path bytes.now ≡ false) }
{
    let Ok(text) = str::from_utf8(bytes) else {
        return None;
    };
    if is_path(text) { Some(text) } else { None }
}

// The text of a spatial reference that these bytes are.
#[tactic(auto, unfolding(ept_config::specs::Texts::is_srs_text, ept_config::specs::Texts::is_plain))]
fn srs_text_in(bytes: &[u8]) -> Option<&str>
    ensures text { IfSome result (λ text. (text.now ≡ bytes.now) × (is_srs_text bytes.now ≡ true)) }
    ensures no_text { ForNone result (is_srs_text bytes.now ≡ false) }
{
    let Ok(text) = str::from_utf8(bytes) else {
        return None;
    };
    if is_srs_text(text) { Some(text) } else { None }
}
