//! The text of a hierarchy file while it is written.

ghost use Rattle.std.specs.Prelude.{◌≡◌, ◌++◌, codes, pos, OnOk, IfOk};
ghost use Rattle.std.specs.Fmt.{signed_decimal};
ghost use Rattle.ept_space.specs.KeyText.{key_text};
ghost use Rattle.ept_hier.specs.Hierarchy.{entry_text};
ghost use Rattle.ept_hier.specs.OpenFiles.{number_of};

use ept_point::{List, Memory};
use ept_space::{Key, key_text};
use itoa::Buffer;
use std::alloc::Global;
use std::marker::Model;

/// The text of a file that has an entry and may get more, without the brace that ends it.
#[derive(Drop)]
pub(crate) struct OpenText {
    text: Vec<u8>,
}

impl Model for OpenText {
    ghost use Rattle.std.specs.Prelude.{List, ℕ};

    ghost Value = { List ℕ };

    ghost view = { λ t. t.text.items };
}

impl OpenText {
    /// The text of a file that begins with the node of this key.
    pub(crate) fn begin(alloc: Global, key: &Key, count: u64) -> Result<OpenText, Memory>
        ensures { IfOk result (λ t. t ≡ codes "{" ++ entry_text (key.now, pos count)) }
    {
        let mut text = Vec::from_slice(alloc, b"{")?;
        append_entry(&mut text, key, Some(count))?;
        Ok(OpenText { text })
    }

    /// Appends the entry of a node: its count, or -1 if the node has a file of its own.
    pub(crate) fn add(&mut self, key: &Key, count: Option<u64>) -> Result<(), Memory>
        ensures { OnOk result (self.new ≡ self.old ++ codes "," ++ entry_text (key.now, number_of count)) }
    {
        self.text.extend_from_slice(b",")?;
        append_entry(&mut self.text, key, count)?;
        Ok(())
    }

    /// The whole text.
    pub(crate) fn close(self) -> Result<List<u8>, Memory>
        ensures { IfOk result (λ text. text ≡ self ++ codes "}") }
    {
        let mut text = self.text;
        text.extend_from_slice(b"}")?;
        Ok(List::of(text))
    }
}

// Appends `"D-X-Y-Z":N`, where N is the count, or -1 if there is none.
#[tactic(auto, unfolding(crate::specs::Hierarchy::entry_text))]
fn append_entry(text: &mut Vec<u8>, key: &Key, count: Option<u64>) -> Result<(), Memory>
    ensures { OnOk result (text.new.items ≡ text.old.items ++ entry_text (key.now, number_of count)) }
{
    text.extend_from_slice(b"\"")?;
    append_key(text, key)?;
    text.extend_from_slice(b"\":")?;
    append_number(text, count)?;
    Ok(())
}

// Appends the text of the key.
fn append_key(text: &mut Vec<u8>, key: &Key) -> Result<(), Memory>
    ensures { OnOk result (text.new.items ≡ text.old.items ++ key_text key.now) }
{
    let mut name = [0; 40];
    let length = key_text(key, &mut name);
    text.extend_from_slice(&name[..length])?;
    Ok(())
}

// Appends the count, or -1 if there is none.
fn append_number(text: &mut Vec<u8>, count: Option<u64>) -> Result<(), Memory>
    ensures { OnOk result (text.new.items ≡ text.old.items ++ signed_decimal (number_of count)) }
{
    match count {
        Some(count) => text.extend_from_slice(Buffer::new().format(count).as_bytes())?,
        None => text.extend_from_slice(b"-1")?,
    }
    Ok(())
}
