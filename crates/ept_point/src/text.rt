//! A text that contracts see as the list of its bytes.

ghost use Rattle.std.specs.Prelude.{◌≡◌, string_bytes};

use std::marker::Model;

/// A text that owns its bytes. Contracts see its UTF-8 bytes in order.
#[derive(Debug, Drop)]
pub struct Text {
    text: String,
}

impl Model for Text {
    ghost use Rattle.std.specs.Prelude.{List, ℕ, string_bytes};

    ghost Value = { List ℕ };

    ghost view = { λ t. string_bytes t.text };
}

impl Text {
    /// The text of this string. It takes no memory.
    pub fn of(text: String) -> Text
        ensures { result ≡ string_bytes text }
    {
        Text { text }
    }

    /// The text as a string slice.
    pub fn as_str(&self) -> &str
        ensures { result.now ≡ self.now }
    {
        self.text.as_str()
    }

    /// Returns the string. It takes no memory.
    pub fn into_string(self) -> String
        ensures { string_bytes result ≡ self }
    {
        self.text
    }
}
