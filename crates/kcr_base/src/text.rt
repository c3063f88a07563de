//! Texts of any length.
ghost use Rattle.std.specs.Prelude.{◌≡◌, ℕ, List, IfOk, IsUtf8, SomeIff, Some, nat_eq, string_bytes};
ghost use Rattle.std.specs.Cmp.{partial_equiv_from_equiv, Lexicographic.pointwise, Lexicographic.nat_list_eq_equiv};

use std::alloc::{AllocError, Global};
use std::marker::Model;
use std::str;

/// A text of any length in UTF-8, as a script file, a command's text or a reply. Clauses see its bytes.
#[derive(Drop)]
pub struct Text {
    text: String,
}

impl Model for Text {
    ghost use Rattle.std.specs.Prelude.{ℕ, List, string_bytes};

    ghost Value = { List ℕ };

    ghost view = { λ s. string_bytes s.text };
}

impl Text {
    /// The text of this string.
    pub fn from_string(text: String) -> Text
        ensures { result ≡ string_bytes text }
    {
        Text { text }
    }

    /// A copy of this text. The error is out of memory.
    pub fn copy_of(alloc: Global, text: &str) -> Result<Text, AllocError>
        ensures { IfOk result (λ copy. copy ≡ text.now) }
    {
        Ok(Text {
            text: String::from_str(alloc, text)?,
        })
    }

    /// The text that these bytes are, or `None` if they are no UTF-8. The error is out of memory.
    pub fn read(alloc: Global, bytes: &[u8]) -> Result<Option<Text>, AllocError>
        ensures { IfOk result (λ found. SomeIff found (IsUtf8 bytes.now) bytes.now) }
    {
        match str::from_utf8(bytes) {
            Ok(text) => Ok(Some(Text::copy_of(alloc, text)?)),
            Err(_) => Ok(None),
        }
    }

    /// Its text.
    pub fn as_str(&self) -> &str
        ensures { result.now ≡ self.now }
    {
        self.text.as_str()
    }

    /// The bytes of its text.
    pub fn as_bytes(&self) -> &[u8]
        ensures { result.now ≡ self.now }
    {
        self.text.as_bytes()
    }
}

impl Clone for Text {
    ghost is_clone = { λ a b. b ≡ a };

    fn clone(&self) -> Result<Self, AllocError> {
        Ok(Text {
            text: self.text.clone()?,
        })
    }
}

impl PartialEq for Text {
    ghost eq = { pointwise nat_eq };

    ghost laws = { partial_equiv_from_equiv nat_list_eq_equiv };

    fn eq(&self, other: &Self) -> bool {
        self.text.as_str() == other.text.as_str()
    }
}

impl Eq for Text {
    ghost laws = { nat_list_eq_equiv };
}
