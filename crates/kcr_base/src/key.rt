//! Keys of commands.
ghost use Rattle.std.specs.Prelude.{◌≡◌, ℕ, List, Some, SomeIff};
ghost use Rattle.kcr_base.specs.Key.{IsKey};

use crate::code::Code;
use std::marker::Model;

/// The key of a command: one to forty letters, digits and dashes, all ASCII.
#[derive(Clone, Copy, PartialEq, Eq, Hash)]
pub struct Key {
    code: Code<40>,
}

impl Model for Key {
    ghost use Rattle.std.specs.Prelude.{ℕ, List};
    ghost use Rattle.kcr_base.specs.Key.{IsKey};

    ghost Value = { List ℕ };

    ghost view = { λ s. s.code };

    ghost invariant = { λ s. IsKey s.code };

    ghost inverse = { λ bytes. record { code = bytes } };
}

impl Key {
    /// The key that these bytes are, or `None` if they are none.
    pub fn read(bytes: &[u8]) -> Option<Key>
        ensures { SomeIff result (IsKey bytes.now) bytes.now }
    {
        if bytes.is_empty() || bytes.len() > 40 {
            return None;
        }
        if !bytes
            .iter()
            .all(|b| b.is_ascii_alphanumeric() || *b == b'-')
        {
            return None;
        }
        Some(Key {
            code: Code::new(bytes),
        })
    }

    /// The bytes of its text.
    pub fn as_bytes(&self) -> &[u8]
        ensures value { result.now ≡ self.now }
        ensures form { IsKey self.now }
    {
        self.code.as_bytes()
    }

    /// Its text.
    pub fn as_str(&self) -> &str
        ensures value { result.now ≡ self.now }
        ensures form { IsKey self.now }
    {
        self.code.as_str()
    }
}
