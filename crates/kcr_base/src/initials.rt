//! A person's code.
ghost use Rattle.std.specs.Prelude.{◌≡◌, ℕ, List, Some, SomeIff};
ghost use Rattle.kcr_base.specs.Initials.{IsInitials};

use crate::code::Code;
use std::marker::Model;

/// A person's code: two to four capital letters A to Z. Their order is that of the bytes.
#[derive(Clone, Copy, PartialEq, Eq, PartialOrd, Ord, Hash)]
pub struct Initials {
    code: Code<4>,
}

impl Model for Initials {
    ghost use Rattle.std.specs.Prelude.{ℕ, List};
    ghost use Rattle.kcr_base.specs.Initials.{IsInitials};

    ghost Value = { List ℕ };

    ghost view = { λ s. s.code };

    ghost invariant = { λ s. IsInitials s.code };

    ghost inverse = { λ bytes. record { code = bytes } };
}

impl Initials {
    /// The initials that these bytes are, or `None` if they are none.
    pub fn read(bytes: &[u8]) -> Option<Initials>
        ensures { SomeIff result (IsInitials bytes.now) bytes.now }
    {
        if bytes.len() < 2 || bytes.len() > 4 || !bytes.iter().all(|b| b.is_ascii_uppercase()) {
            return None;
        }
        Some(Initials {
            code: Code::new(bytes),
        })
    }

    /// The bytes of its text.
    pub fn as_bytes(&self) -> &[u8]
        ensures value { result.now ≡ self.now }
        ensures form { IsInitials self.now }
    {
        self.code.as_bytes()
    }

    /// Its text.
    pub fn as_str(&self) -> &str
        ensures value { result.now ≡ self.now }
        ensures form { IsInitials self.now }
    {
        self.code.as_str()
    }
}
