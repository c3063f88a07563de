//! Lines of text: names, activities and remarks.
ghost use Rattle.std.specs.Prelude.{◌≡◌, ℕ, List, Some, SomeIff, IfOk, nat_eq, string_bytes};
ghost use Rattle.std.specs.Cmp.{partial_equiv_from_equiv, Lexicographic.pointwise, Lexicographic.nat_list_eq_equiv};
ghost use Rattle.kcr_base.specs.Line.{IsLine};

use crate::limits::MAX_REMARK;
use std::alloc::{AllocError, Global};
use std::marker::Model;
use std::str;

/// A person's name: 1 to 120 bytes.
pub type Name = Line<120>;

/// What a step of a script does: 1 to 500 bytes.
pub type Activity = Line<500>;

/// What a script exception says: 1 to `MAX_REMARK` bytes.
pub type Remark = Line<MAX_REMARK>;

/// 1 to `LIMIT` bytes of UTF-8 with no character below U+0020 and no U+007F. Clauses see the bytes.
#[derive(Drop)]
pub struct Line<const LIMIT: usize> {
    text: String,
}

impl<const LIMIT: usize> Model for Line<LIMIT> {
    ghost use Rattle.std.specs.Prelude.{ℕ, List, string_bytes};
    ghost use Rattle.kcr_base.specs.Line.{IsLine};

    ghost Value = { List ℕ };

    ghost view = { λ s. string_bytes s.text };

    ghost invariant = { λ s. IsLine LIMIT (string_bytes s.text) };
}

impl<const LIMIT: usize> Line<LIMIT> {
    /// The line that these bytes are, or `None` if they are none. The error is out of memory.
    pub fn read(alloc: Global, bytes: &[u8]) -> Result<Option<Self>, AllocError>
        ensures { IfOk result (λ found. SomeIff found (IsLine LIMIT bytes.now) bytes.now) }
    {
        if bytes.is_empty() || bytes.len() > LIMIT {
            return Ok(None);
        }
        if !bytes.iter().all(|b| *b >= 32 && *b != 127) {
            return Ok(None);
        }
        match str::from_utf8(bytes) {
            Ok(text) => Ok(Some(Line {
                text: String::from_str(alloc, text)?,
            })),
            Err(_) => Ok(None),
        }
    }

    /// Its text.
    pub fn as_str(&self) -> &str
        ensures value { result.now ≡ self.now }
        ensures form { IsLine LIMIT self.now }
    {
        self.text.as_str()
    }
}

impl<const LIMIT: usize> Clone for Line<LIMIT> {
    ghost is_clone = { λ a b. b ≡ a };

    fn clone(&self) -> Result<Self, AllocError> {
        Ok(Line {
            text: self.text.clone()?,
        })
    }
}

impl<const LIMIT: usize> PartialEq for Line<LIMIT> {
    ghost eq = { pointwise nat_eq };

    ghost laws = { partial_equiv_from_equiv nat_list_eq_equiv };

    fn eq(&self, other: &Self) -> bool {
        self.text.as_str() == other.text.as_str()
    }
}

impl<const LIMIT: usize> Eq for Line<LIMIT> {
    ghost laws = { nat_list_eq_equiv };
}
