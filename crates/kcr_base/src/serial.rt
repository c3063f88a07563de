//! Serials of bags and codes of items.
ghost use Rattle.std.specs.Prelude.{◌≡◌, ◌↔◌, IsTrue, ℕ, List, Some, SomeIff};
ghost use Rattle.kcr_base.specs.Serial.{IsSerial};

use crate::code::Code;
use std::marker::{Model, PhantomData};

/// The serial of a tamper-evident bag.
pub type Serial = Tag<OfBag>;

/// The code of an item.
pub type ItemCode = Tag<OfItem>;

/// That a tag is a bag's.
#[derive(Clone, Copy, PartialEq, Eq)]
pub struct OfBag;

/// That a tag is an item's.
#[derive(Clone, Copy, PartialEq, Eq)]
pub struct OfItem;

/// What tells one of its kind, `K`, from the others: four to sixteen capital letters and digits.
#[derive(Clone, Copy, PartialEq, Eq)]
pub struct Tag<K> {
    code: Code<16>,
    of: PhantomData<K>,
}

impl<K> Model for Tag<K> {
    ghost use Rattle.std.specs.Prelude.{ℕ, List};
    ghost use Rattle.kcr_base.specs.Serial.{IsSerial};

    ghost Value = { List ℕ };

    ghost view = { λ s. s.code };

    ghost invariant = { λ s. IsSerial s.code };

    ghost inverse = { λ bytes. record { code = bytes; of = record {} } };
}

impl<K> Tag<K> {
    /// The tag that these bytes are, or `None` if they are none.
    pub fn read(bytes: &[u8]) -> Option<Self>
        ensures { SomeIff result (IsSerial bytes.now) bytes.now }
    {
        if !is_serial(bytes) {
            return None;
        }
        Some(Tag {
            code: Code::new(bytes),
            of: PhantomData,
        })
    }

    /// The bytes of its text.
    pub fn as_bytes(&self) -> &[u8]
        ensures value { result.now ≡ self.now }
        ensures form { IsSerial self.now }
    {
        self.code.as_bytes()
    }

    /// Its text.
    pub fn as_str(&self) -> &str
        ensures value { result.now ≡ self.now }
        ensures form { IsSerial self.now }
    {
        self.code.as_str()
    }
}

/// Whether the bytes are four to sixteen capital letters and digits.
fn is_serial(bytes: &[u8]) -> bool
    ensures { IsTrue result ↔ IsSerial bytes.now }
{
    bytes.len() >= 4
        && bytes.len() <= 16
        && bytes
            .iter()
            .all(|b| b.is_ascii_uppercase() || b.is_ascii_digit())
}
