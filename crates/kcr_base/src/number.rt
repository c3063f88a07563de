//! The numbers of ceremonies, boxes and steps, counted from 1, and their texts in decimal.
ghost use Rattle.std.specs.Prelude.{◌≡◌, ◌↔◌, ℕ, ◌<◌, ◌^◌, IsTrue, IfSome, Some, SomeIff};
ghost use Rattle.std.specs.Fmt.{decimal};
ghost use Rattle.std.proofs.Common.{arith};
ghost use Rattle.kcr_base.specs.declared.limits.TheConstants.{MAX_BOX, MAX_CEREMONY, MAX_STEPS};
ghost use Rattle.kcr_base.specs.Number.{IsNumber, IsNumberText};

use crate::limits::{MAX_BOX, MAX_CEREMONY, MAX_STEPS};
use std::marker::{Model, PhantomData};
use std::str;

/// The number of a ceremony, from 1 to `MAX_CEREMONY`.
pub type CeremonyNumber = Number<OfCeremony>;

/// The number of a box in safe 2 of its facility, from 1 to `MAX_BOX`.
pub type BoxNumber = Number<OfBox>;

/// The number of a step in its ceremony's script, from 1 to `MAX_STEPS`.
pub type StepNumber = Number<OfStep>;

/// What is numbered, from 1 up to a greatest number.
pub trait Numbered {
    /// The greatest number.
    ghost limit: { ℕ };

    /// The greatest number.
    fn limit() -> u32
        ensures { result ≡ limit };

    // It is one of 32 bits.
    ghost fits: { limit < 2 ^ 32 };
}

/// That a number is a ceremony's.
#[derive(Clone, Copy, PartialEq, Eq)]
pub struct OfCeremony;

impl Numbered for OfCeremony {
    ghost limit = { MAX_CEREMONY };

    fn limit() -> u32 {
        MAX_CEREMONY
    }

    ghost fits = { omega arith };
}

/// That a number is a box's.
#[derive(Clone, Copy, PartialEq, Eq)]
pub struct OfBox;

impl Numbered for OfBox {
    ghost limit = { MAX_BOX };

    fn limit() -> u32 {
        MAX_BOX
    }

    ghost fits = { omega arith };
}

/// That a number is a step's.
#[derive(Clone, Copy, PartialEq, Eq)]
pub struct OfStep;

impl Numbered for OfStep {
    ghost limit = { MAX_STEPS };

    fn limit() -> u32 {
        MAX_STEPS
    }

    ghost fits = { omega arith };
}

/// The number of one of its kind, `K`, from 1 to the greatest.
#[derive(Clone, Copy, PartialEq, Eq)]
pub struct Number<K: Numbered> {
    number: u32,
    of: PhantomData<K>,
}

impl<K: Numbered> Model for Number<K> {
    ghost use Rattle.std.specs.Prelude.{ℕ};
    ghost use Rattle.kcr_base.specs.Number.{IsNumber};

    ghost Value = { ℕ };

    ghost view = { λ s. s.number };

    ghost invariant = { λ s. IsNumber K.limit s.number };

    ghost inverse = { λ n. record { number = n; of = record {} } };
}

impl<K: Numbered> Number<K> {
    /// The number, or `None` if it is not of 1 to the greatest.
    pub fn new(number: u32) -> Option<Self>
        ensures { SomeIff result (IsNumber K.limit number) number }
    {
        if is_number(K::limit(), number) {
            Some(Number {
                number,
                of: PhantomData,
            })
        } else {
            None
        }
    }

    /// The number that these bytes are in decimal, without sign or leading zeros, or `None` if they are none.
    pub fn read(bytes: &[u8]) -> Option<Self>
        ensures found { IfSome result (IsNumberText K.limit bytes.now) }
        ensures only { (n : ℕ) → IsNumberText K.limit bytes.now n → result ≡ Some n }
    {
        Number::new(read_number(bytes)?)
    }

    /// As a number.
    pub fn get(self) -> u32
        ensures value { result ≡ self }
        ensures range { IsNumber K.limit self }
    {
        self.number
    }
}

/// Whether the number is of 1 to `limit`.
fn is_number(limit: u32, number: u32) -> bool
    ensures { IsTrue result ↔ IsNumber limit number }
{
    number >= 1 && number <= limit
}

/// Whether the bytes are the decimal text of the number.
fn is_decimal(bytes: &[u8], number: u32) -> bool
    ensures { IsTrue result ↔ (bytes.now ≡ decimal number) }
{
    let mut buffer = itoa::Buffer::new();
    let text = buffer.format(number);
    bytes == text.as_bytes()
}

/// The number below 2^32 that the bytes are in decimal, without sign or leading zeros, or `None` if they are none.
pub fn read_number(bytes: &[u8]) -> Option<u32>
    ensures found { IfSome result (λ n. decimal n ≡ bytes.now) }
    ensures only { (n : ℕ) → n < 2 ^ 32 → decimal n ≡ bytes.now → result ≡ Some n }
{
    let text = match str::from_utf8(bytes) {
        Ok(text) => text,
        Err(_) => return None,
    };
    let number = match text.parse::<u32>() {
        Ok(number) => number,
        Err(_) => return None,
    };
    if !is_decimal(bytes, number) {
        return None;
    }
    Some(number)
}
