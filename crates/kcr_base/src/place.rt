//! Facilities, the roles of staff, and the places of custodians.
ghost use Rattle.std.specs.Prelude.{⊤, codes, ◌<◌, ◌≡◌, ◌≢◌, ℕ, ◌+◌, ◌≤◌, List, [], ◌∷◌, ◌++◌, Some, SomeIff, MatchOption};
ghost use Rattle.kcr_base.specs.{Facility.facility_text, Role.role_text, Reads.HasText, Reads.ReadsText};
ghost use Rattle.kcr_base.specs.Place.{IsPlaceNumber, IsPlace, place_text};

use crate::code::Code;
use std::marker::Model;

/// A key management facility: East is Culpeper, Virginia, and West is El Segundo, California.
#[derive(Clone, Copy, PartialEq, Eq)]
pub enum Facility {
    East,
    West,
}

/// A role of the operator's staff: Ceremony Administrator, Internal Witness, System Administrator, the Safe Security
/// Controllers of the two safes, operations security, and Staff Witness.
#[derive(Clone, Copy, PartialEq, Eq)]
pub enum Role {
    Ca,
    Iw,
    Sa,
    Ssc1,
    Ssc2,
    Rkos,
    Sw,
}

/// The number of a place among those of its kind, from 1 to 7.
#[derive(Clone, Copy, PartialEq, Eq)]
pub struct PlaceNumber {
    number: u8,
}

impl Model for PlaceNumber {
    ghost use Rattle.std.specs.Prelude.{ℕ, ◌≤◌};

    ghost Value = { ℕ };

    ghost view = { λ s. s.number };

    ghost invariant = { λ s. (1 ≤ s.number) × (s.number ≤ 7) };

    ghost inverse = { λ n. record { number = n } };
}

/// A custodian's place: that of a Crypto Officer at a facility, or that of a Recovery Key Share Holder. The order is
/// CO-EAST-1 to 7, CO-WEST-1 to 7, RKSH-1 to 7.
#[derive(Clone, Copy, PartialEq, Eq)]
pub enum Place {
    Co(Facility, PlaceNumber),
    Rksh(PlaceNumber),
}

/// What stands behind `front`, if the bytes begin with it, else None.
pub fn strip_prefix<'a>(bytes: &'a [u8], front: &[u8]) -> Option<&'a [u8]>
    ensures { MatchOption result
        ((rest : List ℕ) → bytes.now ≢ front.now ++ rest) (λ rest. bytes.now ≡ front.now ++ rest.now) }
{
    bytes.strip_prefix(front)
}

impl PlaceNumber {
    /// The number, if it is 1 to 7, else None.
    pub fn new(number: u8) -> Option<PlaceNumber>
        ensures { SomeIff result (IsPlaceNumber number) number }
    {
        if (1..=7).contains(&number) {
            Some(PlaceNumber { number })
        } else {
            None
        }
    }

    /// The number with this one digit, or `None` if the bytes are no digit of 1 to 7.
    pub fn read(bytes: &[u8]) -> Option<PlaceNumber>
        ensures found { HasText IsPlaceNumber (λ n. (48 + n) ∷ []) bytes.now result }
        ensures only { ReadsText IsPlaceNumber (λ n. (48 + n) ∷ []) bytes.now result }
    {
        match bytes {
            [b @ b'1'..=b'7'] => Some(PlaceNumber { number: *b - b'0' }),
            _ => None,
        }
    }

    /// The number.
    pub fn get(self) -> u8
        ensures value { result ≡ self }
        ensures form { IsPlaceNumber self }
    {
        self.number
    }
}

impl Facility {
    /// The facility with this text, or `None` if there is none.
    pub fn read(bytes: &[u8]) -> Option<Facility>
        ensures found { HasText (λ _. ⊤) facility_text bytes.now result }
        ensures only { ReadsText (λ _. ⊤) facility_text bytes.now result }
    {
        match bytes {
            b"EAST" => Some(Facility::East),
            b"WEST" => Some(Facility::West),
            _ => None,
        }
    }

    /// Its text, `EAST` or `WEST`.
    pub fn text(self) -> &'static str
        ensures { result.now ≡ facility_text self }
    {
        match self {
            Facility::East => "EAST",
            Facility::West => "WEST",
        }
    }
}

impl Role {
    /// The role with this text, or `None` if there is none.
    pub fn read(bytes: &[u8]) -> Option<Role>
        ensures found { HasText (λ _. ⊤) role_text bytes.now result }
        ensures only { ReadsText (λ _. ⊤) role_text bytes.now result }
    {
        match bytes {
            b"CA" => Some(Role::Ca),
            b"IW" => Some(Role::Iw),
            b"SA" => Some(Role::Sa),
            b"SSC1" => Some(Role::Ssc1),
            b"SSC2" => Some(Role::Ssc2),
            b"RKOS" => Some(Role::Rkos),
            b"SW" => Some(Role::Sw),
            _ => None,
        }
    }

    /// Its text, `CA`, `IW`, `SA`, `SSC1`, `SSC2`, `RKOS` or `SW`.
    pub fn text(self) -> &'static str
        ensures { result.now ≡ role_text self }
    {
        match self {
            Role::Ca => "CA",
            Role::Iw => "IW",
            Role::Sa => "SA",
            Role::Ssc1 => "SSC1",
            Role::Ssc2 => "SSC2",
            Role::Rkos => "RKOS",
            Role::Sw => "SW",
        }
    }
}

impl Place {
    /// The place with this text, or `None` if there is none.
    pub fn read(bytes: &[u8]) -> Option<Place>
        ensures found { HasText IsPlace place_text bytes.now result }
        ensures only { ReadsText IsPlace place_text bytes.now result }
    {
        if let Some(rest) = strip_prefix(bytes, b"CO-EAST-") {
            return Some(Place::Co(Facility::East, PlaceNumber::read(rest)?));
        }
        if let Some(rest) = strip_prefix(bytes, b"CO-WEST-") {
            return Some(Place::Co(Facility::West, PlaceNumber::read(rest)?));
        }
        if let Some(rest) = strip_prefix(bytes, b"RKSH-") {
            return Some(Place::Rksh(PlaceNumber::read(rest)?));
        }
        None
    }

    /// Its text, `CO-EAST-n`, `CO-WEST-n` or `RKSH-n`, which takes no memory.
    pub fn text(self) -> Code<9>
        ensures { result ≡ place_text self }
    {
        match self {
            Place::Co(facility, number) => officer_text(facility, b'0' + number.get()),
            Place::Rksh(number) => Code::new(&[b'R', b'K', b'S', b'H', b'-', b'0' + number.get()]),
        }
    }
}

/// The text of a Crypto Officer's place with this digit.
fn officer_text(facility: Facility, digit: u8) -> Code<9>
    requires { digit < 128 }
    ensures { result ≡ codes "CO-" ++ facility_text facility ++ codes "-" ++ digit ∷ [] }
{
    match facility {
        Facility::East => Code::new(&[b'C', b'O', b'-', b'E', b'A', b'S', b'T', b'-', digit]),
        Facility::West => Code::new(&[b'C', b'O', b'-', b'W', b'E', b'S', b'T', b'-', digit]),
    }
}
