//! Values that have one written text each.
#![tactic(auto, using(crate::proofs::FormLemmas::form_readings, crate::proofs::FormLemmas::own_readings, crate::proofs::ValueLemmas::value_readings))]

ghost use Rattle.std.specs.Prelude.{⊤, ◌≡◌, ℕ, Bool, true, false, List, Option, IfOk, OnErr, IsTrue, IsUtf8};
ghost use Rattle.kcr_base.specs.{Day.IsDay, Day.day_text, Key.IsKey, Line.IsLine, Facility.facility_text, Initials.IsInitials};
ghost use Rattle.kcr_base.specs.Forms.{initials_of, key_of, serial_of, line_of, script_of, day_of, moment_of, facility_of, role_of, place_of};
ghost use Rattle.kcr_base.specs.{Moment.IsMoment, Moment.moment_text, Role.role_text, Serial.IsSerial};
ghost use Rattle.kcr_base.specs.{Place.IsPlace, Place.place_text, Reads.HasText, Reads.ReadsText};

use crate::day::Day;
use crate::initials::Initials;
use crate::key::Key;
use crate::line::Line;
use crate::moment::Moment;
use crate::place::{Facility, Place, Role};
use crate::serial::Tag;
use crate::text::Text;
use std::alloc::{AllocError, Global};

/// A value that has one written text.
pub trait Written {
    /// What is known of each value.
    ghost is_value: { Self → Type 0 };

    /// The text of a value.
    ghost text: { Self → List ℕ };

    /// The value that a text is.
    ghost form: { List ℕ → Option Self };

    /// Whether a value takes memory.
    ghost allocates: { Bool };

    /// The value with this text, or `None` if there is none. The error is out of memory.
    fn from_text(alloc: Global, bytes: &[u8]) -> Result<Option<Self>, AllocError>
        ensures form { IfOk result (λ value. value ≡ form bytes.now) }
        ensures found { IfOk result (HasText is_value text bytes.now) }
        ensures only { IfOk result (ReadsText is_value text bytes.now) }
        ensures memory { OnErr result (IsTrue allocates) };
}

impl Written for Initials {
    ghost is_value = { IsInitials };

    ghost text = { λ v. v };

    ghost form = { initials_of };

    ghost allocates = { false };

    fn from_text(_alloc: Global, bytes: &[u8]) -> Result<Option<Self>, AllocError> {
        Ok(Initials::read(bytes))
    }
}

impl Written for Key {
    ghost is_value = { IsKey };

    ghost text = { λ v. v };

    ghost form = { key_of };

    ghost allocates = { false };

    fn from_text(_alloc: Global, bytes: &[u8]) -> Result<Option<Self>, AllocError> {
        Ok(Key::read(bytes))
    }
}

impl<K> Written for Tag<K> {
    ghost is_value = { IsSerial };

    ghost text = { λ v. v };

    ghost form = { serial_of };

    ghost allocates = { false };

    fn from_text(_alloc: Global, bytes: &[u8]) -> Result<Option<Self>, AllocError> {
        Ok(Tag::read(bytes))
    }
}

impl<const LIMIT: usize> Written for Line<LIMIT> {
    ghost is_value = { IsLine LIMIT };

    ghost text = { λ v. v };

    ghost form = { line_of LIMIT };

    ghost allocates = { true };

    fn from_text(alloc: Global, bytes: &[u8]) -> Result<Option<Self>, AllocError> {
        Line::read(alloc, bytes)
    }
}

impl Written for Text {
    ghost is_value = { IsUtf8 };

    ghost text = { λ v. v };

    ghost form = { script_of };

    ghost allocates = { true };

    fn from_text(alloc: Global, bytes: &[u8]) -> Result<Option<Self>, AllocError> {
        Text::read(alloc, bytes)
    }
}

impl Written for Day {
    ghost is_value = { IsDay };

    ghost text = { day_text };

    ghost form = { day_of };

    ghost allocates = { false };

    fn from_text(_alloc: Global, bytes: &[u8]) -> Result<Option<Self>, AllocError> {
        Ok(Day::read(bytes))
    }
}

impl Written for Moment {
    ghost is_value = { IsMoment };

    ghost text = { moment_text };

    ghost form = { moment_of };

    ghost allocates = { false };

    fn from_text(_alloc: Global, bytes: &[u8]) -> Result<Option<Self>, AllocError> {
        Ok(Moment::read(bytes))
    }
}

impl Written for Place {
    ghost is_value = { IsPlace };

    ghost text = { place_text };

    ghost form = { place_of };

    ghost allocates = { false };

    fn from_text(_alloc: Global, bytes: &[u8]) -> Result<Option<Self>, AllocError> {
        Ok(Place::read(bytes))
    }
}

impl Written for Facility {
    ghost is_value = { λ _. ⊤ };

    ghost text = { facility_text };

    ghost form = { facility_of };

    ghost allocates = { false };

    fn from_text(_alloc: Global, bytes: &[u8]) -> Result<Option<Self>, AllocError> {
        Ok(Facility::read(bytes))
    }
}

impl Written for Role {
    ghost is_value = { λ _. ⊤ };

    ghost text = { role_text };

    ghost form = { role_of };

    ghost allocates = { false };

    fn from_text(_alloc: Global, bytes: &[u8]) -> Result<Option<Self>, AllocError> {
        Ok(Role::read(bytes))
    }
}
