//! The parts in braces of a path, as values.
#![tactic(auto, using(kcr_base::proofs::FormLemmas::form_readings, kcr_base::proofs::ValueLemmas::value_readings))]

ghost use Rattle.std.specs.Prelude.{◌≡◌, ℕ, List, Option, option_map};
ghost use Rattle.matchit.specs.Params.{AllText, named};
ghost use Rattle.kcr_forms.specs.Forms.{initials_of, place_of, number_of, serial_of, day_of, moment_of, safe_of};
ghost use Rattle.kcr_wire.specs.Endpoints.{parts_of, part_as, after_of};

use crate::after::After;
use kcr_base::number::{Number, Numbered};
use kcr_base::{Day, Initials, Moment, Place, Serial};
use kcr_custody::SafeNumber;
use matchit::Params;

// A value whose text is a part of a path.
pub(crate) trait PathPart: Sized {
    // The value with this text.
    ghost form: { List ℕ → Option Self };

    // The value with this text, or `None` if there is none.
    fn read(text: &[u8]) -> Option<Self>
        ensures { result ≡ form text.now };
}

impl PathPart for Initials {
    ghost form = { initials_of };

    fn read(text: &[u8]) -> Option<Self> {
        Initials::read(text)
    }
}

impl PathPart for Place {
    ghost form = { place_of };

    fn read(text: &[u8]) -> Option<Self> {
        Place::read(text)
    }
}

impl<K: Numbered> PathPart for Number<K> {
    ghost form = { number_of K.limit };

    fn read(text: &[u8]) -> Option<Self> {
        Number::read(text)
    }
}

impl PathPart for Serial {
    ghost form = { serial_of };

    fn read(text: &[u8]) -> Option<Self> {
        Serial::read(text)
    }
}

impl PathPart for SafeNumber {
    ghost form = { safe_of };

    #[tactic(auto, unfolding(kcr_forms::specs::Forms::safe_of))]
    fn read(text: &[u8]) -> Option<Self> {
        match text {
            b"1" => Some(SafeNumber::One),
            b"2" => Some(SafeNumber::Two),
            _ => None,
        }
    }
}

impl PathPart for Day {
    ghost form = { day_of };

    fn read(text: &[u8]) -> Option<Self> {
        Day::read(text)
    }
}

impl PathPart for Moment {
    ghost form = { moment_of };

    fn read(text: &[u8]) -> Option<Self> {
        Moment::read(text)
    }
}

impl PathPart for After {
    ghost form = { after_of };

    fn read(text: &[u8]) -> Option<Self> {
        After::read(text)
    }
}

// The part of a path with this name.
fn part<'p>(parts: &Params<'_, 'p>, name: &str) -> Option<&'p [u8]>
    requires { AllText (parts_of parts.now) }
    ensures { option_map (λ part. part.now) result ≡ named name.now (parts_of parts.now) }
{
    Some(parts.get(name)?.as_bytes())
}

// The value of the part of a path with this name, or `None` if the part is not of its form.
pub(crate) fn in_path<P: PathPart>(parts: &Params<'_, '_>, name: &str) -> Option<P>
    requires { AllText (parts_of parts.now) }
    ensures { result ≡ part_as P.form name.now (parts_of parts.now) }
{
    P::read(part(parts, name)?)
}
