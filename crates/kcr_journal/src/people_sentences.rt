//! The sentences of acts on people, on places and on boxes.
ghost use Rattle.std.specs.Prelude.{◌≡◌, ◌++◌, OnOk};
ghost use Rattle.kcr_journal.specs.Sentences as said;

use crate::texts::push_texts;
use itoa::Buffer;
use kcr_base::{BoxNumber, Day, Facility, Place, Role};
use std::alloc::AllocError;

/// Adds that a person was entered.
pub(crate) fn push_entered(out: &mut Vec<u8>, people: &str) -> Result<(), AllocError>
    ensures { OnOk result (out.new.items ≡ out.old.items ++ said.entered people.now) }
{
    out.extend_from_slice(people.as_bytes())?;
    out.extend_from_slice(b" was entered.")
}

/// Adds that a person is trained for a role.
pub(crate) fn push_trained(
    out: &mut Vec<u8>,
    people: &str,
    role: Role,
    since: Day,
    until: Day,
) -> Result<(), AllocError>
    ensures { OnOk result (out.new.items ≡ out.old.items ++ said.trained people.now role since until) }
{
    let since = since.code();
    let until = until.code();
    out.extend_from_slice(people.as_bytes())?;
    push_texts(
        out,
        &[
            " is trained as ",
            role.text(),
            " from ",
            since.as_str(),
            " until ",
            until.as_str(),
            ".",
        ],
    )
}

/// Adds that the trainings of a person for a role were withdrawn.
pub(crate) fn push_withdrawn(
    out: &mut Vec<u8>,
    people: &str,
    role: Role,
    day: Day,
) -> Result<(), AllocError>
    ensures { OnOk result (out.new.items ≡ out.old.items ++ said.withdrawn people.now role day) }
{
    let day = day.code();
    out.extend_from_slice(people.as_bytes())?;
    push_texts(
        out,
        &[
            " is no longer trained as ",
            role.text(),
            " from ",
            day.as_str(),
            " on.",
        ],
    )
}

/// Adds that a person holds a place.
pub(crate) fn push_appointed(
    out: &mut Vec<u8>,
    place: Place,
    people: &str,
    day: Day,
) -> Result<(), AllocError>
    ensures { OnOk result (out.new.items ≡ out.old.items ++ said.appointed place people.now day) }
{
    let place = place.text();
    let day = day.code();
    out.extend_from_slice(people.as_bytes())?;
    push_texts(
        out,
        &[" holds ", place.as_str(), " from ", day.as_str(), " on."],
    )
}

/// Adds that a person holds a place that somebody else held.
pub(crate) fn push_replaced(
    out: &mut Vec<u8>,
    place: Place,
    people: &str,
    day: Day,
) -> Result<(), AllocError>
    ensures { OnOk result (out.new.items ≡ out.old.items ++ said.replaced place people.now day) }
{
    let place = place.text();
    let day = day.code();
    out.extend_from_slice(people.as_bytes())?;
    push_texts(
        out,
        &[
            " takes over ",
            place.as_str(),
            " from ",
            day.as_str(),
            " on.",
        ],
    )
}

/// Adds that a place is vacant.
pub(crate) fn push_released(out: &mut Vec<u8>, place: Place, day: Day) -> Result<(), AllocError>
    ensures { OnOk result (out.new.items ≡ out.old.items ++ said.released place day) }
{
    let place = place.text();
    let day = day.code();
    push_texts(
        out,
        &[place.as_str(), " is vacant from ", day.as_str(), " on."],
    )
}

/// Adds that a facility has one more box.
pub(crate) fn push_box_added(
    out: &mut Vec<u8>,
    facility: Facility,
    number: BoxNumber,
    place: Place,
) -> Result<(), AllocError>
    ensures { OnOk result (out.new.items ≡ out.old.items ++ said.box_added facility number place) }
{
    let mut digits = Buffer::new();
    let place = place.text();
    push_texts(
        out,
        &[
            "Box ",
            digits.format(number.get()),
            " at ",
            facility.text(),
            " was added for ",
            place.as_str(),
            ".",
        ],
    )
}
