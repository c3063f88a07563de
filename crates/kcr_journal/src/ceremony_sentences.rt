//! The sentences of what happens to a ceremony: its plan, its room, its steps and exceptions.
ghost use Rattle.std.specs.Prelude.{◌≡◌, ◌++◌, OnOk};
ghost use Rattle.kcr_journal.specs.Sentences as said;

use crate::texts::push_texts;
use itoa::Buffer;
use kcr_base::{CeremonyNumber, Day, Facility, Remark, StepNumber};
use kcr_room::Way;
use std::alloc::AllocError;

/// Adds that a ceremony was planned.
pub(crate) fn push_planned(
    out: &mut Vec<u8>,
    ceremony: CeremonyNumber,
    facility: Facility,
    day: Day,
) -> Result<(), AllocError>
    ensures { OnOk result (out.new.items ≡ out.old.items ++ said.planned ceremony facility day) }
{
    let mut number = Buffer::new();
    let day = day.code();
    push_texts(
        out,
        &[
            "Ceremony ",
            number.format(ceremony.get()),
            " was planned at ",
            facility.text(),
            " for ",
            day.as_str(),
            ".",
        ],
    )
}

/// Adds that a ceremony was opened.
pub(crate) fn push_opened(out: &mut Vec<u8>, ceremony: CeremonyNumber) -> Result<(), AllocError>
    ensures { OnOk result (out.new.items ≡ out.old.items ++ said.opened ceremony) }
{
    let mut number = Buffer::new();
    push_texts(
        out,
        &["Ceremony ", number.format(ceremony.get()), " was opened."],
    )
}

/// Adds that a ceremony was closed.
pub(crate) fn push_closed(out: &mut Vec<u8>, ceremony: CeremonyNumber) -> Result<(), AllocError>
    ensures { OnOk result (out.new.items ≡ out.old.items ++ said.closed ceremony) }
{
    let mut number = Buffer::new();
    push_texts(
        out,
        &["Ceremony ", number.format(ceremony.get()), " was closed."],
    )
}

/// What people do with the room.
fn way_words(way: Way) -> &'static str
    ensures { result.now ≡ said.way_words way }
{
    match way {
        Way::Enter => "entered",
        Way::Leave => "left",
    }
}

/// Adds that people entered the room of a ceremony, or left it.
pub(crate) fn push_moved(
    out: &mut Vec<u8>,
    ceremony: CeremonyNumber,
    way: Way,
    people: &str,
) -> Result<(), AllocError>
    ensures { OnOk result (out.new.items ≡ out.old.items ++ said.moved ceremony way people.now) }
{
    let mut number = Buffer::new();
    out.extend_from_slice(people.as_bytes())?;
    push_texts(
        out,
        &[
            " ",
            way_words(way),
            " the room of ceremony ",
            number.format(ceremony.get()),
            ".",
        ],
    )
}

/// Adds that a step was signed.
pub(crate) fn push_signed(
    out: &mut Vec<u8>,
    ceremony: CeremonyNumber,
    step: StepNumber,
    people: &str,
) -> Result<(), AllocError>
    ensures { OnOk result (out.new.items ≡ out.old.items ++ said.signed ceremony step people.now) }
{
    let mut number = Buffer::new();
    let mut step_number = Buffer::new();
    push_texts(
        out,
        &[
            "Step ",
            step_number.format(step.get()),
            " of ceremony ",
            number.format(ceremony.get()),
            " was signed by ",
            people,
            ".",
        ],
    )
}

/// Adds what an exception does beside: one that passes has its step, and who fills the seats.
fn push_passing(out: &mut Vec<u8>, pass: bool, step: &str, people: &str) -> Result<(), AllocError>
    ensures { OnOk result (out.new.items ≡ out.old.items ++ said.passing pass step.now people.now) }
{
    if pass {
        push_texts(out, &[" passed step ", step, " with ", people])
    } else {
        Ok(())
    }
}

/// Adds an exception with this number.
pub(crate) fn push_stated(
    out: &mut Vec<u8>,
    ceremony: CeremonyNumber,
    text: &Remark,
    pass: bool,
    people: &str,
    number: &str,
    step: &str,
) -> Result<(), AllocError>
    ensures { OnOk result (out.new.items ≡ out.old.items
        ++ said.stated ceremony text.now pass people.now number.now step.now) }
{
    let mut digits = Buffer::new();
    push_texts(
        out,
        &[
            "Exception ",
            number,
            " of ceremony ",
            digits.format(ceremony.get()),
        ],
    )?;
    push_passing(out, pass, step, people)?;
    push_texts(out, &[": ", text.as_str()])
}
