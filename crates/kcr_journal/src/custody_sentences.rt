//! The sentences of what happens to safes, items and bags in a ceremony.
ghost use Rattle.std.specs.Prelude.{◌≡◌, ◌++◌, OnOk, IfOk, string_bytes};
ghost use Rattle.kcr_history.specs.Texts as texts;
ghost use Rattle.kcr_journal.specs.Sentences as said;

use crate::comma_lists::items_text;
use crate::texts::push_texts;
use itoa::Buffer;
use kcr_base::{CeremonyNumber, ItemCode, Items, Serial};
use kcr_custody::{Destination, SafeNumber};
use std::alloc::{AllocError, Global};

fn safe_text(safe: SafeNumber) -> &'static str
    ensures { result.now ≡ texts.safe_text safe }
{
    match safe {
        SafeNumber::One => "1",
        SafeNumber::Two => "2",
    }
}

/// What happens to a safe.
fn turned_word(is_open: bool) -> &'static str
    ensures { result.now ≡ said.turned_word is_open }
{
    if is_open { "opened" } else { "shut" }
}

/// Adds that a safe was opened or shut.
pub(crate) fn push_turned(
    out: &mut Vec<u8>,
    ceremony: CeremonyNumber,
    safe: SafeNumber,
    is_open: bool,
    people: &str,
) -> Result<(), AllocError>
    ensures { OnOk result (out.new.items ≡ out.old.items ++ said.turned ceremony safe is_open people.now) }
{
    let mut number = Buffer::new();
    out.extend_from_slice(people.as_bytes())?;
    push_texts(
        out,
        &[
            " ",
            turned_word(is_open),
            " safe ",
            safe_text(safe),
            " in ceremony ",
            number.format(ceremony.get()),
            ".",
        ],
    )
}

/// Adds that an item was added.
pub(crate) fn push_item_added(
    out: &mut Vec<u8>,
    ceremony: CeremonyNumber,
    item: ItemCode,
) -> Result<(), AllocError>
    ensures { OnOk result (out.new.items ≡ out.old.items ++ said.item_added ceremony item) }
{
    let mut number = Buffer::new();
    push_texts(
        out,
        &[
            "Item ",
            item.as_str(),
            " was added in ceremony ",
            number.format(ceremony.get()),
            ".",
        ],
    )
}

/// Adds that items were sealed into a bag.
pub(crate) fn push_sealed(
    alloc: Global,
    out: &mut Vec<u8>,
    ceremony: CeremonyNumber,
    serial: Serial,
    items: &Items,
) -> Result<(), AllocError>
    ensures { OnOk result (out.new.items ≡ out.old.items ++ said.sealed ceremony serial items.now) }
{
    let mut number = Buffer::new();
    let items = items_text(alloc, items.as_slice())?;
    push_texts(
        out,
        &[
            "Bag ",
            serial.as_str(),
            " was sealed with ",
            items.as_str(),
            " in ceremony ",
            number.format(ceremony.get()),
            ".",
        ],
    )
}

/// Adds that a bag was taken out of a safe.
pub(crate) fn push_taken(
    out: &mut Vec<u8>,
    ceremony: CeremonyNumber,
    serial: Serial,
) -> Result<(), AllocError>
    ensures { OnOk result (out.new.items ≡ out.old.items ++ said.taken ceremony serial) }
{
    let mut number = Buffer::new();
    push_texts(
        out,
        &[
            "Bag ",
            serial.as_str(),
            " was taken to the table in ceremony ",
            number.format(ceremony.get()),
            ".",
        ],
    )
}

/// Where a bag is put.
fn destination_text(alloc: Global, to: Destination) -> Result<String, AllocError>
    ensures { IfOk result (λ text. string_bytes text ≡ said.destination_text to) }
{
    match to {
        Destination::SafeOne => String::from_str(alloc, "safe 1"),
        Destination::DepositBox(number) => {
            let mut digits = Buffer::new();
            let mut text = String::from_str(alloc, "box ")?;
            text.push_str(digits.format(number.get()))?;
            Ok(text)
        }
    }
}

/// Adds that a bag was put into a safe.
pub(crate) fn push_put_away(
    alloc: Global,
    out: &mut Vec<u8>,
    ceremony: CeremonyNumber,
    serial: Serial,
    to: Destination,
) -> Result<(), AllocError>
    ensures { OnOk result (out.new.items ≡ out.old.items ++ said.put_away ceremony serial to) }
{
    let mut number = Buffer::new();
    let to = destination_text(alloc, to)?;
    push_texts(
        out,
        &[
            "Bag ",
            serial.as_str(),
            " was put into ",
            to.as_str(),
            " in ceremony ",
            number.format(ceremony.get()),
            ".",
        ],
    )
}

/// Adds that a bag was cut open.
pub(crate) fn push_cut_open(
    out: &mut Vec<u8>,
    ceremony: CeremonyNumber,
    serial: Serial,
) -> Result<(), AllocError>
    ensures { OnOk result (out.new.items ≡ out.old.items ++ said.cut_open ceremony serial) }
{
    let mut number = Buffer::new();
    push_texts(
        out,
        &[
            "Bag ",
            serial.as_str(),
            " was cut open in ceremony ",
            number.format(ceremony.get()),
            ".",
        ],
    )
}
