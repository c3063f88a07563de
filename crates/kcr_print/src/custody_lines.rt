//! The lines of custody.

ghost use Rattle.std.specs.Prelude.{◌≡◌, ◌++◌, codes, OnOk};
ghost use Rattle.std.specs.List.{flat_map};
ghost use Rattle.kcr_history.specs.Prints as report;
ghost use Rattle.kcr_history.specs.Texts as texts;
ghost use Rattle.kcr_print.specs.Lines.{packed_lines, code_line};

use crate::line::{push_inner_line, push_line};
use crate::print_lines::PrintLines;
use kcr_base::{ItemCode, Refusal};
use kcr_custody::{Item, Rest, SafeNumber, SafeRow};
use kcr_history::BagWithItems;
use std::alloc::{AllocError, Global};

fn safe_text(safe: SafeNumber) -> &'static str
    ensures { result.now ≡ texts.safe_text safe }
{
    match safe {
        SafeNumber::One => "1",
        SafeNumber::Two => "2",
    }
}

fn open_text(is_open: bool) -> &'static str
    ensures { result.now ≡ report.open_text is_open }
{
    if is_open { "open" } else { "shut" }
}

/// Adds the line of a safe.
fn push_safe(out: &mut Vec<u8>, row: SafeRow) -> Result<(), AllocError>
    ensures { OnOk result (out.new.items ≡ out.old.items ++ report.safe_line row) }
{
    push_line(
        out,
        &[
            "safe",
            safe_text(row.safe),
            row.facility.text(),
            open_text(row.is_open),
        ],
    )
}

impl PrintLines for SafeRow {
    ghost lines = { report.safe_line };

    fn print_lines(&self, _alloc: Global, out: &mut Vec<u8>) -> Result<(), Refusal> {
        Ok(push_safe(out, *self)?)
    }
}

/// Adds a line for each of the codes of a bag's items.
fn push_codes(out: &mut Vec<u8>, codes: &[ItemCode]) -> Result<(), AllocError>
    ensures { OnOk result (out.new.items ≡ out.old.items ++ flat_map code_line codes.now) }
{
    for code in codes {
        push_inner_line(out, &[code.as_str()])?;
    }
    Ok(())
}

/// Adds the line of a bag, and those of its items.
fn push_bag(alloc: Global, out: &mut Vec<u8>, row: &BagWithItems) -> Result<(), AllocError>
    ensures { OnOk result (out.new.items ≡ out.old.items ++ packed_lines row.now) }
{
    let spot = row.bag.spot.text(alloc)?;
    push_line(out, &[row.bag.serial.as_str(), spot.as_str()])?;
    push_codes(out, row.codes.as_slice())
}

impl PrintLines for BagWithItems {
    ghost lines = { packed_lines };

    fn print_lines(&self, alloc: Global, out: &mut Vec<u8>) -> Result<(), Refusal> {
        Ok(push_bag(alloc, out, self)?)
    }
}

/// Adds the line of an item that is loose, and nothing for one that is not.
fn push_loose(out: &mut Vec<u8>, item: Item) -> Result<(), AllocError>
    ensures { OnOk result (out.new.items ≡ out.old.items ++ report.loose_line item) }
{
    match item.rest {
        Rest::Loose(facility) => {
            let code = item.code;
            push_line(out, &["loose", facility.text(), code.as_str()])
        }
        Rest::Within(_) => Ok(()),
    }
}

impl PrintLines for Item {
    ghost lines = { report.loose_line };

    fn print_lines(&self, _alloc: Global, out: &mut Vec<u8>) -> Result<(), Refusal> {
        Ok(push_loose(out, *self)?)
    }
}
