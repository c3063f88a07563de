//! The reports of a register that nothing has broken. None of them breaks it after an I/O error.

ghost use Rattle.kcr_base.specs.Counted.{inner_of};
ghost use Rattle.kcr_reading.specs.Commands.{commands_within};
ghost use Rattle.kcr_store.specs.Frame.{OfRowsShown};
ghost use Rattle.kcr_print.specs.ByRows.{annotated_by, attendance_by, custody_by};
ghost use Rattle.kcr_print.specs.Reports.{PrintsPart, PrintsCeremonyPart, RefusesBetweenRows};
ghost use Rattle.kcr_print.specs.{Journal.row_journal, Requests.row_request, Requests.row_requests};

use crate::attendance_lines::Header;
use crate::fault::PrintFault;
use crate::requests::RequestCursor;
use crate::script_lines::{Foot, Head};
use crate::write_rows::{write_row, write_rows};
use kcr_base::{CeremonyNumber, Counted};
use kcr_journal::JournalCursor;
use kcr_reading::{BagCursor, ExceptionCursor, LooseCursor, SafeCursor, StayCursor, StepCursor};
use kcr_store::Unbroken;
use kcr_wire::RouteTable;
use sqlite::Alter;
use std::alloc::Global;
use std::io::Write;

/// Writes the annotated script of a ceremony.
pub(crate) fn print_script<S: Alter, W: Write>(
    alloc: Global,
    register: &mut Unbroken<S>,
    ceremony: CeremonyNumber,
    writer: &mut Counted<W>,
) -> Result<(), PrintFault>
    ensures { PrintsCeremonyPart annotated_by ceremony S.Store W.contents register.old register.new writer.old
        writer.new result }
{
    let number = ceremony.get();
    let row = register.ceremony_row(ceremony)?;
    write_row(alloc, &Head { row: &row }, writer)?;
    write_rows(alloc, register, StepCursor::new(number), writer)?;
    write_rows(alloc, register, ExceptionCursor::new(number), writer)?;
    write_row(alloc, &Foot { row: &row }, writer)
}

/// Writes the attendance of a ceremony.
pub(crate) fn print_attendance<S: Alter, W: Write>(
    alloc: Global,
    register: &mut Unbroken<S>,
    ceremony: CeremonyNumber,
    writer: &mut Counted<W>,
) -> Result<(), PrintFault>
    ensures { PrintsCeremonyPart attendance_by ceremony S.Store W.contents register.old register.new writer.old
        writer.new result }
{
    register.ceremony_row(ceremony)?;
    write_row(alloc, &Header, writer)?;
    write_rows(alloc, register, StayCursor::new(ceremony.get()), writer)
}

/// Writes custody.
pub(crate) fn print_custody<S: Alter, W: Write>(
    alloc: Global,
    register: &mut Unbroken<S>,
    writer: &mut Counted<W>,
) -> Result<(), PrintFault>
    ensures { PrintsPart S.Store W.contents register.old register.new writer.old writer.new result
        (λ _ _. ⊥) (λ _. ⊥) custody_by }
{
    write_rows(alloc, register, SafeCursor::new(), writer)?;
    write_rows(alloc, register, BagCursor::new(), writer)?;
    write_rows(alloc, register, LooseCursor::new(), writer)
}

/// Writes the requests of the accepted commands past the number `after`, up to the one with the number `until`.
pub(crate) fn print_requests<S: Alter, W: Write>(
    alloc: Global,
    register: &mut Unbroken<S>,
    after: u32,
    until: u32,
    writer: &mut Counted<W>,
) -> Result<(), PrintFault>
    ensures prints { PrintsPart S.Store W.contents register.old register.new writer.old writer.new result
        (λ _ _. ⊥) (λ _. ⊥) (row_requests after until) }
    ensures whole { OfRowsShown S.Store register.old register.new (λ m. RefusesBetweenRows row_request
        (commands_within after until m) result
        (W.contents (inner_of writer.old)) (W.contents (inner_of writer.new))) }
{
    let paths = RouteTable::new(alloc)?;
    let requests = RequestCursor::new(paths, after, until);
    write_rows(alloc, register, requests, writer)
}

/// Writes the journal, of all commands or of those that name a ceremony.
pub(crate) fn print_journal<S: Alter, W: Write>(
    alloc: Global,
    register: &mut Unbroken<S>,
    asked: Option<CeremonyNumber>,
    writer: &mut Counted<W>,
) -> Result<(), PrintFault>
    ensures { PrintsPart S.Store W.contents register.old register.new writer.old writer.new result
        (λ _ _. ⊥) (λ _. ⊥) (row_journal asked) }
{
    let paths = RouteTable::new(alloc)?;
    let lines = JournalCursor::new(paths, 0, u32::MAX, asked);
    write_rows(alloc, register, lines, writer)
}
