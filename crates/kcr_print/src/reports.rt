//! The three reports, the export and the journal.

ghost use Rattle.std.specs.Prelude.{◌≡◌};
ghost use Rattle.kcr_history.specs.Prints as prints;
ghost use Rattle.kcr_store.specs.Calls.{BreaksIf};
ghost use Rattle.kcr_print.specs.ByRows.{annotated_by, attendance_by, custody_by};
ghost use Rattle.kcr_print.specs.{Reports.Prints, Reports.PrintsPlanned, Reports.PrintsRows, Journal.PrintsJournal, Requests.Exports};

use crate::fault::PrintFault;
use crate::parts::{print_attendance, print_custody, print_journal, print_requests, print_script};
use kcr_base::{CeremonyNumber, Counted, Refusal};
use kcr_store::Register;
use sqlite::Alter;
use std::alloc::Global;
use std::io::Write;

/// Breaks the register if a report met an I/O error, and gives the report's outcome on.
fn note_disk_fault<S: Alter>(
    register: &mut Register<S>,
    outcome: Result<(), PrintFault>,
) -> Result<(), PrintFault>
    ensures same { result ≡ outcome }
    ensures settled { BreaksIf (outcome ≡ Err (PrintFault.Refused Refusal.Disk)) register.old register.new }
{
    match outcome {
        Ok(()) => Ok(()),
        Err(PrintFault::Refused(Refusal::Disk)) => {
            register.mark_broken();
            Err(PrintFault::Refused(Refusal::Disk))
        }
        Err(fault) => Err(fault),
    }
}

/// Writes the annotated script of a ceremony: a head, the steps with their seats or the people who filled them, and the
/// exceptions. A ceremony that was never planned is refused as unknown (12), with nothing written. Out of memory (33), an
/// I/O error (34) or a write that fails may come at any row, and leaves a beginning of the report written. An I/O error
/// breaks the register; a broken one answers 35, and nothing is written.
pub fn annotated<S: Alter, W: Write>(
    alloc: Global,
    register: &mut Register<S>,
    ceremony: CeremonyNumber,
    writer: &mut Counted<W>,
) -> Result<(), PrintFault>
    ensures { PrintsPlanned prints.annotated annotated_by ceremony S.Store W.contents register.old register.new
        writer.old writer.new result }
{
    let outcome = print_script(alloc, register.unbroken()?, ceremony, writer);
    note_disk_fault(register, outcome)
}

/// Writes the attendance of a ceremony as comma separated values (RFC 4180, with a line feed at the end of each row): a
/// header, and a row for each stay by its beginning, then initials. Its faults, and what they leave, are those of
/// `annotated`.
pub fn attendance_csv<S: Alter, W: Write>(
    alloc: Global,
    register: &mut Register<S>,
    ceremony: CeremonyNumber,
    writer: &mut Counted<W>,
) -> Result<(), PrintFault>
    ensures { PrintsPlanned prints.attendance attendance_by ceremony S.Store W.contents register.old register.new
        writer.old writer.new result }
{
    let outcome = print_attendance(alloc, register.unbroken()?, ceremony, writer);
    note_disk_fault(register, outcome)
}

/// Writes custody: the four safes, then the bags by serial, each with its items by code, then the loose items by code.
/// The refusals are those of `annotated` but 12.
pub fn custody<S: Alter, W: Write>(
    alloc: Global,
    register: &mut Register<S>,
    writer: &mut Counted<W>,
) -> Result<(), PrintFault>
    ensures prints { Prints S.Store W.contents register.old register.new writer.old writer.new result
        (λ _ _. ⊥) (λ _. ⊥) (λ A. prints.custody A) }

    // Whoever wrote the rows, the text is theirs.
    ensures by_rows { PrintsRows S.Store W.contents register.old register.new writer.old writer.new result
        (λ _ _. ⊥) custody_by }
{
    let outcome = print_custody(alloc, register.unbroken()?, writer);
    note_disk_fault(register, outcome)
}

/// Writes the requests of the accepted commands whose numbers are greater than `after`, up to the one with the number
/// `until`, in the order of their numbers: row by row, with one of them in memory. `u32::MAX` stands for the end. The
/// refusals are those of `custody`; what was written before one are whole requests.
pub fn export<S: Alter, W: Write>(
    alloc: Global,
    register: &mut Register<S>,
    after: u32,
    until: u32,
    writer: &mut Counted<W>,
) -> Result<(), PrintFault>
    ensures { Exports S.Store W.contents register.old register.new writer.old writer.new result after until }
{
    let outcome = print_requests(alloc, register.unbroken()?, after, until, writer);
    note_disk_fault(register, outcome)
}

/// Writes the journal: a line for each accepted command in the order of their numbers, with its number, its moment or
/// day, and a sentence with names; with a ceremony, only the commands that name it. One line is in memory at a time. The
/// refusals are those of `custody`.
pub fn journal<S: Alter, W: Write>(
    alloc: Global,
    register: &mut Register<S>,
    asked: Option<CeremonyNumber>,
    writer: &mut Counted<W>,
) -> Result<(), PrintFault>
    ensures { PrintsJournal S.Store W.contents register.old register.new writer.old writer.new result asked }
{
    let outcome = print_journal(alloc, register.unbroken()?, asked, writer);
    note_disk_fault(register, outcome)
}
