//! The verification of a register and its rebuilding, as lines.
ghost use Rattle.std.specs.Prelude.{◌≡◌, ◌⊎◌, ◌++◌, false, length, IfOk, IfErr, OnErr};
ghost use Rattle.sqlite.specs.{Files.over_files, Held.state, State.HasCleanDisk, WalFiles.image_at};
ghost use Rattle.kcr_edges.specs.Image.{image};
ghost use Rattle.kcr_desk.specs.Streams.{HasFailed, WritesNothing, WritesPart, WritesText, writing};
ghost use Rattle.kcr_history.specs.{History.History, Tables.tables, Machine.IsOfMachine};
ghost use Rattle.kcr_store.specs.{FullView.IsListed, Opening.FilesHoldHistory};
ghost use Rattle.kcr_fault.specs.Faults.{StopsMaking, StopsReading, StopsReplay, StopsRebuild};
ghost use Rattle.kcr_fault.specs.Lines.{difference_line, found_line, judged_line, rebuilt_head, verified_head, seating_word as word_on, whole_line};
ghost use Rattle.kcr_tool.specs.Runs.{StopsVerification};
ghost use Rattle.kcr_tool.specs.Verifications.{EndsVerification, WritesVerification, verified_line};
ghost use Rattle.kcr_forms.specs.Values.{AreValues};
ghost use Rattle.kcr_verify.specs.{Fresh.IsMadeOn, Verification.EndsAt, Verification.IsFresh, Verification.IsVerification};

use crate::invalid::fault_of_disk;
use crate::opening::{connect_to, fault_of_reading, fault_of_taking};
use crate::place::{place_at, take_back};
use itoa::Buffer;
use kcr_base::{Counted, Refusal};
use kcr_edges::{Copied, CopyConnection, Unread, connect, copy_of};
use kcr_fault::{Fault, Missing, Step, around, push_expected};
use kcr_history::{FullView, refusal_text};
use kcr_print::write_whole;
use kcr_store::{FileRegister, OpenFault, Register, read_tables};
use kcr_verify::{CreateFault, Difference, RowDifference, TableName, Verification, init};
use sqlite::{Alter, Start, Unknown};
use std::alloc::{AllocError, Global};
use std::io::Write;

/// The two lines of a finding about an accepted command. `what` begins the first, which ends with its number, and `head`
/// the second, with what was expected, what was found and a word on it. The error is out of memory.
fn lines_of_command(
    alloc: Global,
    what: &str,
    number: &str,
    head: &str,
    expected: &str,
    found: &str,
    word: &str,
) -> Result<Vec<u8>, AllocError>
    ensures { IfOk result (λ lines. lines.items ≡ found_line what.now number.now
        ++ judged_line head.now expected.now found.now word.now) }
{
    let mut lines = around(alloc, what, number, "\n")?.into_bytes();
    push_expected(alloc, &mut lines, head, expected, found, word)?;
    Ok(lines)
}

/// The word on a stored reply.
fn seating_word(is_seating: Option<bool>) -> &'static str
    ensures { result.now ≡ word_on is_seating }
{
    match is_seating {
        None => "",
        Some(true) => "; a seating",
        Some(false) => "; no seating",
    }
}

/// The two lines of a number that is not the next. The error is out of memory.
fn lines_of_number(alloc: Global, place: usize, found: u32) -> Result<Vec<u8>, AllocError>
    ensures { IfOk result (λ lines. lines.items ≡ difference_line (Difference.Number place found)) }
{
    let mut digits = Buffer::new();
    let place = digits.format(place);
    lines_of_command(
        alloc,
        "finding: number ",
        place,
        "number: expected ",
        place,
        Buffer::new().format(found),
        "",
    )
}

/// The two lines of a table and its first row that differs. The error is out of memory.
fn lines_of_row(alloc: Global, table: TableName, row: &RowDifference) -> Result<Vec<u8>, AllocError>
    ensures { IfOk result (λ lines. lines.items ≡ difference_line (Difference.Rows table row.now)) }
{
    let mut lines = around(alloc, "finding: table ", table.name(), "\n")?;
    lines.push_str(row.line(alloc)?.as_str())?;
    Ok(lines.into_bytes())
}

/// The two lines of a difference. The error is out of memory.
fn lines_of(alloc: Global, difference: &Difference) -> Result<Vec<u8>, AllocError>
    ensures { IfOk result (λ lines. lines.items ≡ difference_line difference.now) }
{
    match difference {
        Difference::Number { place, found } => lines_of_number(alloc, *place, *found),
        Difference::Command { number, found } => lines_of_command(
            alloc,
            "finding: command ",
            Buffer::new().format(*number),
            "command: expected ",
            "a command",
            found.as_str(),
            "",
        ),
        Difference::Refused {
            number,
            refusal,
            found,
        } => {
            let expected = refusal_text(alloc, refusal)?;
            lines_of_command(
                alloc,
                "finding: refused ",
                Buffer::new().format(*number),
                "refused: expected ",
                expected.as_str(),
                found.as_str(),
                "",
            )
        }
        Difference::Reply {
            number,
            expected,
            found,
            is_seating,
        } => lines_of_command(
            alloc,
            "finding: reply ",
            Buffer::new().format(*number),
            "reply: expected ",
            expected.as_str(),
            found.as_str(),
            seating_word(*is_seating),
        ),
        Difference::Rows(table, row) => lines_of_row(alloc, *table, row),
    }
}

/// The lines of what a verification came to; `head` begins that of a good end. The error is out of memory.
fn lines_of_verified(
    alloc: Global,
    head: &str,
    verified: &Verification,
) -> Result<Vec<u8>, AllocError>
    ensures { IfOk result (λ lines. lines.items ≡ verified_line head.now verified.now) }
{
    match verified {
        Verification::Verified(count) => {
            let line = around(alloc, head, Buffer::new().format(*count), " commands\n")?;
            Ok(line.into_bytes())
        }
        Verification::Differs(difference) => lines_of(alloc, difference),
    }
}

/// Writes lines, and answers this status.
fn write_status<W: Write>(output: &mut Counted<W>, line: &[u8], status: u8) -> Result<u8, Fault>
    ensures told { IfOk result (λ s. (s ≡ status) × WritesText (writing W.contents output.old output.new) line.now) }
    ensures part { OnErr result (WritesPart (writing W.contents output.old output.new) line.now) }
    ensures cause { IfErr result (λ why. (why ≡ Fault.Unwritten)
        × HasFailed (writing W.contents output.old output.new)) }
{
    match write_whole(output, line) {
        Ok(()) => Ok(status),
        Err(_) => Err(Fault::Unwritten),
    }
}

/// Writes the lines of what a verification came to, and returns the exit status: 0 if nothing differs, else 1. Of no
/// command there is nothing to verify.
pub fn write_verification<W: Write>(
    alloc: Global,
    head: &str,
    verified: &Verification,
    output: &mut Counted<W>,
) -> Result<u8, Fault>
    ensures told { IfOk result
        (WritesVerification head.now verified.now (writing W.contents output.old output.new)) }
    ensures part { OnErr result (WritesNothing (writing W.contents output.old output.new)
        ⊎ WritesPart (writing W.contents output.old output.new) (verified_line head.now verified.now)) }
    ensures cause { IfErr result (StopsReplay (writing W.contents output.old output.new)) }
{
    let Ok(lines) = lines_of_verified(alloc, head, verified) else {
        return Err(Fault::Refused(Refusal::Memory));
    };
    match verified {
        Verification::Verified(count) => {
            if *count == 0 {
                return Err(Fault::Nothing(Missing::Empty));
            }
            write_status(output, &lines, 0)
        }
        Verification::Differs(_) => write_status(output, &lines, 1),
    }
}

/// Why no rows of a copy of files were read.
#[tactic(auto, using(crate::proofs::Causes::opening_reads))]
fn fault_of_rows(alloc: Global, fault: OpenFault, connection: CopyConnection) -> Fault
    requires autocommit { connection.in_transaction ≡ false }
    ensures { StopsReading result }
{
    match fault {
        OpenFault::Disk => fault_of_disk(alloc, connection),
        other => fault_of_taking(other),
    }
}

/// All rows of the register that a copy of its file and its log holds, whichever version it is of. `Invalid` comes for
/// an invalid row.
#[tactic(auto, using(crate::proofs::Causes::opening_reads))]
pub fn rows_of(alloc: Global, copy: Copied) -> Result<FullView, Fault>
    // If the bytes hold the tables of a history, these are its rows.
    ensures own { (A : History) → FilesHoldHistory A (image copy.log.items copy.file.items)
        → IfOk result (IsListed (tables A)) }
    ensures cause { IfErr result StopsReading }
{
    match connect(alloc, copy) {
        Ok(connection) => {
            let mut connection = connection;
            match read_tables(alloc, &mut connection) {
                Ok(rows) => Ok(rows),
                Err(fault) => Err(fault_of_rows(alloc, fault, connection)),
            }
        }
        Err(unread) => Err(fault_of_reading(unread)),
    }
}

/// Verifies the rows of a register: a line that says of how many commands it is the register, or the first thing that
/// differs from what its commands lead to, and the exit status, 1 if something differs. Out of memory is refused
/// (33), which the store in memory may tell as an I/O error (34), and nothing is written then, nor if the
/// register is sound and has no command.
pub fn verify<W: Write>(alloc: Global, rows: FullView, output: &mut Counted<W>) -> Result<u8, Fault>
    // What is told of the rows is so, whoever wrote them.
    ensures ends { EndsVerification verified_head (λ told. (A : History) × IsVerification rows A told)
        (writing W.contents output.old output.new) result }

    // In the tables of a history that the machine leads to nothing differs, and the line has the number of its
    // commands.
    ensures own { (A : History) → IsOfMachine A → AreValues A → IsListed (tables A) rows
        → IfOk result (WritesVerification verified_head (Verification.Verified (length A))
        (writing W.contents output.old output.new)) }
    ensures own_in_part { (A : History) → IsOfMachine A → AreValues A → IsListed (tables A) rows
        → OnErr result (WritesNothing (writing W.contents output.old output.new)
        ⊎ WritesPart (writing W.contents output.old output.new) (whole_line verified_head (length A))) }
    ensures cause { IfErr result (StopsReplay (writing W.contents output.old output.new)) }
{
    match kcr_verify::verify(alloc, rows) {
        Ok(verified) => write_verification(alloc, "verified: ", &verified, output),
        Err(refusal) => Err(Fault::Refused(refusal)),
    }
}

/// Verifies the register in a copy of its file and its log: see `verify`. Its rows may be none that can be read, and then
/// nothing is written.
pub fn verify_copied<W: Write>(
    alloc: Global,
    copy: Copied,
    output: &mut Counted<W>,
) -> Result<u8, Fault>
    // What is told is so of some rows, whoever wrote them.
    ensures ends { EndsVerification verified_head (λ told. (rows : FullView) × (A : History) × IsVerification rows A told)
        (writing W.contents output.old output.new) result }

    // If the bytes that were read hold the tables of a history that the machine leads to, with commands of values,
    // nothing differs, and the line has the number of its commands.
    ensures own { (A : History) → FilesHoldHistory A (image copy.log.items copy.file.items) → IsOfMachine A
        → AreValues A → IfOk result (WritesVerification verified_head (Verification.Verified (length A))
        (writing W.contents output.old output.new)) }
    ensures own_in_part { (A : History) → FilesHoldHistory A (image copy.log.items copy.file.items) → IsOfMachine A
        → AreValues A → OnErr result (WritesNothing (writing W.contents output.old output.new)
        ⊎ WritesPart (writing W.contents output.old output.new) (whole_line verified_head (length A))) }
    ensures cause { IfErr result (StopsVerification (writing W.contents output.old output.new)) }
{
    let rows = rows_of(alloc, copy)?;
    verify(alloc, rows, output)
}

/// Gives the commands among these rows of a register to a new one, and writes the line of what it came to. The errors
/// are those of `rebuild`.
fn rebuild_in<S: Alter, W: Write>(
    alloc: Global,
    rows: FullView,
    fresh: &mut Register<S>,
    output: &mut Counted<W>,
) -> Result<u8, Fault>
    requires { IsFresh S.Store fresh.old }
    ensures ends { EndsVerification rebuilt_head (λ _. Unit {0}) (writing W.contents output.old output.new) result }

    // What is told of the rows is so, whoever wrote them, and the new register stands at the history that it says.
    ensures found { EndsAt S.Store fresh.new (λ B. EndsVerification rebuilt_head (IsVerification rows B)
        (writing W.contents output.old output.new) result) }

    // In the tables of a history that the machine leads to nothing differs, and the line has the number of its
    // commands.
    ensures own { HasCleanDisk (state S.Store fresh.new.conn) → (A : History) → IsOfMachine A → AreValues A
        → IsListed (tables A) rows
        → IfOk result (WritesVerification rebuilt_head (Verification.Verified (length A))
        (writing W.contents output.old output.new)) }
    ensures cause { IfErr result (StopsReplay (writing W.contents output.old output.new)) }
{
    match kcr_verify::rebuild(alloc, rows, fresh) {
        Ok(verified) => write_verification(alloc, "rebuilt: ", &verified, output),
        Err(refusal) => Err(Fault::Refused(refusal)),
    }
}

/// Refuses a file that contains a byte, or that has a log with one. Nothing is changed.
fn refuse_filled(rt: &HostRuntime, path: &str) -> Result<(), Fault>
    ensures cause { IfErr result StopsMaking }
{
    match copy_of(rt, path) {
        Ok(copy) if copy.file.is_empty() && copy.log.is_empty() => Ok(()),
        Ok(_) | Err(Unread::Damaged(_)) => Err(Fault::Into(CreateFault::Filled)),
        Err(Unread::Memory) => Err(Fault::Into(CreateFault::Memory)),
        Err(Unread::Closed) => Err(Fault::IntoFile(Step::Opening)),
        Err(Unread::Broken) => Err(Fault::IntoFile(Step::Reading)),
    }
}

/// Makes a new register in the file at the path, which is missing or empty. `start` stands for what the file and its log
/// held.
fn fresh_in<B: Start>(rt: &HostRuntime, path: &str, start: B) -> Result<FileRegister<B>, Fault>
    ensures new { IfOk result (IsFresh over_files) }

    // The two held an empty database, and a crash leaves that or the tables of an empty register.
    ensures made { IfOk result (λ r. IsMadeOn over_files (image_at B.Start) r.conn) }
    ensures cause { IfErr result StopsMaking }
{
    refuse_filled(rt, path)?;
    let connection = match connect_to(rt, path, start) {
        Ok(connection) => connection,
        Err(Some(step)) => return Err(Fault::IntoFile(step)),
        Err(None) => return Err(Fault::Into(CreateFault::Memory)),
    };
    match init(rt.alloc(), connection) {
        Ok(register) => Ok(register),
        Err((CreateFault::Disk, _)) => Err(Fault::IntoFile(Step::Reading)),
        Err((fault, _)) => Err(Fault::Into(fault)),
    }
}

/// Makes a new register in the file at the path, and gives it the commands among these rows of a register. What is told
/// and the errors are those of `rebuild`. `start` stands for what the file and its log held.
#[tactic(auto, using(crate::proofs::Causes::making_stops, crate::proofs::Causes::replay_stops))]
fn rebuild_into<B: Start, W: Write>(
    rt: &HostRuntime,
    rows: FullView,
    path: &str,
    start: B,
    output: &mut Counted<W>,
) -> Result<u8, Fault>
    ensures ends { EndsVerification rebuilt_head (λ _. Unit {0}) (writing W.contents output.old output.new) result }
    ensures cause { IfErr result (StopsRebuild (writing W.contents output.old output.new)) }
{
    let mut fresh = fresh_in(rt, path, start)?;
    rebuild_in(rt.alloc(), rows, &mut fresh, output)
}

/// Makes a new register in the file at the path, if there is none or it holds nothing, and gives it the commands
/// among these rows of a register: a line that says of how many commands both are the register, or the first thing that
/// differs from what the commands lead to, and the exit status, 1 if something differs. The new register has then
/// the commands before the one that differs, that one too if its reply does, and all of them if a table does. Out
/// of memory is refused (33), as is a fault of the new register's device (34); it then keeps what it was given. In all
/// these cases, and if no new register can be made, nothing is written; of no command none is made, and a file without a
/// byte that was made for it is taken away.
#[tactic(auto, using(crate::proofs::Causes::making_stops, crate::proofs::Causes::replay_stops))]
pub fn rebuild<W: Write>(
    rt: &HostRuntime,
    rows: FullView,
    path: &str,
    output: &mut Counted<W>,
) -> Result<u8, Fault>
    ensures ends { EndsVerification rebuilt_head (λ _. Unit {0}) (writing W.contents output.old output.new) result }
    ensures cause { IfErr result (StopsRebuild (writing W.contents output.old output.new)) }
{
    if rows.keys.is_empty() {
        return Err(Fault::Nothing(Missing::Empty));
    }
    let before = place_at(rt, path);
    let ended = rebuild_into(rt, rows, path, Unknown, output);
    take_back(rt, path, before, &ended);
    ended
}
