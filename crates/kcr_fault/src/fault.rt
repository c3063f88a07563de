//! Why a task was not done to its end, and the line that tells it.
ghost use Rattle.std.specs.Prelude.{◌≡◌, ℕ, List, [], Some, IfOk, option_map, string_bytes, unwrap_or};
ghost use Rattle.kcr_desk.specs.Streams.{writing};
ghost use Rattle.kcr_fault.specs.Faults.{AreLinesOf, IsTold, WritesLines, refusal_line, reason_of, second_line, lines_of, port_of};
ghost use Rattle.kcr_arguments.specs.Tasks.{file_in, into_in};
ghost use Rattle.kcr_fault.specs.Lines.{broken_line, call_head, invalid_line, log_line, missing_line, step_head};

use crate::lines::{around, in_a_line, numbered};
use itoa::Buffer;
use kcr_arguments::{Order, Task};
use kcr_base::{Counted, Refusal};
use kcr_desk::DeskFault;
use kcr_log::Log;
use kcr_print::{PrintFault, WriteFailed, write_whole};
use kcr_store::{Breakage, OpenFault};
use kcr_verify::{CreateFault, InvalidRow};
use std::alloc::{AllocError, Global};
use std::io::Write;

/// At what a file failed.
#[derive(Clone, Copy)]
pub enum Step {
    /// It is not there, and is not made.
    Missing,
    /// It could not be opened, or is no file that a register is in.
    Opening,
    /// Another process has it open.
    Locking,
    /// It could not be read or written, or what it holds is no database.
    Reading,
}

/// At what a port failed.
#[derive(Clone, Copy)]
pub enum Call {
    /// It is taken, or may not be taken.
    Binding,
    /// No connection could be accepted.
    Accepting,
}

/// What is there in place of a register with commands.
#[derive(Clone, Copy)]
pub enum Missing {
    /// The words name no file.
    Unnamed,
    /// The file is not there.
    Absent,
    /// The register in the file has no command.
    Empty,
}

/// Why a task was not done to its end.
#[derive(Drop)]
pub enum Fault {
    /// The register could not be opened.
    Open(OpenFault),
    /// Its file failed.
    File(Step),
    /// The log beside the register's file is damaged, so that the file was not opened.
    Log(Log),
    /// There is nothing to verify or to rebuild.
    Nothing(Missing),
    /// No new register could be made.
    Into(CreateFault),
    /// The file of the new register failed.
    IntoFile(Step),
    /// The stream could not be answered to its end.
    Stream(DeskFault),
    /// The register refused what the task asks for.
    Refused(Refusal),
    /// The same with 34, and the register has an invalid row.
    Invalid(InvalidRow),
    /// The register is broken, so that it refuses whatever is asked.
    Broken(Breakage),
    /// A report or a line could not be written to its end.
    Unwritten,
    /// The port failed.
    Net(Call),
    /// The register's file was removed, cut or replaced while it was served.
    Lost,
    /// Memory ran out before the register was opened.
    Words,
}

impl From<PrintFault> for Fault {
    ghost use Rattle.std.specs.Prelude.{◌≡◌};
    ghost use Rattle.kcr_fault.specs.Faults.{fault_of_print};

    ghost from_gives = { λ fault e. e ≡ fault_of_print fault };

    fn from(fault: PrintFault) -> Fault {
        match fault {
            PrintFault::Refused(refusal) => Fault::Refused(refusal),
            PrintFault::Write => Fault::Unwritten,
        }
    }
}

impl From<WriteFailed> for Fault {
    ghost use Rattle.std.specs.Prelude.{◌≡◌};
    ghost use Rattle.kcr_fault.specs.declared.fault.Fault.TheVariants as Faults;

    ghost from_gives = { λ _ e. e ≡ Faults.Unwritten };

    fn from(_error: WriteFailed) -> Fault {
        Fault::Unwritten
    }
}

impl From<DeskFault> for Fault {
    ghost use Rattle.std.specs.Prelude.{◌≡◌};
    ghost use Rattle.kcr_fault.specs.declared.fault.Fault.TheVariants as Faults;

    ghost from_gives = { λ fault e. e ≡ Faults.Stream fault };

    fn from(fault: DeskFault) -> Fault {
        Fault::Stream(fault)
    }
}

impl From<Refusal> for Fault {
    ghost use Rattle.std.specs.Prelude.{◌≡◌};
    ghost use Rattle.kcr_fault.specs.declared.fault.Fault.TheVariants as Faults;

    ghost from_gives = { λ refusal e. e ≡ Faults.Refused refusal };

    fn from(refusal: Refusal) -> Fault {
        Fault::Refused(refusal)
    }
}

/// The line of a refusal: its number, its word, and the thing that it names, if it names one, as
/// `refused: 12 unknown ceremony 61`. The error is out of memory.
fn refused(alloc: Global, refusal: &Refusal) -> Result<String, AllocError>
    ensures { IfOk result (λ line. string_bytes line ≡ refusal_line refusal.now) }
{
    let head = numbered(alloc, refusal.number() as u32, refusal.word())?;
    match refusal {
        Refusal::Unknown { thing } => {
            let thing = thing.text(alloc)?;
            let tail = around(alloc, " ", thing.as_str(), "\n")?;
            around(alloc, "refused: ", head.as_str(), tail.as_str())
        }
        _ => around(alloc, "refused: ", head.as_str(), "\n"),
    }
}

/// What is wrong with a log, and the number of transactions that end in the damage or behind it. The error is out of
/// memory.
fn wrong(alloc: Global, log: &Log) -> Result<String, AllocError>
    ensures { IfOk result (λ line. string_bytes line ≡ log_line log.now) }
{
    let mut buffer = Buffer::new();
    match log {
        Log::Sound => Ok(String::new(alloc)),
        Log::WrongHead { ended } => around(
            alloc,
            "log: wrong head, commits ",
            buffer.format(*ended),
            "\n",
        ),
        Log::WrongFrame { first, behind } => {
            let head = around(
                alloc,
                "log: wrong from frame ",
                buffer.format(*first),
                ", commits ",
            )?;
            around(alloc, head.as_str(), Buffer::new().format(*behind), "\n")
        }
        Log::NoFile { ended } => around(
            alloc,
            "log: no file, commits ",
            buffer.format(*ended),
            "\n",
        ),
    }
}

/// A name that was given, or nothing.
pub fn name_of(name: Option<&str>) -> &str
    ensures { result.now ≡ unwrap_or (option_map (λ n. n.now) name.entry) [] }
{
    match name {
        Some(name) => name,
        None => "",
    }
}

/// That there is no register with commands. The error is out of memory.
fn missing_text(alloc: Global, kind: Missing, file: Option<&str>) -> Result<String, AllocError>
    ensures { IfOk result (λ line. string_bytes line ≡ missing_line (option_map (λ n. n.now) file.entry) kind) }
{
    match kind {
        Missing::Unnamed => String::from_str(alloc, "note: no file is named\n"),
        Missing::Absent => around(alloc, "note: ", name_of(file), " is not there\n"),
        Missing::Empty => around(alloc, "note: ", name_of(file), " has no command\n"),
    }
}

/// At what a file failed, as the second line begins.
fn step_head(step: Step) -> &'static str
    ensures { result.now ≡ step_head step }
{
    match step {
        Step::Missing => "missing: ",
        Step::Opening => "opening: ",
        Step::Locking => "locking: ",
        Step::Reading => "reading: ",
    }
}

/// At what a port failed, as the second line begins.
fn call_head(call: Call) -> &'static str
    ensures { result.now ≡ call_head call }
{
    match call {
        Call::Binding => "binding: ",
        Call::Accepting => "accepting: ",
    }
}

/// The second line of a broken register: what broke it.
fn broken_line(why: Breakage) -> &'static str
    ensures { result.now ≡ broken_line why }
{
    match why {
        Breakage::NoRoom => "broken: no room\n",
        Breakage::Writing => "broken: writing\n",
        Breakage::Reading => "broken: reading\n",
        Breakage::Memory => "broken: memory\n",
    }
}

/// The port of a task, 0 if it has none.
fn port_of(task: Task) -> u16
    ensures { result ≡ port_of (Some task) }
{
    match task {
        Task::Serve(serving) => serving.port,
        _ => 0,
    }
}

/// The line of an invalid row: its table and its key. The error is out of memory.
fn invalid(alloc: Global, row: &InvalidRow) -> Result<Vec<u8>, AllocError>
    ensures { IfOk result (λ line. line.items ≡ invalid_line row.now) }
{
    let key = in_a_line(alloc, row.key.as_str())?;
    let mut line = around(alloc, "invalid: ", row.table.name(), " ")?.into_bytes();
    line.extend_from_slice(&key)?;
    line.push(b'\n')?;
    Ok(line)
}

/// The line that names what failed, with what the words name; nothing if there is no more to tell. The error is out of
/// memory.
fn second_line(alloc: Global, order: &Order<'_>, fault: &Fault) -> Result<Vec<u8>, AllocError>
    ensures { IfOk result (λ line. line.items ≡ second_line (Some order.now.task)
        (file_in order.now) (into_in order.now) fault.now) }
{
    match fault {
        Fault::Log(log) => Ok(wrong(alloc, log)?.into_bytes()),
        Fault::File(step) => {
            Ok(around(alloc, step_head(*step), name_of(order.file), "\n")?.into_bytes())
        }
        Fault::IntoFile(step) => {
            Ok(around(alloc, step_head(*step), name_of(order.into), "\n")?.into_bytes())
        }
        Fault::Net(call) => {
            let mut buffer = Buffer::new();
            let port = buffer.format(port_of(order.task));
            Ok(around(alloc, call_head(*call), port, "\n")?.into_bytes())
        }
        Fault::Lost => Ok(around(alloc, "lost: ", name_of(order.file), "\n")?.into_bytes()),
        Fault::Broken(why) => Ok(String::from_str(alloc, broken_line(*why))?.into_bytes()),
        Fault::Invalid(row) => invalid(alloc, row),
        _ => Ok(Vec::new(alloc)),
    }
}

/// The line of a fault, and a second one if the order asks to explain. The error is out of memory.
fn lines(alloc: Global, order: &Order<'_>, fault: &Fault) -> Result<Vec<u8>, AllocError>
    ensures { IfOk result (λ lines. lines.items ≡ lines_of order.now.is_explained (Some order.now.task)
        (file_in order.now) (into_in order.now) fault.now) }
{
    match fault {
        Fault::Refused(refusal) => Ok(refused(alloc, refusal)?.into_bytes()),
        Fault::Nothing(kind) => Ok(missing_text(alloc, *kind, order.file)?.into_bytes()),
        other => {
            let mut lines = String::from_str(alloc, reason(other))?.into_bytes();
            if order.is_explained {
                lines.extend_from_slice(&second_line(alloc, order, other)?)?;
            }
            Ok(lines)
        }
    }
}

/// The first line of a fault, for which no memory is needed.
fn reason(fault: &Fault) -> &'static str
    ensures { result.now ≡ reason_of fault.now }
{
    match fault {
        Fault::Open(OpenFault::Memory) => "open: memory\n",
        Fault::Open(OpenFault::Disk) | Fault::File(_) | Fault::Log(_) => "open: disk\n",
        Fault::Open(OpenFault::Foreign) => "open: foreign\n",
        Fault::Open(OpenFault::Version) => "open: version\n",
        Fault::Into(CreateFault::Memory) => "into: memory\n",
        Fault::Into(CreateFault::Disk) | Fault::IntoFile(_) => "into: disk\n",
        Fault::Into(CreateFault::Filled) => "into: filled\n",
        Fault::Stream(DeskFault::Read) => "fault: read\n",
        Fault::Stream(DeskFault::Write) | Fault::Unwritten => "fault: write\n",
        Fault::Net(_) => "fault: net\n",
        Fault::Lost => "fault: file\n",
        Fault::Broken(_) => "refused: 35 broken\n",
        Fault::Invalid(_) => "refused: 34 disk\n",
        Fault::Stream(DeskFault::Memory) | Fault::Words | Fault::Refused(_) | Fault::Nothing(_) =>
            "fault: memory\n",
    }
}

/// Writes lines. What a failed write leaves is lost.
fn write_bytes<F: Write>(faults: &mut Counted<F>, lines: &[u8])
    ensures { WritesLines (writing F.contents faults.old faults.new) lines.now }
{
    match write_whole(faults, lines) {
        Ok(()) => {}
        Err(_) => {}
    }
}

/// Writes a line. What a failed write leaves is lost.
pub fn write_line<F: Write>(faults: &mut Counted<F>, line: &str)
    ensures { WritesLines (writing F.contents faults.old faults.new) line.now }
{
    write_bytes(faults, line.as_bytes());
}

/// Writes that there is no register with commands; nothing if no memory is found for the line.
pub fn write_missing<F: Write>(
    alloc: Global,
    faults: &mut Counted<F>,
    kind: Missing,
    file: Option<&str>,
)
    ensures { IsTold (option_map (λ n. n.now) file.entry) kind (writing F.contents faults.old faults.new) }
{
    if let Ok(line) = missing_text(alloc, kind, file) {
        write_line(faults, line.as_str());
    }
}

/// Writes the lines of a fault. If no memory is found for them, the one that needs none.
pub fn write_fault<F: Write>(
    alloc: Global,
    faults: &mut Counted<F>,
    order: &Order<'_>,
    fault: &Fault,
)
    ensures { (lines : List ℕ) × AreLinesOf order.now.is_explained (Some order.now.task) (file_in order.now)
        (into_in order.now) fault.now lines × WritesLines (writing F.contents faults.old faults.new) lines }
{
    match lines(alloc, order, fault) {
        Ok(lines) => write_bytes(faults, &lines),
        Err(_) => write_line(faults, reason(fault)),
    }
}
