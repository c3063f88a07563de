//! What the program does with its words.
ghost use Rattle.std.specs.Prelude.{◌≡◌, ◌≢◌, ◌≤◌, ◌⊎◌, [], true, false, Some, None, IsSome, IsTrue, IfOk, IfErr, IfSome, option_map};
ghost use Rattle.sqlite.specs.Steps.{over_memory};
ghost use Rattle.kcr_desk.specs.Streams.{IsUntouched, WritesNothing, streams, writing};
ghost use Rattle.kcr_fault.specs.declared.fault.Fault.{Fault as WhyNot};
ghost use Rattle.kcr_fault.specs.Faults.{HasCause, IsMissing, IsNoted, IsNotedOf, MayMeet, MayNote, StopsOpening, StopsReport, TellsFault};
ghost use Rattle.kcr_tool.specs.Runs.{Completes, CompletesInPart, CompletesUnknown, CompletesUnknownInPart, EndsReport};
ghost use Rattle.kcr_tool.specs.Runs.{EndsReportBy, EndsTask, EndsTaskBy, OfTask, WritesProblem, StopsCopied};
ghost use Rattle.kcr_edges.specs.Image.{image};
ghost use Rattle.kcr_history.specs.History.{History};
ghost use Rattle.kcr_store.specs.{Calls.OfHistory, Opening.FilesHoldHistory};
ghost use Rattle.kcr_verify.specs.Verification.{IsFresh};
ghost use Rattle.kcr_arguments.specs.Tasks.{task_of, file_in, file_of, into_of, faults_of, is_explained, names_companion, said};

use crate::audit::audit;
use crate::invalid::with_row;
use crate::listen::{listen, serve_file};
use crate::opening::{copy_at, copy_named, open_copied, require_file};
use crate::pack::{pack, read_packed};
use crate::tasks::{attendance, custody_report, export, journal, print, run, run_file};
use crate::verify::{rebuild, rows_of, verify_copied};
use kcr_arguments::{Order, Report, Task, WordsFault, read_words};
use kcr_base::Counted;
use kcr_edges::Copied;
use kcr_fault::{Fault, Missing, name_of, write_fault, write_line, write_missing};
use kcr_store::{OpenFault, Register};
use sqlite::{Alter, MemStore, Start};
use std::alloc::Global;
use std::io::{Read, Write};

/// Writes a report of a register that was just opened, and returns the exit status: 0, or 1 after a finding.
#[tactic(auto, using(crate::proofs::Causes::report_stops, crate::proofs::Audits::audit_ends, crate::proofs::Audits::audit_ends_by))]
fn write_report<S: Alter, W: Write>(
    alloc: Global,
    register: &mut Register<S>,
    report: Report,
    output: &mut Counted<W>,
) -> Result<u8, Fault>
    requires { register.old.is_broken ≡ false }
    ensures ends { EndsReport report (writing W.contents output.old output.new) result }
    ensures own { OfHistory S.Store register.old register.new
        (λ A. EndsReportBy report A (writing W.contents output.old output.new) result) }
    ensures cause { IfErr result (StopsReport (MayMeet (Task.Write report))
        (writing W.contents output.old output.new)) }
{
    match report {
        Report::Print(ceremony) => {
            print(alloc, register, ceremony, output)?;
            Ok(0)
        }
        Report::Attendance(ceremony) => {
            attendance(alloc, register, ceremony, output)?;
            Ok(0)
        }
        Report::Custody => {
            custody_report(alloc, register, output)?;
            Ok(0)
        }
        Report::Export(after, until) => {
            export(alloc, register, after, until, output)?;
            Ok(0)
        }
        Report::Journal(ceremony) => {
            journal(alloc, register, ceremony, output)?;
            Ok(0)
        }
        Report::Audit => audit(alloc, register, output),
    }
}

/// An empty register in memory. Memory has no device: an opening fails only for memory.
fn in_memory(alloc: Global) -> Result<Register<MemStore>, Fault>
    ensures new { IfOk result (IsFresh over_memory) }
    ensures unbroken { IfOk result (λ r. r.is_broken ≡ false) }
    ensures cause { IfErr result (λ why. why ≡ Fault.Open OpenFault.Memory) }
{
    match Register::in_memory(alloc) {
        Ok(register) => Ok(register),
        Err(_) => Err(Fault::Open(OpenFault::Memory)),
    }
}

/// Whether notes are told: if the order asks to explain, or if the task is done.
fn may_note(is_explained: bool, ended: &Result<u8, Fault>) -> bool
    ensures { IsTrue result → MayNote is_explained ended.now }
{
    match ended {
        Ok(0) => true,
        _ => is_explained,
    }
}

/// Tells what is there in place of a register with commands, if anything is and if it may be told.
#[tactic(auto, using(crate::proofs::Notes::told_of))]
fn note<F: Write>(
    alloc: Global,
    file: Option<&str>,
    missing: Option<Missing>,
    is_told: bool,
    faults: &mut Counted<F>,
)
    requires { IfSome missing (IsMissing (option_map (λ name. name.now) file)) }
    ensures { IsNotedOf (IsTrue is_told) (option_map (λ name. name.now) file.entry)
        (writing F.contents faults.old faults.new) }
{
    if let Some(kind) = missing {
        if is_told {
            write_missing(alloc, faults, kind, file);
        }
    }
}

/// Does a task over a register in memory, which is empty at first. A report says so on `faults`. Those that verify or
/// make a register want one with commands, and so a file.
#[tactic(auto, using(crate::proofs::Causes::task_cause, crate::proofs::Causes::report_cause, crate::proofs::Causes::serving_cause))]
fn act_in_memory<R: Read, W: Write, F: Write>(
    rt: &HostRuntime,
    order: &Order<'_>,
    input: &mut Counted<R>,
    output: &mut Counted<W>,
    faults: &mut Counted<F>,
) -> Result<u8, Fault>
    ensures ends { EndsTask order.now.task
        (streams R.remaining W.contents input.old input.new output.old output.new) result }
    ensures own { EndsTaskBy order.now.task []
        (streams R.remaining W.contents input.old input.new output.old output.new) result }
    ensures cause { IfErr result (HasCause (Some order.now.task) None
        (streams R.remaining W.contents input.old input.new output.old output.new)) }
    ensures noted { IsNoted (MayNote order.now.is_explained result) (Some order.now.task) None
        (writing F.contents faults.old faults.new) }
{
    match order.task {
        Task::Run => {
            let mut register = in_memory(rt.alloc())?;
            run(rt.alloc(), &mut register, input, output)
        }
        Task::Serve(serving) => {
            let mut register = in_memory(rt.alloc())?;
            listen(rt, serving, None, &mut register, output)?;
            Ok(0)
        }
        Task::Write(report) => {
            let mut register = in_memory(rt.alloc())?;
            let ended = write_report(rt.alloc(), &mut register, report, output);
            let is_told = may_note(order.is_explained, &ended);
            note(rt.alloc(), None, Some(Missing::Unnamed), is_told, faults);
            ended
        }
        Task::Verify | Task::Rebuild | Task::Pack => Err(Fault::Nothing(Missing::Unnamed)),
    }
}

/// Writes a report of the register in a copy of the files at the path, and returns the exit status: 0, or 1 after a
/// finding. If the report is done, or if notes are asked for, it says on `faults` if the file is not there or has no
/// command. If it is refused as for an I/O error (34), the fault has the first invalid row.
#[tactic(auto, using(crate::proofs::Causes::report_cause, crate::proofs::Causes::opening_cause, crate::proofs::Causes::unfilled_of))]
pub fn report_copied<W: Write, F: Write>(
    alloc: Global,
    copy: Copied,
    path: &str,
    report: Report,
    is_explained: bool,
    output: &mut Counted<W>,
    faults: &mut Counted<F>,
) -> Result<u8, Fault>
    // Of whatever history the bytes that were read are the tables, the report is that history's (an export or a journal
    // if its commands are values), or a prefix of it was written before a fault.
    ensures own { (A : History) → FilesHoldHistory A (image copy.log.items copy.file.items)
        → EndsReportBy report A (writing W.contents output.old output.new) result }

    // Whatever they hold: of an audit the line, or some finding; after a fault a prefix, or nothing.
    ensures ends { EndsReport report (writing W.contents output.old output.new) result }
    ensures cause { IfErr result (StopsCopied report (writing W.contents output.old output.new)) }
    ensures noted { IsNotedOf (MayNote is_explained result) (Some path.now)
        (writing F.contents faults.old faults.new) }
{
    let (mut register, missing) = open_copied(alloc, copy)?;
    let ended = write_report(alloc, &mut register, report, output);
    let is_told = may_note(is_explained, &ended);
    note(alloc, Some(path), missing, is_told, faults);
    with_row(alloc, register, ended)
}

/// Copies the files at the path for a report. Those of the program's own kinds want a file that is there.
fn copy_for(rt: &HostRuntime, path: &str, report: Report) -> Result<Copied, Fault>
    ensures cause { IfErr result StopsOpening }
{
    match report {
        Report::Export(_, _) | Report::Journal(_) => copy_named(rt, path),
        _ => copy_at(rt, path),
    }
}

/// Does a task over the register in a file. `run` and `serve` open the file; all others read a copy of it in memory,
/// and the file stays as it is, whoever has it open. A task that makes a new register makes it in the file that the
/// order names. `start` stands for what the file and its log held.
#[tactic(auto, using(crate::proofs::Causes::task_cause, crate::proofs::Causes::report_cause, crate::proofs::Causes::serving_cause, crate::proofs::Causes::opening_cause, crate::proofs::Causes::copied_cause, crate::proofs::Causes::verification_cause, crate::proofs::Notes::noted_by))]
fn act_on_file<B: Start, R: Read, W: Write, F: Write>(
    rt: &HostRuntime,
    path: &str,
    start: B,
    order: &Order<'_>,
    input: &mut Counted<R>,
    output: &mut Counted<W>,
    faults: &mut Counted<F>,
) -> Result<u8, Fault>
    ensures ends { EndsTask order.now.task
        (streams R.remaining W.contents input.old input.new output.old output.new) result }
    ensures cause { IfErr result (HasCause (Some order.now.task) (Some path.now)
        (streams R.remaining W.contents input.old input.new output.old output.new)) }
    ensures noted { IsNoted (MayNote order.now.is_explained result) (Some order.now.task) (Some path.now)
        (writing F.contents faults.old faults.new) }
{
    let into = name_of(order.into);
    match order.task {
        Task::Run => {
            if order.is_existing {
                require_file(rt, path)?;
            }
            let (_, ended) = run_file(rt, path, start, input, output)?;
            ended
        }
        Task::Serve(serving) => {
            if order.is_existing {
                require_file(rt, path)?;
            }
            let (_, served) = serve_file(rt, path, start, serving, output)?;
            served?;
            Ok(0)
        }
        Task::Write(report) => {
            let copy = copy_for(rt, path, report)?;
            report_copied(
                rt.alloc(),
                copy,
                path,
                report,
                order.is_explained,
                output,
                faults,
            )
        }
        Task::Verify => verify_copied(rt.alloc(), copy_named(rt, path)?, output),
        Task::Rebuild => {
            let rows = rows_of(rt.alloc(), copy_named(rt, path)?)?;
            rebuild(rt, rows, into, output)
        }
        Task::Pack => pack(rt, &read_packed(rt, path)?, into, output),
    }
}

/// Does the task of an order.
fn run_invocation<B: Start, R: Read, W: Write, F: Write>(
    rt: &HostRuntime,
    start: B,
    order: &Order<'_>,
    input: &mut Counted<R>,
    output: &mut Counted<W>,
    faults: &mut Counted<F>,
) -> Result<u8, Fault>
    ensures ends { EndsTask order.now.task
        (streams R.remaining W.contents input.old input.new output.old output.new) result }
    ensures own { order.now.file ≡ None → EndsTaskBy order.now.task []
        (streams R.remaining W.contents input.old input.new output.old output.new) result }
    ensures cause { IfErr result (HasCause (Some order.now.task) (file_in order.now)
        (streams R.remaining W.contents input.old input.new output.old output.new)) }
    ensures noted { IsNoted (MayNote order.now.is_explained result) (Some order.now.task) (file_in order.now)
        (writing F.contents faults.old faults.new) }
{
    match order.file {
        Some(path) => act_on_file(rt, path, start, order, input, output, faults),
        None => act_in_memory(rt, order, input, output, faults),
    }
}

/// What is said of a new register's file that is named as sqlite names one beside another.
const COMPANION: &str =
    "error: a name that ends in -journal, -wal or -shm is that of a file beside another\n";

/// Does what the words say, the first of which is the program's name, and returns the exit status: 0 if all went
/// well (refusals within a stream are answers), 1 after a finding, or after a line on `faults` that says why the task
/// was not done to its end, 2 if the words are refused or ask for help or the version, with what `clap` says on
/// `faults`. The words are read first, then the file is opened or read, then the port is taken. A report that is done
/// says on `faults` if there is no register or one without commands. With `--explain` it says so before a refusal too,
/// and a second line names what failed.
///
/// Clauses about output hold only for readers and writers that expose their bytes: slices and vectors do; files,
/// sockets and terminals do not. `start` stands for what a register's file and its log held: see `run_file`.
pub fn act<B: Start, R: Read, W: Write, F: Write>(
    rt: &HostRuntime,
    start: B,
    words: &[String],
    input: &mut Counted<R>,
    output: &mut Counted<W>,
    faults: &mut Counted<F>,
) -> u8
    ensures status { result ≤ 2 }

    // All went well: the words are a task, and what was written is what it says. Over a register in memory that is by
    // its history, which was empty; over a file, of whose past nothing is known, each message got a reply by a register
    // that nothing had broken before.
    ensures done { result ≡ 0 → file_of (said words.now) ≡ None → OfTask words.now (λ task. Completes task []
        (streams R.remaining W.contents input.old input.new output.old output.new)) }
    ensures answered { result ≡ 0 → OfTask words.now (λ task. CompletesUnknown task
        (streams R.remaining W.contents input.old input.new output.old output.new)) }

    // A report may tell that the register is missing, and nothing else stands on `faults` if all went well.
    ensures noted { result ≡ 0 → IsNoted (Unit {0}) (task_of (said words.now)) (file_of (said words.now))
        (writing F.contents faults.old faults.new) }

    // Something was found wrong in a file, and its line stands on the output; or a fault stopped the task. Then its
    // line stands on `faults`, or its lines with `--explain`, unless a write to `faults` failed. It is a fault that this
    // task can have: it says that a read or a write failed only if one did.
    ensures cause { result ≡ 1
        → (IsSome (file_of (said words.now))
        × OfTask words.now (λ task. WritesProblem task (writing W.contents output.old output.new))
        × IsNoted (IsTrue (is_explained (said words.now))) (task_of (said words.now)) (file_of (said words.now))
        (writing F.contents faults.old faults.new))
        ⊎ ((why : WhyNot) × TellsFault (is_explained (said words.now)) (task_of (said words.now))
        (file_of (said words.now)) (into_of (said words.now)) why (writing F.contents faults.old faults.new)
        × HasCause (task_of (said words.now)) (file_of (said words.now))
        (streams R.remaining W.contents input.old input.new output.old output.new) why) }

    // Then nothing was written, or a prefix of a line or a text that the task may write.
    ensures part { result ≡ 1 → file_of (said words.now) ≡ None
        → WritesNothing (writing W.contents output.old output.new)
        ⊎ OfTask words.now (λ task. CompletesInPart task []
        (streams R.remaining W.contents input.old input.new output.old output.new)) }
    ensures answered_in_part { result ≡ 1
        → OfTask words.now (λ task. WritesProblem task (writing W.contents output.old output.new))
        ⊎ (WritesNothing (writing W.contents output.old output.new)
        ⊎ OfTask words.now (λ task. CompletesUnknownInPart task
        (streams R.remaining W.contents input.old input.new output.old output.new))) }

    // The words are no task, or name a new register's file as sqlite names one beside another: nothing was read or
    // written.
    ensures refused { result ≡ 2
        → ((faults_of (said words.now) ≢ []) ⊎ (names_companion (into_of (said words.now)) ≡ true))
        × IsUntouched (streams R.remaining W.contents input.old input.new output.old output.new) }
{
    match read_words(rt.alloc(), words) {
        Ok(order) => match run_invocation(rt, start, &order, input, output, faults) {
            Ok(status) => status,
            Err(fault) => {
                write_fault(rt.alloc(), faults, &order, &fault);
                1
            }
        },
        Err(WordsFault::Line(text)) => {
            drop(start);
            write_line(faults, text.as_str());
            2
        }
        Err(WordsFault::Companion) => {
            drop(start);
            write_line(faults, COMPANION);
            2
        }
        Err(WordsFault::Memory) => {
            drop(start);
            write_line(faults, "fault: memory\n");
            1
        }
    }
}
