//! The tasks over a register that end by themselves.
ghost use Rattle.std.specs.Prelude.{◌≡◌, false, IfErr, IfOk};
ghost use Rattle.sqlite.specs.{Files.over_files, Held.state, State.HasCleanDisk, WalFiles.image_at};
ghost use Rattle.kcr_desk.specs.Streams.{streams, writing};
ghost use Rattle.kcr_fault.specs.Faults.{StopsOpening, StopsTask};
ghost use Rattle.kcr_history.specs.History.{History};
ghost use Rattle.kcr_store.specs.{Calls.Leads, Calls.OfHistory, Opening.FilesHoldHistory};
ghost use Rattle.kcr_store.specs.Register.{RegisterHistory, StandsAt, whole};
ghost use Rattle.kcr_tool.specs.Runs.{EndsTask, EndsTaskBy, Reports, RunsTo};
ghost use Rattle.kcr_arguments.specs.declared.words.Report.TheVariants as report;
ghost use Rattle.kcr_arguments.specs.declared.words.Task.TheVariants as task;

use crate::opening::open_file;
use kcr_base::{CeremonyNumber, Counted};
use kcr_desk::serve;
use kcr_fault::Fault;
use kcr_print::{annotated, attendance_csv, custody};
use kcr_store::{FileRegister, Register};
use sqlite::{Alter, Start};
use std::alloc::Global;
use std::io::{Read, Write};

/// Answers the stream of requests by a register that was just opened, and returns the exit status, 0.
pub fn run<S: Alter, R: Read, W: Write>(
    alloc: Global,
    register: &mut Register<S>,
    input: &mut Counted<R>,
    output: &mut Counted<W>,
) -> Result<u8, Fault>
    requires { register.old.is_broken ≡ false }
    ensures ends { EndsTask task.Run (streams R.remaining W.contents input.old input.new output.old output.new) result }
    ensures own { OfHistory S.Store register.old register.new (λ A. EndsTaskBy task.Run A
        (streams R.remaining W.contents input.old input.new output.old output.new) result) }

    // From whatever history the register stood at, a run of the machine answered the input, or a prefix of it after a
    // fault, and the register stands at the history after it.
    ensures led { Leads S.Store register.old register.new (λ s after. RunsTo s after
        (streams R.remaining W.contents input.old input.new output.old output.new) result) }
    ensures cause { IfErr result (StopsTask task.Run
        (streams R.remaining W.contents input.old input.new output.old output.new)) }
{
    match serve(alloc, input, output, register) {
        Ok(_) => Ok(0),
        Err(fault) => Err(Fault::Stream(fault)),
    }
}

/// What a stream over a register in a file came to: the register, and the exit status or a fault.
pub type FileRun<F> = (FileRegister<F>, Result<u8, Fault>);

/// Opens the register in a file, and answers the stream of requests by it. `start` stands for what the file and its log
/// held, which no code can read. The register is handed out, since what its disk does is known at its end only. The
/// faults are those of an opening.
pub fn run_file<B: Start, R: Read, W: Write>(
    rt: &HostRuntime,
    path: &str,
    start: B,
    input: &mut Counted<R>,
    output: &mut Counted<W>,
) -> Result<FileRun<B>, Fault>
    // Of whatever history the two held the tables: as long as the disk returns what was written, the bytes written are
    // the answers of a run of the machine from there, or a prefix of them after a fault, and the register then stands
    // at the history after it.
    ensures led { IfOk result (λ both. HasCleanDisk (state over_files both.0.conn) → (A : History)
        → FilesHoldHistory A (image_at B.Start)
        → (after : RegisterHistory) × StandsAt over_files after both.0 × RunsTo (whole A) after
        (streams R.remaining W.contents input.old input.new output.old output.new) both.1) }

    // Whatever they held, each message got a reply, in their order; after a fault a prefix of these was written, or
    // nothing.
    ensures ends { IfOk result (λ both. EndsTask task.Run
        (streams R.remaining W.contents input.old input.new output.old output.new) both.1) }
    ensures cause { IfOk result (λ both. IfErr both.1 (StopsTask task.Run
        (streams R.remaining W.contents input.old input.new output.old output.new))) }
    ensures unopened { IfErr result (λ why. StopsOpening why × (input.new ≡ input.old) × (output.new ≡ output.old)) }
{
    let mut register = open_file(rt, path, start)?;
    let ended = run(rt.alloc(), &mut register, input, output);
    Ok((register, ended))
}

/// Prints the annotated script of a ceremony.
pub fn print<S: Alter, W: Write>(
    alloc: Global,
    register: &mut Register<S>,
    ceremony: CeremonyNumber,
    output: &mut Counted<W>,
) -> Result<(), Fault>
    ensures { Reports S.Store (report.Print ceremony) register.old register.new (writing W.contents output.old output.new) result }
{
    match annotated(alloc, register, ceremony, output) {
        Ok(()) => Ok(()),
        Err(fault) => Err(Fault::from(fault)),
    }
}

/// Prints the attendance of a ceremony.
pub fn attendance<S: Alter, W: Write>(
    alloc: Global,
    register: &mut Register<S>,
    ceremony: CeremonyNumber,
    output: &mut Counted<W>,
) -> Result<(), Fault>
    ensures { Reports S.Store (report.Attendance ceremony) register.old register.new
        (writing W.contents output.old output.new) result }
{
    match attendance_csv(alloc, register, ceremony, output) {
        Ok(()) => Ok(()),
        Err(fault) => Err(Fault::from(fault)),
    }
}

/// Prints what lies where.
pub fn custody_report<S: Alter, W: Write>(
    alloc: Global,
    register: &mut Register<S>,
    output: &mut Counted<W>,
) -> Result<(), Fault>
    ensures { Reports S.Store report.Custody register.old register.new (writing W.contents output.old output.new) result }
{
    match custody(alloc, register, output) {
        Ok(()) => Ok(()),
        Err(fault) => Err(Fault::from(fault)),
    }
}

/// Prints the accepted commands behind the number `after` up to the number `until` as requests.
pub fn export<S: Alter, W: Write>(
    alloc: Global,
    register: &mut Register<S>,
    after: u32,
    until: u32,
    output: &mut Counted<W>,
) -> Result<(), Fault>
    ensures { Reports S.Store (report.Export after until) register.old register.new
        (writing W.contents output.old output.new) result }
{
    match kcr_print::export(alloc, register, after, until, output) {
        Ok(()) => Ok(()),
        Err(fault) => Err(Fault::from(fault)),
    }
}

/// Prints a line for each accepted command, or for each that names the ceremony.
pub fn journal<S: Alter, W: Write>(
    alloc: Global,
    register: &mut Register<S>,
    ceremony: Option<CeremonyNumber>,
    output: &mut Counted<W>,
) -> Result<(), Fault>
    ensures { Reports S.Store (report.Journal ceremony) register.old register.new (writing W.contents output.old output.new) result }
{
    match kcr_print::journal(alloc, register, ceremony, output) {
        Ok(()) => Ok(()),
        Err(fault) => Err(Fault::from(fault)),
    }
}
