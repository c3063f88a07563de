//! The audit of a register, as lines.
ghost use Rattle.std.specs.Prelude.{◌≡◌, ◌⊎◌, false, IfOk, IfErr, OnErr, string_bytes};
ghost use Rattle.sqlite.specs.{Held.state, State.HasCleanDisk};
ghost use Rattle.kcr_desk.specs.Streams.{WritesNothing, writing};
ghost use Rattle.kcr_history.specs.Tables.{Tables};
ghost use Rattle.kcr_store.specs.{Calls.OfHistory, FullView.FindsIn};
ghost use Rattle.kcr_tables.specs.{MachineTables.HoldsTables, Refusals.IsFault};
ghost use Rattle.kcr_tool.specs.Audits.{EndsAudit, WritesAudit, WritesAuditPrefix};
ghost use Rattle.kcr_fault.specs.{Faults.MeetsOver, Faults.StopsReport, Lines.finding_line};

use itoa::Buffer;
use kcr_base::{Counted, Refusal};
use kcr_fault::{Fault, around, numbered};
use kcr_history::Finding;
use kcr_print::write_whole;
use kcr_store::Register;
use sqlite::Alter;
use std::alloc::{AllocError, Global};
use std::io::Write;

/// The line of a finding. The error is out of memory.
fn line_of(alloc: Global, finding: &Finding) -> Result<String, AllocError>
    ensures { IfOk result (λ line. string_bytes line ≡ finding_line finding.now) }
{
    match finding {
        Finding::Seating(ceremony, step) => {
            let subject = numbered(alloc, *ceremony, Buffer::new().format(*step))?;
            around(alloc, "finding: seating ", subject.as_str(), "\n")
        }
        Finding::Custody(item) => around(alloc, "finding: custody ", item.as_str(), "\n"),
        Finding::Bag(serial) => around(alloc, "finding: bag ", serial.as_str(), "\n"),
        Finding::Key(key) => around(alloc, "finding: key ", key.as_str(), "\n"),
        Finding::Lone(ceremony, moment) => {
            let subject = numbered(alloc, *ceremony, moment.code().as_str())?;
            around(alloc, "finding: lone ", subject.as_str(), "\n")
        }
        Finding::Crowd(ceremony, moment) => {
            let subject = numbered(alloc, *ceremony, moment.code().as_str())?;
            around(alloc, "finding: crowd ", subject.as_str(), "\n")
        }
    }
}

/// Writes the line of what an audit found, and returns the exit status: 0 if it found nothing, 1 after a finding.
fn write_audit<W: Write>(
    alloc: Global,
    found: &Option<Finding>,
    output: &mut Counted<W>,
) -> Result<u8, Fault>
    ensures told { IfOk result (WritesAudit found.now (writing W.contents output.old output.new)) }
    ensures part { OnErr result (WritesNothing (writing W.contents output.old output.new)
        ⊎ WritesAuditPrefix (writing W.contents output.old output.new)) }
    ensures cause { IfErr result (StopsReport IsFault (writing W.contents output.old output.new)) }
{
    match found {
        None => match write_whole(output, b"audit: nothing found\n") {
            Ok(()) => Ok(0),
            Err(_) => Err(Fault::Unwritten),
        },
        Some(finding) => {
            let Ok(line) = line_of(alloc, finding) else {
                return Err(Fault::Refused(Refusal::Memory));
            };
            match write_whole(output, line.as_bytes()) {
                Ok(()) => Ok(1),
                Err(_) => Err(Fault::Unwritten),
            }
        }
    }
}

/// Audits all rows of a register: a line with the first finding of the first kind that has one, or that there is
/// none, and the exit status, 1 after a finding. Out of memory is refused (33), as is an I/O error (34) and a
/// broken register (35), and nothing is written then.
#[tactic(auto, using(crate::proofs::Audits::nothing_told))]
pub fn audit<S: Alter, W: Write>(
    alloc: Global,
    register: &mut Register<S>,
    output: &mut Counted<W>,
) -> Result<u8, Fault>
    // What is told is what an audit of the tables that the database holds finds, whoever wrote them.
    ensures ends { EndsAudit (λ _. Unit {0}) (writing W.contents output.old output.new) result }
    ensures found { register.old.is_broken ≡ false → HasCleanDisk (state S.Store register.new.conn) → (m : Tables)
        → HoldsTables m (state S.Store register.old.conn).now
        → EndsAudit (FindsIn m) (writing W.contents output.old output.new) result }

    // In the tables of a history it finds nothing.
    ensures nothing { OfHistory S.Store register.old register.new (λ A. IfOk result (λ status. status ≡ 0)) }
    ensures cause { IfErr result (StopsReport (MeetsOver register.old IsFault)
        (writing W.contents output.old output.new)) }
{
    match register.audit() {
        Ok(found) => write_audit(alloc, &found, output),
        Err(refusal) => Err(Fault::Refused(refusal)),
    }
}
