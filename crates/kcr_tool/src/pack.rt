//! A register's file and its log, packed into one file.
ghost use Rattle.std.specs.Prelude.{IfErr};
ghost use Rattle.kcr_desk.specs.Streams.{writing};
ghost use Rattle.kcr_fault.specs.Faults.{StopsMaking, StopsOpening, StopsReading, StopsRebuild};
ghost use Rattle.kcr_tool.specs.{Runs.Finishes, Verifications.WritesVerified, Verifications.TellsWholeFront};
ghost use Rattle.kcr_fault.specs.Lines.{packed_head};

use crate::opening::{copy_named, fault_of_reading, files_at, take_copied};
use crate::place::{place_at, remove_log, take_back};
use crate::verify::write_verification;
use kcr_base::Counted;
use kcr_edges::{Copied, Unmade, connect, fill, play_in};
use kcr_fault::{Fault, Missing, Step};
use kcr_store::OpenFault;
use kcr_verify::{CreateFault, Verification};
use sqlite::{Files, Start, Unknown};
use sqlite_disk::Memory;
use std::alloc::{AllocError, Global};
use std::io::Write;

/// One file with everything that a register's file and its log hold, in memory.
#[derive(Drop)]
pub struct Packed {
    files: Files<Memory>,
    /// How many commands it has.
    count: u32,
}

/// The bytes of a file without a log.
fn alone(alloc: Global, bytes: &[u8]) -> Result<Copied, AllocError> {
    let mut file = Vec::new(alloc);
    file.extend_from_slice(bytes)?;
    Ok(Copied {
        file,
        log: Vec::new(alloc),
        is_there: true,
    })
}

/// How many commands the register has that these bytes are. The faults are those of an opening.
fn commands_in(alloc: Global, bytes: &[u8]) -> Result<u32, Fault>
    ensures cause { IfErr result StopsOpening }
{
    let Ok(copy) = alone(alloc, bytes) else {
        return Err(Fault::Open(OpenFault::Memory));
    };
    let connection = match connect(alloc, copy) {
        Ok(connection) => connection,
        Err(unread) => return Err(fault_of_reading(unread)),
    };
    let register = take_copied(alloc, connection)?;
    Ok(register.last_number())
}

/// Reads the file at a path and its log, as they were at one moment, and plays the log into the file: in memory, so
/// that both stay as they are. What comes of it is opened as a register, whichever version it is of.
#[tactic(auto, using(crate::proofs::Causes::opening_reads))]
pub fn read_packed(rt: &HostRuntime, path: &str) -> Result<Packed, Fault>
    ensures cause { IfErr result StopsReading }
{
    let copy = copy_named(rt, path)?;
    let files = match play_in(rt.alloc(), copy) {
        Ok(files) => files,
        Err(unread) => return Err(fault_of_reading(unread)),
    };
    let count = commands_in(rt.alloc(), files.db.bytes())?;
    if count == 0 {
        return Err(Fault::Nothing(Missing::Empty));
    }
    Ok(Packed { files, count })
}

/// Writes the bytes of a new file at the path, where there is none or it holds nothing, and waits until they are safe.
/// `start` stands for what the file held.
fn make<S: Start>(rt: &HostRuntime, path: &str, start: S, bytes: &[u8]) -> Result<(), Fault>
    ensures cause { IfErr result StopsMaking }
{
    let mut files = match files_at(rt, path, start) {
        Ok(files) => files,
        Err(Some(step)) => return Err(Fault::IntoFile(step)),
        Err(None) => return Err(Fault::Into(CreateFault::Memory)),
    };
    let outcome = fill(&mut files, bytes);
    // Both files are locked until they are dropped, so nobody writes to the log meanwhile.
    let _ = remove_log(rt, path);
    match outcome {
        Ok(()) => Ok(()),
        Err(Unmade::Filled) => Err(Fault::Into(CreateFault::Filled)),
        Err(Unmade::Failed) => Err(Fault::IntoFile(Step::Reading)),
    }
}

/// Writes a packed register into the file at the path, where there is none or it holds nothing, and a line that says
/// how many commands it has. The faults are those of `pack`.
#[tactic(auto, using(crate::proofs::Causes::making_stops, crate::proofs::Causes::replay_stops))]
fn pack_into<W: Write>(
    rt: &HostRuntime,
    packed: &Packed,
    path: &str,
    output: &mut Counted<W>,
) -> Result<u8, Fault>
    ensures ends { Finishes (WritesVerified packed_head (writing W.contents output.old output.new))
        (TellsWholeFront packed_head (writing W.contents output.old output.new))
        (writing W.contents output.old output.new) result }
    ensures cause { IfErr result (StopsRebuild (writing W.contents output.old output.new)) }
{
    make(rt, path, Unknown, packed.files.db.bytes())?;
    let whole = Verification::Verified(packed.count as usize);
    write_verification(rt.alloc(), "packed: ", &whole, output)
}

/// Writes a packed register into the file at the path, where there is none or it holds nothing, and a line that says
/// how many commands it has. Where the file cannot be made, nothing is written, and a file without a byte that was made
/// for it is taken away.
pub fn pack<W: Write>(
    rt: &HostRuntime,
    packed: &Packed,
    path: &str,
    output: &mut Counted<W>,
) -> Result<u8, Fault>
    ensures ends { Finishes (WritesVerified packed_head (writing W.contents output.old output.new))
        (TellsWholeFront packed_head (writing W.contents output.old output.new))
        (writing W.contents output.old output.new) result }
    ensures cause { IfErr result (StopsRebuild (writing W.contents output.old output.new)) }
{
    let before = place_at(rt, path);
    let ended = pack_into(rt, packed, path, output);
    take_back(rt, path, before, &ended);
    ended
}
