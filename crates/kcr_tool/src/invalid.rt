//! The invalid row that stopped a reading of a copy of files.
ghost use Rattle.std.specs.Prelude.{◌≡◌, ◌⊎◌, true, false, Err};
ghost use Rattle.kcr_fault.specs.Faults.{StopsReading};
ghost use Rattle.kcr_tool.specs.Runs.{MayNameRow};
ghost use Rattle.kcr_verify.specs.declared.invalid.InvalidRow.{InvalidRow};

use crate::opening::has_run_out;
use kcr_base::Refusal;
use kcr_edges::CopyConnection;
use kcr_fault::Fault;
use kcr_store::{OpenFault, Register};
use kcr_verify::first_invalid_row;
use sqlite::{Alter, Connection};
use std::alloc::Global;

/// Why a reading was refused as an I/O error is (34): a row is invalid, if one is found.
fn fault_of_refusal<S: Alter>(alloc: Global, connection: &mut Connection<S>) -> Fault
    requires autocommit { connection.old.in_transaction ≡ false }
    ensures { (result ≡ Fault.Refused Refusal.Disk) ⊎ ((row : InvalidRow) × (result ≡ Fault.Invalid row)) }
{
    match first_invalid_row(alloc, connection) {
        Some(row) => Fault::Invalid(row),
        None => Fault::Refused(Refusal::Disk),
    }
}

/// Whether it was refused as an I/O error is (34).
fn is_disk(ended: &Result<u8, Fault>) -> bool
    ensures { result ≡ true → ended.now ≡ Err (Fault.Refused Refusal.Disk) }
{
    matches!(ended, Err(Fault::Refused(Refusal::Disk)))
}

/// The connection of a register, outside a transaction.
fn connection_of<S: Alter>(register: Register<S>) -> Connection<S>
    ensures autocommit { result.in_transaction ≡ false }
{
    // A call that reads the register lets the prover see that it is outside a transaction.
    let _ = register.is_broken();
    register.close()
}

/// How a report of a register ended, which it may have broken. If it was refused as for an I/O error (34), and a row is
/// invalid, the fault has that row.
pub fn with_row<S: Alter + Drop>(
    alloc: Global,
    register: Register<S>,
    ended: Result<u8, Fault>,
) -> Result<u8, Fault>
    ensures { MayNameRow ended result }
{
    let mut connection = connection_of(register);
    if is_disk(&ended) {
        drop(ended);
        Err(fault_of_refusal(alloc, &mut connection))
    } else {
        drop(connection);
        ended
    }
}

/// Why no rows of a copy of files were read, though it has a register: a row is invalid, or the engine told memory that
/// ran out for such a copy as a fault of its disk.
pub fn fault_of_disk(alloc: Global, connection: CopyConnection) -> Fault
    requires autocommit { connection.in_transaction ≡ false }
    ensures { StopsReading result }
{
    let mut connection = connection;
    let fault = fault_of_refusal(alloc, &mut connection);
    let has_run_out = has_run_out(connection);
    match fault {
        Fault::Refused(_) if has_run_out => Fault::Open(OpenFault::Memory),
        other => other,
    }
}
