//! A new register, to rebuild another in.
ghost use Rattle.std.specs.Prelude.{◌≡◌, ◌≢◌, false, IfOk, IfErr, MatchResult};
ghost use Rattle.sqlite.specs.{Held.state, State.Survives};
ghost use Rattle.kcr_older.specs.Kind.{no_schema};
ghost use Rattle.kcr_verify.specs.{Fresh.IsNewOf, Verification.IsFresh};

use kcr_base::Refusal;
use kcr_older::{DatabaseKind, database_kind};
use kcr_store::{OpenFault, Register};
use sqlite::{Alter, Connection};
use std::alloc::Global;

/// Why no new register is made.
#[derive(Clone, Copy, Drop)]
pub enum CreateFault {
    /// Out of memory. What was there is as it was.
    Memory,
    /// The device failed, another process has the file open, or it is no database.
    Disk,
    /// The file holds something, and is as it was.
    Filled,
}

fn fault_of(fault: OpenFault) -> CreateFault
    ensures empty { result ≢ CreateFault.Filled }
    ensures disk { fault ≡ OpenFault.Disk → result ≡ CreateFault.Disk }
{
    match fault {
        OpenFault::Memory => CreateFault::Memory,
        _ => CreateFault::Disk,
    }
}

/// Makes the tables of an empty register in a database that has nothing, so that its history is known from the first. A
/// database with anything in it is refused as filled, and given back as it was. After out of memory it is as it was
/// too. After an I/O error it is as it was, or, when it was empty, has the tables of an empty register.
#[tactic(auto, using(crate::proofs::FreshLemmas::has_something))]
pub fn init<S: Alter + Drop>(
    alloc: Global,
    connection: Connection<S>,
) -> Result<Register<S>, (CreateFault, Connection<S>)>
    requires autocommit { connection.in_transaction ≡ false }
    ensures new { IfOk result (IsFresh S.Store) }
    ensures nothing { IfOk result (λ _. (state S.Store connection).now.schema ≡ no_schema) }
    ensures filled { IfErr result (λ e. e.0 ≡ CreateFault.Filled
        → ((state S.Store connection).now.schema ≢ no_schema) × (e.1 ≡ connection)) }

    // A fault changes nothing, but an I/O error may leave an empty database with the tables.
    ensures left { IfErr result (λ e. e.0 ≢ CreateFault.Disk
        → Survives (state S.Store connection) (state S.Store e.1) (λ _. ⊥)) }
    ensures crash { MatchResult result
        (λ r. Survives (state S.Store connection) (state S.Store r.conn) (IsNewOf (state S.Store connection).now))
        (λ e. Survives (state S.Store connection) (state S.Store e.1) (IsNewOf (state S.Store connection).now)) }
{
    match database_kind(alloc, connection.schema()) {
        Ok(DatabaseKind::Empty) => match Register::adopt(alloc, connection) {
            Ok(register) => Ok(register),
            Err((fault, connection)) => Err((fault_of(fault), connection)),
        },
        Ok(_) => Err((CreateFault::Filled, connection)),
        Err(Refusal::Memory) => Err((CreateFault::Memory, connection)),
        Err(_) => Err((CreateFault::Disk, connection)),
    }
}
