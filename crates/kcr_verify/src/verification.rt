//! The verification of a register.
ghost use Rattle.std.specs.Prelude.{◌≡◌, IfOk, IfErr, length};
ghost use Rattle.sqlite.specs.Steps.{over_memory};
ghost use Rattle.kcr_history.specs.{History.History, Tables.tables, Machine.IsOfMachine, Machine.IsRegister};
ghost use Rattle.kcr_store.specs.FullView.{IsListed};
ghost use Rattle.kcr_tables.specs.Refusals.{IsFault};
ghost use Rattle.kcr_verify.specs.Verification.{AreValues, EndsAt, IsFresh, IsToldOf, IsVerification, Rebuilds, StaysIntact};

use crate::compare::{RowDifference, TableName, first_difference};
use crate::replay::replay;
use crate::sort::sort_by_number;
use kcr_base::{Refusal, Text};
use kcr_history::FullView;
use kcr_store::{OpenFault, Register};
use sqlite::{Alter, MemStore};
use std::alloc::Global;

/// What is not as the commands say: `found` is stored.
#[derive(Drop)]
pub enum Difference {
    /// No accepted command has the number `place`, counted from 1, or several have the one before it. The command in this
    /// place has the other number.
    Number {
        place: usize,
        found: u32,
    },
    /// This text of the command with this number is no command's.
    Command {
        number: u32,
        found: Text,
    },
    /// The command with this number is refused so after those before it. It is stored with this reply.
    Refused {
        number: u32,
        refusal: Refusal,
        found: Text,
    },
    /// The command with this number gets the reply `expected`, and is stored with another. If that one names other
    /// people, `is_seating` says whether they fill the seats of the command.
    Reply {
        number: u32,
        expected: Text,
        found: Text,
        is_seating: Option<bool>,
    },
    /// The rows of a table are not those that the commands lead to, and this is the first one that differs.
    Rows(TableName, RowDifference),
}

/// The result of a verification.
#[derive(Drop)]
pub enum Verification {
    /// The tables are those of the register's own commands. There are this many.
    Verified(usize),
    /// The first thing that is not so.
    Differs(Difference),
}

/// An empty register in memory.
fn empty(alloc: Global) -> Result<Register<MemStore>, Refusal>
    ensures new { IfOk result (IsFresh over_memory) }
    ensures cause { IfErr result IsFault }
{
    match Register::in_memory(alloc) {
        Ok(register) => Ok(register),
        Err(OpenFault::Memory) => Err(Refusal::Memory),
        Err(_) => Err(Refusal::Disk),
    }
}

/// Gives the commands among these rows, which are those of a register, to an empty register, `fresh`, and compares its
/// tables with the rows, one table after the other.
///
/// Whatever is said of where the rows come from, the fresh register stands at no command by its making, so all that is
/// promised of a register holds of it with no premise about them. After `Verified` its tables are the rows. After a difference it
/// has the commands before the one that is named, that one too if its reply differs, and all of them if a table
/// does.
/// Beside out of memory (33) it meets only a fault of the fresh register's device (34), which breaks that register;
/// what was accepted before stays in it.
pub fn rebuild<S: Alter>(
    alloc: Global,
    rows: FullView,
    fresh: &mut Register<S>,
) -> Result<Verification, Refusal>
    // The fresh register is not broken, and stands at no command.
    requires { IsFresh S.Store fresh.old }

    // If its device returned what was written, the fresh register stands at a history that the machine leads to, of
    // which all this is so.
    ensures led { EndsAt S.Store fresh.new (λ B. Rebuilds rows B result) }

    // Only a fault breaks it: out of memory or one of its device.
    ensures frame { StaysIntact S.Store fresh.old fresh.new result }
{
    let mut rows = rows;
    sort_by_number(&mut rows.keys);
    if let Some(difference) = replay(alloc, &rows.keys, fresh)? {
        return Ok(Verification::Differs(difference));
    }
    Ok(match first_difference(alloc, fresh, &rows)? {
        Some((table, row)) => Verification::Differs(Difference::Rows(table, row)),
        None => Verification::Verified(rows.keys.len()),
    })
}

/// Gives the commands among these rows, which are those of a register, to an empty register in memory, and compares the
/// tables.
///
/// Where it answers `Verified`, the rows are the tables of a history that the machine leads to, whoever wrote them, and
/// the accepted commands are that history's. Its time grows with the number of rows, and its memory too: beside `rows`
/// it holds the register in memory, and of that one table's rows. It meets only out of memory (33), which the store in
/// memory may tell as an I/O error (34).
pub fn verify(alloc: Global, rows: FullView) -> Result<Verification, Refusal>
    ensures told { IfOk result (λ told. (A : History) × IsVerification rows A told) }

    // Of a history that the machine leads to, with commands of values, nothing differs.
    ensures own { (A : History) → IsOfMachine A → AreValues A → IsListed (tables A) rows
        → IfOk result (λ told. told ≡ Verification.Verified (length A)) }

    // Of a register's history with commands of values, the reply of the first command differs whose recorded seating is
    // not the first one; if there is none, nothing does.
    ensures register { (A : History) → IsRegister A → AreValues A → IsListed (tables A) rows
        → IfOk result (IsToldOf A) }
    ensures cause { IfErr result IsFault }
{
    let mut fresh = empty(alloc)?;
    rebuild(alloc, rows, &mut fresh)
}
