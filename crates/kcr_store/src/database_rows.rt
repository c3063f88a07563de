//! All rows of a database of any version, which stays as it is.
ghost use Rattle.std.specs.Prelude.{◌≡◌, ◌≢◌, ◌+◌, ◌⊎◌, [], false, Ok, IfOk, IfErr, IsTrue, OnOk};
ghost use Rattle.sqlite.specs.{State.IsLive, Held.state};
ghost use Rattle.kcr_history.specs.{History.History, Tables.Tables, Tables.tables};
ghost use Rattle.kcr_older.specs.OldFiles.{HoldsHistoryAs, HoldsFirst, numbered};
ghost use Rattle.kcr_older.specs.{Kind.IsForeignSchema, Kind.no_schema, Migrated.migrated_tables, Versions.number_of};
ghost use Rattle.kcr_rows.specs.Frame.{IfClean, StaysInTransaction};
ghost use Rattle.kcr_store.specs.{Frame.IfCleanOver, Frame.NeedsOpen, Frame.StaysOutside, Opening.IsAnswer, Opening.IsGenuine, FullView.IsListed};
ghost use Rattle.kcr_store.specs.DatabaseRows.{Gives, GivesCurrent, GivesOlder, GivesOr, IsBroughtView, IsKeptView, IsNumberedView, IsUnread};
ghost use Rattle.kcr_tables.specs.{StoredTables.StoredTables as Held, StoredTables.Holds, MachineTables.HoldsTables, Refusals.IsFault};

use crate::full_view::read_full_view;
use crate::open::{OpenFault, VERSION, expect_number, fault_of, inspect, unknown_database_fault};
use kcr_base::Refusal;
use kcr_history::FullView;
use kcr_older::{DatabaseKind, OldVersion, migrate};
use kcr_tables::make;
use sqlite::{Alter, Connection, Transaction};
use std::alloc::Global;

/// All rows of a new register, whose tables are made for it.
fn empty_register_rows<S: Alter>(
    alloc: Global,
    tx: &mut Transaction<'_, S>,
) -> Result<FullView, Refusal>
    ensures rows { IfClean S.Store tx.old tx.new
        (λ old _. old.now.schema ≡ no_schema → IfOk result (IsListed (tables []))) }
    ensures opened { NeedsOpen S.Store tx.old tx.new result }
    ensures frame { StaysInTransaction S.Store IsFault tx.old tx.new result }
{
    make(tx)?;
    read_full_view(alloc, tx)
}

/// All rows that a register of an older version has once it is migrated to this version.
fn migrated_rows<S: Alter>(
    alloc: Global,
    tx: &mut Transaction<'_, S>,
    from: OldVersion,
) -> Result<FullView, Refusal>
    ensures rows { IfClean S.Store tx.old tx.new (λ old _. (t : Held)
        → HoldsFirst (14 + number_of from) old.now t → t.versions ≡ numbered (number_of from)
        → IfOk result (IsKeptView (migrated_tables from t))) }
    ensures own { IfClean S.Store tx.old tx.new (λ old _. (A : History)
        → HoldsHistoryAs (number_of from) A old.now → IfOk result (IsListed (tables A))) }
    ensures opened { NeedsOpen S.Store tx.old tx.new result }
    ensures frame { StaysInTransaction S.Store IsFault tx.old tx.new result }
{
    migrate(alloc, tx, from)?;
    read_full_view(alloc, tx)
}

/// The rows, or why there are none.
fn given(rows: Result<FullView, Refusal>) -> Result<FullView, OpenFault>
    ensures rows { IfOk result (λ view. rows ≡ Ok view) }
    ensures kind { IfErr result (λ e. (e ≡ OpenFault.Memory) ⊎ (e ≡ OpenFault.Disk)) }
{
    match rows {
        Ok(view) => Ok(view),
        Err(refusal) => Err(fault_of(refusal)),
    }
}

/// All rows of a register of this version, if the database has its number.
fn current_rows<S: Alter>(alloc: Global, tx: &mut Transaction<'_, S>) -> Result<FullView, OpenFault>
    ensures gives { IfClean S.Store tx.old tx.new (λ old _. IsLive old → GivesCurrent old.now result) }
    ensures opened { NeedsOpen S.Store tx.old tx.new result }
    ensures frame { StaysInTransaction S.Store (λ _. Unit {0}) tx.old tx.new result }
{
    match expect_number(alloc, tx, VERSION) {
        Ok(()) => given(read_full_view(alloc, tx)),
        Err(fault) => Err(fault),
    }
}

/// All rows that a register of an older version has once it is migrated to this version, if the database has its number.
fn older_rows<S: Alter>(
    alloc: Global,
    tx: &mut Transaction<'_, S>,
    from: OldVersion,
) -> Result<FullView, OpenFault>
    ensures gives { IfClean S.Store tx.old tx.new (λ old _. IsLive old → GivesOlder from old.now result) }
    ensures opened { NeedsOpen S.Store tx.old tx.new result }
    ensures frame { StaysInTransaction S.Store (λ _. Unit {0}) tx.old tx.new result }
{
    match expect_number(alloc, tx, from.number()) {
        Ok(()) => given(migrated_rows(alloc, tx, from)),
        Err(fault) => Err(fault),
    }
}

/// All rows of a database of this standing. What it makes for that is in the transaction, and the caller rolls it back.
fn rows_as<S: Alter>(
    alloc: Global,
    tx: &mut Transaction<'_, S>,
    standing: DatabaseKind,
) -> Result<FullView, OpenFault>
    ensures gives { IfClean S.Store tx.old tx.new (λ old _. IsLive old → Gives standing old.now result) }
    ensures opened { NeedsOpen S.Store tx.old tx.new result }
    ensures read { IfOk result (λ _. ¬ IsUnread standing) }
    ensures frame { StaysInTransaction S.Store (λ _. Unit {0}) tx.old tx.new result }
{
    match standing {
        DatabaseKind::Empty => given(empty_register_rows(alloc, tx)),
        DatabaseKind::Current => current_rows(alloc, tx),
        DatabaseKind::Version2 => older_rows(alloc, tx, OldVersion::V2),
        DatabaseKind::Version1 => older_rows(alloc, tx, OldVersion::V1),
        DatabaseKind::Versioned | DatabaseKind::Foreign => Err(OpenFault::Foreign),
    }
}

/// The same in a transaction that is rolled back.
fn rows_then_rollback<S: Alter>(
    alloc: Global,
    conn: &mut Connection<S>,
    standing: DatabaseKind,
) -> Result<FullView, OpenFault>
    requires autocommit { conn.old.in_transaction ≡ false }
    ensures gives { IfCleanOver S.Store conn.old conn.new (λ old _. IsLive old → Gives standing old.now result) }
    ensures opened { IfCleanOver S.Store conn.old conn.new (λ old _. OnOk result (IsTrue old.is_open)) }
    ensures read { IfOk result (λ _. ¬ IsUnread standing) }
    ensures frame { StaysOutside S.Store (λ _. ⊥) conn.old conn.new }
{
    let mut tx = conn.transaction();
    let rows = rows_as(alloc, &mut tx, standing);
    tx.rollback();
    rows
}

/// All rows of the register that a database holds, each table's in the order of their keys; their memory grows with
/// their number. Nothing is committed, so the database stays as it is: a register of version 1 or 2 is migrated
/// in a transaction that is rolled back, and of a database with nothing the rows are those of a new register.
/// The faults are those of `Register::adopt`; `Disk` comes also for an invalid row.
pub fn read_tables<S: Alter>(alloc: Global, conn: &mut Connection<S>) -> Result<FullView, OpenFault>
    requires autocommit { conn.old.in_transaction ≡ false }

    // Where the database is that of a history, in whichever version, the rows are its tables.
    ensures own { IfCleanOver S.Store conn.old conn.new
        (λ old _. (A : History) → IsGenuine A old → IfOk result (IsListed (tables A))) }
    ensures taken { IfCleanOver S.Store conn.old conn.new (λ old _. IsTrue old.is_open → (A : History) → IsGenuine A old
        → IfErr result (λ e. (e ≡ OpenFault.Memory) ⊎ (e ≡ OpenFault.Disk))) }

    // Whoever wrote them, they are the rows that the database holds. Those of an older version are migrated.
    ensures rows { IfCleanOver S.Store conn.old conn.new
        (λ old _. (m : Tables) → HoldsTables m old.now → IfOk result (IsListed m)) }
    ensures version { IfCleanOver S.Store conn.old conn.new (λ old _. (t : Held) → Holds old.now t
        → GivesOr (t.versions ≢ numbered 3) (IsNumberedView t) result) }
    ensures older { IfCleanOver S.Store conn.old conn.new (λ old _. (from : OldVersion) → (t : Held)
        → HoldsFirst (14 + number_of from) old.now t
        → GivesOr (t.versions ≢ numbered (number_of from)) (IsBroughtView from t) result) }

    // What is taken, and each refusal, is what its name says, and no database is two of these.
    ensures answer { IfCleanOver S.Store conn.old conn.new (λ old _. IsAnswer old.now result) }
    ensures known { IfOk result (λ _. ¬ IsForeignSchema (state S.Store conn.old).now.schema) }
    ensures frame { StaysOutside S.Store (λ _. ⊥) conn.old conn.new }
{
    let is_settled = conn.is_autocommit();
    prove!(is_settled);
    match inspect(alloc, conn)? {
        DatabaseKind::Versioned => Err(unknown_database_fault(alloc, conn)),
        standing => rows_then_rollback(alloc, conn, standing),
    }
}
