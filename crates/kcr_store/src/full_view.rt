//! All rows of a register's tables, and what an audit finds in them.
ghost use Rattle.std.specs.Prelude.{◌≡◌, false, None, IfOk};
ghost use Rattle.kcr_history.specs.{Machine.IsRegister, Tables.Tables, Tables.tables};
ghost use Rattle.kcr_tables.specs.{StoredTables.StoredTables as Held, Frame.OfTables, Frame.Reads, MachineTables.HoldsTables, Refusals.IsFault};
ghost use Rattle.kcr_rows.specs.Frame.{ImpliesOpen};
ghost use Rattle.kcr_store.specs.Frame.{IfCleanOver, OfDurable, OnlyReads};
ghost use Rattle.kcr_store.specs.FullView.{FindsIn, IsListed, AreRows, Lists};

use kcr_audit::audit;
use kcr_base::Refusal;
use kcr_history::{Finding, FullView, View};
use kcr_tables::{TableRow, all_rows};
use sqlite::{Alter, Connection, Transaction};
use std::alloc::Global;

/// Rows that are read whole: those of a table, or of several.
trait ReadAll: Drop {
    /// That they are all rows of these tables, each table's in the order of their keys.
    ghost are_all: { Held → Self → Type 0 };

    /// All rows. Nothing is changed; the errors are those of `all_rows`.
    fn read_all<S: Alter>(alloc: Global, tx: &mut Transaction<'_, S>) -> Result<Self, Refusal>
        ensures rows { OfTables S.Store tx.old tx.new result are_all }
        ensures opened { ImpliesOpen S.Store tx.old tx.new result }
        ensures frame { Reads S.Store tx.old tx.new result };
}

impl<T: TableRow> ReadAll for Vec<T> {
    ghost are_all = { λ t rows. rows.items ≡ T.table.rows_in t };

    fn read_all<S: Alter>(alloc: Global, tx: &mut Transaction<'_, S>) -> Result<Vec<T>, Refusal> {
        all_rows(alloc, tx)
    }
}

impl<A: ReadAll, B: ReadAll> ReadAll for (A, B) {
    ghost are_all = { λ t both. A.are_all t both.0 × B.are_all t both.1 };

    fn read_all<S: Alter>(alloc: Global, tx: &mut Transaction<'_, S>) -> Result<(A, B), Refusal> {
        let ones = A::read_all(alloc, tx)?;
        let others = B::read_all(alloc, tx)?;
        Ok((ones, others))
    }
}

/// All rows of each table.
pub(crate) fn read_full_view<S: Alter>(
    alloc: Global,
    tx: &mut Transaction<'_, S>,
) -> Result<FullView, Refusal>
    ensures rows { OfTables S.Store tx.old tx.new result Lists }
    ensures opened { ImpliesOpen S.Store tx.old tx.new result }
    ensures frame { Reads S.Store tx.old tx.new result }
{
    let (
        (((people, trainings), (withdrawals, appointments)), ((boxes, safes), (bags, items))),
        (((ceremonies, marks), (steps, seatings)), ((sheet, stays), (exceptions, keys))),
    ) = ReadAll::read_all(alloc, tx)?;
    let asked = View {
        people,
        trainings,
        withdrawals,
        appointments,
        boxes,
        safes,
        bags,
        items,
        ceremonies,
        marks,
        steps,
        seatings,
        stays,
        stay_count: 0,
        exceptions,
    };
    Ok(FullView {
        view: asked,
        sheet,
        keys,
    })
}

/// All rows of each table, read in a transaction that is rolled back.
pub(crate) fn full_view<S: Alter>(
    alloc: Global,
    conn: &mut Connection<S>,
) -> Result<FullView, Refusal>
    requires autocommit { conn.old.in_transaction ≡ false }
    ensures rows { IfCleanOver S.Store conn.old conn.new
        (λ old _. (m : Tables) → HoldsTables m old.now → IfOk result (IsListed m)) }
    ensures register { OfDurable S.Store conn.old conn.new
        (λ A. IfOk result (λ view. IsRegister A × IsListed (tables A) view)) }
    ensures frame { OnlyReads S.Store IsFault conn.old conn.new result }
{
    let mut tx = conn.transaction();
    let view = read_full_view(alloc, &mut tx);
    tx.rollback();
    view
}

/// All rows of one table, read in a transaction that is rolled back.
pub(crate) fn read_table<S: Alter, R: TableRow>(
    alloc: Global,
    conn: &mut Connection<S>,
) -> Result<Vec<R>, Refusal>
    requires autocommit { conn.old.in_transaction ≡ false }
    ensures rows { IfCleanOver S.Store conn.old conn.new (λ old _. (m : Tables) → HoldsTables m old.now
        → IfOk result (λ rows. AreRows R.table.rows_in m rows.items)) }
    ensures register { OfDurable S.Store conn.old conn.new
        (λ A. IfOk result (λ rows. IsRegister A × AreRows R.table.rows_in (tables A) rows.items)) }
    ensures frame { OnlyReads S.Store IsFault conn.old conn.new result }
{
    let mut tx = conn.transaction();
    let rows = all_rows(alloc, &mut tx);
    tx.rollback();
    rows
}

/// What an audit finds in the rows of a database, which it leaves as they are.
pub(crate) fn audit_database<S: Alter>(
    alloc: Global,
    conn: &mut Connection<S>,
) -> Result<Option<Finding>, Refusal>
    requires autocommit { conn.old.in_transaction ≡ false }
    ensures found { IfCleanOver S.Store conn.old conn.new
        (λ old _. (m : Tables) → HoldsTables m old.now → IfOk result (FindsIn m)) }
    ensures nothing { OfDurable S.Store conn.old conn.new (λ A. IfOk result (λ found. found ≡ None)) }
    ensures frame { OnlyReads S.Store IsFault conn.old conn.new result }
{
    let view = full_view(alloc, conn)?;
    Ok(audit(alloc, &view)?)
}
