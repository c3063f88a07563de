//! The first rows of a table that pass a test, or the first one.

ghost use Rattle.std.specs.Prelude.{◌≡◌, ℕ, Option};
ghost use Rattle.sqlite.specs.{Values.bound, Values.bound_value, Value.owned, declared.types.Value.TheVariants.Int};
ghost use Rattle.kcr_rows.specs.Frame.{ImpliesOpen};
ghost use Rattle.kcr_tables.specs.{Frame.OfTables, Frame.Reads, Statements.Choice};
ghost use Rattle.kcr_reading.specs.FirstRows.{ShowsSome, AreFirst, ShowsFirst, IsFirstRow, bound_of};

use kcr_base::Refusal;
use kcr_rows::statements::query_rows;
use kcr_tables::TableRow;
use sqlite::types::ValueRef;
use sqlite::{Alter, Transaction};
use std::alloc::Global;

/// The number behind which the rows are sought; -1 before the first, which is below all.
pub(crate) fn past_cell(last: Option<u32>) -> ValueRef<'static>
    ensures { bound_value (owned result) ≡ Int (bound_of last) }
{
    match last {
        Some(number) => ValueRef::Int(i64::from(number)),
        None => ValueRef::Int(-1),
    }
}

/// The first of the rows that the text chooses, as many as it shows. Nothing is changed. The error is `Memory` when out
/// of memory, and else `Disk`: the device failed, or a row is invalid.
pub(crate) fn first_rows<S: Alter, T: TableRow>(
    alloc: Global,
    tx: &mut Transaction<'_, S>,
    sql: &str,
    params: &[ValueRef<'_>],
) -> Result<Vec<T>, Refusal>
    ensures same_reference { tx.new.conn.ghost_name ≡ tx.old.conn.ghost_name }
    ensures rows { (count : ℕ) → (choice : Choice) → ShowsSome count sql.now T.table.place (bound params.now) choice
        → OfTables S.Store tx.old tx.new result
        (λ t found. AreFirst count T.row_of choice (T.table.rows_in t) found.items) }
    ensures opened { ImpliesOpen S.Store tx.old tx.new result }
    ensures frame { (count : ℕ) → (choice : Choice) → ShowsSome count sql.now T.table.place (bound params.now) choice
        → Reads S.Store tx.old tx.new result }
{
    query_rows(alloc, tx, sql, params)
}

/// The first of the rows that the text chooses, or none; the text shows one row at most. Nothing is changed. The error
/// is `Memory` when out of memory, and else `Disk`: the device failed, or the row is invalid.
pub(crate) fn first_row<S: Alter, T: TableRow>(
    alloc: Global,
    tx: &mut Transaction<'_, S>,
    sql: &str,
    params: &[ValueRef<'_>],
) -> Result<Option<T>, Refusal>
    ensures same_reference { tx.new.conn.ghost_name ≡ tx.old.conn.ghost_name }
    ensures row { (choice : Choice) → ShowsFirst sql.now T.table.place (bound params.now) choice
        → OfTables S.Store tx.old tx.new result (λ t found. IsFirstRow T.row_of choice (T.table.rows_in t) found) }
    ensures opened { ImpliesOpen S.Store tx.old tx.new result }
    ensures frame { (choice : Choice) → ShowsFirst sql.now T.table.place (bound params.now) choice
        → Reads S.Store tx.old tx.new result }
{
    let mut rows: Vec<T> = first_rows(alloc, tx, sql, params)?;
    Ok(rows.pop())
}
