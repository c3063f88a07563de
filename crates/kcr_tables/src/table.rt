//! What a table of the register is, and the calls that read and change any of them inside a transaction.

ghost use Rattle.std.specs.Prelude.{◌≡◌, length, map, take, filter, IsPermutation, pos};
ghost use Rattle.sqlite.specs.declared.types.Value.{Value as Cell, TheVariants.Int, TheVariants.Text};
ghost use Rattle.sqlite.specs.{Values.bound, Values.bound_value, Value.owned};
ghost use Rattle.kcr_rows.specs.{Cells.cell_value, Refusals.IsFault, Frame.ImpliesOpen, Frame.StaysInTransaction};
ghost use Rattle.kcr_rows.proofs.FilterLemmas.{has_value};
ghost use Rattle.kcr_tables.specs.Frame.{OfTables, OfMachineTables, OfTrees, ChangesTables, Reads};
ghost use Rattle.kcr_tables.specs.{Selected.asked_of, Selected.asked_all, Statements.InsertsRow, Statements.UpdatesRow};
ghost use Rattle.kcr_tables.specs.{Exact.rows_at, Exact.AreShown, Query.Query, Query.Tells};
ghost use Rattle.kcr_tables.specs.Table.{TableSpec, IsTable, LookupSpec, IsLookup, with_put, machine_rows};

use kcr_base::serial::Tag;
use kcr_base::{Initials, Key, Refusal};
use kcr_history::Selection;
use kcr_rows::cells::{number_cell, text_cell};
use kcr_rows::from_row::FromRow;
use kcr_rows::statements::{execute, query_rows, run_statement};
use kcr_rows::to_row::{Cells, Columns, values};
use sqlite::types::ValueRef;
use sqlite::{Alter, Transaction};
use std::alloc::Global;

/// A table of the register, by the values that its rows stand for.
pub trait TableRow: FromRow {
    /// What it is: where its rows stand, and the text of `select_all_sql`.
    ghost table: { TableSpec Self };

    /// The text that shows all rows, in the order of their keys.
    fn select_all_sql() -> &'static str
        ensures { result.now ≡ table.all_sql };

    // What holds of it.
    ghost table_laws: { IsTable table Self.FromRow.row_of Self.FromRow.is_read };
}

/// A value by which rows are found.
pub trait AsCell {
    /// The value in a column.
    ghost value_of: { Self → Cell };

    /// The value as a parameter.
    fn cell(&self) -> ValueRef<'_>
        ensures { bound_value (owned result) ≡ value_of self.now };
}

impl AsCell for Initials {
    ghost value_of = { Text };

    fn cell(&self) -> ValueRef<'_> {
        text_cell(self.as_str())
    }
}

impl<K> AsCell for Tag<K> {
    ghost value_of = { Text };

    fn cell(&self) -> ValueRef<'_> {
        text_cell(self.as_str())
    }
}

impl AsCell for Key {
    ghost value_of = { Text };

    fn cell(&self) -> ValueRef<'_> {
        text_cell(self.as_str())
    }
}

impl AsCell for u32 {
    ghost value_of = { λ n. Int (pos n) };

    fn cell(&self) -> ValueRef<'_> {
        number_cell(*self)
    }
}

/// A table whose rows are found by the value in one of its columns.
pub trait LookupBy<K: AsCell>: TableRow {
    /// How they are found: which rows are meant, the column, and the text of `lookup_sql`.
    ghost lookup_spec: { LookupSpec K Self };

    /// The text that shows the rows with a value, in the order of their keys.
    fn lookup_sql() -> &'static str
        ensures { result.now ≡ lookup_spec.find_sql };

    // What holds of it.
    ghost lookup_laws: { IsLookup lookup_spec Self.TableRow.table.place K.AsCell.value_of Self.FromRow.row_of };
}

/// A table in which the row of a value is put under its key.
pub trait Put: TableRow {
    /// Puts the row under its key, new or in the place of the row there; every other row stays. A person, a training, a
    /// box, a seating, a row of the sheet, an exception and an accepted command are put only once, so are a step that
    /// is neither signed nor passed and a stay that has no end: by an `INSERT`. The error is `Memory`, or else `Disk`,
    /// as if the key of one of these or the number of a command is taken. What was committed before stays.
    ///
    /// Any other row may be there: an `UPDATE` changes it, and an `INSERT` follows if it changed none. Both together
    /// cost less than one upsert.
    fn put<S: Alter>(&self, tx: &mut Transaction<'_, S>) -> Result<(), Refusal>
        ensures holds { ChangesTables S.Store tx.old tx.new result
            (λ t. with_put Self.TableRow.table Self.FromRow.row_of self.now t) }
        ensures frame { StaysInTransaction S.Store IsFault tx.old tx.new result };
}

/// A table in which a row is put the same way, if words of the row are made in memory first.
pub trait PutAllocating: TableRow {
    /// Puts the row, as `Put::put` does.
    fn put_allocating<S: Alter>(
        &self,
        alloc: Global,
        tx: &mut Transaction<'_, S>,
    ) -> Result<(), Refusal>
        ensures holds { ChangesTables S.Store tx.old tx.new result
            (λ t. with_put Self.TableRow.table Self.FromRow.row_of self.now t) }
        ensures frame { StaysInTransaction S.Store IsFault tx.old tx.new result };
}

/// The rows of a table that a text shows. Nothing is changed. The error is `Memory` when out of memory, and else `Disk`:
/// the device failed, or a row that is shown is invalid.
pub fn shown_rows<S: Alter, T: TableRow>(
    alloc: Global,
    tx: &mut Transaction<'_, S>,
    sql: &str,
    params: &[ValueRef<'_>],
) -> Result<Vec<T>, Refusal>
    ensures { (q : Query T.table T.row_of) → sql.now ≡ q.sql → bound params.now ≡ q.params
        → Tells S.Store tx.old tx.new result T.table T.row_of q.which q.test q.passes }
{
    query_rows(alloc, tx, sql, params)
}

/// All rows of a table, in the order of their keys. Nothing is changed. The error is `Memory` when out of memory, and
/// else `Disk`: the device failed, or a row is invalid.
pub fn all_rows<S: Alter, T: TableRow>(
    alloc: Global,
    tx: &mut Transaction<'_, S>,
) -> Result<Vec<T>, Refusal>
    ensures rows { OfTables S.Store tx.old tx.new result (λ t all. all.items ≡ T.table.rows_in t) }
    ensures machine { OfMachineTables S.Store tx.old tx.new result
        (λ m all. IsPermutation (machine_rows T.table m) all.items) }
    ensures exact { OfTrees S.Store tx.old tx.new result
        (λ db all. IsPermutation (rows_at T.table.place db) (map T.row_of all.items)) }
    ensures opened { ImpliesOpen S.Store tx.old tx.new result }
    ensures frame { Reads S.Store tx.old tx.new result }
{
    shown_rows(alloc, tx, T::select_all_sql(), &[])
}

/// The rows with this value, in the order of their keys. Nothing is changed. The error is `Memory` when out of memory,
/// and else `Disk`: the device failed, or a row with this value is invalid.
pub fn find_rows<S: Alter, K: AsCell, T: LookupBy<K>>(
    alloc: Global,
    tx: &mut Transaction<'_, S>,
    key: &K,
) -> Result<Vec<T>, Refusal>
    ensures rows { OfTables S.Store tx.old tx.new result
        (λ t all. all.items ≡ filter (T.lookup_spec.is_under key.now) (T.table.rows_in t)) }
    ensures exact { OfTrees S.Store tx.old tx.new result
        (λ db all. IsPermutation (filter (has_value T.lookup_spec.column (K.value_of key.now)) (rows_at T.table.place db))
        (map T.row_of all.items)) }
    ensures opened { ImpliesOpen S.Store tx.old tx.new result }
    ensures frame { Reads S.Store tx.old tx.new result }
{
    shown_rows(alloc, tx, T::lookup_sql(), &[key.cell()])
}

/// The rows that are asked for. Nothing is changed; the errors are those of a reading, so `Disk` also if a row that
/// is asked for is invalid.
pub fn select_rows<S: Alter, K: AsCell, T: LookupBy<K>>(
    alloc: Global,
    tx: &mut Transaction<'_, S>,
    asked: &Selection<K>,
) -> Result<Vec<T>, Refusal>
    ensures rows { OfTables S.Store tx.old tx.new result
        (λ t all. all.items ≡ asked_of T.lookup_spec.is_under asked.now (T.table.rows_in t)) }
    ensures exact { OfTrees S.Store tx.old tx.new result
        (λ db all. AreShown T.row_of all.items
        (asked_of (λ key. has_value T.lookup_spec.column (K.value_of key)) asked.now (rows_at T.table.place db))) }
    ensures frame { Reads S.Store tx.old tx.new result }
{
    match asked {
        Selection::Nothing => Ok(Vec::new(alloc)),
        Selection::Matching(key) => find_rows(alloc, tx, key),
        Selection::All => all_rows(alloc, tx),
    }
}

/// All rows, if they are asked for. Nothing is changed; the errors are those of a reading.
pub fn select_all<S: Alter, T: TableRow>(
    alloc: Global,
    tx: &mut Transaction<'_, S>,
    asked: bool,
) -> Result<Vec<T>, Refusal>
    ensures rows { OfTables S.Store tx.old tx.new result (λ t all. all.items ≡ asked_all asked (T.table.rows_in t)) }
    ensures exact { OfTrees S.Store tx.old tx.new result
        (λ db all. AreShown T.row_of all.items (asked_all asked (rows_at T.table.place db))) }
    ensures frame { Reads S.Store tx.old tx.new result }
{
    if asked {
        all_rows(alloc, tx)
    } else {
        Ok(Vec::new(alloc))
    }
}

/// Puts the row of a value whose key no row has by the text `sql`, whose parameters are the cells of the row; the errors
/// are those of `Put::put`.
pub fn insert_row<S: Alter, T: TableRow + Columns>(
    tx: &mut Transaction<'_, S>,
    row: &T,
    sql: &str,
    cells: &Cells<'_>,
) -> Result<(), Refusal>
    requires inserts { InsertsRow sql.now T.table.place T.row_of }
    requires cells { take (length T.kinds) (map cell_value cells.now) ≡ T.row_of row.now }
    requires stored { T.table.is_stored row.now }
    ensures holds { ChangesTables S.Store tx.old tx.new result (λ t. with_put T.table T.row_of row.now t) }
    ensures frame { StaysInTransaction S.Store IsFault tx.old tx.new result }
{
    let _value = row;
    let values = values(cells);
    run_statement(tx, sql, &values[..T::kinds().len()])
}

/// Puts the row of a value under its key, which a row may have already: the text `update_sql` changes that row, and
/// if it changed none `insert_sql` puts the row. The parameters of both are the cells of the row; the errors are those
/// of `Put::put`.
pub fn update_or_insert_row<S: Alter, T: TableRow + Columns>(
    tx: &mut Transaction<'_, S>,
    row: &T,
    update_sql: &str,
    insert_sql: &str,
    cells: &Cells<'_>,
) -> Result<(), Refusal>
    requires updates { UpdatesRow update_sql.now T.table.place T.row_of }
    requires inserts { InsertsRow insert_sql.now T.table.place T.row_of }
    requires cells { take (length T.kinds) (map cell_value cells.now) ≡ T.row_of row.now }
    requires stored { T.table.is_stored row.now }
    ensures holds { ChangesTables S.Store tx.old tx.new result (λ t. with_put T.table T.row_of row.now t) }
    ensures frame { StaysInTransaction S.Store IsFault tx.old tx.new result }
{
    let _value = row;
    let values = values(cells);
    let values = &values[..T::kinds().len()];
    if execute(tx, update_sql, values)? == 0 {
        run_statement(tx, insert_sql, values)
    } else {
        Ok(())
    }
}
