//! The first invalid row of a table.

ghost use Rattle.std.specs.Prelude.{map, IfErr, IfOk, IfSome, IsPermutation};
ghost use Rattle.kcr_rows.specs.Refusals.{IsFault};
ghost use Rattle.kcr_tables.specs.{Exact.rows_at, Frame.OfTrees, Frame.Reads};
ghost use Rattle.kcr_validity.specs.{Rows.IsInvalidOf, Stored.cells_of};

use crate::cells::is_invalid;
use kcr_base::Refusal;
use kcr_rows::from_row::FromRow;
use kcr_rows::statements::query_rows;
use kcr_rows::to_row::Columns;
use kcr_tables::TableRow;
use sqlite::{Alter, Row, Transaction};
use std::alloc::Global;

/// A row as it is stored, whatever it has.
#[derive(Drop)]
struct StoredRow {
    cells: Row,
}

impl FromRow for StoredRow {
    ghost use Rattle.std.specs.Prelude.{⊤};
    ghost use Rattle.kcr_validity.specs.Stored.{cells_of};

    ghost row_of = { cells_of };

    ghost is_read = { λ _. ⊤ };

    fn from_row(_alloc: Global, row: &Row) -> Result<StoredRow, Refusal> {
        Ok(StoredRow { cells: row.copy()? })
    }
}

/// All rows of a table in the order of their keys, whatever they have. Nothing is changed.
fn stored_rows<S: Alter, T: TableRow>(
    alloc: Global,
    tx: &mut Transaction<'_, S>,
) -> Result<Vec<StoredRow>, Refusal>
    ensures rows { OfTrees S.Store tx.old tx.new result
        (λ db all. IsPermutation (rows_at T.table.place db) (map cells_of all.items)) }
    ensures frame { Reads S.Store tx.old tx.new result }
{
    query_rows(alloc, tx, T::select_all_sql(), &[])
}

/// The first of these rows that is invalid, or `None`.
fn first_among<T: Columns>(alloc: Global, rows: &[StoredRow]) -> Result<Option<Row>, Refusal>
    ensures found { IfOk result (λ found. IfSome found (IsInvalidOf T.kinds (map cells_of rows.now))) }
    ensures cause { IfErr result IsFault }
{
    for row in rows {
        if is_invalid(alloc, T::kinds(), &row.cells)? {
            return Ok(Some(row.cells.copy()?));
        }
    }
    Ok(None)
}

/// The first invalid row of a table in the order of its keys, or `None` if none is found. Its memory grows with the
/// number of rows. Nothing is changed. The error is `Memory`, or `Disk` if the table cannot be read.
pub fn first_invalid<S: Alter, T: TableRow + Columns>(
    alloc: Global,
    tx: &mut Transaction<'_, S>,
) -> Result<Option<Row>, Refusal>
    // The table has this row, and the row has a cell that is no value of its column.
    ensures found { OfTrees S.Store tx.old tx.new result
        (λ db found. IfSome found (IsInvalidOf T.kinds (rows_at T.table.place db))) }
    ensures frame { Reads S.Store tx.old tx.new result }
{
    let rows = stored_rows::<S, T>(alloc, tx)?;
    first_among::<T>(alloc, &rows)
}
