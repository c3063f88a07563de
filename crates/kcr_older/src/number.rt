//! The number of its version that a database has, whatever its schema is.

ghost use Rattle.std.specs.Prelude.{◌≡◌, [], ◌∷◌, ⊤, IsTrue, is_some, map, IfOk, OnOk};
ghost use Rattle.sqlite.specs.State.{IsLive, IsUnchanged};
ghost use Rattle.kcr_rows.specs.{Refusals.IsFault, Frame.IfClean, Frame.ImpliesOpen, Frame.StaysInTransaction};
ghost use Rattle.kcr_older.specs.Kind as spec;
ghost use Rattle.kcr_older.specs.Kind.{numbered_table};

use kcr_base::Refusal;
use kcr_rows::from_row::FromRow;
use kcr_rows::statements::query_rows;
use sqlite::types::Value;
use sqlite::{Alter, Row, Transaction};
use std::alloc::Global;

/// The value of a row of one column, whatever it is.
#[derive(Drop)]
struct Cell {
    value: Value,
}

impl FromRow for Cell {
    ghost row_of = { λ cell. cell.value ∷ [] };

    ghost is_read = { λ _. ⊤ };

    fn from_row(_alloc: Global, row: &Row) -> Result<Cell, Refusal> {
        if row.column_count() != 1 {
            return Err(Refusal::Disk);
        }
        match row.get::<Value>(0) {
            Ok(value) => Ok(Cell { value }),
            Err(_) => Err(Refusal::Memory),
        }
    }
}

/// The whole number of the one cell, if there is exactly one, and that is a whole number.
fn only_number(cells: &[Cell]) -> Option<i64>
    ensures { result ≡ spec.only_number (map (λ cell. cell.value) cells.now) }
{
    match cells {
        [cell] => match cell.value {
            Value::Int(number) => Some(number),
            _ => None,
        },
        _ => None,
    }
}

/// The number in the one row of the table `versions`, which has the one column `number`; `None` if that table has no
/// row, or several, or the row has no whole number. Nothing is changed. The error is `Memory` when out of memory, and
/// else `Disk`: the device failed, or there is no such table.
pub fn version_in<S: Alter>(
    alloc: Global,
    tx: &mut Transaction<'_, S>,
) -> Result<Option<i64>, Refusal>
    ensures number { IfClean S.Store tx.old tx.new (λ old _. IsLive old
        → IsTrue (is_some (numbered_table old.now.schema)) → IfOk result (λ number. number ≡ spec.version_in old.now)) }
    ensures same { IfClean S.Store tx.old tx.new
        (λ old new. IsTrue (is_some (numbered_table old.now.schema)) → OnOk result (IsUnchanged old new)) }
    ensures opened { ImpliesOpen S.Store tx.old tx.new result }
    ensures frame { StaysInTransaction S.Store IsFault tx.old tx.new result }
{
    let cells = query_rows::<_, Cell>(alloc, tx, "SELECT number FROM versions", &[])?;
    Ok(only_number(cells.as_slice()))
}
