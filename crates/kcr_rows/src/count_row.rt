//! How many rows a query counts.

ghost use Rattle.std.specs.Prelude.{⊤};
ghost use Rattle.kcr_rows.specs.CountRow.{count_row};

use crate::cells::number_at;
use crate::from_row::FromRow;
use kcr_base::Refusal;
use sqlite::Row;
use std::alloc::Global;

/// The one row of a query that counts rows.
#[derive(Clone, Copy, Drop)]
pub struct CountRow {
    pub number: u32,
}

impl FromRow for CountRow {
    ghost row_of = { count_row };

    ghost is_read = { λ _. ⊤ };

    fn from_row(_alloc: Global, row: &Row) -> Result<CountRow, Refusal> {
        if row.column_count() != 1 {
            return Err(Refusal::Disk);
        }
        let number = number_at(row, 0)?;
        Ok(CountRow { number })
    }
}
