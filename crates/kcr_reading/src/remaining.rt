//! All rows that a reading still gives, as a list.

ghost use Rattle.std.specs.Prelude.{◌≡◌};
ghost use Rattle.kcr_tables.specs.Frame.{OfMachineTables, Reads};

use crate::cursor::Cursor;
use kcr_base::Refusal;
use sqlite::{Alter, Transaction};
use std::alloc::Global;

/// The rows that are still to come, in their order, if the database holds these tables. Nothing is changed in the
/// database. Memory grows with the number of rows. The error is `Memory` when out of memory, and else `Disk`: the
/// device failed, or a row is invalid.
pub fn remaining_rows<S: Alter, R: Cursor>(
    alloc: Global,
    tx: &mut Transaction<'_, S>,
    reading: R,
) -> Result<Vec<R::Row>, Refusal>
    ensures rows { OfMachineTables S.Store tx.old tx.new result (λ m rows. rows.items ≡ R.to_come reading m) }
    ensures frame { Reads S.Store tx.old tx.new result }
{
    let mut left = reading;
    let mut rows = Vec::new(alloc);
    for _ in 0..u64::MAX {
        let Some(row) = left.next(alloc, tx)? else {
            return Ok(rows);
        };
        rows.push(row)?;
    }
    Err(Refusal::Disk)
}
