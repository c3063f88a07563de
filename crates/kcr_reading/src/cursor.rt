//! What a reading is.

ghost use Rattle.kcr_history.specs.Tables as machine;
ghost use Rattle.kcr_tables.specs.Frame.{Reads};
ghost use Rattle.kcr_reading.specs.{Frame.OfOpenTables, Remaining.IsNextOf};

use kcr_base::Refusal;
use sqlite::{Alter, Transaction};
use std::alloc::Global;

/// Rows that are read one at a time: the place that was reached.
pub trait Cursor: Drop {
    ghost use Rattle.std.specs.Prelude.{List};

    /// What one step gives.
    type Row: Drop;

    /// The rows that are still to come, by the tables.
    ghost to_come: { Self → machine.Tables → List Self.Row };

    /// The next row, or none past the last, if the store that serves holds these tables. Nothing is changed in the
    /// database. The error is `Memory` when out of memory, and else `Disk`: the device failed, or a row is one that no
    /// register stores.
    fn next<S: Alter>(
        &mut self,
        alloc: Global,
        tx: &mut Transaction<'_, S>,
    ) -> Result<Option<Self::Row>, Refusal>
        ensures gives { OfOpenTables S.Store tx.old tx.new result
            (λ m row. IsNextOf (to_come self.old m) row (to_come self.new m)) }
        ensures frame { Reads S.Store tx.old tx.new result };
}
