//! Values that stand in rows.

ghost use Rattle.std.specs.Prelude.{◌≡◌, IfOk, IfErr};
ghost use Rattle.kcr_rows.specs.Refusals.{IsFault};

use kcr_base::Refusal;
use sqlite::Row;
use std::alloc::Global;

/// A value that a row of a table stands for.
pub trait FromRow: Drop {
    ghost use Rattle.sqlite.specs.Order.{Row as Values};

    /// The row of a value.
    ghost row_of: { Self → Values };

    /// What is known of a value that was read, beside its row.
    ghost is_read: { Self → Type 0 };

    /// The value of a row; the error is `Disk` if the row is no value's, and `Memory` when out of memory.
    fn from_row(alloc: Global, row: &Row) -> Result<Self, Refusal>
        ensures row { IfOk result (λ x. row.now ≡ row_of x) }
        ensures read { IfOk result is_read }
        ensures cause { IfErr result IsFault };
}
