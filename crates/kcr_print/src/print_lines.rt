//! What a row of a report is.

ghost use Rattle.std.specs.Prelude.{◌≡◌, ◌++◌, OnOk, IfErr};
ghost use Rattle.kcr_tables.specs.Refusals.{IsFault};

use kcr_base::Refusal;
use std::alloc::Global;

/// A row that a report shows as lines.
pub(crate) trait PrintLines: Drop {
    ghost use Rattle.std.specs.Prelude.{List, ℕ};

    /// Its lines, each with the line feed that ends it.
    ghost lines: { Self → List ℕ };

    /// Adds its lines. The refusal is `Memory` when out of memory, and `Disk` if the row is one that no register
    /// stores; what it adds then is of no use.
    fn print_lines(&self, alloc: Global, out: &mut Vec<u8>) -> Result<(), Refusal>
        ensures lines { OnOk result (out.new.items ≡ out.old.items ++ lines self.now) }
        ensures cause { IfErr result IsFault };
}
