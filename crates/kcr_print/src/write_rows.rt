//! Rows of a register, written one at a time.

ghost use Rattle.std.specs.{Prelude.IfErr, List.flat_map};
ghost use Rattle.kcr_base.specs.Counted.{inner_of};
ghost use Rattle.kcr_store.specs.Frame.{OfRowsShown};
ghost use Rattle.kcr_print.specs.Reports.{Stops, CountsWriteFaults, PrintsPart, RefusesUnwritten, RefusesBetweenRows};
ghost use Rattle.kcr_print.specs.Written.{Writes};

use crate::fault::PrintFault;
use crate::print_lines::PrintLines;
use crate::writing::write_whole;
use kcr_base::{Counted, Refusal};
use kcr_reading::Cursor;
use kcr_store::Unbroken;
use sqlite::Alter;
use std::alloc::Global;
use std::io::Write;

/// Writes the lines of a row. After a failed write a prefix of them was written; a refusal writes nothing.
pub(crate) fn write_row<P: PrintLines, W: Write>(
    alloc: Global,
    row: &P,
    writer: &mut Counted<W>,
) -> Result<(), PrintFault>
    ensures written { Writes result
        (W.contents (inner_of writer.old)) (W.contents (inner_of writer.new)) (P.lines row.now) }
    ensures cause { IfErr result (Stops (λ _. ⊥)) }
    ensures unwritten { RefusesUnwritten writer.old writer.new result }
    ensures told { CountsWriteFaults writer.old writer.new result }
{
    let mut text = Vec::new(alloc);
    row.print_lines(alloc, &mut text)?;
    write_whole(writer, text.as_slice())?;
    Ok(())
}

/// Writes the lines of the rows that a reading gives, one row after the other. After a fault a prefix of them was
/// written; after a refusal, whole rows. An I/O error does not break the register.
pub(crate) fn write_rows<S: Alter, P: PrintLines, R: Cursor<Row = P>, W: Write>(
    alloc: Global,
    register: &mut Unbroken<S>,
    reading: R,
    writer: &mut Counted<W>,
) -> Result<(), PrintFault>
    ensures prints { PrintsPart S.Store W.contents register.old register.new writer.old writer.new result (λ _ _. ⊥)
        (λ _. ⊥) (λ m. flat_map P.lines (R.to_come reading m)) }
    ensures whole { OfRowsShown S.Store register.old register.new (λ m. RefusesBetweenRows P.lines
        (R.to_come reading m) result (W.contents (inner_of writer.old)) (W.contents (inner_of writer.new))) }
{
    let mut rows = register.rows(reading);
    for _ in 0..u64::MAX {
        let Some(row) = rows.next()? else {
            return Ok(());
        };
        write_row(alloc, &row, writer)?;
    }
    Err(PrintFault::Refused(Refusal::Disk))
}
