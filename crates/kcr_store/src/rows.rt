//! The rows of a register, one at a time.
ghost use Rattle.std.specs.Prelude.{◌≡◌};
ghost use Rattle.kcr_history.specs.Tables.{tables};
ghost use Rattle.kcr_tables.specs.Refusals.{IsFault};

use crate::transaction::next_row;
use crate::unbroken::Unbroken;
use kcr_base::Refusal;
use kcr_reading::Cursor;
use sqlite::Alter;

/// Rows of a register, given one at a time. The register is borrowed while they are read, so that its history stays as
/// it is until they are dropped; they may be dropped at any row, which changes nothing. In memory are one row, and the
/// few that the reading has read ahead.
pub struct Rows<'a, S: Alter, R: Cursor> {
    unbroken: &'a mut Unbroken<S>,
    reading: R,
}

impl<S: Alter, R: Cursor> Drop for Rows<'_, S, R> {
    fn drop(self)
        ensures { self.exit.0.now ≡ self.entry.unbroken.now }
    {
        let Rows {
            unbroken: _,
            reading: _,
        } = self;
    }
}

impl<'a, S: Alter, R: Cursor> Rows<'a, S, R> {
    ghost use Rattle.kcr_store.specs.{Frame.OfDurable, Frame.OfRowsOver, Frame.OnlyReads, Rows.GivesNext};

    pub(crate) fn new(unbroken: &'a mut Unbroken<S>, reading: R) -> Rows<'a, S, R>
        ensures same_reference { result.unbroken.ghost_name ≡ unbroken.entry.ghost_name }
        ensures same { (result.unbroken.now ≡ unbroken.old) × (result.reading ≡ reading) }
    {
        Rows { unbroken, reading }
    }

    /// The next row, or None past the last: the rows so far begin the answer, and at None they are all of it. Beside
    /// out of memory (33) it meets only an I/O error (34). No refusal changes the register, and after one it is not
    /// known which row comes next.
    pub fn next(&mut self) -> Result<Option<R::Row>, Refusal>
        ensures same_reference { self.new.unbroken.ghost_name ≡ self.old.unbroken.ghost_name }
        ensures gives { OfDurable S.Store self.old.unbroken.now self.new.unbroken.now
            (λ A. GivesNext R.to_come self.old.reading self.new.reading result (tables A)) }

        // By whatever rows the tables hold.
        ensures rows { OfRowsOver S.Store self.old.unbroken.now self.new.unbroken.now
            (GivesNext R.to_come self.old.reading self.new.reading result) }
        ensures peeks { OnlyReads S.Store IsFault self.old.unbroken.now self.new.unbroken.now result }
    {
        let lent = &mut *self.unbroken;
        next_row(lent.alloc, &mut lent.conn, &mut self.reading)
    }
}
