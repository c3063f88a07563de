//! A register that nothing has broken, as it is read row by row.
ghost use Rattle.std.specs.Prelude.{◌≡◌, ◌++◌, false, MatchResult};
ghost use Rattle.kcr_reading.specs.Remaining.{bags_past, exceptions_of, exceptions_past, loose_items, loose_past};
ghost use Rattle.kcr_reading.specs.Remaining.{named_stays, packed_bags, read_ahead, safes_in_order, safes_past, seated_steps, stays_past, steps_past};

use crate::rows::Rows;
use crate::transaction::run_query;
use kcr_base::{CeremonyNumber, Refusal};
use kcr_history::CeremonyRow;
use kcr_reading::{
    BagCursor, Cursor, ExceptionCursor, LooseCursor, SafeCursor, StayCursor, StepCursor,
};
use sqlite::{Alter, Connection};
use std::alloc::Global;
use std::marker::Model;

/// What is read of a register that nothing has broken, which `Register::unbroken` lends: so no call here answers 35.
/// None changes the register. After an I/O error (34) the caller lets go of this, and calls `mark_broken`. Clauses see
/// its connection, which is outside of a transaction.
pub struct Unbroken<S: Alter> {
    pub(crate) conn: Connection<S>,
    pub(crate) alloc: Global,
}

impl<S: Alter> Model for Unbroken<S> {
    ghost use Rattle.std.specs.Prelude.{◌≡◌, false};
    ghost use Rattle.sqlite.specs.Held.{Held, held_code};

    ghost Value = { Held S };

    ghost coded = { held_code S.code };

    ghost view = { λ r. r.conn };

    ghost invariant = { λ r. r.conn.in_transaction ≡ false };
}

impl<S: Alter> Unbroken<S> {
    ghost use Rattle.kcr_store.specs.{Frame.OfDurable, Frame.OfRowsOver, Frame.OnlyReads, ShownBy.HasNoRowBy, ShownBy.IsRowBy};
    ghost use Rattle.kcr_store.specs.Rows.{BeginsAll, HasNoRow, IsRowOf, MayHaveNoRow};

    /// The row of a ceremony. One that was never planned is refused as unknown (12). Beside that and out of memory
    /// (33) it meets only an I/O error (34).
    pub fn ceremony_row(&mut self, ceremony: CeremonyNumber) -> Result<CeremonyRow, Refusal>
        ensures row { OfDurable S.Store self.old self.new
            (λ A. MatchResult result (IsRowOf A ceremony) (HasNoRow A ceremony)) }

        // By whatever rows the tables hold: it is that among them, and there is none only if no row has this number.
        ensures rows { OfRowsOver S.Store self.old self.new
            (λ m. MatchResult result (IsRowBy m ceremony) (HasNoRowBy m ceremony)) }
        ensures peeks { OnlyReads S.Store (MayHaveNoRow ceremony) self.old self.new result }
    {
        run_query(self.alloc, &mut self.conn, &ceremony)
    }

    /// The rows that a reading gives, one at a time.
    pub fn rows<R: Cursor>(&mut self, reading: R) -> Rows<'_, S, R>
        ensures same_reference { result.unbroken.ghost_name ≡ self.entry.ghost_name }
        ensures begun { (result.unbroken.now ≡ self.old) × (result.reading ≡ reading) }
        ensures outside { self.old.in_transaction ≡ false }
    {
        let _conn = &self.conn;
        Rows::new(self, reading)
    }

    /// The steps of a ceremony in order, each with the people of its seating, seat by seat. A ceremony that was never
    /// planned has none.
    pub fn step_rows(&mut self, ceremony: CeremonyNumber) -> Rows<'_, S, StepCursor>
        ensures same_reference { result.unbroken.ghost_name ≡ self.entry.ghost_name }
        ensures begun { BeginsAll self.old result
            (λ reading m. read_ahead reading.ready ++ steps_past reading.source.last reading.source.ceremony m)
            (seated_steps ceremony) }
    {
        self.rows(StepCursor::new(ceremony.get()))
    }

    /// The exceptions of a ceremony in order. A ceremony that was never planned has none.
    pub fn exception_rows(&mut self, ceremony: CeremonyNumber) -> Rows<'_, S, ExceptionCursor>
        ensures same_reference { result.unbroken.ghost_name ≡ self.entry.ghost_name }
        ensures begun { BeginsAll self.old result
            (λ reading m. exceptions_past reading.last reading.ceremony m) (exceptions_of ceremony) }
    {
        self.rows(ExceptionCursor::new(ceremony.get()))
    }

    /// The stays of a ceremony by beginning, then initials, each with the person's name. A ceremony that was never
    /// planned has none.
    pub fn stay_rows(&mut self, ceremony: CeremonyNumber) -> Rows<'_, S, StayCursor>
        ensures same_reference { result.unbroken.ghost_name ≡ self.entry.ghost_name }
        ensures begun { BeginsAll self.old result
            (λ reading m. read_ahead reading.ready ++ stays_past reading.source.last reading.source.ceremony m)
            (named_stays ceremony) }
    {
        self.rows(StayCursor::new(ceremony.get()))
    }

    /// The four safes: those of EAST first, and by number.
    pub fn safe_rows(&mut self) -> Rows<'_, S, SafeCursor>
        ensures same_reference { result.unbroken.ghost_name ≡ self.entry.ghost_name }
        ensures begun { BeginsAll self.old result (λ reading m. safes_past reading.last m) (safes_in_order) }
    {
        self.rows(SafeCursor::new())
    }

    /// The bags by serial, each with the codes of its items.
    pub fn bag_rows(&mut self) -> Rows<'_, S, BagCursor>
        ensures same_reference { result.unbroken.ghost_name ≡ self.entry.ghost_name }
        ensures begun { BeginsAll self.old result (λ reading m. bags_past reading.last m) (packed_bags) }
    {
        self.rows(BagCursor::new())
    }

    /// The loose items by code.
    pub fn loose_rows(&mut self) -> Rows<'_, S, LooseCursor>
        ensures same_reference { result.unbroken.ghost_name ≡ self.entry.ghost_name }
        ensures begun { BeginsAll self.old result (λ reading m. loose_past reading.last m) (loose_items) }
    {
        self.rows(LooseCursor::new())
    }
}
