// Written by tools/tables.py from tools/table_list.py: do not edit.
//! The table steps: a step of a ceremony under both numbers.

ghost use Rattle.kcr_tables.specs.StepsLaws as laws;

use crate::table::{PutAllocating, TableRow, insert_row, update_or_insert_row};
use kcr_base::Refusal;
use kcr_history::{StepRow, StepState};
use kcr_rows::to_row::ToRowAllocating;
use sqlite::{Alter, Transaction};
use std::alloc::Global;

impl TableRow for StepRow {
    ghost table = { laws.table };

    fn select_all_sql() -> &'static str {
        "SELECT ceremony, step, activity, seats, state, at FROM steps ORDER BY ceremony, step"
    }

    ghost table_laws = { laws.table_laws };
}

impl PutAllocating for StepRow {
    #[tactic(auto, using(crate::specs::StepsLaws::inserts, crate::specs::StepsLaws::updates))]
    fn put_allocating<S: Alter>(
        &self,
        alloc: Global,
        tx: &mut Transaction<'_, S>,
    ) -> Result<(), Refusal> {
        let cells = self.cells_allocating(alloc)?;
        let insert =
            "INSERT INTO steps (ceremony, step, activity, seats, state, at) VALUES (?1, ?2, ?3, ?4, ?5, ?6)";
        if self.state == StepState::Undone {
            insert_row(tx, self, insert, &cells)
        } else {
            update_or_insert_row(
                tx,
                self,
                "UPDATE steps SET ceremony = ?1, step = ?2, activity = ?3, seats = ?4, state = ?5, at = ?6 WHERE ceremony = ?1 AND step = ?2",
                insert,
                &cells,
            )
        }
    }
}
