// Written by tools/tables.py from tools/table_list.py: do not edit.
//! The table stays: a stay of a person in the room of a ceremony, under the person and its beginning.

ghost use Rattle.kcr_tables.specs.StaysLaws as laws;

use crate::table::{Put, TableRow, insert_row, update_or_insert_row};
use kcr_base::Refusal;
use kcr_room::Stay;
use kcr_rows::to_row::ToRow;
use sqlite::{Alter, Transaction};

impl TableRow for Stay {
    ghost table = { laws.table };

    fn select_all_sql() -> &'static str {
        "SELECT who, since, ceremony, until FROM stays ORDER BY who, since"
    }

    ghost table_laws = { laws.table_laws };
}

impl Put for Stay {
    #[tactic(auto, using(crate::specs::StaysLaws::inserts, crate::specs::StaysLaws::updates))]
    fn put<S: Alter>(&self, tx: &mut Transaction<'_, S>) -> Result<(), Refusal> {
        let cells = self.cells();
        let insert = "INSERT INTO stays (who, since, ceremony, until) VALUES (?1, ?2, ?3, ?4)";
        if self.until.is_none() {
            insert_row(tx, self, insert, &cells)
        } else {
            update_or_insert_row(
                tx,
                self,
                "UPDATE stays SET who = ?1, since = ?2, ceremony = ?3, until = ?4 WHERE who = ?1 AND since = ?2",
                insert,
                &cells,
            )
        }
    }
}
