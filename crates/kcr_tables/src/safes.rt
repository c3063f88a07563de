// Written by tools/tables.py from tools/table_list.py: do not edit.
//! The table safes: a safe under its facility and number.

ghost use Rattle.kcr_tables.specs.SafesLaws as laws;

use crate::table::{Put, TableRow, update_or_insert_row};
use kcr_base::Refusal;
use kcr_custody::SafeRow;
use kcr_rows::to_row::ToRow;
use sqlite::{Alter, Transaction};

impl TableRow for SafeRow {
    ghost table = { laws.table };

    fn select_all_sql() -> &'static str {
        "SELECT facility, safe, state FROM safes ORDER BY facility, safe"
    }

    ghost table_laws = { laws.table_laws };
}

impl Put for SafeRow {
    #[tactic(auto, using(crate::specs::SafesLaws::inserts, crate::specs::SafesLaws::updates))]
    fn put<S: Alter>(&self, tx: &mut Transaction<'_, S>) -> Result<(), Refusal> {
        let cells = self.cells();
        let insert = "INSERT INTO safes (facility, safe, state) VALUES (?1, ?2, ?3)";
        update_or_insert_row(
            tx,
            self,
            "UPDATE safes SET facility = ?1, safe = ?2, state = ?3 WHERE facility = ?1 AND safe = ?2",
            insert,
            &cells,
        )
    }
}
