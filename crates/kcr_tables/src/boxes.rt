// Written by tools/tables.py from tools/table_list.py: do not edit.
//! The table boxes: a box under its facility and number.

ghost use Rattle.kcr_tables.specs.BoxesLaws as laws;

use crate::table::{Put, TableRow, insert_row};
use kcr_base::Refusal;
use kcr_custody::BoxRow;
use kcr_rows::to_row::ToRow;
use sqlite::{Alter, Transaction};

impl TableRow for BoxRow {
    ghost table = { laws.table };

    fn select_all_sql() -> &'static str {
        "SELECT facility, box, place FROM boxes ORDER BY facility, box"
    }

    ghost table_laws = { laws.table_laws };
}

impl Put for BoxRow {
    #[tactic(auto, using(crate::specs::BoxesLaws::inserts))]
    fn put<S: Alter>(&self, tx: &mut Transaction<'_, S>) -> Result<(), Refusal> {
        let cells = self.cells();
        let insert = "INSERT INTO boxes (facility, box, place) VALUES (?1, ?2, ?3)";
        insert_row(tx, self, insert, &cells)
    }
}
