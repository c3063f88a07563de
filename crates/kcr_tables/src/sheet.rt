// Written by tools/tables.py from tools/table_list.py: do not edit.
//! The table sheet: a row of a ceremony's entry and exit sheet, under the person and the moment.

ghost use Rattle.kcr_tables.specs.SheetLaws as laws;

use crate::table::{Put, TableRow, insert_row};
use kcr_base::Refusal;
use kcr_room::SheetRow;
use kcr_rows::to_row::ToRow;
use sqlite::{Alter, Transaction};

impl TableRow for SheetRow {
    ghost table = { laws.table };

    fn select_all_sql() -> &'static str {
        "SELECT who, at, ceremony, way FROM sheet ORDER BY who, at"
    }

    ghost table_laws = { laws.table_laws };
}

impl Put for SheetRow {
    #[tactic(auto, using(crate::specs::SheetLaws::inserts))]
    fn put<S: Alter>(&self, tx: &mut Transaction<'_, S>) -> Result<(), Refusal> {
        let cells = self.cells();
        let insert = "INSERT INTO sheet (who, at, ceremony, way) VALUES (?1, ?2, ?3, ?4)";
        insert_row(tx, self, insert, &cells)
    }
}
