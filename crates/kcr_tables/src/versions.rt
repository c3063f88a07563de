// Written by tools/tables.py from tools/table_list.py: do not edit.
//! The table versions: one row with the number of the schema.

ghost use Rattle.kcr_tables.specs.VersionsLaws as laws;

use crate::table::{Put, TableRow, insert_row};
use kcr_base::Refusal;
use kcr_rows::Version;
use kcr_rows::to_row::ToRow;
use sqlite::{Alter, Transaction};

impl TableRow for Version {
    ghost table = { laws.table };

    fn select_all_sql() -> &'static str {
        "SELECT number FROM versions ORDER BY number"
    }

    ghost table_laws = { laws.table_laws };
}

impl Put for Version {
    #[tactic(auto, using(crate::specs::VersionsLaws::inserts))]
    fn put<S: Alter>(&self, tx: &mut Transaction<'_, S>) -> Result<(), Refusal> {
        let cells = self.cells();
        let insert = "INSERT INTO versions (number) VALUES (?1)";
        insert_row(tx, self, insert, &cells)
    }
}
