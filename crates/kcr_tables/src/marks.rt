// Written by tools/tables.py from tools/table_list.py: do not edit.
//! The table marks: the mark of a ceremony that was opened, under its number.

ghost use Rattle.kcr_tables.specs.MarksLaws as laws;

use crate::table::{LookupBy, Put, TableRow, update_or_insert_row};
use kcr_base::Refusal;
use kcr_history::MarkRow;
use kcr_rows::to_row::ToRow;
use sqlite::{Alter, Transaction};

impl TableRow for MarkRow {
    ghost table = { laws.table };

    fn select_all_sql() -> &'static str {
        "SELECT ceremony, at FROM marks ORDER BY ceremony"
    }

    ghost table_laws = { laws.table_laws };
}

/// The row of the ceremony, alone, or none.
impl LookupBy<u32> for MarkRow {
    ghost lookup_spec = { laws.mark_of };

    fn lookup_sql() -> &'static str {
        "SELECT ceremony, at FROM marks WHERE ceremony = ?1 ORDER BY ceremony"
    }

    ghost lookup_laws = { laws.mark_of_laws };
}

impl Put for MarkRow {
    #[tactic(auto, using(crate::specs::MarksLaws::inserts, crate::specs::MarksLaws::updates))]
    fn put<S: Alter>(&self, tx: &mut Transaction<'_, S>) -> Result<(), Refusal> {
        let cells = self.cells();
        let insert = "INSERT INTO marks (ceremony, at) VALUES (?1, ?2)";
        update_or_insert_row(
            tx,
            self,
            "UPDATE marks SET ceremony = ?1, at = ?2 WHERE ceremony = ?1",
            insert,
            &cells,
        )
    }
}
