// Written by tools/tables.py from tools/table_list.py: do not edit.
//! The table exceptions: a script exception of a ceremony under both numbers.

ghost use Rattle.kcr_tables.specs.ExceptionsLaws as laws;

use crate::table::{LookupBy, Put, TableRow, insert_row};
use kcr_base::Refusal;
use kcr_history::ExceptionRow;
use kcr_rows::to_row::ToRow;
use sqlite::{Alter, Transaction};

impl TableRow for ExceptionRow {
    ghost table = { laws.table };

    fn select_all_sql() -> &'static str {
        "SELECT ceremony, exception, text, at, passed FROM exceptions ORDER BY ceremony, exception"
    }

    ghost table_laws = { laws.table_laws };
}

/// The rows of one ceremony.
impl LookupBy<u32> for ExceptionRow {
    ghost lookup_spec = { laws.exceptions_of };

    fn lookup_sql() -> &'static str {
        "SELECT ceremony, exception, text, at, passed FROM exceptions WHERE ceremony = ?1 ORDER BY ceremony, exception"
    }

    ghost lookup_laws = { laws.exceptions_of_laws };
}

impl Put for ExceptionRow {
    #[tactic(auto, using(crate::specs::ExceptionsLaws::inserts))]
    fn put<S: Alter>(&self, tx: &mut Transaction<'_, S>) -> Result<(), Refusal> {
        let cells = self.cells();
        let insert =
            "INSERT INTO exceptions (ceremony, exception, text, at, passed) VALUES (?1, ?2, ?3, ?4, ?5)";
        insert_row(tx, self, insert, &cells)
    }
}
