// Written by tools/tables.py from tools/table_list.py: do not edit.
//! The table ceremonies: a ceremony under its number.

ghost use Rattle.kcr_tables.specs.CeremoniesLaws as laws;

use crate::table::{LookupBy, Put, TableRow, update_or_insert_row};
use kcr_base::Refusal;
use kcr_history::CeremonyRow;
use kcr_rows::to_row::ToRow;
use sqlite::{Alter, Transaction};

impl TableRow for CeremonyRow {
    ghost table = { laws.table };

    fn select_all_sql() -> &'static str {
        "SELECT number, facility, day, state, opened, closed FROM ceremonies ORDER BY number"
    }

    ghost table_laws = { laws.table_laws };
}

/// The row of the ceremony with this number, alone, or none.
impl LookupBy<u32> for CeremonyRow {
    ghost lookup_spec = { laws.ceremony_of };

    fn lookup_sql() -> &'static str {
        "SELECT number, facility, day, state, opened, closed FROM ceremonies WHERE number = ?1 ORDER BY number"
    }

    ghost lookup_laws = { laws.ceremony_of_laws };
}

impl Put for CeremonyRow {
    #[tactic(auto, using(crate::specs::CeremoniesLaws::inserts, crate::specs::CeremoniesLaws::updates))]
    fn put<S: Alter>(&self, tx: &mut Transaction<'_, S>) -> Result<(), Refusal> {
        let cells = self.cells();
        let insert =
            "INSERT INTO ceremonies (number, facility, day, state, opened, closed) VALUES (?1, ?2, ?3, ?4, ?5, ?6)";
        update_or_insert_row(
            tx,
            self,
            "UPDATE ceremonies SET number = ?1, facility = ?2, day = ?3, state = ?4, opened = ?5, closed = ?6 WHERE number = ?1",
            insert,
            &cells,
        )
    }
}
