// Written by tools/tables.py from tools/table_list.py: do not edit.
//! The table appointments: who holds a custodian's place, under the place and the first day.

ghost use Rattle.kcr_tables.specs.AppointmentsLaws as laws;

use crate::table::{Put, TableRow, update_or_insert_row};
use kcr_base::Refusal;
use kcr_people::Appointment;
use kcr_rows::to_row::ToRow;
use sqlite::{Alter, Transaction};

impl TableRow for Appointment {
    ghost table = { laws.table };

    fn select_all_sql() -> &'static str {
        "SELECT place, since, who, until FROM appointments ORDER BY place, since"
    }

    ghost table_laws = { laws.table_laws };
}

impl Put for Appointment {
    #[tactic(auto, using(crate::specs::AppointmentsLaws::inserts, crate::specs::AppointmentsLaws::updates))]
    fn put<S: Alter>(&self, tx: &mut Transaction<'_, S>) -> Result<(), Refusal> {
        let cells = self.cells();
        let insert = "INSERT INTO appointments (place, since, who, until) VALUES (?1, ?2, ?3, ?4)";
        update_or_insert_row(
            tx,
            self,
            "UPDATE appointments SET place = ?1, since = ?2, who = ?3, until = ?4 WHERE place = ?1 AND since = ?2",
            insert,
            &cells,
        )
    }
}
