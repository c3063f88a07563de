// Written by tools/tables.py from tools/table_list.py: do not edit.
//! The table trainings: a training of a person for a role, all of it its key.

ghost use Rattle.kcr_tables.specs.TrainingsLaws as laws;

use crate::table::{LookupBy, Put, TableRow, insert_row};
use kcr_base::{Initials, Refusal};
use kcr_people::Training;
use kcr_rows::to_row::ToRow;
use sqlite::{Alter, Transaction};

impl TableRow for Training {
    ghost table = { laws.table };

    fn select_all_sql() -> &'static str {
        "SELECT who, role, since, until FROM trainings ORDER BY who, role, since, until"
    }

    ghost table_laws = { laws.table_laws };
}

/// The rows of one person.
impl LookupBy<Initials> for Training {
    ghost lookup_spec = { laws.trainings_of };

    fn lookup_sql() -> &'static str {
        "SELECT who, role, since, until FROM trainings WHERE who = ?1 ORDER BY who, role, since, until"
    }

    ghost lookup_laws = { laws.trainings_of_laws };
}

impl Put for Training {
    #[tactic(auto, using(crate::specs::TrainingsLaws::inserts))]
    fn put<S: Alter>(&self, tx: &mut Transaction<'_, S>) -> Result<(), Refusal> {
        let cells = self.cells();
        let insert = "INSERT INTO trainings (who, role, since, until) VALUES (?1, ?2, ?3, ?4)";
        insert_row(tx, self, insert, &cells)
    }
}
