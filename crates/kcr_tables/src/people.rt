// Written by tools/tables.py from tools/table_list.py: do not edit.
//! The table people: a person under their initials.

ghost use Rattle.kcr_tables.specs.PeopleLaws as laws;

use crate::table::{LookupBy, Put, TableRow, insert_row};
use kcr_base::{Initials, Refusal};
use kcr_people::Person;
use kcr_rows::to_row::ToRow;
use sqlite::{Alter, Transaction};

impl TableRow for Person {
    ghost table = { laws.table };

    fn select_all_sql() -> &'static str {
        "SELECT who, name FROM people ORDER BY who"
    }

    ghost table_laws = { laws.table_laws };
}

/// The row of the person with these initials, alone, or none.
impl LookupBy<Initials> for Person {
    ghost lookup_spec = { laws.person_of };

    fn lookup_sql() -> &'static str {
        "SELECT who, name FROM people WHERE who = ?1 ORDER BY who"
    }

    ghost lookup_laws = { laws.person_of_laws };
}

impl Put for Person {
    #[tactic(auto, using(crate::specs::PeopleLaws::inserts))]
    fn put<S: Alter>(&self, tx: &mut Transaction<'_, S>) -> Result<(), Refusal> {
        let cells = self.cells();
        let insert = "INSERT INTO people (who, name) VALUES (?1, ?2)";
        insert_row(tx, self, insert, &cells)
    }
}
