// Written by tools/tables.py from tools/table_list.py: do not edit.
//! The table keys: a row for each accepted command, under its key; its number is the row id, and that of no other row.

ghost use Rattle.kcr_tables.specs.KeysLaws as laws;

use crate::table::{LookupBy, Put, TableRow, insert_row};
use kcr_base::{Key, Refusal};
use kcr_history::KeyRow;
use kcr_rows::to_row::ToRow;
use sqlite::{Alter, Transaction};

impl TableRow for KeyRow {
    ghost table = { laws.table };

    fn select_all_sql() -> &'static str {
        "SELECT \"key\", accepted, command, reply FROM keys ORDER BY \"key\""
    }

    ghost table_laws = { laws.table_laws };
}

/// The row of this key, alone, or none.
impl LookupBy<Key> for KeyRow {
    ghost lookup_spec = { laws.key_row_of };

    fn lookup_sql() -> &'static str {
        "SELECT \"key\", accepted, command, reply FROM keys WHERE \"key\" = ?1 ORDER BY \"key\""
    }

    ghost lookup_laws = { laws.key_row_of_laws };
}

impl Put for KeyRow {
    #[tactic(auto, using(crate::specs::KeysLaws::inserts))]
    fn put<S: Alter>(&self, tx: &mut Transaction<'_, S>) -> Result<(), Refusal> {
        let cells = self.cells();
        let insert = "INSERT INTO keys (\"key\", accepted, command, reply) VALUES (?1, ?2, ?3, ?4)";
        insert_row(tx, self, insert, &cells)
    }
}
