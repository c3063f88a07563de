// Written by tools/tables.py from tools/table_list.py: do not edit.
//! The table items: an item under its code.

ghost use Rattle.kcr_tables.specs.ItemsLaws as laws;

use crate::table::{LookupBy, Put, TableRow, update_or_insert_row};
use kcr_base::{ItemCode, Refusal, Serial};
use kcr_custody::Item;
use kcr_rows::to_row::ToRow;
use sqlite::{Alter, Transaction};

impl TableRow for Item {
    ghost table = { laws.table };

    fn select_all_sql() -> &'static str {
        "SELECT code, facility, serial FROM items ORDER BY code"
    }

    ghost table_laws = { laws.table_laws };
}

/// The row of the item with this code, alone, or none.
impl LookupBy<ItemCode> for Item {
    ghost lookup_spec = { laws.item_of };

    fn lookup_sql() -> &'static str {
        "SELECT code, facility, serial FROM items WHERE code = ?1 ORDER BY code"
    }

    ghost lookup_laws = { laws.item_of_laws };
}

/// The rows of the items in the bag with this serial.
impl LookupBy<Serial> for Item {
    ghost lookup_spec = { laws.items_within };

    fn lookup_sql() -> &'static str {
        "SELECT code, facility, serial FROM items WHERE serial = ?1 ORDER BY code"
    }

    ghost lookup_laws = { laws.items_within_laws };
}

impl Put for Item {
    #[tactic(auto, using(crate::specs::ItemsLaws::inserts, crate::specs::ItemsLaws::updates))]
    fn put<S: Alter>(&self, tx: &mut Transaction<'_, S>) -> Result<(), Refusal> {
        let cells = self.cells();
        let insert = "INSERT INTO items (code, facility, serial) VALUES (?1, ?2, ?3)";
        update_or_insert_row(
            tx,
            self,
            "UPDATE items SET code = ?1, facility = ?2, serial = ?3 WHERE code = ?1",
            insert,
            &cells,
        )
    }
}
