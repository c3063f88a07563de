// Written by tools/tables.py from tools/table_list.py: do not edit.
//! The table bags: a bag under its serial.

ghost use Rattle.kcr_tables.specs.BagsLaws as laws;

use crate::table::{LookupBy, PutAllocating, TableRow, update_or_insert_row};
use kcr_base::{Refusal, Serial};
use kcr_custody::Bag;
use kcr_rows::to_row::ToRowAllocating;
use sqlite::{Alter, Transaction};
use std::alloc::Global;

impl TableRow for Bag {
    ghost table = { laws.table };

    fn select_all_sql() -> &'static str {
        "SELECT serial, spot FROM bags ORDER BY serial"
    }

    ghost table_laws = { laws.table_laws };
}

/// The row of the bag with this serial, alone, or none.
impl LookupBy<Serial> for Bag {
    ghost lookup_spec = { laws.bag_of };

    fn lookup_sql() -> &'static str {
        "SELECT serial, spot FROM bags WHERE serial = ?1 ORDER BY serial"
    }

    ghost lookup_laws = { laws.bag_of_laws };
}

impl PutAllocating for Bag {
    #[tactic(auto, using(crate::specs::BagsLaws::inserts, crate::specs::BagsLaws::updates))]
    fn put_allocating<S: Alter>(
        &self,
        alloc: Global,
        tx: &mut Transaction<'_, S>,
    ) -> Result<(), Refusal> {
        let cells = self.cells_allocating(alloc)?;
        let insert = "INSERT INTO bags (serial, spot) VALUES (?1, ?2)";
        update_or_insert_row(
            tx,
            self,
            "UPDATE bags SET serial = ?1, spot = ?2 WHERE serial = ?1",
            insert,
            &cells,
        )
    }
}
