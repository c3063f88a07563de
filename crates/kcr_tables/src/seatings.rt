// Written by tools/tables.py from tools/table_list.py: do not edit.
//! The table seatings: who filled a seat of a step, under the ceremony, the step and the seat.

ghost use Rattle.kcr_tables.specs.SeatingsLaws as laws;

use crate::table::{Put, TableRow, insert_row};
use kcr_base::Refusal;
use kcr_history::SeatingRow;
use kcr_rows::to_row::ToRow;
use sqlite::{Alter, Transaction};

impl TableRow for SeatingRow {
    ghost table = { laws.table };

    fn select_all_sql() -> &'static str {
        "SELECT ceremony, step, seat, who FROM seatings ORDER BY ceremony, step, seat"
    }

    ghost table_laws = { laws.table_laws };
}

impl Put for SeatingRow {
    #[tactic(auto, using(crate::specs::SeatingsLaws::inserts))]
    fn put<S: Alter>(&self, tx: &mut Transaction<'_, S>) -> Result<(), Refusal> {
        let cells = self.cells();
        let insert = "INSERT INTO seatings (ceremony, step, seat, who) VALUES (?1, ?2, ?3, ?4)";
        insert_row(tx, self, insert, &cells)
    }
}
