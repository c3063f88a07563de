// Written by tools/tables.py from tools/table_list.py: do not edit.
//! The table withdrawals: from which day a training is withdrawn, under the training's key.

ghost use Rattle.kcr_tables.specs.WithdrawalsLaws as laws;

use crate::table::{LookupBy, Put, TableRow, update_or_insert_row};
use kcr_base::{Initials, Refusal};
use kcr_people::Withdrawal;
use kcr_rows::to_row::ToRow;
use sqlite::{Alter, Transaction};

impl TableRow for Withdrawal {
    ghost table = { laws.table };

    fn select_all_sql() -> &'static str {
        "SELECT who, role, since, until, day FROM withdrawals ORDER BY who, role, since, until"
    }

    ghost table_laws = { laws.table_laws };
}

/// The rows of one person.
impl LookupBy<Initials> for Withdrawal {
    ghost lookup_spec = { laws.withdrawals_of };

    fn lookup_sql() -> &'static str {
        "SELECT who, role, since, until, day FROM withdrawals WHERE who = ?1 ORDER BY who, role, since, until"
    }

    ghost lookup_laws = { laws.withdrawals_of_laws };
}

impl Put for Withdrawal {
    #[tactic(auto, using(crate::specs::WithdrawalsLaws::inserts, crate::specs::WithdrawalsLaws::updates))]
    fn put<S: Alter>(&self, tx: &mut Transaction<'_, S>) -> Result<(), Refusal> {
        let cells = self.cells();
        let insert =
            "INSERT INTO withdrawals (who, role, since, until, day) VALUES (?1, ?2, ?3, ?4, ?5)";
        update_or_insert_row(
            tx,
            self,
            "UPDATE withdrawals SET who = ?1, role = ?2, since = ?3, until = ?4, day = ?5 WHERE who = ?1 AND role = ?2 AND since = ?3 AND until = ?4",
            insert,
            &cells,
        )
    }
}
