//! The trainings that are asked for: those of a person, or those of anybody that last to a day.

ghost use Rattle.kcr_history.specs.Views.{Includes, is_training_asked};
ghost use Rattle.kcr_rows.specs.Rows.{training_row};
ghost use Rattle.kcr_tables.specs.{Selected.asked_of, StoredTables.trainings_place, Frame.OfTables, Frame.OfTrees, Frame.Reads};
ghost use Rattle.kcr_tables.specs.Exact.{rows_at, is_training_row, AreShown};

use crate::table::{all_rows, find_rows, shown_rows};
use kcr_base::Refusal;
use kcr_history::{Selection, TrainingFilter};
use kcr_people::Training;
use kcr_rows::cells::number_cell;
use sqlite::{Alter, Transaction};
use std::alloc::Global;

/// The trainings that are asked for, in any order: all, those of a person, or those of anybody that last to a day.
/// Nothing is changed. The error is `Memory` when out of memory, and else `Disk`: the device failed, or a row that is
/// shown is invalid.
pub fn select_trainings<S: Alter>(
    alloc: Global,
    tx: &mut Transaction<'_, S>,
    asked: &Selection<TrainingFilter>,
) -> Result<Vec<Training>, Refusal>
    ensures rows { OfTables S.Store tx.old tx.new result
        (λ t all. Includes is_training_asked asked.now t.rows.trainings all.items) }
    ensures exact { OfTrees S.Store tx.old tx.new result
        (λ db all. AreShown training_row all.items (asked_of is_training_row asked.now (rows_at trainings_place db))) }
    ensures frame { Reads S.Store tx.old tx.new result }
{
    match asked {
        Selection::Nothing => Ok(Vec::new(alloc)),
        Selection::Matching(TrainingFilter::Person(who)) => find_rows(alloc, tx, who),
        // No index begins with the last day, so every row is read: by the row ids the engine goes along the table itself,
        // where in the order of the keys it goes along the index of the key, which costs twice as much.
        Selection::Matching(TrainingFilter::EndingOnOrAfter(day)) => shown_rows(
            alloc,
            tx,
            "SELECT who, role, since, until FROM trainings WHERE until >= ?1 ORDER BY rowid",
            &[number_cell(*day)],
        ),
        Selection::All => all_rows(alloc, tx),
    }
}
