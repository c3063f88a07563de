//! Changes of the tables.

ghost use Rattle.kcr_history.specs.Changes as Changes;
ghost use Rattle.kcr_history.specs.Changes.{all_changed};
ghost use Rattle.kcr_rows.specs.{Refusals.IsFault, Frame.StaysInTransaction};
ghost use Rattle.kcr_tables.specs.{Changed.changed, Changed.changed_all, Frame.ChangesTables, Frame.ChangesMachineTables};

use crate::table::{Put, PutAllocating};
use kcr_base::Refusal;
use kcr_history::Change;
use sqlite::{Alter, Transaction};
use std::alloc::Global;

/// Makes one change: the row goes into its table.
fn make_change<S: Alter>(
    alloc: Global,
    tx: &mut Transaction<'_, S>,
    change: &Change,
) -> Result<(), Refusal>
    ensures holds { ChangesTables S.Store tx.old tx.new result (changed change.now) }
    ensures frame { StaysInTransaction S.Store IsFault tx.old tx.new result }
{
    match change {
        Change::PutPerson(row) => row.put(tx),
        Change::PutTraining(row) => row.put(tx),
        Change::PutWithdrawal(row) => row.put(tx),
        Change::PutAppointment(row) => row.put(tx),
        Change::PutBox(row) => row.put(tx),
        Change::PutSafe(row) => row.put(tx),
        Change::PutBag(row) => row.put_allocating(alloc, tx),
        Change::PutItem(row) => row.put(tx),
        Change::PutCeremony(row) => row.put(tx),
        Change::PutMark(row) => row.put(tx),
        Change::PutStep(row) => row.put_allocating(alloc, tx),
        Change::PutSeating(row) => row.put(tx),
        Change::PutSheet(row) => row.put(tx),
        Change::PutStay(row) => row.put(tx),
        Change::PutException(row) => row.put(tx),
        Change::PutKey(row) => row.put(tx),
    }
}

/// Makes the changes, one after the other; every other row stays. The error is `Memory` when out of memory, and else
/// `Disk`: the device failed, or a row that is put only once has a key or a number that is taken. It leaves the
/// changes before it in the transaction, which the caller rolls back; what was committed before stays.
pub fn change_all<S: Alter>(
    alloc: Global,
    tx: &mut Transaction<'_, S>,
    changes: &[Change],
) -> Result<(), Refusal>
    ensures holds { ChangesTables S.Store tx.old tx.new result (changed_all changes.now) }
    ensures tables { ChangesMachineTables S.Store tx.old tx.new result (all_changed changes.now) }
    ensures frame { StaysInTransaction S.Store IsFault tx.old tx.new result }
{
    for change in changes {
        make_change(alloc, tx, change)?;
    }
    Ok(())
}

/// Makes one change: its row goes into its table, new or in place of the row that has its key; every other row stays.
/// The error is `Memory` when out of memory, and else `Disk`: the device failed, or a row that is put only once has a
/// key or a number that is taken. What was committed before stays.
pub fn change<S: Alter>(
    alloc: Global,
    tx: &mut Transaction<'_, S>,
    made: &Change,
) -> Result<(), Refusal>
    ensures tables { ChangesMachineTables S.Store tx.old tx.new result (Changes.changed made.now) }
    ensures frame { StaysInTransaction S.Store IsFault tx.old tx.new result }
{
    make_change(alloc, tx, made)
}
