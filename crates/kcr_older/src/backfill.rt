//! The table of stays, filled from the sheet.

ghost use Rattle.std.specs.Prelude.{◌≡◌, map, IfOk};
ghost use Rattle.kcr_history.specs.declared.views.Change.TheVariants.{PutStay};
ghost use Rattle.kcr_room.specs.Stays.{stays_by};
ghost use Rattle.kcr_rows.specs.{Refusals.IsFault, Frame.StaysInTransaction};
ghost use Rattle.kcr_tables.specs.Frame.{ChangesTables};
ghost use Rattle.kcr_older.specs.{Migrated.with_own_stays, Backfilled.with_stays};

use crate::migration::OldVersion;
use kcr_base::Refusal;
use kcr_history::Change;
use kcr_room::{SheetRow, Stay, stays_of};
use kcr_tables::{all_rows, change_all};
use sqlite::{Alter, Transaction};
use std::alloc::{AllocError, Global};

/// Each stay as a change that puts it.
fn changes_of(alloc: Global, stays: &[Stay]) -> Result<Vec<Change>, AllocError>
    ensures { IfOk result (λ changes. changes.items ≡ map PutStay stays.now) }
{
    let mut changes = Vec::new(alloc);
    for stay in stays {
        changes.push(Change::PutStay(*stay))?;
    }
    Ok(changes)
}

/// The stays of the sheet, each as a change that puts it.
fn stay_changes(alloc: Global, rows: &[SheetRow]) -> Result<Vec<Change>, AllocError>
    ensures { IfOk result (λ changes. changes.items ≡ map PutStay (stays_by rows.now)) }
{
    let stays = stays_of(alloc, rows)?;
    changes_of(alloc, stays.as_slice())
}

/// Puts the stays of the sheet into the table of stays, each under its key. The errors are those of `migrate`.
fn backfill_stays<S: Alter>(alloc: Global, tx: &mut Transaction<'_, S>) -> Result<(), Refusal>
    ensures holds { ChangesTables S.Store tx.old tx.new result with_stays }
    ensures frame { StaysInTransaction S.Store IsFault tx.old tx.new result }
{
    let rows = all_rows::<_, SheetRow>(alloc, tx)?;
    match stay_changes(alloc, rows.as_slice()) {
        Ok(changes) => change_all(alloc, tx, changes.as_slice()),
        Err(_) => Err(Refusal::Memory),
    }
}

/// Fills the tables that the version lacks out of those that it has: of version 1 the stays. The errors are those of
/// `migrate`.
pub(crate) fn backfill<S: Alter>(
    alloc: Global,
    tx: &mut Transaction<'_, S>,
    from: OldVersion,
) -> Result<(), Refusal>
    ensures holds { ChangesTables S.Store tx.old tx.new result (with_own_stays from) }
    ensures frame { StaysInTransaction S.Store IsFault tx.old tx.new result }
{
    match from {
        OldVersion::V1 => backfill_stays(alloc, tx),
        OldVersion::V2 => Ok(()),
    }
}
