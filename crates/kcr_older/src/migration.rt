//! Registers of older versions, migrated to this version.

ghost use Rattle.std.specs.Prelude.{◌≡◌, ◌+◌, OnOk};
ghost use Rattle.kcr_history.specs.{History.History, Tables.tables};
ghost use Rattle.kcr_rows.specs.{Refusals.IsFault, Frame.IfClean, Frame.StaysInTransaction};
ghost use Rattle.kcr_tables.specs.{StoredTables.StoredTables, StoredTables.Holds, MachineTables.HoldsTables};
ghost use Rattle.kcr_older.specs.{Migrated.migrated_tables, Versions.number_of, OldFiles.HoldsHistoryAs, OldFiles.HoldsFirst, OldFiles.numbered};

use crate::backfill::backfill;
use crate::missing_tables::{create_missing_tables, set_version};
use kcr_base::Refusal;
use sqlite::{Alter, Transaction};
use std::alloc::Global;

/// A version before this one.
#[derive(Clone, Copy, Drop)]
pub enum OldVersion {
    /// Version 1, which has neither stays nor withdrawals.
    V1,
    /// Version 2, which has no withdrawals.
    V2,
}

impl OldVersion {
    /// The number of the version.
    pub fn number(self) -> u32
        ensures { result ≡ number_of self }
    {
        match self {
            OldVersion::V1 => 1,
            OldVersion::V2 => 2,
        }
    }
}

/// Brings the tables of a register of an older version, whose number it has, to this one: the same history, with the
/// stays of its sheet and no withdrawals. All other rows stay, and the number of this version is set last. After an
/// error the caller has to roll back: it is `Memory` when out of memory and else `Disk`, as if the device failed, or
/// a statement was refused, as over tables that are not those of that version. What was committed before stays.
pub fn migrate<S: Alter>(
    alloc: Global,
    tx: &mut Transaction<'_, S>,
    from: OldVersion,
) -> Result<(), Refusal>
    ensures brought { IfClean S.Store tx.old tx.new (λ old new. (A : History)
        → HoldsHistoryAs (number_of from) A old.now → OnOk result (HoldsTables (tables A) new.now)) }

    // Whoever wrote the rows.
    ensures rows { IfClean S.Store tx.old tx.new (λ old new. (t : StoredTables)
        → HoldsFirst (14 + number_of from) old.now t → t.versions ≡ numbered (number_of from)
        → OnOk result (Holds new.now (migrated_tables from t))) }
    ensures frame { StaysInTransaction S.Store IsFault tx.old tx.new result }
{
    create_missing_tables(tx, from)?;
    backfill(alloc, tx, from)?;
    set_version(tx)
}
