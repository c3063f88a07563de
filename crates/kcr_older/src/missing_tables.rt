//! The tables that an older file lacks, made over those that it has, and the number of its version.

ghost use Rattle.std.specs.Prelude.{◌≡◌, ℕ, ◌+◌, OnOk};
ghost use Rattle.kcr_rows.specs.{Refusals.IsFault, Frame.IfClean, Frame.StaysInTransaction};
ghost use Rattle.kcr_tables.specs.{StoredTables.StoredTables, StoredTables.Holds, Creation.schema_prefix, Schema.stays, Schema.withdrawals};
ghost use Rattle.kcr_older.specs.{Migrated.with_bare_tables, NewTable.Gains, Versions.number_of, OldFiles.HoldsFirst, OldFiles.numbered};

use crate::migration::OldVersion;
use kcr_base::Refusal;
use kcr_rows::statements::run_statement;
use kcr_tables::create_table_sql;
use sqlite::{Alter, Transaction};

/// Makes the table of stays, without rows, over the tables of version 1.
fn create_stays<S: Alter>(tx: &mut Transaction<'_, S>) -> Result<(), Refusal>
    ensures gains { IfClean S.Store tx.old tx.new
        (λ old new. old.now.schema ≡ schema_prefix 15 → OnOk result (Gains 15 stays old.now new.now)) }
    ensures frame { StaysInTransaction S.Store IsFault tx.old tx.new result }
{
    let text = create_table_sql(15);
    run_statement(tx, text, &[])
}

/// Makes the table of withdrawals, without rows, over the tables of version 2. It is the last table.
fn create_withdrawals<S: Alter>(tx: &mut Transaction<'_, S>) -> Result<(), Refusal>
    ensures gains { IfClean S.Store tx.old tx.new
        (λ old new. old.now.schema ≡ schema_prefix 16 → OnOk result (Gains 16 withdrawals old.now new.now)) }
    ensures frame { StaysInTransaction S.Store IsFault tx.old tx.new result }
{
    let text = create_table_sql(16);
    run_statement(tx, text, &[])
}

/// Makes the tables that the version lacks, without rows; the rows of the others stay. The errors are those of `migrate`.
pub(crate) fn create_missing_tables<S: Alter>(
    tx: &mut Transaction<'_, S>,
    from: OldVersion,
) -> Result<(), Refusal>
    ensures holds { IfClean S.Store tx.old tx.new (λ old new. (t : StoredTables)
        → HoldsFirst (14 + number_of from) old.now t → OnOk result (Holds new.now (with_bare_tables from t))) }
    ensures frame { StaysInTransaction S.Store IsFault tx.old tx.new result }
{
    match from {
        OldVersion::V1 => {
            create_stays(tx)?;
            create_withdrawals(tx)
        }
        OldVersion::V2 => create_withdrawals(tx),
    }
}

/// Sets the number of the version, which is in one row, to that of this version. The errors are those of
/// `migrate`.
pub(crate) fn set_version<S: Alter>(tx: &mut Transaction<'_, S>) -> Result<(), Refusal>
    ensures holds { IfClean S.Store tx.old tx.new (λ old new. (number : ℕ) → (t : StoredTables)
        → t.versions ≡ numbered number → Holds old.now t
        → OnOk result (Holds new.now (record t { versions = numbered 3 }))) }
    ensures frame { StaysInTransaction S.Store IsFault tx.old tx.new result }
{
    run_statement(tx, "UPDATE versions SET number = 3", &[])
}
