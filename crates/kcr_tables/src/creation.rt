//! The tables of a new register.

ghost use Rattle.std.specs.Prelude.{◌≡◌, ◌+◌, ◌<◌, [], OnOk};
ghost use Rattle.sqlite_catalog.specs.Listing.{IsSound};
ghost use Rattle.kcr_history.specs.Tables.{tables};
ghost use Rattle.kcr_rows.specs.{Refusals.IsFault, Keyed.put_in, Rows.safe_row, Frame.IfClean, Frame.StaysInTransaction};
ghost use Rattle.kcr_tables.specs.{StoredTables.Holds, Frame.ChangesTables, MachineTables.HoldsTables};
ghost use Rattle.kcr_tables.specs.{NewTables.empty_tables, NewTables.new_tables, NewTables.shut, Creation.schema_prefix, Creation.HasEmptyTables};
ghost use Rattle.kcr_custody.specs.declared.SafeNumber.TheVariants.{One, Two};

use crate::create_sql::{TABLE_COUNT, create_table_sql};
use crate::table::Put;
use kcr_base::{Facility, Refusal};
use kcr_custody::{SafeNumber, SafeRow};
use kcr_rows::Version;
use kcr_rows::statements::run_statement;
use sqlite::{Alter, Transaction};

/// The number of the schema, which the table versions holds.
const SCHEMA_VERSION: u32 = 3;

/// Makes the table of this position, counted from 0, after those before it.
fn create_one<S: Alter>(tx: &mut Transaction<'_, S>, at: usize) -> Result<(), Refusal>
    requires { at < 17 }
    ensures made { IfClean S.Store tx.old tx.new
        (λ old new. HasEmptyTables at old.now → OnOk result (HasEmptyTables (at + 1) new.now)) }
    ensures sound { IfClean S.Store tx.old tx.new
        (λ old new. HasEmptyTables at old.now → OnOk result (IsSound (schema_prefix (at + 1)) new.now.trees)) }
    ensures frame { StaysInTransaction S.Store IsFault tx.old tx.new result }
{
    let text = create_table_sql(at);
    run_statement(tx, text, &[])
}

/// All tables, without rows.
fn create_all<S: Alter>(tx: &mut Transaction<'_, S>) -> Result<(), Refusal>
    ensures holds { IfClean S.Store tx.old tx.new
        (λ old new. old.now.schema ≡ schema_prefix 0 → OnOk result (Holds new.now empty_tables)) }
    ensures frame { StaysInTransaction S.Store IsFault tx.old tx.new result }
{
    for at in 0..TABLE_COUNT {
        create_one(tx, at)?;
    }
    Ok(())
}

/// Puts the two safes of a facility, which are shut.
fn put_pair<S: Alter>(tx: &mut Transaction<'_, S>, facility: Facility) -> Result<(), Refusal>
    ensures holds { ChangesTables S.Store tx.old tx.new result
        (λ t. record t {
          rows = record t.rows {
            safes = put_in 2 safe_row (shut facility Two) (put_in 2 safe_row (shut facility One) t.rows.safes);
          };
        }) }
    ensures frame { StaysInTransaction S.Store IsFault tx.old tx.new result }
{
    let equipment = SafeRow {
        facility,
        safe: SafeNumber::One,
        is_open: false,
    };
    equipment.put(tx)?;
    let credentials = SafeRow {
        facility,
        safe: SafeNumber::Two,
        is_open: false,
    };
    credentials.put(tx)
}

/// The tables and rows of `make`.
fn make_rows<S: Alter>(tx: &mut Transaction<'_, S>) -> Result<(), Refusal>
    ensures holds { IfClean S.Store tx.old tx.new
        (λ old new. old.now.schema ≡ schema_prefix 0 → OnOk result (Holds new.now new_tables)) }
    ensures frame { StaysInTransaction S.Store IsFault tx.old tx.new result }
{
    create_all(tx)?;
    put_pair(tx, Facility::East)?;
    put_pair(tx, Facility::West)?;
    let version = Version {
        number: SCHEMA_VERSION,
    };
    version.put(tx)
}

/// Makes the tables of a new register in an empty database: the four safes, which are shut, one row with the
/// number of the schema, and no others. The error is `Memory` when out of memory, and else `Disk`. It leaves a part of
/// the tables in the transaction, which the caller rolls back; what was committed before stays.
pub fn make<S: Alter>(tx: &mut Transaction<'_, S>) -> Result<(), Refusal>
    ensures holds { IfClean S.Store tx.old tx.new
        (λ old new. old.now.schema ≡ schema_prefix 0 → OnOk result (Holds new.now new_tables)) }
    ensures made { IfClean S.Store tx.old tx.new
        (λ old new. old.now.schema ≡ schema_prefix 0 → OnOk result (HoldsTables (tables []) new.now)) }
    ensures frame { StaysInTransaction S.Store IsFault tx.old tx.new result }
{
    make_rows(tx)
}
