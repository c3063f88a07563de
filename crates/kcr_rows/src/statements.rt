//! One statement, with what it gave as values: the one module that calls the database.

ghost use Rattle.std.specs.Prelude.{◌≡◌, ◌≢◌, ℕ, map, Ok, IfOk, IfErr, OnOk};
ghost use Rattle.sqlite.specs.declared.error.{Error.TheVariants.SqliteFailure, ErrorCode.TheVariants.OutOfMemory};
ghost use Rattle.sqlite.specs.{Values.bound, Given.IsPlain, Listing.understood, State.IsUnchanged, State.Executes, State.Shown};
ghost use Rattle.std.specs.List.{AllByRecursion};
ghost use Rattle.kcr_rows.specs.{Refusals.IsFault, Frame.IfClean, Frame.ImpliesOpen, Frame.StaysInTransaction};

use crate::from_row::FromRow;
use kcr_base::Refusal;
use sqlite::types::ValueRef;
use sqlite::{Alter, Error, ErrorCode, Row, Transaction};
use std::alloc::Global;

/// Out of memory, or else a fault of the disk.
fn refusal_of(error: Error) -> Refusal
    ensures memory { error ≡ SqliteFailure OutOfMemory → result ≡ Refusal.Memory }
    ensures disk { error ≢ SqliteFailure OutOfMemory → result ≡ Refusal.Disk }
    ensures cause { IsFault result }
{
    match error {
        Error::SqliteFailure(ErrorCode::OutOfMemory) => Refusal::Memory,
        _ => Refusal::Disk,
    }
}

/// The values of rows that a query gave, in their order.
fn decode_all<T: FromRow>(alloc: Global, rows: &[Row]) -> Result<Vec<T>, Refusal>
    ensures rows { IfOk result (λ all. map T.row_of all.items ≡ rows.now) }
    ensures read { IfOk result (λ all. AllByRecursion T.is_read all.items) }
    ensures cause { IfErr result IsFault }
{
    let mut all = Vec::new(alloc);
    for row in rows {
        all.push(T::from_row(alloc, row)?)?;
    }
    Ok(all)
}

/// The rows that a query shows, as values. The error is `Disk` also if a row is no value's.
pub fn query_rows<S: Alter, T: FromRow>(
    alloc: Global,
    tx: &mut Transaction<'_, S>,
    sql: &str,
    params: &[ValueRef<'_>],
) -> Result<Vec<T>, Refusal>
    ensures shown { IfClean S.Store tx.old tx.new
        (λ old new. IfOk result (λ all. Shown sql.now (bound params.now) old new (map T.row_of all.items))) }
    ensures read { IfOk result (λ all. AllByRecursion T.is_read all.items) }
    ensures same { IfClean S.Store tx.old tx.new
        (λ old new. IsPlain (understood old.now.schema sql.now) → OnOk result (IsUnchanged old new)) }
    ensures opened { ImpliesOpen S.Store tx.old tx.new result }
    ensures frame { StaysInTransaction S.Store IsFault tx.old tx.new result }
{
    match tx.query_all(sql, params) {
        Ok(rows) => decode_all(alloc, rows.as_slice()),
        Err(error) => Err(refusal_of(error)),
    }
}

/// Runs a statement that writes, and answers how many rows it changed or put in. The error is `Disk` also if the
/// statement is refused, as for a key that is taken.
pub fn execute<S: Alter>(
    tx: &mut Transaction<'_, S>,
    sql: &str,
    params: &[ValueRef<'_>],
) -> Result<usize, Refusal>
    ensures runs { IfClean S.Store tx.old tx.new
        (λ old new. IfOk result (λ count. Executes sql.now (bound params.now) old new (Ok count))) }
    ensures frame { StaysInTransaction S.Store IsFault tx.old tx.new result }
{
    match tx.execute(sql, params) {
        Ok(count) => Ok(count),
        Err(error) => Err(refusal_of(error)),
    }
}

/// Runs a statement that writes, as `execute` does.
pub fn run_statement<S: Alter>(
    tx: &mut Transaction<'_, S>,
    sql: &str,
    params: &[ValueRef<'_>],
) -> Result<(), Refusal>
    ensures runs { IfClean S.Store tx.old tx.new
        (λ old new. OnOk result ((count : ℕ) × Executes sql.now (bound params.now) old new (Ok count))) }
    ensures frame { StaysInTransaction S.Store IsFault tx.old tx.new result }
{
    execute(tx, sql, params)?;
    Ok(())
}
