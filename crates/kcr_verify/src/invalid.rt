//! The first invalid row of a register, by its table and its key.
ghost use Rattle.std.specs.Prelude.{◌≡◌, ◌≤◌, IfOk, IfSome, false, length};
ghost use Rattle.sqlite.specs.{Order.column, Value.owned};
ghost use Rattle.kcr_store.specs.Frame.{IfCleanOver, StaysOutside};
ghost use Rattle.kcr_tables.specs.{Frame.OfTrees, Frame.Reads, Schema.register_schema};
ghost use Rattle.kcr_verify.specs.Invalid.{IsInvalidIn, key_text, searched};

use crate::compare::TableName;
use crate::quoted::{push_date_of, push_value};
use kcr_base::{Refusal, Text};
use kcr_custody::{Bag, BoxRow, Item, SafeRow};
use kcr_history::{CeremonyRow, ExceptionRow, KeyRow, MarkRow, SeatingRow, StepRow};
use kcr_people::{Appointment, Person, Training, Withdrawal};
use kcr_room::{SheetRow, Stay};
use kcr_rows::Kind;
use kcr_rows::to_row::Columns;
use kcr_tables::TableRow;
use kcr_validity::first_invalid;
use sqlite::types::ValueRef;
use sqlite::{Alter, Connection, Row, Transaction};
use std::alloc::{AllocError, Global};

/// A row with a cell that is no value of its column.
#[derive(Drop)]
pub struct InvalidRow {
    pub table: TableName,
    /// Its key as sqlite3 prints it in its mode `quote`, with the dates of days and moments. What is not UTF-8 is U+FFFD.
    pub key: Text,
}

/// The value in a column, and NULL past the end.
fn cell(row: &Row, at: usize) -> ValueRef<'_>
    ensures { owned result ≡ column row.now at }
{
    match row.get_ref(at) {
        Ok(value) => value,
        Err(_) => ValueRef::Null,
    }
}

/// The key of a row with these first columns. The error is out of memory.
fn key_of(alloc: Global, columns: &[Kind], row: &Row) -> Result<Text, AllocError>
    ensures { IfOk result (λ key. key ≡ key_text columns.now row.now) }
{
    let mut line = Vec::new(alloc);
    for index in 0..columns.len() {
        if index > 0 {
            line.push(b',')?;
        }
        let value = cell(row, index);
        push_value(alloc, &mut line, &value)?;
        push_date_of(&mut line, columns[index], &value)?;
    }
    Ok(Text::from_string(String::from_utf8_lossy(alloc, &line)?))
}

/// The first invalid row of the table with these rows, of which the first `keys` columns are the key. The error is `Memory`,
/// or `Disk` if the table cannot be read.
fn search_rows<S: Alter, T: TableRow + Columns>(
    alloc: Global,
    tx: &mut Transaction<'_, S>,
    table: TableName,
    keys: usize,
) -> Result<Option<InvalidRow>, Refusal>
    requires place { (searched table).place ≡ T.table.place }
    requires kinds { (searched table).kinds ≡ T.kinds }
    requires keys { keys ≡ T.table.place.keys }
    requires fits { keys ≤ length T.kinds }
    ensures found { OfTrees S.Store tx.old tx.new result (λ db found. IfSome found (IsInvalidIn db)) }
    ensures frame { Reads S.Store tx.old tx.new result }
{
    match first_invalid::<S, T>(alloc, tx)? {
        Some(row) => Ok(Some(InvalidRow {
            table,
            key: key_of(alloc, &T::kinds()[..keys], &row)?,
        })),
        None => Ok(None),
    }
}

// begin: written by tools/tables.py

/// Every table of the register. Those that a file of an older version lacks are the last.
const STORED: [TableName; 16] = [
    TableName::People,
    TableName::Trainings,
    TableName::Appointments,
    TableName::Boxes,
    TableName::Safes,
    TableName::Bags,
    TableName::Items,
    TableName::Ceremonies,
    TableName::Marks,
    TableName::Steps,
    TableName::Seatings,
    TableName::Sheet,
    TableName::Exceptions,
    TableName::Keys,
    TableName::Stays,
    TableName::Withdrawals,
];

// end: written by tools/tables.py

// begin: written by tools/tables.py

/// The first invalid row of this table.
fn search_table<S: Alter>(
    alloc: Global,
    tx: &mut Transaction<'_, S>,
    table: TableName,
) -> Result<Option<InvalidRow>, Refusal>
    ensures found { OfTrees S.Store tx.old tx.new result (λ db found. IfSome found (IsInvalidIn db)) }
    ensures frame { Reads S.Store tx.old tx.new result }
{
    match table {
        TableName::People => search_rows::<S, Person>(alloc, tx, table, 1),
        TableName::Trainings => search_rows::<S, Training>(alloc, tx, table, 4),
        TableName::Withdrawals => search_rows::<S, Withdrawal>(alloc, tx, table, 4),
        TableName::Appointments => search_rows::<S, Appointment>(alloc, tx, table, 2),
        TableName::Boxes => search_rows::<S, BoxRow>(alloc, tx, table, 2),
        TableName::Safes => search_rows::<S, SafeRow>(alloc, tx, table, 2),
        TableName::Bags => search_rows::<S, Bag>(alloc, tx, table, 1),
        TableName::Items => search_rows::<S, Item>(alloc, tx, table, 1),
        TableName::Ceremonies => search_rows::<S, CeremonyRow>(alloc, tx, table, 1),
        TableName::Marks => search_rows::<S, MarkRow>(alloc, tx, table, 1),
        TableName::Steps => search_rows::<S, StepRow>(alloc, tx, table, 2),
        TableName::Seatings => search_rows::<S, SeatingRow>(alloc, tx, table, 3),
        TableName::Sheet => search_rows::<S, SheetRow>(alloc, tx, table, 2),
        TableName::Stays => search_rows::<S, Stay>(alloc, tx, table, 2),
        TableName::Exceptions => search_rows::<S, ExceptionRow>(alloc, tx, table, 2),
        TableName::Keys => search_rows::<S, KeyRow>(alloc, tx, table, 1),
    }
}

// end: written by tools/tables.py

/// The first invalid row of these tables, of which one is read after the other. Nothing is changed. The error is
/// `Memory`, or `Disk` if a table cannot be read.
fn search_tables<S: Alter>(
    alloc: Global,
    tx: &mut Transaction<'_, S>,
    tables: &[TableName],
) -> Result<Option<InvalidRow>, Refusal>
    ensures found { OfTrees S.Store tx.old tx.new result (λ db found. IfSome found (IsInvalidIn db)) }
    ensures frame { Reads S.Store tx.old tx.new result }
{
    for table in tables {
        if let Some(found) = search_table(alloc, tx, *table)? {
            return Ok(Some(found));
        }
    }
    Ok(None)
}

/// The first invalid row of a database, in a transaction that is rolled back.
fn search_database<S: Alter>(
    alloc: Global,
    conn: &mut Connection<S>,
) -> Result<Option<InvalidRow>, Refusal>
    requires autocommit { conn.old.in_transaction ≡ false }
    ensures found { IfCleanOver S.Store conn.old conn.new (λ old _. old.now.schema ≡ register_schema
        → IfOk result (λ found. IfSome found (IsInvalidIn old.now.trees))) }
    ensures frame { StaysOutside S.Store (λ _. ⊥) conn.old conn.new }
{
    let mut tx = conn.transaction();
    let found = search_tables(alloc, &mut tx, &STORED);
    tx.rollback();
    found
}

/// The first invalid row of the register that a database holds: of its tables in the order in which the file has them,
/// and of a table in the order of its keys. `None` if none is found: then a reading that was refused (34) met an I/O
/// error, or memory ran out. A table's rows are in memory meanwhile. The database stays as it is.
pub fn first_invalid_row<S: Alter>(alloc: Global, conn: &mut Connection<S>) -> Option<InvalidRow>
    requires autocommit { conn.old.in_transaction ≡ false }

    // The table has a row with this key, and in that row a cell is no value of its column. This is said of a register
    // of this version, whoever wrote the rows.
    ensures found { IfCleanOver S.Store conn.old conn.new (λ old _. old.now.schema ≡ register_schema
        → IfSome result (IsInvalidIn old.now.trees)) }
    ensures frame { StaysOutside S.Store (λ _. ⊥) conn.old conn.new }
{
    match search_database(alloc, conn) {
        Ok(found) => found,
        Err(_) => None,
    }
}
