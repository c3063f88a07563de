//! What a database is, told by its schema.

ghost use Rattle.std.specs.Prelude.{◌≡◌, false, IfOk, IfErr, OnOk, is_some};
ghost use Rattle.sqlite.specs.{Held.state, Steps.over_memory, State.HasCleanDisk};
ghost use Rattle.kcr_rows.specs.Refusals.{IsFault};
ghost use Rattle.kcr_tables.specs.Schema.{register_schema};
ghost use Rattle.kcr_older.specs.Kind as spec;
ghost use Rattle.kcr_older.specs.Kind.{numbered_table, no_schema, IsOfKind};

use crate::schemas::is_made_of;
use kcr_base::Refusal;
use kcr_tables::make;
use sqlite::{Alter, Connection, Error, ErrorCode, MemStore};
use sqlite_schema::schema::{Column, Schema};
use std::alloc::Global;

/// What a database is by its schema.
#[derive(Clone, Copy, Drop)]
pub enum DatabaseKind {
    /// It has nothing.
    Empty,
    /// The schema of a register of this version, which is 3.
    Current,
    /// That of version 2, which has no withdrawals.
    Version2,
    /// That of version 1, which has no stays either.
    Version1,
    /// None of these, with a table `versions` of the one column `number`.
    Versioned,
    /// Something else.
    Foreign,
}

/// Whether there is a table `versions` with the one column `number`.
fn has_version(schema: &Schema) -> bool
    ensures { result ≡ is_some (numbered_table schema.now) }
{
    let Some(at) = schema.table_named(b"versions") else {
        return false;
    };
    match schema.tables.get(at) {
        Some(table) => is_number(table.columns.as_slice()),
        None => false,
    }
}

/// Whether this is the one column `number`.
fn is_number(columns: &[Column]) -> bool
    ensures { result ≡ spec.is_number columns.now }
{
    match columns {
        [column] => column.name.as_slice() == b"number".as_slice(),
        _ => false,
    }
}

/// What a database with this schema is, if `all` is the schema of this version.
fn kind_of_schema(schema: &Schema, all: &Schema) -> DatabaseKind
    requires { all.now ≡ register_schema }
    ensures { IsOfKind schema.now result }
{
    let tables = all.tables.as_slice();
    let indexes = all.indexes.as_slice();
    if schema.tables.is_empty() && schema.indexes.is_empty() && schema.views.is_empty() {
        DatabaseKind::Empty
    } else if is_made_of(schema, tables, indexes) {
        DatabaseKind::Current
    } else if is_made_of(schema, &tables[..16], &indexes[..19]) {
        DatabaseKind::Version2
    } else if is_made_of(schema, &tables[..15], &indexes[..17]) {
        DatabaseKind::Version1
    } else if has_version(schema) {
        DatabaseKind::Versioned
    } else {
        DatabaseKind::Foreign
    }
}

/// Makes the tables of an empty register, and commits them.
fn make_tables<S: Alter>(conn: &mut Connection<S>) -> Result<(), Refusal>
    requires autocommit { conn.old.in_transaction ≡ false }
    requires empty { (state S.Store conn.old).now.schema ≡ no_schema }
    ensures schema { HasCleanDisk (state S.Store conn.new)
        → OnOk result ((state S.Store conn.new).now.schema ≡ register_schema) }
    ensures cause { IfErr result IsFault }
{
    let mut tx = conn.transaction();
    make(&mut tx)?;
    match tx.commit() {
        Ok(()) => Ok(()),
        Err(Error::SqliteFailure(ErrorCode::OutOfMemory)) => Err(Refusal::Memory),
        Err(_) => Err(Refusal::Disk),
    }
}

/// The tables of this version in memory, to compare with.
fn reference_tables(alloc: Global) -> Result<Connection<MemStore>, Refusal>
    ensures schema { IfOk result (λ c. (state over_memory c).now.schema ≡ register_schema) }
    ensures cause { IfErr result IsFault }
{
    let Ok(mut conn) = Connection::open_in_memory(alloc) else {
        return Err(Refusal::Memory);
    };
    make_tables(&mut conn)?;
    Ok(conn)
}

/// What a database with this schema is. The schema is compared as a whole: with a table, an index, a view or a trigger
/// more, or a column less, it is that of no version. The error is out of memory, or what a store in memory tells as a
/// fault.
pub fn database_kind(alloc: Global, schema: &Schema) -> Result<DatabaseKind, Refusal>
    ensures stands { IfOk result (IsOfKind schema.now) }
    ensures cause { IfErr result IsFault }
{
    let model = reference_tables(alloc)?;
    Ok(kind_of_schema(schema, model.schema()))
}
