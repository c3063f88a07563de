//! Whether a schema consists of some tables and their indexes.

ghost use Rattle.std.specs.Prelude.{◌≡◌, ◌↔◌, [], IsTrue};
ghost use Rattle.std.specs.List.{AllByRecursion};
ghost use Rattle.kcr_older.specs.Plain.{IsPlainColumn, IsPlain, IsBare, HasSameKeys};

use sqlite_items::Items;
use sqlite_schema::schema::{Column, Index, Schema, Table};
use sqlite_value::keys::Order;
use sqlite_value::value::Value;

fn is_null(value: &Value) -> bool
    ensures { IsTrue result ↔ (value.now ≡ Value.Null) }
{
    match value {
        Value::Null => true,
        _ => false,
    }
}

/// Whether the column is this one, which has no default.
fn is_column(found: &Column, plain: &Column) -> bool
    requires { IsPlainColumn plain.now }
    ensures { IsTrue result ↔ (found.now ≡ plain.now) }
{
    found.name.as_slice() == plain.name.as_slice()
        && found.kind == plain.kind
        && found.is_strict == plain.is_strict
        && found.not_null == plain.not_null
        && is_null(&found.default)
        && found.collation == plain.collation
}

/// Whether the columns are these, one by one.
fn are_columns(found: &[Column], plain: &[Column]) -> bool
    requires { AllByRecursion IsPlainColumn plain.now }
    ensures { IsTrue result ↔ (found.now ≡ plain.now) }
{
    match (found.split_first(), plain.split_first()) {
        (None, None) => true,
        (Some((column, columns)), Some((other, others))) => {
            is_column(column, other) && are_columns(columns, others)
        }
        _ => false,
    }
}

/// Whether the lists of places are these, one by one.
fn are_lists(found: &[Items<usize>], lists: &[Items<usize>]) -> bool
    ensures { IsTrue result ↔ (found.now ≡ lists.now) }
{
    match (found.split_first(), lists.split_first()) {
        (None, None) => true,
        (Some((list, more)), Some((other, others))) => {
            list.as_slice() == other.as_slice() && are_lists(more, others)
        }
        _ => false,
    }
}

/// Whether the orders are these, one by one.
fn are_orders(found: &[Order], orders: &[Order]) -> bool
    ensures { IsTrue result ↔ (found.now ≡ orders.now) }
{
    match (found.split_first(), orders.split_first()) {
        (None, None) => true,
        (Some((order, more)), Some((other, others))) => {
            order == other && are_orders(more, others)
        }
        _ => false,
    }
}

/// Whether the table has nothing but columns and keys, and its columns are these.
fn is_bare(found: &Table) -> bool
    ensures { IsTrue result ↔ IsBare found.now }
{
    found.checks.roots.is_empty()
        && found.references.is_empty()
        && found.computed.is_empty()
        && found.stamps.places.is_empty()
        && found.stamps.terms.roots.is_empty()
        && found.stamps.formats.is_empty()
}

/// Whether the table has these keys.
fn has_keys(found: &Table, plain: &Table) -> bool
    ensures { IsTrue result ↔ HasSameKeys found.now plain.now }
{
    found.key == plain.key
        && found.primary.as_slice() == plain.primary.as_slice()
        && are_lists(found.uniques.as_slice(), plain.uniques.as_slice())
        && are_orders(found.orders.as_slice(), plain.orders.as_slice())
        && found.is_counted == plain.is_counted
}

/// Whether the table is this one, which has nothing but columns and keys.
fn is_table(found: &Table, plain: &Table) -> bool
    requires { IsPlain plain.now }
    ensures { IsTrue result ↔ (found.now ≡ plain.now) }
{
    found.name.as_slice() == plain.name.as_slice()
        && found.tree == plain.tree
        && are_columns(found.columns.as_slice(), plain.columns.as_slice())
        && has_keys(found, plain)
        && is_bare(found)
}

/// Whether the tables are these, one by one.
fn are_tables(found: &[Table], plain: &[Table]) -> bool
    requires { AllByRecursion IsPlain plain.now }
    ensures { IsTrue result ↔ (found.now ≡ plain.now) }
{
    match (found.split_first(), plain.split_first()) {
        (None, None) => true,
        (Some((table, tables)), Some((other, others))) => {
            is_table(table, other) && are_tables(tables, others)
        }
        _ => false,
    }
}

fn is_index(found: &Index, index: &Index) -> bool
    ensures { IsTrue result ↔ (found.now ≡ index.now) }
{
    found.name.as_slice() == index.name.as_slice()
        && found.tree == index.tree
        && found.table == index.table
        && found.columns.as_slice() == index.columns.as_slice()
        && found.order == index.order
        && found.is_unique == index.is_unique
}

/// Whether the indexes are these, one by one.
fn are_indexes(found: &[Index], indexes: &[Index]) -> bool
    ensures { IsTrue result ↔ (found.now ≡ indexes.now) }
{
    match (found.split_first(), indexes.split_first()) {
        (None, None) => true,
        (Some((index, more)), Some((other, others))) => {
            is_index(index, other) && are_indexes(more, others)
        }
        _ => false,
    }
}

/// Whether the schema has these tables and indexes, and nothing else. The tables have nothing but columns and keys.
pub(crate) fn is_made_of(schema: &Schema, tables: &[Table], indexes: &[Index]) -> bool
    requires { AllByRecursion IsPlain tables.now }
    ensures { IsTrue result ↔ (schema.now ≡ record { tables = tables.now; indexes = indexes.now; views = [] }) }
{
    schema.views.is_empty()
        && are_tables(schema.tables.as_slice(), tables)
        && are_indexes(schema.indexes.as_slice(), indexes)
}
