//! Rows that are compared with those of a register.
ghost use Rattle.std.specs.Prelude.{◌≡◌, ◌≢◌, ◌↔◌, IsTrue, None, IfOk, IfErr, IfSome, IsPermutation, MatchOption, map, string_bytes, unwrap_or};
ghost use Rattle.std.specs.List.{AllByRecursion, Sorted.IsSorted};
ghost use Rattle.kcr_history.specs.{Machine.IsRegister, Tables.key_row};
ghost use Rattle.kcr_history.specs.Tables as machine;
ghost use Rattle.kcr_store.specs.{Calls.OfHistory, FullView.AreRows};
ghost use Rattle.kcr_tables.specs.Refusals.{IsFault};
ghost use Rattle.kcr_verify.specs.{declared.compare.TableName.TableName as Named, Quoted.no_row, Quoted.row_line};
ghost use Rattle.kcr_verify.specs.FirstRow.{DiffersAt, IsFirstOtherRow, IsFirstRow, text_at};
ghost use Rattle.kcr_verify.specs.Verification.{HasRows, IsCompared, IsFirst, IsFirstCommand, IsIntact, OnlyLooks, by_number, compared, name_of};

use crate::quoted::quoted;
use crate::sort::sort_by_number;
use kcr_base::{Refusal, Text};
use kcr_custody::{Bag, BoxRow, Item, SafeRow};
use kcr_history::{CeremonyRow, ExceptionRow, FullView, KeyRow, MarkRow, SeatingRow, StepRow};
use kcr_people::{Appointment, Person, Training, Withdrawal};
use kcr_room::{SheetRow, Stay};
use kcr_rows::to_row::ToRowAllocating;
use kcr_script::Seat;
use kcr_store::Register;
use kcr_tables::TableRow;
use sqlite::Alter;
use std::alloc::{AllocError, Global};

// begin: written by tools/tables.py

/// A table of the register.
#[derive(Clone, Copy)]
pub enum TableName {
    People,
    Trainings,
    Withdrawals,
    Appointments,
    Boxes,
    Safes,
    Bags,
    Items,
    Ceremonies,
    Marks,
    Steps,
    Seatings,
    Sheet,
    Stays,
    Exceptions,
    Keys,
}

/// Every table but that of the accepted commands.
const TABLES: [TableName; 15] = [
    TableName::People,
    TableName::Trainings,
    TableName::Withdrawals,
    TableName::Appointments,
    TableName::Boxes,
    TableName::Safes,
    TableName::Bags,
    TableName::Items,
    TableName::Ceremonies,
    TableName::Marks,
    TableName::Steps,
    TableName::Seatings,
    TableName::Sheet,
    TableName::Stays,
    TableName::Exceptions,
];

impl TableName {
    /// Its name in the database.
    pub fn name(self) -> &'static str
        ensures { result.now ≡ name_of self }
    {
        match self {
            TableName::People => "people",
            TableName::Trainings => "trainings",
            TableName::Withdrawals => "withdrawals",
            TableName::Appointments => "appointments",
            TableName::Boxes => "boxes",
            TableName::Safes => "safes",
            TableName::Bags => "bags",
            TableName::Items => "items",
            TableName::Ceremonies => "ceremonies",
            TableName::Marks => "marks",
            TableName::Steps => "steps",
            TableName::Seatings => "seatings",
            TableName::Sheet => "sheet",
            TableName::Stays => "stays",
            TableName::Exceptions => "exceptions",
            TableName::Keys => "keys",
        }
    }
}

// end: written by tools/tables.py

/// The first row in which a table differs from what the commands lead to, in the order of its keys; that of the accepted
/// commands in the order of their numbers. A row is told as sqlite3 prints it in its mode `quote`, with the dates of days
/// and moments; it begins with its key.
#[derive(Drop)]
pub struct RowDifference {
    /// Its position, from 0: this many rows before it are the same.
    pub position: usize,
    /// The row that the commands lead to, or `None` if there are no more.
    pub expected: Option<Text>,
    /// The row that is there, or `None` if there are no more.
    pub found: Option<Text>,
}

impl RowDifference {
    /// The line that tells both rows. The error is out of memory.
    pub fn line(&self, alloc: Global) -> Result<String, AllocError>
        ensures { IfOk result (λ line. string_bytes line ≡ row_line self.now) }
    {
        let mut line = String::from_str(alloc, "row: expected ")?;
        line.push_str(text_or_none(&self.expected))?;
        line.push_str("; found ")?;
        line.push_str(text_or_none(&self.found))?;
        line.push_str("\n")?;
        Ok(line)
    }
}

/// A row's text, or a word for no row.
fn text_or_none(row: &Option<Text>) -> &str
    ensures { result.now ≡ unwrap_or row.now no_row }
{
    match row {
        Some(text) => text.as_str(),
        None => "none",
    }
}

/// A row that is compared with another of its table, or a seat of a step with another.
trait Compared {
    /// Whether the two are the same.
    fn is_same(&self, other: &Self) -> bool
        ensures { IsTrue result ↔ (self.now ≡ other.now) };
}

// begin: written by tools/tables.py

impl Compared for Person {
    fn is_same(&self, other: &Self) -> bool {
        self == other
    }
}

impl Compared for Training {
    fn is_same(&self, other: &Self) -> bool {
        self == other
    }
}

impl Compared for Withdrawal {
    fn is_same(&self, other: &Self) -> bool {
        self == other
    }
}

impl Compared for Appointment {
    fn is_same(&self, other: &Self) -> bool {
        self == other
    }
}

impl Compared for BoxRow {
    fn is_same(&self, other: &Self) -> bool {
        self == other
    }
}

impl Compared for SafeRow {
    fn is_same(&self, other: &Self) -> bool {
        self == other
    }
}

impl Compared for Bag {
    fn is_same(&self, other: &Self) -> bool {
        self == other
    }
}

impl Compared for Item {
    fn is_same(&self, other: &Self) -> bool {
        self == other
    }
}

impl Compared for CeremonyRow {
    fn is_same(&self, other: &Self) -> bool {
        self == other
    }
}

impl Compared for MarkRow {
    fn is_same(&self, other: &Self) -> bool {
        self == other
    }
}

impl Compared for SeatingRow {
    fn is_same(&self, other: &Self) -> bool {
        self == other
    }
}

impl Compared for SheetRow {
    fn is_same(&self, other: &Self) -> bool {
        self == other
    }
}

impl Compared for Stay {
    fn is_same(&self, other: &Self) -> bool {
        self == other
    }
}

// end: written by tools/tables.py

impl Compared for StepRow {
    fn is_same(&self, other: &Self) -> bool {
        self.ceremony == other.ceremony
            && self.step == other.step
            && self.activity == other.activity
            && same_rows(self.seats.as_slice(), other.seats.as_slice())
            && self.state == other.state
            && self.at == other.at
    }
}

impl Compared for Seat {
    fn is_same(&self, other: &Self) -> bool {
        self == other
    }
}

impl Compared for ExceptionRow {
    fn is_same(&self, other: &Self) -> bool {
        self.ceremony == other.ceremony
            && self.exception == other.exception
            && self.text == other.text
            && self.at == other.at
            && self.passed == other.passed
    }
}

impl Compared for KeyRow {
    fn is_same(&self, other: &Self) -> bool {
        self.key == other.key
            && self.accepted == other.accepted
            && self.command == other.command
            && self.reply == other.reply
    }
}

/// Whether these are the same rows in the same order.
fn same_rows<T: Compared>(one: &[T], other: &[T]) -> bool
    ensures { IsTrue result ↔ (one.now ≡ other.now) }
{
    if one.len() != other.len() {
        return false;
    }
    for index in 0..one.len() {
        if !one[index].is_same(&other[index]) {
            return false;
        }
    }
    true
}

/// The first position in which these are not the same rows, or `None` if they are.
fn first_other<T: Compared>(own: &[T], rows: &[T]) -> Option<usize>
    ensures { MatchOption result (own.now ≡ rows.now) (IsFirstOtherRow own.now rows.now) }
{
    let shorter = own.len().min(rows.len());
    for index in 0..shorter {
        if !own[index].is_same(&rows[index]) {
            return Some(index);
        }
    }
    if own.len() == rows.len() {
        None
    } else {
        Some(shorter)
    }
}

/// The text of the row at this position, or `None` if there are no more rows. The errors are those of `quoted`.
fn quoted_at<R: ToRowAllocating>(
    alloc: Global,
    rows: &[R],
    position: usize,
) -> Result<Option<Text>, Refusal>
    ensures text { IfOk result (λ text. text ≡ text_at R.kinds R.row_of rows.now position) }
    ensures cause { IfErr result IsFault }
{
    if position < rows.len() {
        Ok(Some(quoted(alloc, &rows[position])?))
    } else {
        Ok(None)
    }
}

/// The first row in which these differ, or `None` if they are the same. The errors are those of `quoted`.
fn first_row<R: Compared + ToRowAllocating>(
    alloc: Global,
    own: &[R],
    rows: &[R],
) -> Result<Option<RowDifference>, Refusal>
    ensures row { IfOk result (λ found. MatchOption found (own.now ≡ rows.now)
        (λ row. (own.now ≢ rows.now) × DiffersAt R.kinds R.row_of own.now rows.now row)) }
    ensures cause { IfErr result IsFault }
{
    let Some(position) = first_other(own, rows) else {
        return Ok(None);
    };
    let expected = quoted_at(alloc, own, position)?;
    let found = quoted_at(alloc, rows, position)?;
    Ok(Some(RowDifference {
        position,
        expected,
        found,
    }))
}

/// The first row in which these, in the order of their keys, differ from those of a table of the register, which are in
/// memory meanwhile; `None` if they are the same.
fn compare_rows<S: Alter, R: TableRow + Compared + ToRowAllocating>(
    alloc: Global,
    register: &mut Register<S>,
    rows: &[R],
) -> Result<Option<RowDifference>, Refusal>
    requires { IsIntact S.Store register.old }
    ensures rows { OfHistory S.Store register.old register.new (λ A. IfOk result (λ found.
        MatchOption found (AreRows R.table.rows_in (machine.tables A) rows.now)
        (λ row. (¬ AreRows R.table.rows_in (machine.tables A) rows.now)
        × IsFirstRow R.table.rows_in R.kinds R.row_of (machine.tables A) rows.now row))) }
    ensures register { OfHistory S.Store register.old register.new (λ A. IfOk result (λ _. IsRegister A)) }
    ensures frame { OnlyLooks S.Store register.old register.new result }
{
    let own = register.table_rows::<R>()?;
    first_row(alloc, &own, rows)
}

/// The first row in which these, in the order of their numbers, differ from the register's accepted commands; `None` if
/// they are the same.
fn compare_commands<S: Alter>(
    alloc: Global,
    register: &mut Register<S>,
    rows: &[KeyRow],
) -> Result<Option<RowDifference>, Refusal>
    requires intact { IsIntact S.Store register.old }
    requires order { IsSorted by_number rows.now }
    ensures rows { OfHistory S.Store register.old register.new (λ A. IfOk result (λ found.
        MatchOption found (IsPermutation (map key_row A) rows.now)
        (λ row. (¬ IsPermutation (map key_row A) rows.now) × IsFirstCommand (map key_row A) rows.now row))) }
    ensures register { OfHistory S.Store register.old register.new (λ A. IfOk result (λ _. IsRegister A)) }
    ensures frame { OnlyLooks S.Store register.old register.new result }
{
    let mut commands = register.table_rows::<KeyRow>()?;
    sort_by_number(&mut commands);
    first_row(alloc, &commands, rows)
}

// begin: written by tools/tables.py

/// The first row in which this table differs from that of the register, or `None`.
fn compare_table<S: Alter>(
    alloc: Global,
    register: &mut Register<S>,
    table: TableName,
    rows: &FullView,
) -> Result<Option<RowDifference>, Refusal>
    requires intact { IsIntact S.Store register.old }
    requires order { IsSorted by_number rows.now.keys.items }
    ensures rows { OfHistory S.Store register.old register.new
        (λ A. IfOk result (λ found. IsCompared table (machine.tables A) rows.now found)) }
    ensures register { OfHistory S.Store register.old register.new (λ A. IfOk result (λ _. IsRegister A)) }
    ensures frame { OnlyLooks S.Store register.old register.new result }
{
    match table {
        TableName::People => compare_rows(alloc, register, &rows.view.people),
        TableName::Trainings => compare_rows(alloc, register, &rows.view.trainings),
        TableName::Withdrawals => compare_rows(alloc, register, &rows.view.withdrawals),
        TableName::Appointments => compare_rows(alloc, register, &rows.view.appointments),
        TableName::Boxes => compare_rows(alloc, register, &rows.view.boxes),
        TableName::Safes => compare_rows(alloc, register, &rows.view.safes),
        TableName::Bags => compare_rows(alloc, register, &rows.view.bags),
        TableName::Items => compare_rows(alloc, register, &rows.view.items),
        TableName::Ceremonies => compare_rows(alloc, register, &rows.view.ceremonies),
        TableName::Marks => compare_rows(alloc, register, &rows.view.marks),
        TableName::Steps => compare_rows(alloc, register, &rows.view.steps),
        TableName::Seatings => compare_rows(alloc, register, &rows.view.seatings),
        TableName::Sheet => compare_rows(alloc, register, &rows.sheet),
        TableName::Stays => compare_rows(alloc, register, &rows.view.stays),
        TableName::Exceptions => compare_rows(alloc, register, &rows.view.exceptions),
        TableName::Keys => compare_commands(alloc, register, &rows.keys),
    }
}

// end: written by tools/tables.py

/// The first of these tables whose rows are not the register's, and its first row that differs.
fn first_differing<S: Alter>(
    alloc: Global,
    register: &mut Register<S>,
    tables: &[TableName],
    rows: &FullView,
) -> Result<Option<(TableName, RowDifference)>, Refusal>
    requires intact { IsIntact S.Store register.old }
    requires order { IsSorted by_number rows.now.keys.items }
    ensures none { OfHistory S.Store register.old register.new (λ A. IfOk result (λ found. found ≡ None
        → AllByRecursion (λ table. HasRows table (machine.tables A) rows.now) tables.now)) }
    ensures some { OfHistory S.Store register.old register.new
        (λ A. IfOk result (λ found. IfSome found (IsFirst tables.now A rows.now))) }
    ensures frame { OnlyLooks S.Store register.old register.new result }
{
    for table in tables {
        if let Some(row) = compare_table(alloc, register, *table, rows)? {
            return Ok(Some((*table, row)));
        }
    }
    Ok(None)
}

/// The first table whose rows are not the register's, the accepted commands before the others, and its first row that
/// differs; one table at a time is read. The accepted commands among these rows are in the order of their numbers, the
/// rows of each other table in that of their keys.
pub(crate) fn first_difference<S: Alter>(
    alloc: Global,
    register: &mut Register<S>,
    rows: &FullView,
) -> Result<Option<(TableName, RowDifference)>, Refusal>
    requires intact { IsIntact S.Store register.old }
    requires order { IsSorted by_number rows.now.keys.items }
    ensures none { OfHistory S.Store register.old register.new (λ A. IfOk result (λ found. found ≡ None
        → (table : Named) → HasRows table (machine.tables A) rows.now)) }
    ensures some { OfHistory S.Store register.old register.new
        (λ A. IfOk result (λ found. IfSome found (IsFirst compared A rows.now))) }
    ensures register { OfHistory S.Store register.old register.new (λ A. IfOk result (λ _. IsRegister A)) }
    ensures frame { OnlyLooks S.Store register.old register.new result }
{
    if let Some(row) = compare_table(alloc, register, TableName::Keys, rows)? {
        return Ok(Some((TableName::Keys, row)));
    }
    first_differing(alloc, register, &TABLES, rows)
}
