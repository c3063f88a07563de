//! Rows as sqlite3 prints them in its mode `quote`: the values with commas between them, a text in single quotes. Behind
//! the number of a day or of a moment stands its date, in brackets.
ghost use Rattle.std.specs.Prelude.{◌≡◌, ◌++◌, IfOk, IfErr, OnOk, Some, length};
ghost use Rattle.sqlite.specs.{Values.bound, Values.bound_value, Value.owned};
ghost use Rattle.kcr_tables.specs.Refusals.{IsFault};
ghost use Rattle.kcr_verify.specs.Quoted.{behind, date_behind, day_in, doubled, moment_in, row_text, value_text};

use kcr_base::{Day, Moment, Refusal, Text};
use kcr_rows::Kind;
use kcr_rows::to_row::{ToRowAllocating, values};
use sqlite::types::ValueRef;
use std::alloc::{AllocError, Global};

/// Adds a text in which each single quote is doubled.
fn push_doubled(line: &mut Vec<u8>, text: &[u8]) -> Result<(), AllocError>
    ensures { OnOk result (line.new.items ≡ line.old.items ++ doubled text.now) }
{
    for byte in text {
        line.push(*byte)?;
        if *byte == b'\'' {
            line.push(b'\'')?;
        }
    }
    Ok(())
}

/// Adds a value: a whole number, a text in single quotes, or `NULL`, which also stands for values of other types. No
/// table of a register has these.
pub(crate) fn push_value(
    alloc: Global,
    line: &mut Vec<u8>,
    value: &ValueRef<'_>,
) -> Result<(), AllocError>
    ensures { OnOk result (line.new.items ≡ line.old.items ++ value_text (bound_value (owned value.now))) }
{
    match value {
        ValueRef::Int(number) => line.extend_from_slice(number.to_string(alloc)?.as_bytes()),
        ValueRef::Text(text) => {
            line.push(b'\'')?;
            push_doubled(line, text)?;
            line.push(b'\'')?;
            Ok(())
        }
        _ => line.extend_from_slice(b"NULL"),
    }
}

/// The day with this number, or `None` if that is not of the calendar.
fn day_in(number: i64) -> Option<Day>
    ensures { result ≡ day_in number }
{
    if (10957..47482).contains(&number) {
        Day::from_number(number as u16)
    } else {
        None
    }
}

/// The moment with this number, or `None` if that is not of the calendar.
fn moment_in(number: i64) -> Option<Moment>
    ensures { result ≡ moment_in number }
{
    if (946_684_800..4_102_444_800).contains(&number) {
        Moment::from_number(number as u64)
    } else {
        None
    }
}

/// Adds a date in brackets, behind a blank.
fn push_date(line: &mut Vec<u8>, date: &[u8]) -> Result<(), AllocError>
    ensures { OnOk result (line.new.items ≡ line.old.items ++ behind (Some date.now)) }
{
    line.extend_from_slice(b" (")?;
    line.extend_from_slice(date)?;
    line.push(b')')?;
    Ok(())
}

/// Adds the date of a value in a column of days or of moments, if it has one.
pub(crate) fn push_date_of(
    line: &mut Vec<u8>,
    kind: Kind,
    value: &ValueRef<'_>,
) -> Result<(), AllocError>
    ensures { OnOk result (line.new.items ≡ line.old.items ++ date_behind kind (bound_value (owned value.now))) }
{
    let ValueRef::Int(number) = value else {
        return Ok(());
    };
    match kind {
        Kind::Day | Kind::DayOrNull => match day_in(*number) {
            Some(day) => push_date(line, &day.text()),
            None => Ok(()),
        },
        Kind::Moment | Kind::MomentOrNull => match moment_in(*number) {
            Some(moment) => push_date(line, &moment.text()),
            None => Ok(()),
        },
        _ => Ok(()),
    }
}

/// The values of a row in these columns, with commas between them. The error is out of memory.
fn joined(alloc: Global, columns: &[Kind], values: &[ValueRef<'_>]) -> Result<Vec<u8>, AllocError>
    requires { length columns.now ≡ length values.now }
    ensures { IfOk result (λ line. line.items ≡ row_text columns.now (bound values.now)) }
{
    let mut line = Vec::new(alloc);
    for index in 0..values.len() {
        if index > 0 {
            line.push(b',')?;
        }
        push_value(alloc, &mut line, &values[index])?;
        push_date_of(&mut line, columns[index], &values[index])?;
    }
    Ok(line)
}

/// A row as sqlite3 prints it in its mode `quote`, with dates. The error is `Memory`, or `Disk` if a text is not UTF-8,
/// as no row of a register has one.
pub(crate) fn quoted<R: ToRowAllocating>(alloc: Global, row: &R) -> Result<Text, Refusal>
    ensures text { IfOk result (λ text. text ≡ row_text R.kinds (R.row_of row.now)) }
    ensures cause { IfErr result IsFault }
{
    let cells = row.cells_allocating(alloc)?;
    let columns = R::kinds();
    let line = joined(alloc, columns, &values(&cells)[..columns.len()])?;
    match String::from_utf8(line) {
        Ok(text) => Ok(Text::from_string(text)),
        Err(_) => Err(Refusal::Disk),
    }
}
