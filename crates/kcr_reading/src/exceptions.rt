//! The exceptions of a ceremony.

ghost use Rattle.std.specs.Prelude.{◌≡◌, None};
ghost use Rattle.kcr_history.specs.Tables as machine;
ghost use Rattle.kcr_rows.specs.Frame.{ImpliesOpen};
ghost use Rattle.kcr_tables.specs.Frame.{OfMachineTables, Reads};
ghost use Rattle.kcr_reading.specs.Remaining.{IsNextOf, exceptions_of, exceptions_past};

use crate::cursor::Cursor;
use crate::seek::{first_row, past_cell};
use kcr_base::Refusal;
use kcr_history::ExceptionRow;
use kcr_rows::cells::number_cell;
use sqlite::{Alter, Transaction};
use std::alloc::Global;

/// The first exception of the ceremony past the last one, which becomes the last; none if no more comes.
fn next_exception<S: Alter>(
    alloc: Global,
    tx: &mut Transaction<'_, S>,
    ceremony: u32,
    last: &mut Option<u32>,
) -> Result<Option<ExceptionRow>, Refusal>
    ensures gives { OfMachineTables S.Store tx.old tx.new result
        (λ m found. IsNextOf (exceptions_past last.old ceremony m) found (exceptions_past last.new ceremony m)) }
    ensures opened { ImpliesOpen S.Store tx.old tx.new result }
    ensures frame { Reads S.Store tx.old tx.new result }
{
    let found: Option<ExceptionRow> = first_row(
        alloc,
        tx,
        "SELECT ceremony, exception, text, at, passed FROM exceptions WHERE ceremony = ?1 AND exception > ?2 ORDER BY ceremony, exception LIMIT 1",
        &[number_cell(ceremony), past_cell(*last)],
    )?;
    if let Some(row) = &found {
        *last = Some(row.exception);
    }
    Ok(found)
}

/// Behind the exception that was read last.
#[derive(Drop)]
pub struct ExceptionCursor {
    ceremony: u32,
    last: Option<u32>,
}

impl ExceptionCursor {
    /// Before the first exception of the ceremony.
    pub fn new(ceremony: u32) -> ExceptionCursor
        ensures { (m : machine.Tables) → exceptions_past result.last result.ceremony m ≡ exceptions_of ceremony m }
    {
        ExceptionCursor {
            ceremony,
            last: None,
        }
    }
}

impl Cursor for ExceptionCursor {
    type Row = ExceptionRow;

    ghost to_come = { λ p m. exceptions_past p.last p.ceremony m };

    fn next<S: Alter>(
        &mut self,
        alloc: Global,
        tx: &mut Transaction<'_, S>,
    ) -> Result<Option<ExceptionRow>, Refusal> {
        next_exception(alloc, tx, self.ceremony, &mut self.last)
    }
}
