//! The accepted commands, by their numbers.

ghost use Rattle.std.specs.Prelude.{◌≡◌, ◌==◌, filter, IfOk, IfSome, IsPermutation, IsTrue};
ghost use Rattle.kcr_history.specs.Tables as machine;
ghost use Rattle.kcr_rows.specs.Frame.{IfClean, ImpliesOpen};
ghost use Rattle.kcr_tables.specs.Frame.{OfMachineTables, Reads};
ghost use Rattle.kcr_reading.specs.{Commands.commands_within, Commands.numbered, Frame.OfOpenTables, Remaining.IsNextOf};

use crate::cursor::Cursor;
use kcr_base::Refusal;
use kcr_history::KeyRow;
use kcr_rows::cells::number_cell;
use kcr_rows::statements::query_rows;
use sqlite::{Alter, Transaction};
use std::alloc::Global;

/// The rows of accepted commands with this number, in any order.
fn rows_numbered<S: Alter>(
    alloc: Global,
    tx: &mut Transaction<'_, S>,
    number: u32,
) -> Result<Vec<KeyRow>, Refusal>
    ensures rows { OfMachineTables S.Store tx.old tx.new result
        (λ m rows. IsPermutation (filter (λ row. row.accepted == number) m.keys) rows.items) }
    ensures opened { ImpliesOpen S.Store tx.old tx.new result }
    ensures frame { Reads S.Store tx.old tx.new result }
{
    query_rows(
        alloc,
        tx,
        "SELECT \"key\", accepted, command, reply FROM keys WHERE accepted = ?1",
        &[number_cell(number)],
    )
}

/// The row of the accepted command with this number, if one alone has it.
fn row_numbered<S: Alter>(
    alloc: Global,
    tx: &mut Transaction<'_, S>,
    number: u32,
) -> Result<Option<KeyRow>, Refusal>
    ensures row { OfMachineTables S.Store tx.old tx.new result (λ m row. row ≡ numbered number m) }
    ensures opened { ImpliesOpen S.Store tx.old tx.new result }
    ensures frame { Reads S.Store tx.old tx.new result }
{
    let mut rows = rows_numbered(alloc, tx, number)?;
    if rows.len() == 1 {
        Ok(rows.pop())
    } else {
        Ok(None)
    }
}

/// Behind the accepted command with the number `last`, up to the one with the number `until`.
#[derive(Drop)]
pub struct CommandCursor {
    last: u32,
    until: u32,
}

impl CommandCursor {
    /// Before the first accepted command whose number is greater than `after`, up to the one with the number `until`.
    pub fn new(after: u32, until: u32) -> CommandCursor
        ensures { (m : machine.Tables) → commands_within result.last result.until m ≡ commands_within after until m }
    {
        CommandCursor { last: after, until }
    }
}

impl Cursor for CommandCursor {
    type Row = KeyRow;

    ghost to_come = { λ p m. commands_within p.last p.until m };

    fn next<S: Alter>(
        &mut self,
        alloc: Global,
        tx: &mut Transaction<'_, S>,
    ) -> Result<Option<KeyRow>, Refusal>
        ensures gives { OfOpenTables S.Store tx.old tx.new result (λ m row.
            IsNextOf (commands_within self.old.last self.old.until m) row (commands_within self.new.last self.new.until m)) }

        // A row shows that the store was open.
        ensures opened { IfClean S.Store tx.old tx.new
            (λ old _. IfOk result (λ row. IfSome row (λ _. IsTrue old.is_open))) }
        ensures frame { Reads S.Store tx.old tx.new result }
    {
        if self.last >= self.until {
            return Ok(None);
        }
        let number = self.last + 1;
        let row = row_numbered(alloc, tx, number)?;
        if row.is_some() {
            self.last = number;
        }
        Ok(row)
    }
}
