//! The requests of the accepted commands, one after the other.

ghost use Rattle.std.specs.Prelude.{◌≡◌, map, IfOk, IfErr};
ghost use Rattle.kcr_history.specs.Tables as machine;
ghost use Rattle.kcr_reading.specs.Commands.{commands_within};
ghost use Rattle.kcr_tables.specs.Refusals.{IsFault};
ghost use Rattle.kcr_print.specs.Requests.{row_request};

use crate::print_lines::PrintLines;
use kcr_base::{Refusal, Text};
use kcr_history::{Command, KeyRow};
use kcr_journal::kept_act;
use kcr_reading::{CommandCursor, Cursor};
use kcr_wire::{RouteTable, write_request};
use sqlite::{Alter, Transaction};
use std::alloc::Global;

/// The request of the command that the row keeps. The refusal is `Memory` when out of memory, and `Disk` if the row's
/// text is no command's.
fn request_of_row(alloc: Global, paths: &RouteTable, row: &KeyRow) -> Result<Text, Refusal>
    ensures request { IfOk result (λ text. text ≡ row_request row.now) }
    ensures cause { IfErr result IsFault }
{
    let act = kept_act(alloc, paths, row)?;
    let command = Command { key: row.key, act };
    let text = write_request(alloc, &command)?;
    Ok(Text::from_string(text))
}

/// The requests of the accepted commands behind one, up to another.
#[derive(Drop)]
pub(crate) struct RequestCursor {
    commands: CommandCursor,
    paths: RouteTable,
}

impl RequestCursor {
    /// Before the request of the first accepted command whose number is greater than `after`, up to the one with the
    /// number `until`.
    pub(crate) fn new(paths: RouteTable, after: u32, until: u32) -> RequestCursor
        ensures { (m : machine.Tables) → map row_request (commands_within result.commands.last result.commands.until m)
            ≡ map row_request (commands_within after until m) }
    {
        RequestCursor {
            commands: CommandCursor::new(after, until),
            paths,
        }
    }
}

impl Cursor for RequestCursor {
    type Row = Text;

    ghost to_come = { λ p m. map row_request (commands_within p.commands.last p.commands.until m) };

    fn next<S: Alter>(
        &mut self,
        alloc: Global,
        tx: &mut Transaction<'_, S>,
    ) -> Result<Option<Text>, Refusal> {
        let Some(row) = self.commands.next(alloc, tx)? else {
            return Ok(None);
        };
        Ok(Some(request_of_row(alloc, &self.paths, &row)?))
    }
}

impl PrintLines for Text {
    ghost lines = { λ text. text };

    fn print_lines(&self, _alloc: Global, out: &mut Vec<u8>) -> Result<(), Refusal> {
        Ok(out.extend_from_slice(self.as_bytes())?)
    }
}
