//! The lines of the journal, one after the other.
ghost use Rattle.std.specs.Prelude.{◌≡◌, map, IfOk, IfErr};
ghost use Rattle.kcr_history.specs.Tables as machine;
ghost use Rattle.kcr_reading.specs.Commands.{commands_within};
ghost use Rattle.kcr_tables.specs.{Frame.OfMachineTables, Frame.Reads, Refusals.IsFault};
ghost use Rattle.kcr_wire.specs.ActTexts.{act_of};
ghost use Rattle.kcr_journal.specs.Journal as said;

use crate::line::push_line;
use crate::named::{is_of_ceremony, named_people};
use crate::reply::{exception_in, passed_in};
use kcr_base::{CeremonyNumber, Refusal};
use kcr_history::{Act, KeyRow};
use kcr_people::Person;
use kcr_reading::{CommandCursor, Cursor, with_names};
use kcr_wire::RouteTable;
use sqlite::{Alter, Transaction};
use std::alloc::Global;
use std::marker::Model;

/// The line of an accepted command with its line feed; nothing for a command that does not name the ceremony asked for.
#[derive(Drop)]
pub struct JournalLine {
    bytes: Vec<u8>,
}

impl Model for JournalLine {
    ghost use Rattle.std.specs.Prelude.{List, ℕ};

    ghost Value = { List ℕ };

    ghost view = { λ s. s.bytes.items };
}

impl JournalLine {
    /// Its bytes.
    pub fn as_bytes(&self) -> &[u8]
        ensures { result.now ≡ self.now }
    {
        self.bytes.as_slice()
    }
}

/// The act that a row keeps. The error is `Memory` when out of memory, and `Disk` if the row's text is no command's.
pub fn kept_act(alloc: Global, paths: &RouteTable, row: &KeyRow) -> Result<Act, Refusal>
    ensures act { IfOk result (λ act. act_of row.now.command ≡ Some act) }
    ensures cause { IfErr result IsFault }
{
    match paths.read_act(alloc, row.command.as_bytes())? {
        Some(act) => Ok(act),
        None => Err(Refusal::Disk),
    }
}

/// The line of a row, whose act and people these are.
fn line_with(
    alloc: Global,
    row: &KeyRow,
    act: &Act,
    people: &[Person],
) -> Result<JournalLine, Refusal>
    ensures line { IfOk result (λ made. made ≡ said.line_with row.now act.now people.now) }
    ensures cause { IfErr result IsFault }
{
    let exception = exception_in(row.reply.as_bytes())?;
    let passes = passed_in(row.reply.as_bytes())?;
    let mut bytes = Vec::new(alloc);
    push_line(
        alloc,
        &mut bytes,
        row.accepted,
        act,
        people,
        exception,
        passes,
    )?;
    Ok(JournalLine { bytes })
}

/// The line of a row whose act this is.
fn act_line<S: Alter>(
    alloc: Global,
    tx: &mut Transaction<'_, S>,
    row: &KeyRow,
    act: &Act,
) -> Result<JournalLine, Refusal>
    ensures line { OfMachineTables S.Store tx.old tx.new result
        (λ m made. made ≡ said.act_line m.people row.now act.now) }
    ensures frame { Reads S.Store tx.old tx.new result }
{
    let named = named_people(alloc, act, row.reply.as_bytes())?;
    let people = with_names(alloc, tx, named.as_slice())?;
    line_with(alloc, row, act, people.as_slice())
}

/// The line of a row.
fn line_of_row<S: Alter>(
    alloc: Global,
    tx: &mut Transaction<'_, S>,
    paths: &RouteTable,
    asked: Option<CeremonyNumber>,
    row: &KeyRow,
) -> Result<JournalLine, Refusal>
    ensures line { OfMachineTables S.Store tx.old tx.new result
        (λ m made. made ≡ said.row_line asked m.people row.now) }
    ensures frame { Reads S.Store tx.old tx.new result }
{
    let act = kept_act(alloc, paths, row)?;
    if is_of_ceremony(asked, &act) {
        act_line(alloc, tx, row, &act)
    } else {
        Ok(JournalLine {
            bytes: Vec::new(alloc),
        })
    }
}

/// The lines of the accepted commands behind one, up to another, of all or of those that name a ceremony.
#[derive(Drop)]
pub struct JournalCursor {
    commands: CommandCursor,
    paths: RouteTable,
    asked: Option<CeremonyNumber>,
}

impl JournalCursor {
    /// Before the line of the first accepted command whose number is greater than `after`, up to the one with the
    /// number `until`; with a ceremony, only of commands that name it.
    pub fn new(
        paths: RouteTable,
        after: u32,
        until: u32,
        asked: Option<CeremonyNumber>,
    ) -> JournalCursor
        ensures { (m : machine.Tables)
            → map (said.row_line result.asked m.people) (commands_within result.commands.last result.commands.until m)
            ≡ map (said.row_line asked m.people) (commands_within after until m) }
    {
        JournalCursor {
            commands: CommandCursor::new(after, until),
            paths,
            asked,
        }
    }
}

impl Cursor for JournalCursor {
    type Row = JournalLine;

    ghost to_come = { λ p m.
        map (said.row_line p.asked m.people) (commands_within p.commands.last p.commands.until m) };

    fn next<S: Alter>(
        &mut self,
        alloc: Global,
        tx: &mut Transaction<'_, S>,
    ) -> Result<Option<JournalLine>, Refusal> {
        let Some(row) = self.commands.next(alloc, tx)? else {
            return Ok(None);
        };
        Ok(Some(line_of_row(alloc, tx, &self.paths, self.asked, &row)?))
    }
}
