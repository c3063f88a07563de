//! How a command is decided: one whose key has a row, and one whose key is new.
ghost use Rattle.std.specs.Prelude.{◌≡◌, Some, None, Err, IfErr, IfOk};
ghost use Rattle.kcr_history.specs.{History.History, Tables.tables, AsksByKind.asks_of, Early.early_asks};
ghost use Rattle.kcr_history.specs.{Views.IsViewOf, Views.greatest_number, Views.row_of_key, Machine.IsRegister, Machine.IsDecision};
ghost use Rattle.kcr_rules.specs.ByRows.{IsCheckResult, IsCleared};
ghost use Rattle.kcr_machine.specs.RowDecision.{IsRowRepeat, is_full_by, IsOfKind, IsOwnRefusal};
ghost use Rattle.kcr_machine.specs.NewDecision;
ghost use Rattle.kcr_machine.specs.NewDecision.{IsRowDecision};

use kcr_base::{MAX_COMMANDS, Refusal};
use kcr_history::{
    Change, Command, KeyRow, Reply, ReplyData, Verdict, View, command_text, reply_text,
};
use kcr_rules::{Effect, check, evaluate};
use std::alloc::{AllocError, Global};

/// Decides a command whose key has this row, as it has if a command was accepted under it.
///
/// For every history A in whose tables the row is that of the key, the result is the machine's step from A: the same
/// command gets its kept reply again and nothing changes, another command is refused (11). Out of memory (33) may be
/// answered in place of both; it changes nothing.
pub fn decide_repeat(alloc: Global, row: &KeyRow, command: &Command) -> Result<Verdict, Refusal>
    ensures step { (A : History) → row_of_key command.now.key (tables A).keys ≡ Some row.now
        → IsDecision A command.now result }

    // Whatever the row is, the same command gets the reply that it keeps.
    ensures by_row { IsRowRepeat row.now command.now result }
{
    let text = command_text(alloc, &command.act)?;
    if row.command != text {
        return Err(Refusal::Key);
    }
    Ok(Verdict {
        changes: Vec::new(alloc),
        reply: Reply {
            text: row.reply.clone()?,
        },
        new_reply: None,
    })
}

/// Clears a command whose key is new, by the part of its rows that is read first: the error is its first refusal, which it
/// has whoever is in the room.
///
/// For every history A that the machine leads to, and in whose tables the key has no row: if the view holds the rows
/// of the tables of A that the command asks for, trainings, withdrawals, appointments and stays aside, and `accepted`
/// is the number of the last command of A, a refusal is the machine's step from A. An opening, and an act that has no
/// ceremony, are not refused here.
///
/// And the other way round, over any view and number: a refusal that this part of the rows tells is told, unless the
/// rows tell of more steps done than a script has (34), which no register's rows do.
pub fn check_early(
    alloc: Global,
    view: &View,
    accepted: u32,
    command: &Command,
) -> Result<(), Refusal>
    ensures step { (A : History) → IsRegister A → row_of_key command.now.key (tables A).keys ≡ None
        → IsViewOf (early_asks (asks_of command.now)) (tables A) view.now → accepted ≡ greatest_number (tables A).keys
        → IfErr result (λ refusal. IsDecision A command.now (Err refusal)) }
    ensures told { IsCheckResult view.now (is_full_by accepted) command.now.act result }
    ensures kind { IfErr result (IsOwnRefusal command.now) }
{
    let full = MAX_COMMANDS <= accepted;
    check(alloc, view, full, &command.act)
}

/// The row of a command that is accepted now.
fn new_key_row(alloc: Global, command: &Command, reply: &ReplyData) -> Result<KeyRow, AllocError>
    ensures { IfOk result (λ row. row ≡ NewDecision.new_key_row command.now reply.now) }
{
    let text = command_text(alloc, &command.act)?;
    Ok(KeyRow {
        key: command.key,
        accepted: reply.accepted,
        command: text,
        reply: reply_text(alloc, reply)?,
    })
}

/// Decides a command that is cleared (`check_early`) and whose key is new, over the rows that it asks for and `accepted`,
/// the number of the last command. What clears it is not tested again.
///
/// For every history A that the machine leads to, and in whose tables the key has no row: if the view holds the rows
/// of the tables of A that the command asks for, in any order, and `accepted` is the number of the last command of A, 0
/// if there is none, the result is the machine's step from A, and the changes lead from the tables of A to those
/// after it, up to the order of rows. The act's own refusals come in the order of their numbers, and 27 if
/// `MAX_COMMANDS` have been accepted. Out of memory (33) may be answered in place of all of these; it changes
/// nothing. Over any other view and number there is some answer. A signature and an exception that passes a step record
/// the first seating of the people in the room, or else are refused (32) with a least shortage.
pub fn decide_new(
    alloc: Global,
    view: &View,
    accepted: u32,
    command: &Command,
) -> Result<Verdict, Refusal>
    requires cleared { IsCleared view.now (is_full_by accepted) command.now.act }
    ensures step { (A : History) → IsRegister A → row_of_key command.now.key (tables A).keys ≡ None
        → IsViewOf (asks_of command.now) (tables A) view.now → accepted ≡ greatest_number (tables A).keys
        → IsDecision A command.now result }

    // Whatever the rows are, the result is by them: the act's first refusal, or its changes with the row of the command,
    // and the reply with the next number. So the reply is of the act's kind, or the refusal is one that acts of this
    // kind may get.
    ensures by_rows { IsRowDecision view.now accepted command.now result }
    ensures kind { IsOfKind command.now result }
{
    let full = MAX_COMMANDS <= accepted;
    let acted = evaluate(alloc, view, full, &command.act)?;
    let Effect {
        mut changes,
        exception,
        seating,
        step,
    } = acted;
    let new_reply = ReplyData {
        // A full register accepts no act, so there is a next number.
        accepted: accepted + 1,
        exception,
        seating,
        step,
    };
    let row = new_key_row(alloc, command, &new_reply)?;
    let reply = row.reply.clone()?;
    changes.push(Change::PutKey(row))?;
    Ok(Verdict {
        changes,
        reply: Reply { text: reply },
        new_reply: Some(new_reply),
    })
}
