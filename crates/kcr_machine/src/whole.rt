//! A command decided in one call, over a view that has all rows that it asks for, those of keys among them.
ghost use Rattle.std.specs.Prelude.{◌≡◌, IfErr};
ghost use Rattle.kcr_history.specs.{History.History, Machine.IsRegister, Machine.IsDecision};
ghost use Rattle.kcr_history.specs.Views as Views;
ghost use Rattle.kcr_machine.specs.{RowDecision.MayBeRefused, Whole.IsAsked};

use crate::decision::{check_early, decide_new, decide_repeat};
use kcr_base::{Key, Refusal};
use kcr_history::{Command, FullView, KeyRow, Verdict};
use std::alloc::Global;

/// Whether the row has this key.
fn has_key(row: &KeyRow, key: Key) -> bool
    ensures { result ≡ Views.is_of_key key row.now }
{
    row.key == key
}

/// The greatest number of an accepted command, 0 if there is none.
fn greatest_number(rows: &[KeyRow]) -> u32
    ensures { result ≡ Views.greatest_number rows.now }
{
    let mut greatest = 0;
    for row in rows {
        greatest = greatest.max(row.accepted);
    }
    greatest
}

/// Decides a command over a view that has all rows that it asks for: those of `asks`, the row of its key, if there is
/// one, and the row of keys with the greatest number, which may be any of those that have it.
///
/// For every history A that the machine leads to: if the view holds these rows of the tables of A, and only rows of
/// them, the result is the machine's step from A. The same command under its key gets the kept reply and changes
/// nothing; another command under a kept key is refused (11); else the act's first refusal is told, in the order of the
/// numbers; else the changes lead from the tables of A to those after it, up to the order of rows, with the reply. A
/// signature and an exception that passes a step record the first seating of the people in the room, or are refused
/// (32) with a least shortage. Out of memory (33) may be answered in place of all of these; it changes nothing. Over
/// any other view there is some answer: 34 if more than `MAX_PRESENT` people are in the room, or more steps are done than
/// a script has.
pub fn decide(alloc: Global, view: &FullView, command: &Command) -> Result<Verdict, Refusal>
    ensures step { (A : History) → IsRegister A → IsAsked A command.now view.now → IsDecision A command.now result }
    ensures kind { IfErr result (MayBeRefused command.now) }
{
    for row in &view.keys {
        if has_key(row, command.key) {
            return decide_repeat(alloc, row, command);
        }
    }
    let last = greatest_number(&view.keys);
    check_early(alloc, &view.view, last, command)?;
    decide_new(alloc, &view.view, last, command)
}
