//! When a command happened.
ghost use Rattle.std.specs.Prelude.{◌≡◌, ◌++◌, OnOk};
ghost use Rattle.kcr_base.specs.Moment.{moment_text};
ghost use Rattle.kcr_journal.specs.Lines.{day_column, when_column};

use crate::texts::push_texts;
use kcr_base::{Day, Moment};
use kcr_history::Act;
use std::alloc::AllocError;

/// Adds a day in the twenty columns of a moment.
fn push_day(out: &mut Vec<u8>, day: Day) -> Result<(), AllocError>
    ensures { OnOk result (out.new.items ≡ out.old.items ++ day_column day) }
{
    let code = day.code();
    push_texts(out, &[code.as_str(), "          "])
}

/// Adds a moment.
fn push_moment(out: &mut Vec<u8>, at: Moment) -> Result<(), AllocError>
    ensures { OnOk result (out.new.items ≡ out.old.items ++ moment_text at) }
{
    let code = at.code();
    out.extend_from_slice(code.as_bytes())
}

/// Adds the moment of an act, or its day, or a dash if it has neither, in twenty columns.
pub(crate) fn push_when(out: &mut Vec<u8>, act: &Act) -> Result<(), AllocError>
    ensures { OnOk result (out.new.items ≡ out.old.items ++ when_column act.now) }
{
    match act {
        Act::Enter { .. } | Act::AddBox { .. } => out.extend_from_slice(b"-                   "),
        Act::Train { since: day, .. }
        | Act::Withdraw { day, .. }
        | Act::Appoint { day, .. }
        | Act::Replace { day, .. }
        | Act::Release { day, .. }
        | Act::Plan { day, .. } => push_day(out, *day),
        Act::Ceremony { at, .. } => push_moment(out, *at),
    }
}
