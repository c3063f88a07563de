//! The step of a ceremony's script that is asked for, and one row of the ceremony's last seating, which tells how many
//! steps are done.

ghost use Rattle.std.specs.Prelude.{◌≡◌, MatchOption, ◌<◌};
ghost use Rattle.kcr_history.specs.Views.{step_asked, IncludesStep, ShowsStepOf};
ghost use Rattle.kcr_tables.specs.{Exact.OneSeatingIsShown, Exact.StepIsShown, Exact.StepsAreShown, Frame.OfTables, Frame.OfTrees, Frame.Reads};

use crate::table::shown_rows;
use kcr_base::Refusal;
use kcr_history::{SeatingRow, StepFilter, StepRow, last_seated};
use kcr_rows::cells::number_cell;
use sqlite::{Alter, Transaction};
use std::alloc::Global;

/// The row of the step that is asked for, alone, or none, and one row of the ceremony's last seating, alone, or none.
#[derive(Drop)]
pub struct StepRows {
    pub steps: Vec<StepRow>,
    pub seatings: Vec<SeatingRow>,
}

/// The number of the step that is asked for, if these are seatings of its ceremony; `None` if it would be past the
/// greatest number there is.
fn number_asked(asked: StepFilter, seatings: &[SeatingRow]) -> Option<u32>
    ensures { MatchOption result
        (4294967295 < step_asked asked seatings.now)
        (λ step. step ≡ step_asked asked seatings.now) }
{
    match asked.step {
        Some(step) => Some(step),
        None => last_seated(seatings, asked.ceremony).checked_add(1),
    }
}

/// The step that is asked for, and one row of the ceremony's last step that has a seating. The errors are those of
/// `select_steps`.
fn step_of<S: Alter>(
    alloc: Global,
    tx: &mut Transaction<'_, S>,
    asked: &StepFilter,
) -> Result<StepRows, Refusal>
    ensures rows { OfTables S.Store tx.old tx.new result
        (λ t all. ShowsStepOf asked.now t.rows.seatings all.seatings.items t.rows.steps all.steps.items) }
    ensures seating { OfTrees S.Store tx.old tx.new result
        (λ db all. OneSeatingIsShown asked.now.ceremony all.seatings.items db) }
    ensures step { OfTrees S.Store tx.old tx.new result
        (λ db all. StepIsShown asked.now all.seatings.items all.steps.items db) }
    ensures frame { Reads S.Store tx.old tx.new result }
{
    let seatings = shown_rows(
        alloc,
        tx,
        "SELECT ceremony, step, seat, who FROM seatings WHERE ceremony = ?1 ORDER BY step DESC LIMIT 1",
        &[number_cell(asked.ceremony)],
    )?;
    let Some(number) = number_asked(*asked, seatings.as_slice()) else {
        return Err(Refusal::Disk);
    };
    let steps = shown_rows(
        alloc,
        tx,
        "SELECT ceremony, step, activity, seats, state, at FROM steps WHERE ceremony = ?1 AND step = ?2 ORDER BY ceremony, step",
        &[number_cell(asked.ceremony), number_cell(number)],
    )?;
    Ok(StepRows { steps, seatings })
}

/// The step that is asked for, and one row of the ceremony's last seating; if none is asked for nothing is read.
/// Nothing is changed. The error is `Memory` when out of memory, and else `Disk`: the device failed, or a row that is
/// read is invalid, such as a seating of the step with the greatest number there is, if the step
/// after it is asked for.
pub fn select_steps<S: Alter>(
    alloc: Global,
    tx: &mut Transaction<'_, S>,
    asked: &Option<StepFilter>,
) -> Result<StepRows, Refusal>
    ensures rows { OfTables S.Store tx.old tx.new result
        (λ t all. IncludesStep asked.now t.rows.seatings all.seatings.items t.rows.steps all.steps.items) }
    ensures exact { OfTrees S.Store tx.old tx.new result
        (λ db all. StepsAreShown asked.now all.seatings.items all.steps.items db) }
    ensures frame { Reads S.Store tx.old tx.new result }
{
    match asked {
        None => Ok(StepRows {
            steps: Vec::new(alloc),
            seatings: Vec::new(alloc),
        }),
        Some(asked) => step_of(alloc, tx, asked),
    }
}
