//! The steps of a ceremony, each with the people who filled its seats.

ghost use Rattle.std.specs.Prelude.{◌≡◌, ◌++◌, true, ℕ, None, IfOk, map};
ghost use Rattle.std.specs.List.{AllByRecursion};
ghost use Rattle.sqlite.specs.Held.{state};
ghost use Rattle.kcr_history.specs.Prints.{seated_at};
ghost use Rattle.kcr_history.specs.Tables as machine;
ghost use Rattle.kcr_rows.specs.Frame.{ImpliesOpen};
ghost use Rattle.kcr_tables.specs.Frame.{OfMachineTables, Reads};
ghost use Rattle.kcr_reading.specs.Remaining.{IsNextBatchOf, IsStepWithin, is_past_until, people_at, rows_past};
ghost use Rattle.kcr_reading.specs.Remaining.{with_people, read_ahead, seated_steps, steps_past};

use crate::batched::{BatchSource, Batched};
use crate::seek::{first_rows, past_cell};
use kcr_base::{Initials, Refusal};
use kcr_history::{InitialsList, SeatedStep, SeatingRow, StepRow};
use kcr_rows::cells::number_cell;
use kcr_rows::statements::query_rows;
use sqlite::{Alter, Transaction};
use std::alloc::{AllocError, Global};

/// The next steps of the ceremony past the last one, sixteen at most; the last of them becomes the last one. None if
/// no more comes.
fn next_steps<S: Alter>(
    alloc: Global,
    tx: &mut Transaction<'_, S>,
    ceremony: u32,
    last: &mut Option<u32>,
) -> Result<Vec<StepRow>, Refusal>
    ensures gives { OfMachineTables S.Store tx.old tx.new result
        (λ m rows. IsNextBatchOf (rows_past last.old ceremony m) rows.items (rows_past last.new ceremony m)) }
    ensures within { OfMachineTables S.Store tx.old tx.new result
        (λ m rows. AllByRecursion (IsStepWithin ceremony last.old last.new) rows.items) }
    ensures opened { ImpliesOpen S.Store tx.old tx.new result }
    ensures frame { Reads S.Store tx.old tx.new result }
{
    let rows: Vec<StepRow> = first_rows(
        alloc,
        tx,
        "SELECT ceremony, step, activity, seats, state, at FROM steps WHERE ceremony = ?1 AND step > ?2 ORDER BY ceremony, step LIMIT 16",
        &[number_cell(ceremony), past_cell(*last)],
    )?;
    if let Some(row) = rows.last() {
        *last = Some(row.step);
    }
    Ok(rows)
}

/// The rows of the seatings of the ceremony's steps past the one and not past the other, each step's seat by seat.
fn seatings_within<S: Alter>(
    alloc: Global,
    tx: &mut Transaction<'_, S>,
    ceremony: u32,
    from: Option<u32>,
    until: Option<u32>,
) -> Result<Vec<SeatingRow>, Refusal>
    ensures people { OfMachineTables S.Store tx.old tx.new result
        (λ m rows. (step : ℕ) → is_past_until from until step ≡ true
        → people_at step rows.items ≡ seated_at m.seatings ceremony step) }
    ensures frame { Reads S.Store tx.old tx.new result }
{
    query_rows(
        alloc,
        tx,
        "SELECT ceremony, step, seat, who FROM seatings WHERE ceremony = ?1 AND step > ?2 AND step <= ?3 ORDER BY ceremony, step, seat",
        &[number_cell(ceremony), past_cell(from), past_cell(until)],
    )
}

/// The people of those of these rows that are of the step, in their order.
fn people_at(alloc: Global, rows: &[SeatingRow], step: u32) -> Result<Vec<Initials>, AllocError>
    ensures { IfOk result (λ people. people.items ≡ people_at step rows.now) }
{
    rows.iter()
        .filter(|row| row.step == step)
        .map(|row| row.who)
        .collect(alloc)
}

/// These steps, each with its people among the rows.
fn with_people(
    alloc: Global,
    steps: Vec<StepRow>,
    rows: &[SeatingRow],
) -> Result<Vec<SeatedStep>, AllocError>
    ensures { IfOk result (λ all. all.items ≡ map (with_people rows.now) steps.items) }
{
    let mut all = Vec::new(alloc);
    for step in steps {
        let people = people_at(alloc, rows, step.step)?;
        let seated = InitialsList::new(people);
        all.push(SeatedStep { step, seated })?;
    }
    Ok(all)
}

/// The steps of a ceremony behind the one that was read last.
#[derive(Drop)]
pub struct StepBatches {
    ceremony: u32,
    last: Option<u32>,
}

impl BatchSource for StepBatches {
    type Row = SeatedStep;

    ghost to_come = { λ p m. steps_past p.last p.ceremony m };

    fn next_batch<S: Alter>(
        &mut self,
        alloc: Global,
        tx: &mut Transaction<'_, S>,
    ) -> Result<Vec<SeatedStep>, Refusal> {
        let from = self.last;
        let steps = next_steps(alloc, tx, self.ceremony, &mut self.last)?;
        if steps.is_empty() {
            return Ok(Vec::new(alloc));
        }
        let rows = seatings_within(alloc, tx, self.ceremony, from, self.last)?;
        Ok(with_people(alloc, steps, rows.as_slice())?)
    }
}

/// The steps of a ceremony, each with its people.
pub type StepCursor = Batched<StepBatches>;

impl StepCursor {
    /// Before the first step of the ceremony.
    pub fn new(ceremony: u32) -> StepCursor
        ensures { (m : machine.Tables) → read_ahead result.ready
            ++ steps_past result.source.last result.source.ceremony m ≡ seated_steps ceremony m }
    {
        Batched::from_source(StepBatches {
            ceremony,
            last: None,
        })
    }
}
