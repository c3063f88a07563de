//! Boxes added, and ceremonies planned and opened, over the rows of a view.
ghost use Rattle.std.specs.Prelude.{◌≡◌, ◌≤◌, ◌++◌, length, map, Ok, Err, IfOk};
ghost use Rattle.std.specs.List.{list_any};
ghost use Rattle.kcr_base.specs.declared.limits.TheConstants.{MAX_STEPS};
ghost use Rattle.kcr_history.specs.declared.commands.Act.TheVariants as Kinds;
ghost use Rattle.kcr_history.specs.declared.commands.Deed.TheVariants as Deeds;
ghost use Rattle.kcr_history.specs.declared.views.Change.TheVariants.{PutStep};
ghost use Rattle.kcr_rules.specs.ByRows.{IsChangesResult};
ghost use Rattle.kcr_rules.specs.CeremonyRows;

use crate::ceremony_status::{ceremony_row, is_open_state, known_ceremony};
use crate::changes::{only, with_mark};
use crate::context::DecisionContext;
use kcr_base::{Day, Facility, Moment, Place, Refusal, Text};
use kcr_custody::BoxRow;
use kcr_history::{CeremonyRow, CeremonyState, Change, StepRow, StepState};
use kcr_script::{Step, read_script};
use std::alloc::AllocError;

/// Whether another ceremony is open in the same facility.
fn is_open_beside(row: CeremonyRow, other: CeremonyRow) -> bool
    ensures { result ≡ CeremonyRows.is_open_beside row other }
{
    other.number != row.number && other.facility == row.facility && is_open_state(other.state)
}

/// Whether any other ceremony is open in the same facility.
fn is_busy(rows: &[CeremonyRow], row: CeremonyRow) -> bool
    ensures { result ≡ list_any (CeremonyRows.is_open_beside row) rows.now }
{
    rows.iter().any(|other| is_open_beside(row, *other))
}

/// The row of a step that is neither signed nor passed, under its number.
fn planned_step_row(ceremony: u32, number: u32, step: &Step) -> Result<StepRow, AllocError>
    ensures { IfOk result (λ row. row ≡ CeremonyRows.planned_step_row ceremony number step.now) }
{
    Ok(StepRow {
        ceremony,
        step: number,
        activity: step.activity.clone()?,
        seats: step.seats.clone()?,
        state: StepState::Undone,
        at: None,
    })
}

/// Adds the rows of a script's steps to the changes so far.
fn push_steps(
    mut changes: Vec<Change>,
    ceremony: u32,
    steps: &[Step],
) -> Result<Vec<Change>, AllocError>
    requires { length steps.now ≤ MAX_STEPS }
    ensures { IfOk result (λ all. all.items ≡ changes.items
        ++ map PutStep (CeremonyRows.planned_step_rows ceremony 1 steps.now)) }
{
    let mut number = 1u32;
    for step in steps {
        changes.push(Change::PutStep(planned_step_row(ceremony, number, step)?))?;
        number += 1;
    }
    Ok(changes)
}

impl DecisionContext<'_> {
    /// Adds a box.
    #[tactic(auto, using(crate::proofs::Unless::refused, crate::proofs::Unless::accepted))]
    pub fn add_box(
        &self,
        facility: Facility,
        number: u32,
        place: Place,
    ) -> Result<Vec<Change>, Refusal>
        ensures { IsChangesResult self.now (Kinds.AddBox facility number place) result }
    {
        let row = BoxRow {
            facility,
            number,
            place,
        };
        let row = kcr_custody::add_box(&self.view.boxes, self.is_full, row)?;
        Ok(only(self.alloc, Change::PutBox(row))?)
    }

    /// Opens a planned ceremony.
    pub fn open(&self, ceremony: u32, at: Moment) -> Result<Vec<Change>, Refusal>
        ensures { IsChangesResult self.now (Kinds.Ceremony ceremony at Deeds.Open) result }
    {
        let row = known_ceremony(self.view, ceremony)?;
        if at.day() < row.day {
            return Err(Refusal::Range);
        }
        if row.opened.is_some() {
            return Err(Refusal::State);
        }
        if is_busy(&self.view.ceremonies, row) {
            return Err(Refusal::Busy);
        }
        if self.is_full {
            return Err(Refusal::Full);
        }
        let opened = CeremonyRow {
            state: CeremonyState::Open,
            opened: Some(at),
            ..row
        };
        Ok(with_mark(self.alloc, Change::PutCeremony(opened), ceremony, at)?)
    }

    /// Plans a ceremony with the steps of its script.
    pub fn plan(
        &self,
        number: u32,
        facility: Facility,
        day: Day,
        script: &Text,
    ) -> Result<Vec<Change>, Refusal>
        ensures { IsChangesResult self.now (Kinds.Plan number facility day script.now) result }
    {
        if ceremony_row(self.view, number).is_some() {
            return Err(Refusal::Taken);
        }
        let steps = read_script(self.alloc, script.as_bytes())?;
        if self.is_full {
            return Err(Refusal::Full);
        }
        let row = CeremonyRow {
            number,
            facility,
            day,
            state: CeremonyState::Planned,
            opened: None,
            closed: None,
        };
        let changes = only(self.alloc, Change::PutCeremony(row))?;
        Ok(push_steps(changes, number, steps.as_slice())?)
    }
}
