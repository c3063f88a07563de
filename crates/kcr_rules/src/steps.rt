//! Steps and exceptions of a ceremony, over the rows of a view: which step is next, why a step may not be signed or an
//! exception not be stated, their seats aside, and the rows that both put.
ghost use Rattle.std.specs.Prelude.{◌≡◌, ◌<◌, ◌≤◌, ℕ, ◌++◌, ◌∷◌, [], suc, length, map, option_copied, true, false};
ghost use Rattle.std.specs.Prelude.{None, Some, nat_lt, MatchResult, IfErr, IfOk, IsTrue, List, OnOk};
ghost use Rattle.kcr_base.specs.declared.{limits.TheConstants.MAX_EXCEPTIONS, limits.TheConstants.MAX_STEPS, refusal.Refusal.TheVariants.Disk};
ghost use Rattle.kcr_history.specs.declared.commands.Act.TheVariants as Kinds;
ghost use Rattle.kcr_history.specs.declared.commands.Deed.TheVariants as Deeds;
ghost use Rattle.kcr_history.specs.Tables.{seat_rows};
ghost use Rattle.kcr_history.specs.Views;
ghost use Rattle.kcr_history.specs.declared.views.Change.TheVariants as Changes;
ghost use Rattle.kcr_rules.specs.{ByRows.early_refusal_by, Refusals.may_refuse};
ghost use Rattle.kcr_rules.specs.Signing;

use crate::ceremony_status::{check_running, known_ceremony};
use crate::context::DecisionContext;
use kcr_base::{Initials, MAX_EXCEPTIONS, MAX_STEPS, Moment, Refusal, Remark, Thing};
use kcr_history::{
    Change, ExceptionRow, InitialsList, MarkRow, SeatingRow, StepRow, StepState, View, last_seated,
};
use kcr_script::Seat;
use std::alloc::AllocError;

/// How many exceptions the ceremony has.
fn exception_count(rows: &[ExceptionRow], ceremony: u32) -> usize
    ensures { result ≡ Signing.exception_count_by rows.now ceremony }
{
    rows.iter().filter(|row| row.ceremony == ceremony).count()
}

/// The row of a step, counted from 1; `None` if the ceremony has no such step.
pub fn step_row(rows: &[StepRow], ceremony: u32, step: u32) -> Option<&StepRow>
    ensures { option_copied result ≡ Signing.step_by rows.now ceremony step }
{
    rows.iter()
        .find(|row| row.ceremony == ceremony && row.step == step)
}

/// The number, counted from 1, of the step that is next: the one after the last that has a seating. The refusal is 34,
/// if that one is past what a script has: no register has such rows.
pub fn next_step(view: &View, ceremony: u32) -> Result<u32, Refusal>
    ensures next { MatchResult result
        (λ step. step ≡ Signing.next_step_by view.now.seatings.items ceremony)
        (λ refusal. (nat_lt MAX_STEPS (Views.last_seated view.now.seatings.items ceremony) ≡ true) × (refusal ≡ Disk)) }
    ensures few { OnOk result (nat_lt MAX_STEPS (Views.last_seated view.now.seatings.items ceremony) ≡ false) }
{
    let last = last_seated(&view.seatings, ceremony);
    if last > MAX_STEPS {
        return Err(Refusal::Disk);
    }
    Ok(last + 1)
}

/// Adds the step's row with what became of it.
fn add_step(
    changes: &mut Vec<Change>,
    old: Option<&StepRow>,
    state: StepState,
    at: Moment,
) -> Result<(), AllocError>
    ensures { OnOk result
        (changes.new.items ≡ changes.old.items ++ Signing.step_change (option_copied old.entry) state at) }
{
    if let Some(old) = old {
        changes.push(Change::PutStep(StepRow {
            ceremony: old.ceremony,
            step: old.step,
            activity: old.activity.clone()?,
            seats: old.seats.clone()?,
            state,
            at: Some(at),
        }))?;
    }
    Ok(())
}

/// Adds the rows of the seats.
fn add_seats(
    changes: &mut Vec<Change>,
    ceremony: u32,
    step: u32,
    people: &[Initials],
) -> Result<(), AllocError>
    requires { length people.now ≤ 16 }
    ensures { OnOk result
        (changes.new.items ≡ changes.old.items ++ map Changes.PutSeating (seat_rows ceremony step 0 people.now)) }
{
    for i in 0..people.len() {
        changes.push(Change::PutSeating(SeatingRow {
            ceremony,
            step,
            seat: i as u32 + 1,
            who: people[i],
        }))?;
    }
    Ok(())
}

/// The seats of the step's row, 16 at most; none if there is no row.
pub fn seats_of(row: Option<&StepRow>) -> &[Seat]
    ensures is { result.now ≡ Signing.seats_by (option_copied row.entry) }
    ensures few { length result.now ≤ 16 }
{
    match row {
        None => &[],
        Some(row) => row.seats.as_slice(),
    }
}

/// Adds an exception's row, with the step that it passes. The error is out of memory; the changes are then of no use.
pub fn add_exception(
    changes: &mut Vec<Change>,
    view: &View,
    ceremony: u32,
    number: u32,
    text: &Remark,
    at: Moment,
    passed: Option<u32>,
) -> Result<(), AllocError>
    requires { number ≡ suc (Signing.exception_count_by view.now.exceptions.items ceremony) }
    ensures { OnOk result
        (changes.new.items ≡ changes.old.items ++ Signing.exception_change view.now ceremony text.now at passed ∷ []) }
{
    changes.push(Change::PutException(ExceptionRow {
        ceremony,
        exception: number,
        text: text.clone()?,
        at,
        passed,
    }))?;
    Ok(())
}

impl DecisionContext<'_> {
    /// A step may be signed, if its seats can be filled. Refused: 12 without the ceremony or the step, 20 if the ceremony
    /// is not open, 22 before its mark, 23 if another step is next, 27 full; 34 if `next_step` is.
    pub fn check_sign(&self, ceremony: u32, step: u32, at: Moment) -> Result<(), Refusal>
        ensures first { MatchResult result
            (λ _. early_refusal_by self.now.view.now self.now.is_full (Kinds.Ceremony ceremony at (Deeds.Sign step)) ≡ None)
            (λ refusal. nat_lt MAX_STEPS (Views.last_seated self.now.view.now.seatings.items ceremony) ≡ false
            → early_refusal_by self.now.view.now self.now.is_full (Kinds.Ceremony ceremony at (Deeds.Sign step)) ≡ Some refusal) }
        ensures few { OnOk result (nat_lt MAX_STEPS (Views.last_seated self.now.view.now.seatings.items ceremony) ≡ false) }
        ensures kind { IfErr result (λ refusal. IsTrue (may_refuse (Kinds.Ceremony ceremony at (Deeds.Sign step)) refusal)) }
    {
        let row = known_ceremony(self.view, ceremony)?;
        if step_row(&self.view.steps, ceremony, step).is_none() {
            return Err(Refusal::Unknown {
                thing: Thing::Step(step),
            });
        }
        check_running(self.view, ceremony, row.state, at)?;
        let next = next_step(self.view, ceremony)?;
        if step != next {
            return Err(Refusal::Order { next });
        }
        if self.is_full {
            return Err(Refusal::Full);
        }
        Ok(())
    }

    /// An exception may be stated, if the seats of one that passes a step can be filled. Refused: 12 without the ceremony,
    /// 20 if it is not open, 22 before its mark, 23 if no step is left to pass, 27 if the ceremony has
    /// `MAX_EXCEPTIONS` exceptions or the register is full; 34 if `next_step` is.
    pub fn check_exception(&self, ceremony: u32, pass: bool, at: Moment) -> Result<(), Refusal>
        ensures first { (text : List ℕ) → MatchResult result
            (λ _. early_refusal_by self.now.view.now self.now.is_full (Kinds.Ceremony ceremony at (Deeds.RecordException text pass)) ≡ None)
            (λ refusal. nat_lt MAX_STEPS (Views.last_seated self.now.view.now.seatings.items ceremony) ≡ false
            → early_refusal_by self.now.view.now self.now.is_full (Kinds.Ceremony ceremony at (Deeds.RecordException text pass)) ≡ Some refusal) }
        ensures few { OnOk result (nat_lt MAX_STEPS (Views.last_seated self.now.view.now.seatings.items ceremony) ≡ false) }
        ensures kind { (text : List ℕ)
            → IfErr result (λ refusal. IsTrue (may_refuse (Kinds.Ceremony ceremony at (Deeds.RecordException text pass)) refusal)) }
    {
        let row = known_ceremony(self.view, ceremony)?;
        check_running(self.view, ceremony, row.state, at)?;
        let next = next_step(self.view, ceremony)?;
        if pass && step_row(&self.view.steps, ceremony, next).is_none() {
            return Err(Refusal::Order { next });
        }
        if self.is_full
            || exception_count(&self.view.exceptions, ceremony) >= MAX_EXCEPTIONS as usize
        {
            return Err(Refusal::Full);
        }
        Ok(())
    }

    /// The number, counted from 1, of the exception that is stated next.
    pub fn exception_number(&self, ceremony: u32) -> u32
        requires { Signing.exception_count_by self.now.view.now.exceptions.items ceremony < MAX_EXCEPTIONS }
        ensures { result ≡ suc (Signing.exception_count_by self.now.view.now.exceptions.items ceremony) }
    {
        exception_count(&self.view.exceptions, ceremony) as u32 + 1
    }

    /// The changes of a step that is signed or passed: its row, those of its seats in order, and the mark.
    pub fn seat_changes(
        &self,
        state: StepState,
        ceremony: u32,
        step: u32,
        at: Moment,
        people: &InitialsList,
    ) -> Result<Vec<Change>, AllocError>
        requires { length people.now ≤ 16 }
        ensures { IfOk result (λ changes. changes.items
            ≡ Signing.seat_changes self.now.view.now state ceremony step at people.now) }
    {
        let mut changes = Vec::new(self.alloc);
        let old = step_row(&self.view.steps, ceremony, step);
        add_step(&mut changes, old, state, at)?;
        add_seats(&mut changes, ceremony, step, people.as_slice())?;
        changes.push(Change::PutMark(MarkRow { ceremony, at }))?;
        Ok(changes)
    }
}
