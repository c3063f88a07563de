//! Signatures of steps and script exceptions, over the rows of a view.
ghost use Rattle.std.specs.Prelude.{◌≡◌, ◌≢◌, ◌≤◌, length, true, false, MatchResult};
ghost use Rattle.kcr_base.specs.declared.refusal.Refusal.TheVariants.{Memory};
ghost use Rattle.kcr_history.specs.Machine.{SeatRequest};
ghost use Rattle.kcr_history.specs.declared.commands.Act.TheVariants as Kinds;
ghost use Rattle.kcr_history.specs.declared.commands.Deed.TheVariants as Deeds;
ghost use Rattle.kcr_rules.specs.ByRows.{IsCleared, IsEffectResult};
ghost use Rattle.kcr_rules.specs.Signing;

use crate::changes::only;
use crate::context::DecisionContext;
use crate::effects::Effect;
use crate::steps::{add_exception, next_step, seats_of, step_row};
use kcr_base::{Moment, Refusal, Remark, Role};
use kcr_history::{Change, InitialsList, MarkRow, StepState};
use kcr_script::Seat;

/// The seats of an exception that passes a step.
pub const STAFF: [Seat; 2] = [Seat::Staff(Role::Ca), Seat::Staff(Role::Iw)];

impl DecisionContext<'_> {
    /// Fills the seats of a step that is signed or passed: who is seated, and the changes of the step.
    fn seat_step(
        &self,
        state: StepState,
        ceremony: u32,
        step: u32,
        at: Moment,
        seats: &[Seat],
    ) -> Result<(InitialsList, Vec<Change>), Refusal>
        requires few { length seats.now ≤ 16 }
        ensures { let s : SeatRequest = record { ceremony = ceremony; at = at; seats = seats.now } in MatchResult result
            (λ made. Signing.IsSeatedBy self.now.view.now s made.0
            × (made.1.items ≡ Signing.seat_changes self.now.view.now state ceremony step at made.0))
            (λ refusal. refusal ≢ Memory → Signing.IsUnseatedBy self.now.view.now s refusal) }
    {
        let people = self.seat(ceremony, at, seats)?;
        let changes = self.seat_changes(state, ceremony, step, at, &people)?;
        Ok((people, changes))
    }

    /// Signs a step.
    pub fn sign(&self, ceremony: u32, step: u32, at: Moment) -> Result<Effect, Refusal>
        ensures { IsEffectResult self.now.view.now self.now.is_full (Kinds.Ceremony ceremony at (Deeds.Sign step)) result }
    {
        let seats = seats_of(step_row(&self.view.steps, ceremony, step));
        let (people, changes) = self.seat_step(StepState::Signed, ceremony, step, at, seats)?;
        Ok(Effect {
            changes,
            exception: None,
            seating: Some(people),
            step: Some(step),
        })
    }

    /// States an exception that passes no step.
    fn record_remark(&self, ceremony: u32, text: &Remark, at: Moment) -> Result<Effect, Refusal>
        requires cleared { IsCleared self.now.view.now self.now.is_full (Kinds.Ceremony ceremony at (Deeds.RecordException text.now false)) }
        ensures { IsEffectResult self.now.view.now self.now.is_full (Kinds.Ceremony ceremony at (Deeds.RecordException text.now false)) result }
    {
        let exception = self.exception_number(ceremony);
        let mut changes = only(self.alloc, Change::PutMark(MarkRow { ceremony, at }))?;
        add_exception(&mut changes, self.view, ceremony, exception, text, at, None)?;
        Ok(Effect {
            changes,
            exception: Some(exception),
            seating: None,
            step: None,
        })
    }

    /// States an exception that passes the next step.
    fn pass_step(&self, ceremony: u32, text: &Remark, at: Moment) -> Result<Effect, Refusal>
        requires cleared { IsCleared self.now.view.now self.now.is_full (Kinds.Ceremony ceremony at (Deeds.RecordException text.now true)) }
        ensures { IsEffectResult self.now.view.now self.now.is_full (Kinds.Ceremony ceremony at (Deeds.RecordException text.now true)) result }
    {
        let exception = self.exception_number(ceremony);
        let step = next_step(self.view, ceremony)?;
        let (people, mut changes) = self.seat_step(StepState::Passed, ceremony, step, at, &STAFF)?;
        add_exception(
            &mut changes,
            self.view,
            ceremony,
            exception,
            text,
            at,
            Some(step),
        )?;
        Ok(Effect {
            changes,
            exception: Some(exception),
            seating: Some(people),
            step: Some(step),
        })
    }

    /// States an exception, which may pass the next step.
    pub fn record_exception(
        &self,
        ceremony: u32,
        text: &Remark,
        pass: bool,
        at: Moment,
    ) -> Result<Effect, Refusal>
        requires cleared { IsCleared self.now.view.now self.now.is_full (Kinds.Ceremony ceremony at (Deeds.RecordException text.now pass)) }
        ensures { IsEffectResult self.now.view.now self.now.is_full (Kinds.Ceremony ceremony at (Deeds.RecordException text.now pass)) result }
    {
        if pass {
            self.pass_step(ceremony, text, at)
        } else {
            self.record_remark(ceremony, text, at)
        }
    }
}
