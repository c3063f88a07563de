//! Acts on people and custodians, over the rows of a view.
#![tactic(auto, using(crate::proofs::Unless::refused, crate::proofs::Unless::accepted))]

ghost use Rattle.std.specs.Prelude.{◌≡◌, IfOk, map};
ghost use Rattle.kcr_history.specs.declared.commands.Act.TheVariants as Kinds;
ghost use Rattle.kcr_history.specs.{declared.views.Change.TheVariants.PutWithdrawal, History.greatest, History.max_option};
ghost use Rattle.kcr_rules.specs.ByRows.{IsChangesResult, IsRoster};

use crate::changes::{both, only};
use crate::context::DecisionContext;
use kcr_base::{Day, Initials, Moment, Name, Place, Refusal, Role};
use kcr_history::{Change, MarkRow};
use kcr_people::{Person, Roster, Training, Withdrawal};
use std::alloc::{AllocError, Global};

/// The greater of a mark so far, if there is one, and one more.
fn greater(found: Option<Moment>, at: Moment) -> Option<Moment>
    ensures { result ≡ max_option found at }
{
    match found {
        Some(mark) if at <= mark => Some(mark),
        _ => Some(at),
    }
}

/// The greatest of the marks, or `None` if there is none.
#[tactic(auto, using(kcr_history::proofs::Marks::next_mark))]
fn greatest_mark(marks: &[MarkRow]) -> Option<Moment>
    ensures { result ≡ greatest (map (λ row. row.at) marks.now) }
{
    let mut found: Option<Moment> = None;
    for row in marks {
        found = greater(found, row.at);
    }
    found
}

/// The rows of withdrawals as changes.
fn withdrawal_changes(alloc: Global, rows: &[Withdrawal]) -> Result<Vec<Change>, AllocError>
    ensures { IfOk result (λ changes. changes.items ≡ map PutWithdrawal rows.now) }
{
    rows.iter()
        .map(|row| Change::PutWithdrawal(*row))
        .collect(alloc)
}

impl DecisionContext<'_> {
    /// What acts on people and places are decided by.
    fn roster(&self) -> Roster<'_>
        ensures { IsRoster self.now result }
    {
        Roster {
            people: &self.view.people,
            trainings: &self.view.trainings,
            withdrawals: &self.view.withdrawals,
            appointments: &self.view.appointments,
            settled: greatest_mark(&self.view.marks).map(|mark| mark.day()),
            is_full: self.is_full,
        }
    }

    /// Enters a person: the row to put, or the first refusal.
    pub fn enter(&self, who: Initials, name: &Name) -> Result<Vec<Change>, Refusal>
        ensures { IsChangesResult self.now (Kinds.Enter who name.now) result }
    {
        let person = Person {
            who,
            name: name.clone()?,
        };
        let person = kcr_people::enter(&self.view.people, self.is_full, person)?;
        Ok(only(self.alloc, Change::PutPerson(person))?)
    }

    /// Trains a person.
    pub fn train(
        &self,
        who: Initials,
        role: Role,
        since: Day,
        until: Day,
    ) -> Result<Vec<Change>, Refusal>
        ensures { IsChangesResult self.now (Kinds.Train who role since until) result }
    {
        let training = Training {
            who,
            role,
            since,
            until,
        };
        let row = kcr_people::train(&self.roster(), training)?;
        Ok(only(self.alloc, Change::PutTraining(row))?)
    }

    /// Withdraws a person's trainings for a role.
    pub fn withdraw(&self, who: Initials, role: Role, day: Day) -> Result<Vec<Change>, Refusal>
        ensures { IsChangesResult self.now (Kinds.Withdraw who role day) result }
    {
        let rows = kcr_people::withdraw(self.alloc, &self.roster(), who, role, day)?;
        let changes = withdrawal_changes(self.alloc, rows.as_slice())?;
        Ok(changes)
    }

    /// Puts a person in a vacant place.
    pub fn appoint(&self, place: Place, who: Initials, day: Day) -> Result<Vec<Change>, Refusal>
        ensures { IsChangesResult self.now (Kinds.Appoint place who day) result }
    {
        let row = kcr_people::appoint(&self.roster(), place, who, day)?;
        Ok(only(self.alloc, Change::PutAppointment(row))?)
    }

    /// Puts a person in the place of its holder.
    pub fn replace(&self, place: Place, who: Initials, day: Day) -> Result<Vec<Change>, Refusal>
        ensures { IsChangesResult self.now (Kinds.Replace place who day) result }
    {
        let (ended, row) = kcr_people::replace(&self.roster(), place, who, day)?;
        Ok(both(
            self.alloc,
            Change::PutAppointment(ended),
            Change::PutAppointment(row),
        )?)
    }

    /// Makes a place vacant.
    pub fn release(&self, place: Place, day: Day) -> Result<Vec<Change>, Refusal>
        ensures { IsChangesResult self.now (Kinds.Release place day) result }
    {
        let ended = kcr_people::release(&self.roster(), place, day)?;
        Ok(only(self.alloc, Change::PutAppointment(ended))?)
    }
}
