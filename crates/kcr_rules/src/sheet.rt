//! Requests of the sheet, over the rows of a view: people come into a room or go out of it.
ghost use Rattle.std.specs.Prelude.{◌≡◌, ◌≢◌, IfOk, MatchResult, Option, Some, None, map};
ghost use Rattle.kcr_base.specs.declared.refusal.Refusal.{Refusal, TheVariants.Memory};
ghost use Rattle.kcr_room.specs.Requests;
ghost use Rattle.kcr_room.specs.declared.SheetRequest.{SheetRequest};
ghost use Rattle.kcr_history.specs.declared.views.{View.View, Change.TheVariants.PutSheet, Change.TheVariants.PutStay};
ghost use Rattle.kcr_history.specs.declared.commands.Act.TheVariants as Kinds;
ghost use Rattle.kcr_history.specs.declared.commands.Deed.TheVariants as Deeds;
ghost use Rattle.kcr_rules.specs.{ByRows.IsChangesResult, ByRows.IsCheckResult, CeremonyStatus.mark_by};
ghost use Rattle.kcr_rules.specs.SheetRows;

use crate::ceremony_status::{is_open_state, known_ceremony, mark};
use crate::context::DecisionContext;
use kcr_base::{Initials, Refusal, Thing, is_among};
use kcr_history::Change;
use kcr_people::Person;
use kcr_room::{SheetRequest, SheetRow, Stay};
use std::alloc::{AllocError, Global};

/// The first of the people who is not in the register.
fn first_unknown(rows: &[Person], people: &[Initials]) -> Option<Initials>
    ensures { result ≡ SheetRows.first_unknown rows.now people.now }
{
    for who in people {
        if !kcr_people::queries::is_person(rows, *who) {
            return Some(*who);
        }
    }
    None
}

/// The first of the people who is named again.
fn first_twice(people: &[Initials]) -> Option<Initials>
    ensures { result ≡ SheetRows.first_twice people.now }
{
    for (index, who) in people.iter().enumerate() {
        if is_among(&people[index + 1..], *who) {
            return Some(*who);
        }
    }
    None
}

/// The rows of the sheet that a request adds, as changes.
fn row_changes(alloc: Global, request: &SheetRequest<'_>) -> Result<Vec<Change>, AllocError>
    ensures { let asked : SheetRequest = request.now in IfOk result (λ changes.
        changes.items ≡ map PutSheet (map (Requests.new_row asked.ceremony asked.way asked.at) asked.people.now)) }
{
    request
        .people
        .iter()
        .map(|who| {
            Change::PutSheet(SheetRow {
                ceremony: request.ceremony,
                who: *who,
                way: request.way,
                at: request.at,
            })
        })
        .collect(alloc)
}

/// Stays as changes.
fn stay_changes(alloc: Global, stays: &[Stay]) -> Result<Vec<Change>, AllocError>
    ensures { IfOk result (λ changes. changes.items ≡ map PutStay stays.now) }
{
    let stays = stays.iter();
    stays.map(|stay| Change::PutStay(*stay)).collect(alloc)
}

impl DecisionContext<'_> {
    /// A request may be looked at by its room. Refused: 12 without the ceremony or one of the people, 20 if the ceremony
    /// is not open, 22 if the moment is not later than its mark.
    pub fn check_request(&self, request: &SheetRequest<'_>) -> Result<(), Refusal>
        ensures { let asked : SheetRequest = request.now in IsCheckResult self.now.view.now self.now.is_full
            (Kinds.Ceremony asked.ceremony asked.at (Deeds.RecordSheet asked.way asked.people.now)) result }
    {
        let row = known_ceremony(self.view, request.ceremony)?;
        if let Some(who) = first_unknown(&self.view.people, request.people) {
            return Err(Refusal::Unknown {
                thing: Thing::Person(who),
            });
        }
        if !is_open_state(row.state) {
            return Err(Refusal::State);
        }
        if let Some(mark) = mark(self.view, request.ceremony)
            && request.at <= mark
        {
            return Err(Refusal::Late { mark });
        }
        Ok(())
    }

    /// The stays that a request changes, or the first refusal by the stays.
    fn changed_stays(&self, request: &SheetRequest<'_>) -> Result<Vec<Stay>, Refusal>
        ensures { let asked : SheetRequest = request.now in let view : View = self.now.view.now in
            let first : Option Refusal = SheetRows.room_refusal view.stays.items view.stay_count self.now.is_full
            (mark_by view.marks.items asked.ceremony) asked.ceremony asked.way asked.people.now asked.at in
            MatchResult result
            (λ changed. (first ≡ None) × (changed.items ≡ Requests.changed_stays
            view.stays.items asked.ceremony asked.way asked.people.now asked.at))
            (λ refusal. refusal ≢ Memory → first ≡ Some refusal) }
    {
        let Some(mark) = mark(self.view, request.ceremony) else {
            return Err(Refusal::State);
        };
        kcr_room::add_stays(
            self.alloc,
            &self.view.stays,
            self.view.stay_count,
            mark,
            self.is_full,
            request,
        )
    }

    /// Lists people who come into the room of a ceremony, or go out of it: the rows to put, or the first refusal.
    pub fn record_sheet(&self, request: &SheetRequest<'_>) -> Result<Vec<Change>, Refusal>
        ensures { let asked : SheetRequest = request.now in
            IsChangesResult self.now (Kinds.Ceremony asked.ceremony asked.at (Deeds.RecordSheet asked.way asked.people.now)) result }
    {
        if let Some(who) = first_twice(request.people) {
            return Err(Refusal::Turn { who });
        }
        let changed = self.changed_stays(request)?;
        let mut changes = row_changes(self.alloc, request)?;
        changes.append(&mut stay_changes(self.alloc, &changed)?)?;
        Ok(changes)
    }
}
