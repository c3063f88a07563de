//! What the rows of a view say of a ceremony: its state, its mark, and who is in its room.
ghost use Rattle.std.specs.Prelude.{◌≡◌, IfOk, MatchResult, Some, None};
ghost use Rattle.kcr_base.specs.{declared.refusal.Refusal.TheVariants.Unknown, Refuse.IsTestResult};
ghost use Rattle.kcr_base.specs.declared.refusal.Thing.TheVariants as Things;
ghost use Rattle.kcr_room.specs.Stays.{present_in_by};
ghost use Rattle.kcr_rules.specs.ByRows;
ghost use Rattle.kcr_rules.specs.CeremonyStatus;

use crate::context::DecisionContext;
use kcr_base::{Day, Facility, Initials, Moment, Refusal, Role, Thing, is_among};
use kcr_custody::CeremonyStatus as CustodyStatus;
use kcr_history::{CeremonyRow, CeremonyState, View};
use std::alloc::AllocError;

/// The row of a ceremony, `None` if there is no such ceremony.
pub fn ceremony_row(view: &View, ceremony: u32) -> Option<CeremonyRow>
    ensures { result ≡ CeremonyStatus.ceremony_by view.now.ceremonies.items ceremony }
{
    view.ceremonies
        .iter()
        .copied()
        .find(|row| row.number == ceremony)
}

/// The row of a ceremony; the refusal is that there is no such ceremony.
pub fn known_ceremony(view: &View, ceremony: u32) -> Result<CeremonyRow, Refusal>
    ensures { MatchResult result
        (λ row. CeremonyStatus.ceremony_by view.now.ceremonies.items ceremony ≡ Some row)
        (λ refusal. (CeremonyStatus.ceremony_by view.now.ceremonies.items ceremony ≡ None)
        × (refusal ≡ Unknown (Things.Ceremony ceremony))) }
{
    match ceremony_row(view, ceremony) {
        Some(row) => Ok(row),
        None => Err(Refusal::Unknown {
            thing: Thing::Ceremony(ceremony),
        }),
    }
}

/// The mark of a ceremony, `None` if it was never opened.
pub fn mark(view: &View, ceremony: u32) -> Option<Moment>
    ensures { result ≡ CeremonyStatus.mark_by view.now.marks.items ceremony }
{
    view.marks
        .iter()
        .find(|row| row.ceremony == ceremony)
        .map(|row| row.at)
}

/// Returns the ceremony's facility; any facility if there is no such ceremony.
pub fn facility(row: &Option<CeremonyRow>) -> Facility
    ensures { result ≡ CeremonyStatus.facility_of_row row.now }
{
    match row {
        Some(row) => row.facility,
        None => Facility::East,
    }
}

/// Whether a ceremony in this state is open.
pub fn is_open_state(state: CeremonyState) -> bool
    ensures { result ≡ CeremonyStatus.is_open_state state }
{
    match state {
        CeremonyState::Open => true,
        CeremonyState::Planned | CeremonyState::Closed => false,
    }
}

/// Whether a ceremony is there and open.
fn is_open(row: &Option<CeremonyRow>) -> bool
    ensures { result ≡ CeremonyStatus.is_open_row row.now }
{
    match row {
        Some(row) => is_open_state(row.state),
        None => false,
    }
}

/// The ceremony, which is in this state, is open, and the moment is not before its mark.
pub fn check_running(
    view: &View,
    ceremony: u32,
    state: CeremonyState,
    at: Moment,
) -> Result<(), Refusal>
    ensures { IsTestResult (CeremonyStatus.not_running view.now ceremony state at) result }
{
    if !is_open_state(state) {
        return Err(Refusal::State);
    }
    if let Some(mark) = mark(view, ceremony)
        && at < mark
    {
        return Err(Refusal::Late { mark });
    }
    Ok(())
}

/// Whether a person is trained for a role on a day.
pub fn is_trained(view: &View, who: Initials, role: Role, day: Day) -> bool
    ensures { result ≡ CeremonyStatus.is_trained_by view.now who role day }
{
    kcr_people::trained(&view.trainings, &view.withdrawals, who, role, day)
}

impl DecisionContext<'_> {
    /// Where a ceremony takes place.
    pub fn facility(&self, ceremony: u32) -> Facility
        ensures { result ≡ CeremonyStatus.facility_by self.now.view.now ceremony }
    {
        facility(&ceremony_row(self.view, ceremony))
    }

    /// What the check of an act of custody takes from its ceremony.
    pub fn ceremony_status(&self, ceremony: u32, at: Moment) -> CustodyStatus
        ensures { result ≡ ByRows.ceremony_status_by self.now.view.now self.now.is_full ceremony at }
    {
        let row = ceremony_row(self.view, ceremony);
        CustodyStatus {
            ceremony,
            is_known: row.is_some(),
            facility: facility(&row),
            is_open: is_open(&row),
            mark: mark(self.view, ceremony),
            at,
            is_full: self.is_full,
        }
    }

    /// Those in the room of a ceremony, in byte order.
    pub fn people_present(&self, ceremony: u32, at: Moment) -> Result<Vec<Initials>, AllocError>
        ensures { IfOk result (λ people. people.items ≡ present_in_by self.now.view.now.stays.items ceremony at) }
    {
        kcr_room::present_in(self.alloc, &self.view.stays, ceremony, at)
    }

    /// Whether a person is in the room of a ceremony.
    pub fn is_in(&self, who: Initials, ceremony: u32, at: Moment) -> Result<bool, AllocError>
        ensures { IfOk result (λ answer. answer ≡ CeremonyStatus.is_in_by self.now.view.now.stays.items who ceremony at) }
    {
        let people = self.people_present(ceremony, at)?;
        Ok(is_among(&people, who))
    }

    /// Whether somebody in the room of a ceremony is trained for a role on the day.
    pub fn has_trained_present(
        &self,
        role: Role,
        ceremony: u32,
        at: Moment,
    ) -> Result<bool, AllocError>
        ensures { IfOk result (λ answer. answer ≡ CeremonyStatus.has_trained_present_by self.now.view.now role ceremony at) }
    {
        let people = self.people_present(ceremony, at)?;
        let day = at.day();
        Ok(
            people
                .iter()
                .any(|who| is_trained(self.view, *who, role, day)),
        )
    }
}
