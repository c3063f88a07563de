//! Ceremonies closed, over the rows of a view.
ghost use Rattle.std.specs.Prelude.{◌≡◌, suc};
ghost use Rattle.std.specs.List.{list_any};
ghost use Rattle.kcr_base.specs.Refuse.{IsTestResult};
ghost use Rattle.kcr_history.specs.declared.commands.Act.TheVariants as Kinds;
ghost use Rattle.kcr_history.specs.declared.commands.Deed.TheVariants as Deeds;
ghost use Rattle.kcr_rules.specs.ByRows;
ghost use Rattle.kcr_rules.specs.{ByRows.IsChangesResult, ByRows.IsCheckResult, Signing.next_step_by};
ghost use Rattle.kcr_history.specs.Views.{is_step_at};
ghost use Rattle.kcr_rules.specs.CeremonyRows;

use crate::ceremony_status::{ceremony_row, check_running};
use crate::changes::only;
use crate::context::DecisionContext;
use kcr_base::{Facility, Moment, Part, Refusal, Thing};
use kcr_custody::queries::is_open;
use kcr_custody::{Bag, SafeNumber, Spot};
use kcr_history::{CeremonyRow, CeremonyState, Change, StepRow, View, last_seated};
use kcr_room::{Stay, ends_after};

/// Whether the row is the ceremony's step after this one.
fn is_step_after(ceremony: u32, last: u32, row: &StepRow) -> bool
    ensures { result ≡ is_step_at ceremony (suc last) row.now }
{
    row.ceremony == ceremony && u64::from(row.step) == u64::from(last) + 1
}

/// Whether the ceremony has a next step, neither signed nor passed.
fn has_next_step(view: &View, ceremony: u32) -> bool
    ensures { result ≡ list_any (is_step_at ceremony (next_step_by view.now.seatings.items ceremony)) view.now.steps.items }
{
    let last = last_seated(&view.seatings, ceremony);
    view.steps
        .iter()
        .any(|row| is_step_after(ceremony, last, row))
}

/// Whether the stay in the ceremony's room begins or ends later than the moment, or has no end.
fn is_unended(ceremony: u32, at: Moment, stay: Stay) -> bool
    ensures { result ≡ CeremonyRows.is_unended ceremony at stay }
{
    stay.ceremony == ceremony && (at < stay.since || ends_after(at, stay.until))
}

/// Whether anybody is in the ceremony's room at the moment, or comes or goes later.
fn is_room_used(view: &View, ceremony: u32, at: Moment) -> bool
    ensures { result ≡ list_any (CeremonyRows.is_unended ceremony at) view.now.stays.items }
{
    view.stays
        .iter()
        .any(|stay| is_unended(ceremony, at, *stay))
}

/// Whether the bag is on the facility's table.
fn lies_on_table(facility: Facility, bag: Bag) -> bool
    ensures { result ≡ CeremonyRows.lies_on_table facility bag }
{
    match bag.spot {
        Spot::Table(other) => other == facility,
        Spot::Equipment(_) | Spot::InBox(_, _) | Spot::Spent => false,
    }
}

/// Whether a bag is on the facility's table.
fn has_bag_on_table(view: &View, facility: Facility) -> bool
    ensures { result ≡ list_any (CeremonyRows.lies_on_table facility) view.now.bags.items }
{
    view.bags.iter().any(|bag| lies_on_table(facility, *bag))
}

impl DecisionContext<'_> {
    /// A ceremony may be closed once it is finished. Refused: 12 without the ceremony, 20 if it is not open, 22 before
    /// its mark, 27 full.
    pub fn check_close(&self, ceremony: u32, at: Moment) -> Result<(), Refusal>
        ensures { IsCheckResult self.now.view.now self.now.is_full (Kinds.Ceremony ceremony at Deeds.Close) result }
    {
        let Some(row) = ceremony_row(self.view, ceremony) else {
            return Err(Refusal::Unknown {
                thing: Thing::Ceremony(ceremony),
            });
        };
        check_running(self.view, ceremony, row.state, at)?;
        if self.is_full {
            return Err(Refusal::Full);
        }
        Ok(())
    }

    /// The ceremony is finished: its steps, its room, the safes and the table, in this order.
    fn check_finished(&self, ceremony: u32, at: Moment) -> Result<(), Refusal>
        ensures { IsTestResult (ByRows.late_refusal_by self.now.view.now self.now.is_full (Kinds.Ceremony ceremony at Deeds.Close)) result }
    {
        let here = self.facility(ceremony);
        if has_next_step(self.view, ceremony) {
            return Err(Refusal::Unfinished { part: Part::Steps });
        }
        if is_room_used(self.view, ceremony, at) {
            return Err(Refusal::Unfinished { part: Part::Room });
        }
        if is_open(&self.view.safes, here, SafeNumber::One)
            || is_open(&self.view.safes, here, SafeNumber::Two)
        {
            return Err(Refusal::Unfinished { part: Part::Safes });
        }
        if has_bag_on_table(self.view, here) {
            return Err(Refusal::Unfinished { part: Part::Table });
        }
        Ok(())
    }

    /// Closes an open ceremony.
    pub fn close(&self, ceremony: u32, at: Moment) -> Result<Vec<Change>, Refusal>
        ensures { IsChangesResult self.now (Kinds.Ceremony ceremony at Deeds.Close) result }
    {
        self.check_finished(ceremony, at)?;
        let Some(row) = ceremony_row(self.view, ceremony) else {
            return Ok(Vec::new(self.alloc));
        };
        let closed = CeremonyRow {
            state: CeremonyState::Closed,
            closed: Some(at),
            ..row
        };
        Ok(only(self.alloc, Change::PutCeremony(closed))?)
    }
}
