//! What several acts test: nothing, or the refusal.
ghost use Rattle.kcr_base.specs.Refuse.{IsTestResult, unknown_person_refusal};
ghost use Rattle.kcr_people.specs.People;

use crate::{Roster, queries};
use kcr_base::{Day, Initials, Refusal, Thing};

/// The person is in the register.
pub(crate) fn check_person(roster: &Roster<'_>, who: Initials) -> Result<(), Refusal>
    ensures { IsTestResult (unknown_person_refusal (People.is_person_by roster.now.people.now who) who) result }
{
    if !queries::is_person(roster.people, who) {
        return Err(Refusal::Unknown {
            thing: Thing::Person(who),
        });
    }
    Ok(())
}

/// The day is after the settled day, and the register takes more commands.
pub(crate) fn check_day(roster: &Roster<'_>, day: Day) -> Result<(), Refusal>
    ensures { IsTestResult (People.settled_or_full_refusal roster.now.settled roster.now.is_full day) result }
{
    if let Some(last) = roster.settled
        && day <= last
    {
        return Err(Refusal::Settled { day: last });
    }
    if roster.is_full {
        return Err(Refusal::Full);
    }
    Ok(())
}
