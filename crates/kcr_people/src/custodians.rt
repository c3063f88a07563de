//! The custodians of places: the new rows, or the first refusal.
ghost use Rattle.std.specs.Prelude.{◌≡◌, Some, None};
ghost use Rattle.kcr_base.specs.Refuse.{unless};
ghost use Rattle.kcr_people.specs.People;
ghost use Rattle.kcr_people.specs.declared.{Appointment.Appointment, Roster.Roster};

use crate::checks::{check_day, check_person};
use crate::{Appointment, Roster, queries};
use kcr_base::{Day, Initials, Place, Refusal};

/// The row of a person who is put in a place from a day on. The first refusal that holds, of:
/// `Unknown`, the person is not in the register; `Apart`, the person was once trained; `Held`, on
/// the day or a later one the place has a holder or the person holds a place; `Settled`, the day is
/// not after the settled day, the day of the greatest mark of all ceremonies; `Full`, the register
/// takes no more commands.
pub fn appoint(
    roster: &Roster<'_>,
    place: Place,
    who: Initials,
    day: Day,
) -> Result<Appointment, Refusal>
    ensures { let by : Roster = roster.now in result ≡ unless
        (People.appoint_refusal
        by.people.now by.trainings.now by.appointments.now by.settled by.is_full place who day)
        (record { place = place; who = who; since = day; until = None }) }
{
    let row = Appointment::new(place, who, day);
    check_person(roster, row.who)?;
    if queries::ever_trained(roster.trainings, row.who) {
        return Err(Refusal::Apart);
    }
    if queries::place_held_on_or_after(roster.appointments, row.place, row.since)
        || queries::holds_place_on_or_after(roster.appointments, row.who, row.since)
    {
        return Err(Refusal::Held);
    }
    check_day(roster, row.since)?;
    Ok(row)
}

/// The rows of a person who is put in a place from a day on instead of its holder: the old one with
/// its end on that day, and the new one. The first refusal that holds, of: `Unknown`, the person is
/// not in the register; `Range`, the row of the place that has no end begins on the day or later;
/// `Apart`, the person was once trained; `Held`, on the day or a later one the person holds a
/// place; `Vacant`, each row of the place has an end, or there is none; `Settled` and `Full` as for
/// an appointment.
pub fn replace(
    roster: &Roster<'_>,
    place: Place,
    who: Initials,
    day: Day,
) -> Result<(Appointment, Appointment), Refusal>
    ensures { let by : Roster = roster.now in
        let new : Appointment = record { place = place; who = who; since = day; until = None } in
        result ≡ unless
        (People.replace_refusal
        by.people.now by.trainings.now by.appointments.now by.settled by.is_full place who day)
        (People.end_of (People.open_row_by by.appointments.now place) day new, new) }
{
    let new = Appointment::new(place, who, day);
    check_person(roster, new.who)?;
    let standing = queries::open_appointment(roster.appointments, new.place);
    if queries::begins_too_late(&standing, new.since) {
        return Err(Refusal::Range);
    }
    if queries::ever_trained(roster.trainings, new.who) {
        return Err(Refusal::Apart);
    }
    if queries::holds_place_on_or_after(roster.appointments, new.who, new.since) {
        return Err(Refusal::Held);
    }
    let Some(old) = &standing else {
        return Err(Refusal::Vacant);
    };
    check_day(roster, new.since)?;
    let ended = Appointment {
        until: Some(new.since),
        ..*old
    };
    Ok((ended, new))
}

/// The row of a place that is vacant from a day on, with that day as its end. The first refusal
/// that holds, of: `Range`, the row of the place that has no end begins on the day or later;
/// `Vacant`, each row of the place has an end, or there is none; `Settled` and `Full` as for an
/// appointment.
pub fn release(roster: &Roster<'_>, place: Place, day: Day) -> Result<Appointment, Refusal>
    ensures { let by : Roster = roster.now in result ≡ unless
        (People.release_refusal by.appointments.now by.settled by.is_full place day)
        (People.end_of (People.open_row_by by.appointments.now place) day (People.nobody place day)) }
{
    let standing = queries::open_appointment(roster.appointments, place);
    if queries::begins_too_late(&standing, day) {
        return Err(Refusal::Range);
    }
    let Some(old) = &standing else {
        return Err(Refusal::Vacant);
    };
    check_day(roster, day)?;
    Ok(Appointment {
        until: Some(day),
        ..*old
    })
}
