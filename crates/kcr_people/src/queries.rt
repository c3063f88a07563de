//! What the rows say of people and days. A register's rows may come in any order: of its appointments
//! to a place at most one covers a day, and at most one has no end.
ghost use Rattle.std.specs.Prelude.{◌≡◌, ◌&&◌, nat_le, min, max, IfOk};
ghost use Rattle.std.specs.List.{list_any};
ghost use Rattle.kcr_people.specs.People;
ghost use Rattle.kcr_people.specs.declared.Roster.{Roster};

use crate::{Appointment, Person, Roster, Training, Withdrawal};
use kcr_base::{Day, Initials, Place, Role};
use std::alloc::{AllocError, Global};

/// Whether the person is in the register.
pub fn is_person(people: &[Person], who: Initials) -> bool
    ensures { result ≡ People.is_person_by people.now who }
{
    people.iter().any(|row| row.who == who)
}

/// Whether the training is the person's for the role and covers the day.
fn covers(row: Training, who: Initials, role: Role, day: Day) -> bool
    ensures { result ≡ People.covers who role day row }
{
    row.who == who && row.role == role && row.since <= day && day <= row.until
}

/// Whether the withdrawal is of that very training.
pub fn is_of(withdrawal: Withdrawal, row: Training) -> bool
    ensures { result ≡ People.is_of row withdrawal }
{
    withdrawal.who == row.who
        && withdrawal.role == row.role
        && withdrawal.since == row.since
        && withdrawal.until == row.until
}

/// Whether the withdrawal is of the training and has the day or an earlier one.
fn withdraws(withdrawal: Withdrawal, row: Training, day: Day) -> bool
    ensures { result ≡ (People.is_of row withdrawal && nat_le withdrawal.day day) }
{
    is_of(withdrawal, row) && withdrawal.day <= day
}

/// Whether the training is withdrawn from the day or an earlier one on.
pub fn is_withdrawn(withdrawals: &[Withdrawal], row: Training, day: Day) -> bool
    ensures { result ≡ People.is_withdrawn_by withdrawals.now row day }
{
    withdrawals
        .iter()
        .any(|withdrawal| withdraws(*withdrawal, row, day))
}

/// Whether by this training the person is trained for the role on the day.
fn trains(withdrawals: &[Withdrawal], who: Initials, role: Role, day: Day, row: &Training) -> bool
    ensures { result ≡ People.trains withdrawals.now who role day row.now }
{
    covers(*row, who, role, day) && !is_withdrawn(withdrawals, *row, day)
}

/// Whether the person is trained for the role on the day: a training covers it, both ends
/// inclusive, and has no withdrawal with that day or an earlier one.
pub fn trained(
    trainings: &[Training],
    withdrawals: &[Withdrawal],
    who: Initials,
    role: Role,
    day: Day,
) -> bool
    ensures { result ≡ People.trained_by trainings.now withdrawals.now who role day }
{
    trainings
        .iter()
        .any(|row| trains(withdrawals, who, role, day, row))
}

/// The later of two days.
fn max_day(a: Day, b: Day) -> Day
    ensures { result ≡ max a b }
{
    if a <= b { b } else { a }
}

/// The earlier of two days.
fn min_day(a: Day, b: Day) -> Day
    ensures { result ≡ min a b }
{
    if a <= b { a } else { b }
}

/// Whether the person is trained for the role on the day or a later one.
pub(crate) fn trained_on_or_after(roster: &Roster<'_>, who: Initials, role: Role, day: Day) -> bool
    ensures { let by : Roster = roster.now in
        result ≡ People.trained_from_by by.trainings.now by.withdrawals.now who role day }
{
    let withdrawals = roster.withdrawals;
    roster.trainings.iter().any(|row| trains(withdrawals, who, role, max_day(row.since, day), row))
}

/// Whether two trainings are the same.
fn same_training(a: Training, b: Training) -> bool
    ensures { result ≡ People.same_training a b }
{
    a == b
}

/// Whether the very row is there.
pub fn has_training(trainings: &[Training], new: Training) -> bool
    ensures { result ≡ list_any (People.same_training new) trainings.now }
{
    trainings.iter().any(|row| same_training(new, *row))
}

/// Whether the person has a training, of whatever days; one that was withdrawn counts too.
pub fn ever_trained(trainings: &[Training], who: Initials) -> bool
    ensures { result ≡ People.ever_trained_by trainings.now who }
{
    trainings.iter().any(|row| row.who == who)
}

/// Whether the training is the person's for the role and ends on the day or later.
fn ends_from(row: Training, who: Initials, role: Role, day: Day) -> bool
    ensures { result ≡ People.ends_from who role day row }
{
    row.who == who && row.role == role && day <= row.until
}

/// The least of the day and the days of the training's withdrawals.
fn least_day(withdrawals: &[Withdrawal], row: Training, day: Day) -> Day
    ensures { result ≡ People.least_day withdrawals.now row day }
{
    withdrawals
        .iter()
        .filter(|withdrawal| is_of(**withdrawal, row))
        .map(|withdrawal| withdrawal.day)
        .fold(day, |least, other| min_day(least, other))
}

/// The row of a training that is withdrawn from the day on, or was so from an earlier day.
fn withdrawal_of(withdrawals: &[Withdrawal], day: Day, row: Training) -> Withdrawal
    ensures { result ≡ People.withdrawal_of withdrawals.now day row }
{
    Withdrawal {
        who: row.who,
        role: row.role,
        since: row.since,
        until: row.until,
        day: least_day(withdrawals, row, day),
    }
}

/// The rows of a withdrawal: one for each training of the person for the role that ends on the day
/// or later.
pub fn withdrawn_rows(
    alloc: Global,
    trainings: &[Training],
    withdrawals: &[Withdrawal],
    who: Initials,
    role: Role,
    day: Day,
) -> Result<Vec<Withdrawal>, AllocError>
    ensures { IfOk result
        (λ rows. rows.items ≡ People.withdrawn_rows trainings.now withdrawals.now who role day) }
{
    trainings
        .iter()
        .filter(|row| ends_from(**row, who, role, day))
        .map(|row| withdrawal_of(withdrawals, day, *row))
        .collect(alloc)
}

/// Whether the appointment has no end, or one after the day.
fn lasts_beyond(row: Appointment, day: Day) -> bool
    ensures { result ≡ People.lasts_beyond day row }
{
    match row.until {
        None => true,
        Some(end) => day < end,
    }
}

/// Whether the appointment is to the place and covers the day.
fn holds(row: Appointment, place: Place, day: Day) -> bool
    ensures { result ≡ People.holds place day row }
{
    row.place == place && row.since <= day && lasts_beyond(row, day)
}

/// Who holds the place on the day: the person of the first appointment to the place that covers it,
/// its first day included and its end not; `None` if there is none.
pub fn holder(appointments: &[Appointment], place: Place, day: Day) -> Option<Initials>
    ensures { result ≡ People.holder_by appointments.now place day }
{
    appointments
        .iter()
        .find(|row| holds(**row, place, day))
        .map(|row| row.who)
}

/// Whether the person was put in a place at some time.
pub fn was_custodian(appointments: &[Appointment], who: Initials) -> bool
    ensures { result ≡ People.ever_put_by appointments.now who }
{
    appointments.iter().any(|row| row.who == who)
}

/// Whether the place has a holder on the day or a later one.
pub fn place_held_on_or_after(appointments: &[Appointment], place: Place, day: Day) -> bool
    ensures { result ≡ People.place_held_from_by appointments.now place day }
{
    appointments
        .iter()
        .any(|row| row.place == place && lasts_beyond(*row, day))
}

/// Whether the person holds a place on the day or a later one.
pub fn holds_place_on_or_after(appointments: &[Appointment], who: Initials, day: Day) -> bool
    ensures { result ≡ People.person_holds_from_by appointments.now who day }
{
    appointments
        .iter()
        .any(|row| row.who == who && lasts_beyond(*row, day))
}

/// Whether the appointment is to the place and has no end.
fn is_open_ended(row: Appointment, place: Place) -> bool
    ensures { result ≡ People.is_open_ended place row }
{
    row.place == place && row.until.is_none()
}

/// The first appointment to the place that has no end.
pub fn open_appointment(appointments: &[Appointment], place: Place) -> Option<Appointment>
    ensures { result ≡ People.open_row_by appointments.now place }
{
    appointments
        .iter()
        .copied()
        .find(|row| is_open_ended(*row, place))
}

/// Whether the open appointment begins on the day or later.
pub fn begins_too_late(standing: &Option<Appointment>, day: Day) -> bool
    ensures { result ≡ People.begins_too_late standing.now day }
{
    match standing {
        None => false,
        Some(row) => day <= row.since,
    }
}
