//! What is shown of people and custodians, out of the rows of the tables.
ghost use Rattle.std.specs.Prelude.{◌≡◌, IfOk, map, All};
ghost use Rattle.kcr_base.specs.Place.{IsPlaceNumber};
ghost use Rattle.kcr_base.specs.Same;
ghost use Rattle.kcr_people.specs.People.{holder_by};
ghost use Rattle.kcr_history.specs.Questions;
ghost use Rattle.kcr_history.specs.{Questions.person_of, Seating.one_to_seven};
ghost use Rattle.kcr_store.specs.Shown.{AreRolesOf};

use kcr_base::{Day, Facility, Initials, Place, PlaceNumber, Role};
use kcr_history::{CustodiansShown, HolderShown, PersonShown, RoleShown};
use kcr_people::queries::is_of;
use kcr_people::{Appointment, Person, Training, Withdrawal, holder};
use std::alloc::{AllocError, Global};

/// The day from which the training is withdrawn, where it is.
fn withdrawn_day(withdrawals: &[Withdrawal], row: Training) -> Option<Day>
    ensures { result ≡ Questions.withdrawn_day withdrawals.now row }
{
    withdrawals
        .iter()
        .find(|withdrawal| is_of(**withdrawal, row))
        .map(|withdrawal| withdrawal.day)
}

/// The training as it is shown.
fn role_shown(withdrawals: &[Withdrawal], row: Training) -> RoleShown
    ensures { result ≡ Questions.role_shown withdrawals.now row }
{
    RoleShown {
        since: row.since,
        role: row.role,
        until: row.until,
        withdrawn: withdrawn_day(withdrawals, row),
    }
}

/// The place of the role in the order of roles.
fn role_number(role: Role) -> u8
    ensures { result ≡ Same.role_number role }
{
    match role {
        Role::Ca => 0,
        Role::Iw => 1,
        Role::Sa => 2,
        Role::Ssc1 => 3,
        Role::Ssc2 => 4,
        Role::Rkos => 5,
        Role::Sw => 6,
    }
}

/// The trainings of the person as they are shown, in the order of the rows.
fn roles_of(
    alloc: Global,
    trainings: &[Training],
    withdrawals: &[Withdrawal],
    who: Initials,
) -> Result<Vec<RoleShown>, AllocError>
    ensures { IfOk result (λ roles. roles.items ≡ Questions.roles_of trainings.now withdrawals.now who) }
{
    trainings
        .iter()
        .filter(|row| row.who == who)
        .map(|row| role_shown(withdrawals, *row))
        .collect(alloc)
}

/// The trainings of the person as they are shown, by first day, then role, then last day.
fn roles_in_order(
    alloc: Global,
    trainings: &[Training],
    withdrawals: &[Withdrawal],
    who: Initials,
) -> Result<Vec<RoleShown>, AllocError>
    ensures { IfOk result (λ roles. AreRolesOf trainings.now withdrawals.now who roles.items) }
{
    let mut roles = roles_of(alloc, trainings, withdrawals, who)?;
    roles.sort_unstable_by_key(|role| {
        (
            role.since.number(),
            role_number(role.role),
            role.until.number(),
        )
    });
    Ok(roles)
}

/// The person as they are shown.
fn person_shown(
    alloc: Global,
    person: Person,
    trainings: &[Training],
    withdrawals: &[Withdrawal],
) -> Result<PersonShown, AllocError>
    ensures person { IfOk result (λ shown. person_of shown ≡ person) }
    ensures roles { IfOk result (λ shown. AreRolesOf trainings.now withdrawals.now shown.who shown.roles.items) }
{
    let roles = roles_in_order(alloc, trainings, withdrawals, person.who)?;
    Ok(PersonShown {
        who: person.who,
        name: person.name,
        roles,
    })
}

/// The people as they are shown, in the order of the rows.
pub(crate) fn people_shown(
    alloc: Global,
    people: Vec<Person>,
    trainings: &[Training],
    withdrawals: &[Withdrawal],
) -> Result<Vec<PersonShown>, AllocError>
    ensures people { IfOk result (λ shown. map person_of shown.items ≡ people.items) }
    ensures roles { IfOk result (λ shown. All
        (λ person. AreRolesOf trainings.now withdrawals.now person.who person.roles.items) shown.items) }
{
    let mut shown = Vec::new(alloc);
    for person in people {
        shown.push(person_shown(alloc, person, trainings, withdrawals)?)?;
    }
    Ok(shown)
}

/// The number of a place.
fn place_number(number: u8) -> PlaceNumber
    requires { IsPlaceNumber number }
    ensures { result ≡ number }
{
    PlaceNumber::new(number).unwrap()
}

/// The numbers of the places of each kind, in their order.
fn place_numbers() -> [PlaceNumber; 7]
    ensures { result ≡ one_to_seven }
{
    [
        place_number(1),
        place_number(2),
        place_number(3),
        place_number(4),
        place_number(5),
        place_number(6),
        place_number(7),
    ]
}

/// All places, in their order.
fn all_places(alloc: Global) -> Result<Vec<Place>, AllocError>
    ensures { IfOk result (λ places. places.items ≡ Questions.all_places) }
{
    let numbers = place_numbers();
    let east = numbers
        .iter()
        .map(|number| Place::Co(Facility::East, *number));
    let west = numbers
        .iter()
        .map(|number| Place::Co(Facility::West, *number));
    let recovery = numbers.iter().map(|number| Place::Rksh(*number));
    east.chain(west).chain(recovery).collect(alloc)
}

/// The place with its holder on the day, if it has one.
fn holder_shown(appointments: &[Appointment], day: Day, place: Place) -> Option<HolderShown>
    ensures { result ≡ Questions.holder_shown (holder_by appointments.now place day) place }
{
    holder(appointments, place, day).map(|who| HolderShown { place, who })
}

/// The holders of places on the day, in the order of the places.
pub(crate) fn custodians_shown(
    alloc: Global,
    appointments: &[Appointment],
    day: Day,
) -> Result<CustodiansShown, AllocError>
    ensures day { IfOk result (λ shown. shown.day ≡ day) }
    ensures holders { IfOk result (λ shown.
        shown.holders.items ≡ Questions.holders_from (λ place. holder_by appointments.now place day)) }
{
    let places = all_places(alloc)?;
    let holders = places
        .iter()
        .filter_map(|place| holder_shown(appointments, day, *place))
        .collect(alloc)?;
    Ok(CustodiansShown { day, holders })
}
