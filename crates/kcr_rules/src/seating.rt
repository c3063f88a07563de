//! Who is seated: the people in the room, the seats that each of them fits, and the search over both.
ghost use Rattle.std.specs.Prelude.{◌≡◌, ◌≢◌, [], ◌<◌, ◌≤◌, MatchResult, IfOk, EachIndex, slice_index, get_or, length, map, filter};
ghost use Rattle.kcr_base.specs.declared.{limits.TheConstants.MAX_PRESENT, refusal.Refusal.TheVariants.Memory};
ghost use Rattle.kcr_room.specs.Stays.{present_in_by};
ghost use Rattle.kcr_seats.specs.Answer.{IsAnswer};
ghost use Rattle.kcr_history.specs.{Fitting.fits_by, Machine.SeatRequest, Views.is_training_of};
ghost use Rattle.kcr_rules.specs.TrainingsByPerson.{trainings_by_person};
ghost use Rattle.kcr_rules.specs.Signing;

use crate::context::DecisionContext;
use kcr_base::{Day, Facility, Initials, MAX_PRESENT, Moment, Positions, Refusal};
use kcr_history::{InitialsList, fits};
use kcr_people::{Appointment, Training, Withdrawal};
use kcr_script::Seat;
use kcr_seats::{Answer, Fits};
use std::alloc::{AllocError, Global};

/// The seats and people of one search, with the rows that tell who fits what. Each person's trainings stand by
/// themselves, since the search asks for every seat and person.
#[derive(Drop)]
struct SeatingProblem<'a> {
    seats: &'a [Seat],
    people: &'a [Initials],
    trainings: &'a [Training],
    own: &'a [Vec<Training>],
    withdrawals: &'a [Withdrawal],
    rows: &'a [Appointment],
    facility: Facility,
    day: Day,
    ghost split: { map (λ rows. rows.items) own.now ≡ trainings_by_person trainings.now people.now },
}

impl Fits for SeatingProblem<'_> {
    ghost seat_count = { λ room. length room.seats.now };

    ghost person_count = { λ room. length room.people.now };

    ghost relation = { λ room. Signing.fits_of
        (fits_by room.trainings.now room.withdrawals.now room.rows.now room.facility room.day) room.seats.now
        room.people.now };

    fn seats(&self) -> usize {
        self.seats.len()
    }

    fn people(&self) -> usize {
        self.people.len()
    }

    fn fits(&self, seat: usize, person: usize) -> bool {
        fits(
            &self.own[person],
            self.withdrawals,
            self.rows,
            self.facility,
            self.day,
            self.seats[seat],
            self.people[person],
        )
    }
}

/// The trainings of a person.
fn trainings_of(
    alloc: Global,
    trainings: &[Training],
    who: Initials,
) -> Result<Vec<Training>, AllocError>
    ensures { IfOk result (λ own. own.items ≡ filter (is_training_of who) trainings.now) }
{
    trainings
        .iter()
        .filter(|row| row.who == who)
        .copied()
        .collect(alloc)
}

/// The trainings of each of the people.
fn trainings_of_each(
    alloc: Global,
    trainings: &[Training],
    people: &[Initials],
) -> Result<Vec<Vec<Training>>, AllocError>
    ensures { IfOk result (λ own. map (λ rows. rows.items) own.items ≡ trainings_by_person trainings.now people.now) }
{
    let mut own = Vec::new(alloc);
    for who in people {
        own.push(trainings_of(alloc, trainings, *who)?)?;
    }
    Ok(own)
}

/// The people with these numbers.
fn named(alloc: Global, people: &[Initials], numbers: &[usize]) -> Result<InitialsList, AllocError>
    requires { EachIndex numbers.now (λ i. slice_index numbers.now i < length people.now) }
    ensures { IfOk result (λ list. list ≡ map (λ person. get_or people.now person []) numbers.now) }
{
    let mut list = Vec::new(alloc);
    for number in numbers {
        list.push(people[*number])?;
    }
    Ok(InitialsList::new(list))
}

impl DecisionContext<'_> {
    /// Fills the seats in the room of a ceremony: the people seat by seat, or the refusal that names seats that too few
    /// people fit. A room with more people than may be in one is no register's: then the database gave wrong rows.
    pub fn seat(&self, ceremony: u32, at: Moment, seats: &[Seat]) -> Result<InitialsList, Refusal>
        requires few { length seats.now ≤ 16 }
        ensures { let s : SeatRequest = record { ceremony = ceremony; at = at; seats = seats.now } in MatchResult result
            (λ people. Signing.IsSeatedBy self.now.view.now s people × (length people ≤ 16))
            (λ refusal. refusal ≢ Memory → Signing.IsUnseatedBy self.now.view.now s refusal) }
    {
        let people = self.people_present(ceremony, at)?;
        if people.len() > MAX_PRESENT {
            return Err(Refusal::Disk);
        }
        self.seat_people(ceremony, at, seats, &people)
    }

    /// Searches a seating of these people, who are in the room.
    fn search(
        &self,
        ceremony: u32,
        at: Moment,
        seats: &[Seat],
        people: &[Initials],
    ) -> Result<Answer, AllocError>
        requires few { length seats.now ≤ 16 }
        requires fit { length people.now ≤ MAX_PRESENT }
        requires present { people.now ≡ present_in_by self.now.view.now.stays.items ceremony at }
        ensures { let s : SeatRequest = record { ceremony = ceremony; at = at; seats = seats.now } in IfOk result
            (IsAnswer (Signing.fits_request_by self.now.view.now s) (length seats.now)
            (length (Signing.room_by self.now.view.now s))) }
    {
        let own = trainings_of_each(self.alloc, &self.view.trainings, people)?;
        let room = SeatingProblem {
            seats,
            people,
            trainings: &self.view.trainings,
            own: &own,
            withdrawals: &self.view.withdrawals,
            rows: &self.view.appointments,
            facility: self.facility(ceremony),
            day: at.day(),
        };
        kcr_seats::seat_uncounted(self.alloc, &room)
    }

    /// Fills the seats with these people, who are in the room.
    fn seat_people(
        &self,
        ceremony: u32,
        at: Moment,
        seats: &[Seat],
        people: &[Initials],
    ) -> Result<InitialsList, Refusal>
        requires few { length seats.now ≤ 16 }
        requires fit { length people.now ≤ MAX_PRESENT }
        requires present { people.now ≡ present_in_by self.now.view.now.stays.items ceremony at }
        ensures { let s : SeatRequest = record { ceremony = ceremony; at = at; seats = seats.now } in MatchResult result
            (λ people. Signing.IsSeatedBy self.now.view.now s people × (length people ≤ 16))
            (λ refusal. refusal ≢ Memory → Signing.IsUnseatedBy self.now.view.now s refusal) }
    {
        match self.search(ceremony, at, seats, people)? {
            Answer::Seated(numbers) => Ok(named(self.alloc, people, &numbers)?),
            Answer::Short(numbers) => Err(Refusal::Short {
                seats: Positions::from_indices(&numbers),
            }),
        }
    }
}
