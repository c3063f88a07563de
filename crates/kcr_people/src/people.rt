//! People and their training: the new rows, or the first refusal.
ghost use Rattle.std.specs.Prelude.{◌≡◌, IfSome, Err};
ghost use Rattle.kcr_base.specs.Refuse.{unless, IsValueOrRefusal};
ghost use Rattle.kcr_people.specs.People;
ghost use Rattle.kcr_people.specs.declared.Roster.{Roster};

use crate::checks::{check_day, check_person};
use crate::{Person, Roster, Training, WithdrawalRows, queries};
use kcr_base::{Day, Initials, Refusal, Role};
use std::alloc::Global;

/// The row of a person who is entered. The first refusal that holds, of: `Taken`, the initials are
/// in the register; `Full`, which `full` tells, the register takes no more commands. As with every
/// act here the rows may come in any order, and a refusal leaves them as they are.
pub fn enter(people: &[Person], full: bool, person: Person) -> Result<Person, Refusal>
    ensures { result ≡ unless (People.enter_refusal people.now full person.who) person }
{
    if queries::is_person(people, person.who) {
        return Err(Refusal::Taken);
    }
    if full {
        return Err(Refusal::Full);
    }
    Ok(person)
}

/// The row of a training that is entered. The first refusal that holds, of: `Unknown`, the person
/// is not in the register; `Taken`, the very same training is there, withdrawn or not; `Range`, it
/// ends before it begins; `Apart`, the person was once put in a place; `Full`.
pub fn train(roster: &Roster<'_>, row: Training) -> Result<Training, Refusal>
    ensures { let by : Roster = roster.now in result ≡ unless
        (People.train_refusal by.people.now by.trainings.now by.appointments.now by.is_full row) row }
{
    check_person(roster, row.who)?;
    if queries::has_training(roster.trainings, row) {
        return Err(Refusal::Taken);
    }
    if row.until < row.since {
        return Err(Refusal::Range);
    }
    if queries::was_custodian(roster.appointments, row.who) {
        return Err(Refusal::Apart);
    }
    if roster.is_full {
        return Err(Refusal::Full);
    }
    Ok(row)
}

/// The rows that withdraw every training of a person for a role from a day on: one for each that
/// ends on the day or later, also for one that begins later, with the least day from which it is
/// withdrawn; the day of an earlier withdrawal stays if it is less. Trainings that are entered
/// afterwards are not withdrawn. The first refusal that holds, of: `Unknown`, the person is not in
/// the register; `Vacant`, the person is trained for the role neither on the day nor on a later
/// one; `Settled`, the day is not after the settled day, the day of the greatest mark of all
/// ceremonies; `Full`. `Memory` comes only if none of these holds.
pub fn withdraw(
    alloc: Global,
    roster: &Roster<'_>,
    who: Initials,
    role: Role,
    day: Day,
) -> Result<WithdrawalRows, Refusal>
    ensures decides { let by : Roster = roster.now in IsValueOrRefusal
        (People.withdraw_refusal
        by.people.now by.trainings.now by.withdrawals.now by.settled by.is_full who role day)
        (People.withdrawn_rows by.trainings.now by.withdrawals.now who role day) result }
    ensures refused { let by : Roster = roster.now in IfSome
        (People.withdraw_refusal
        by.people.now by.trainings.now by.withdrawals.now by.settled by.is_full who role day)
        (λ refusal. result ≡ Err refusal) }
{
    check_person(roster, who)?;
    if !queries::trained_on_or_after(roster, who, role, day) {
        return Err(Refusal::Vacant);
    }
    check_day(roster, day)?;
    let rows = queries::withdrawn_rows(
        alloc,
        roster.trainings,
        roster.withdrawals,
        who,
        role,
        day,
    )?;
    Ok(WithdrawalRows::new(rows))
}
