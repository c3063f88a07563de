//! The appointments that are asked for: of a place and of a person the one that began last, or those that last beyond a
//! day.

ghost use Rattle.std.specs.Prelude.{filter, map, IsPermutation};
ghost use Rattle.kcr_people.specs.People.{lasts_beyond};
ghost use Rattle.kcr_history.specs.Views.{IncludesAppointments};
ghost use Rattle.kcr_history.specs.declared.views.AppointmentFilter.TheVariants as Wanted;
ghost use Rattle.kcr_history.specs.declared.views.Selection.TheVariants as Selections;
ghost use Rattle.kcr_rows.specs.{Rows.appointment_row, Frame.ImpliesOpen};
ghost use Rattle.kcr_tables.specs.Exact.{rows_at, is_beyond_row, AppointmentsAreShown};
ghost use Rattle.kcr_tables.specs.{StoredTables.appointments_place, Frame.OfTables, Frame.OfTrees, Frame.Reads};

use crate::last::{last_appointment_of, last_appointment_to};
use crate::table::{all_rows, shown_rows};
use kcr_base::{Day, Initials, Place, Refusal};
use kcr_history::{AppointmentFilter, Selection};
use kcr_people::Appointment;
use kcr_rows::cells::number_cell;
use sqlite::{Alter, Transaction};
use std::alloc::Global;

/// The appointments that have no end, or end on a day after this one, in no order that is told. No index begins with
/// the end, so every row is read, along the table itself. Nothing is changed. The error is `Memory` when out of memory,
/// and else `Disk`: the device failed, or a row that is shown is invalid.
pub fn appointments_ending_after<S: Alter>(
    alloc: Global,
    tx: &mut Transaction<'_, S>,
    day: Day,
) -> Result<Vec<Appointment>, Refusal>
    ensures rows { OfTables S.Store tx.old tx.new result
        (λ t all. IsPermutation (filter (lasts_beyond day) t.rows.appointments) all.items) }
    ensures exact { OfTrees S.Store tx.old tx.new result
        (λ db all. IsPermutation (filter (is_beyond_row day) (rows_at appointments_place db))
        (map appointment_row all.items)) }
    ensures opened { ImpliesOpen S.Store tx.old tx.new result }
    ensures frame { Reads S.Store tx.old tx.new result }
{
    shown_rows(
        alloc,
        tx,
        "SELECT place, since, who, until FROM appointments WHERE until IS NULL OR until > ?1 ORDER BY rowid",
        &[number_cell(day)],
    )
}

/// The last appointment to the place and behind it the last of the person, which may be the same row twice.
fn last_of_both<S: Alter>(
    alloc: Global,
    tx: &mut Transaction<'_, S>,
    place: Place,
    who: &Initials,
) -> Result<Vec<Appointment>, Refusal>
    ensures rows { OfTables S.Store tx.old tx.new result
        (λ t all. IncludesAppointments (Selections.Matching (Wanted.LastToPlaceAndOfPerson place who.now)) t.rows.appointments all.items) }
    ensures exact { OfTrees S.Store tx.old tx.new result
        (λ db all. AppointmentsAreShown (Selections.Matching (Wanted.LastToPlaceAndOfPerson place who.now)) all.items db) }
    ensures frame { Reads S.Store tx.old tx.new result }
{
    let mut rows = last_appointment_to(alloc, tx, place)?;
    let mut behind = last_appointment_of(alloc, tx, who)?;
    rows.append(&mut behind)?;
    Ok(rows)
}

/// The appointments that are asked for: all, the last to a place, of a person or of both, or those that last beyond a
/// day.
pub fn select_appointments<S: Alter>(
    alloc: Global,
    tx: &mut Transaction<'_, S>,
    asked: &Selection<AppointmentFilter>,
) -> Result<Vec<Appointment>, Refusal>
    ensures rows { OfTables S.Store tx.old tx.new result
        (λ t all. IncludesAppointments asked.now t.rows.appointments all.items) }
    ensures exact { OfTrees S.Store tx.old tx.new result (λ db all. AppointmentsAreShown asked.now all.items db) }
    ensures frame { Reads S.Store tx.old tx.new result }
{
    match asked {
        Selection::Nothing => Ok(Vec::new(alloc)),
        Selection::Matching(AppointmentFilter::Place(place)) => last_appointment_to(
            alloc, tx, *place,
        ),
        Selection::Matching(AppointmentFilter::Person(who)) => last_appointment_of(alloc, tx, who),
        Selection::Matching(AppointmentFilter::LastToPlaceAndOfPerson(place, who)) => last_of_both(
            alloc, tx, *place, who,
        ),
        Selection::Matching(AppointmentFilter::EndingAfter(day)) => {
            appointments_ending_after(alloc, tx, *day)
        }
        Selection::All => all_rows(alloc, tx),
    }
}
