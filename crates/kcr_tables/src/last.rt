//! The row with the greatest number.

ghost use Rattle.std.specs.Prelude.{map, filter};
ghost use Rattle.kcr_base.specs.{Place.place_text, Same.same_text};
ghost use Rattle.kcr_history.specs.Views.{is_appointment_to, is_appointment_of};
ghost use Rattle.kcr_rows.specs.{Frame.ImpliesOpen, Greatest.IsGreatest, Rows.key_row, Rows.stay_row, Rows.appointment_row};
ghost use Rattle.kcr_tables.specs.{Exact.rows_at, Exact.has_text, Exact.IsOneOf, StoredTables.keys_place, StoredTables.stays_place};
ghost use Rattle.kcr_tables.specs.{Frame.OfTables, Frame.OfTrees, Frame.Reads, Query.Tells, Query.Last};
ghost use Rattle.kcr_tables.specs.AppointmentsLaws as appointments;

use crate::table::{AsCell, shown_rows};
use kcr_base::{Initials, Place, Refusal};
use kcr_history::KeyRow;
use kcr_people::Appointment;
use kcr_room::Stay;
use kcr_rows::cells::text_cell;
use sqlite::{Alter, Transaction};
use std::alloc::Global;

/// The row of the accepted command with the greatest number, alone, or none if there is no row.
/// Nothing is changed. The error is `Memory` when out of memory, and else `Disk`: the device failed, or the row that
/// stands last is invalid.
pub fn last_key_row<S: Alter>(
    alloc: Global,
    tx: &mut Transaction<'_, S>,
) -> Result<Vec<KeyRow>, Refusal>
    ensures rows { OfTables S.Store tx.old tx.new result (λ t all. IsGreatest (λ x. x.accepted) t.rows.keys all.items) }
    ensures exact { OfTrees S.Store tx.old tx.new result
        (λ db all. IsOneOf (rows_at keys_place db) (map key_row all.items)) }
    ensures opened { ImpliesOpen S.Store tx.old tx.new result }
    ensures frame { Reads S.Store tx.old tx.new result }
{
    shown_rows(
        alloc,
        tx,
        "SELECT \"key\", accepted, command, reply FROM keys ORDER BY accepted DESC LIMIT 1",
        &[],
    )
}

/// The row of the person's stay that began last, alone, or none. The errors are those of `last_key_row`.
pub fn last_stay_of<S: Alter>(
    alloc: Global,
    tx: &mut Transaction<'_, S>,
    who: &Initials,
) -> Result<Vec<Stay>, Refusal>
    ensures rows { OfTables S.Store tx.old tx.new result
        (λ t all. IsGreatest (λ x. x.since) (filter (λ x. same_text x.who who.now) t.rows.stays) all.items) }
    ensures exact { OfTrees S.Store tx.old tx.new result
        (λ db all. IsOneOf (filter (has_text 0 who.now) (rows_at stays_place db)) (map stay_row all.items)) }
    ensures frame { Reads S.Store tx.old tx.new result }
{
    shown_rows(
        alloc,
        tx,
        "SELECT who, since, ceremony, until FROM stays WHERE who = ?1 ORDER BY since DESC LIMIT 1",
        &[who.cell()],
    )
}

/// The row of the place's appointment that began last, alone, or none. The errors are those of `last_key_row`.
pub fn last_appointment_to<S: Alter>(
    alloc: Global,
    tx: &mut Transaction<'_, S>,
    place: Place,
) -> Result<Vec<Appointment>, Refusal>
    ensures { Tells S.Store tx.old tx.new result appointments.table appointment_row (Last (λ x. x.since))
        (is_appointment_to place) (has_text 0 (place_text place)) }
{
    let words = place.text();
    shown_rows(
        alloc,
        tx,
        "SELECT place, since, who, until FROM appointments WHERE place = ?1 ORDER BY since DESC LIMIT 1",
        &[text_cell(words.as_str())],
    )
}

/// The row of the person's appointment that began last, alone, or none. The errors are those of `last_key_row`.
pub fn last_appointment_of<S: Alter>(
    alloc: Global,
    tx: &mut Transaction<'_, S>,
    who: &Initials,
) -> Result<Vec<Appointment>, Refusal>
    ensures { Tells S.Store tx.old tx.new result appointments.table appointment_row (Last (λ x. x.since))
        (is_appointment_of who.now) (has_text 2 who.now) }
{
    shown_rows(
        alloc,
        tx,
        "SELECT place, since, who, until FROM appointments WHERE who = ?1 ORDER BY since DESC LIMIT 1",
        &[who.cell()],
    )
}
