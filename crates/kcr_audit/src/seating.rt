//! Steps that were signed or passed, and whether their recorded people are a seating of their seats.
ghost use Rattle.std.specs.Prelude.{◌≡◌, ◌++◌, ◌≤◌, ◌∷◌, take, drop, length, map, find, filter, option_map, ◌&&◌, ◌==◌, IfOk};
ghost use Rattle.kcr_room.specs.Room;
ghost use Rattle.kcr_history.specs.Audit;
ghost use Rattle.kcr_history.specs.Prints;
ghost use Rattle.kcr_history.specs.declared.views.Finding.TheVariants as Findings;
ghost use Rattle.kcr_audit.specs.Kinds.{IsFindingOfKind};
ghost use Rattle.kcr_audit.specs.Defects;

use kcr_base::{Initials, Moment, Role, is_among};
use kcr_history::{CeremonyRow, Finding, FullView, SeatingRow, StepRow, StepState, fits};
use kcr_room::{SheetRow, Way};
use kcr_script::Seat;
use std::alloc::{AllocError, Global};

/// The seats of an exception that passes a step.
const STAFF: [Seat; 2] = [Seat::Staff(Role::Ca), Seat::Staff(Role::Iw)];

/// Whether the row is not earlier than the last one so far.
fn is_overtaken(last: &Option<SheetRow>, row: &SheetRow) -> bool
    ensures { result ≡ Room.is_overtaken last.now row.now }
{
    match last {
        None => true,
        Some(other) => other.at <= row.at,
    }
}

/// The person's last row up to the moment; of two with one moment the later listed.
fn last_row(rows: &[SheetRow], who: Initials, at: Moment) -> Option<SheetRow>
    ensures { result ≡ Room.last_row (filter (Room.is_of who at) rows.now) }
{
    let mut last = None;
    for row in rows {
        if row.who == who && row.at <= at && is_overtaken(&last, row) {
            last = Some(*row);
        }
    }
    last
}

/// Whether the row is an `in` of the ceremony.
fn enters(row: SheetRow, ceremony: u32) -> bool
    ensures { result ≡ Room.enters ceremony row }
{
    match row.way {
        Way::Enter => row.ceremony == ceremony,
        Way::Leave => false,
    }
}

/// Whether the person is in the room of the ceremony at the moment.
fn is_in(rows: &[SheetRow], who: Initials, ceremony: u32, at: Moment) -> bool
    ensures { result ≡ Room.in_by rows.now who ceremony at }
{
    match last_row(rows, who, at) {
        Some(row) => enters(row, ceremony),
        None => false,
    }
}

/// Whether the person is in the room of the ceremony at the moment and fits the seat on its day.
fn is_eligible(
    view: &FullView,
    ceremony: &CeremonyRow,
    at: Moment,
    seat: Seat,
    who: Initials,
) -> bool
    ensures { result ≡ Audit.eligible_by view.now ceremony.now at seat who }
{
    is_in(&view.sheet, who, ceremony.number, at)
        && fits(
            &view.view.trainings,
            &view.view.withdrawals,
            &view.view.appointments,
            ceremony.facility,
            at.day(),
            seat,
            who,
        )
}

/// Whether the people, all distinct, are each eligible for the seat in their position.
pub fn is_seating(
    view: &FullView,
    ceremony: &CeremonyRow,
    at: Moment,
    seats: &[Seat],
    people: &[Initials],
) -> bool
    ensures { result ≡ Audit.is_seating_by view.now ceremony.now at seats.now people.now }
{
    if seats.len() != people.len() {
        return false;
    }
    for (index, seat) in seats.iter().enumerate() {
        let who = people[index];
        if !is_eligible(view, ceremony, at, *seat, who) || is_among(&people[index + 1..], who) {
            return false;
        }
    }
    true
}

/// The place of a row among rows in the order of their seats: before all whose seat is not earlier.
fn place_of(row: SeatingRow, rows: &[SeatingRow]) -> usize
    ensures within { result ≤ length rows.now }
    ensures placed { take result rows.now ++ row ∷ drop result rows.now ≡ Defects.put_row row rows.now }
{
    for (index, other) in rows.iter().enumerate() {
        if other.seat >= row.seat {
            return index;
        }
    }
    rows.len()
}

/// The rows in the order of their seats; of two with one seat the first listed comes first.
fn in_order(alloc: Global, rows: &[SeatingRow]) -> Result<Vec<SeatingRow>, AllocError>
    ensures { IfOk result (λ sorted. sorted.items ≡ Defects.rows_in_order rows.now) }
{
    let mut sorted = Vec::new(alloc);
    let mut index = rows.len();
    while index > 0 {
        index -= 1;
        let place = place_of(rows[index], &sorted);
        sorted.insert(place, rows[index])?;
    }
    Ok(sorted)
}

/// The rows of the step.
fn rows_of(
    alloc: Global,
    rows: &[SeatingRow],
    ceremony: u32,
    step: u32,
) -> Result<Vec<SeatingRow>, AllocError>
    ensures { IfOk result (λ found. found.items ≡ filter (λ row. row.ceremony == ceremony
        && row.step == step) rows.now) }
{
    rows.iter()
        .filter(|row| row.ceremony == ceremony && row.step == step)
        .copied()
        .collect(alloc)
}

/// The rows of the step's seating, seat by seat.
fn seatings_at(
    alloc: Global,
    rows: &[SeatingRow],
    ceremony: u32,
    step: u32,
) -> Result<Vec<SeatingRow>, AllocError>
    ensures { IfOk result (λ sorted. sorted.items ≡ Prints.seatings_at rows.now ceremony step) }
{
    let found = rows_of(alloc, rows, ceremony, step)?;
    in_order(alloc, &found)
}

/// The people of these rows.
fn people_of(alloc: Global, rows: &[SeatingRow]) -> Result<Vec<Initials>, AllocError>
    ensures { IfOk result (λ people. people.items ≡ map (λ row. row.who) rows.now) }
{
    rows.iter().map(|row| row.who).collect(alloc)
}

/// Whether the rows are of seat 1, of seat 2, and so on.
fn are_numbered(rows: &[SeatingRow]) -> bool
    ensures { result ≡ Audit.are_numbered 1 rows.now }
{
    for (index, row) in rows.iter().enumerate() {
        if row.seat as usize != index + 1 {
            return false;
        }
    }
    true
}

/// The seats that were filled: the step's own, or those of an exception if it was passed.
fn seats_filled(row: &StepRow) -> &[Seat]
    ensures { result.now ≡ Prints.seats_filled row.now }
{
    match row.state {
        StepState::Passed => &STAFF,
        StepState::Undone | StepState::Signed => row.seats.as_slice(),
    }
}

/// Whether the step was signed or passed.
fn is_done(state: StepState) -> bool
    ensures { result ≡ Audit.is_done state }
{
    match state {
        StepState::Undone => false,
        StepState::Signed | StepState::Passed => true,
    }
}

/// The row of the ceremony.
pub fn ceremony_in(view: &FullView, number: u32) -> Option<CeremonyRow>
    ensures { result ≡ Audit.ceremony_in view.now number }
{
    view.view
        .ceremonies
        .iter()
        .copied()
        .find(|row| row.number == number)
}

/// Whether the recorded seats are numbered from 1, and the recorded people fill the step's seats, in its ceremony and
/// at its moment.
fn is_well_seated(alloc: Global, view: &FullView, row: &StepRow) -> Result<bool, AllocError>
    ensures { IfOk result (λ well. well ≡ Audit.has_valid_seating view.now row.now
        (Audit.ceremony_in view.now row.now.ceremony) row.now.at) }
{
    match (ceremony_in(view, row.ceremony), row.at) {
        (Some(ceremony), Some(at)) => {
            let rows = seatings_at(alloc, &view.view.seatings, row.ceremony, row.step)?;
            let people = people_of(alloc, &rows)?;
            Ok(are_numbered(&rows) && is_seating(view, &ceremony, at, seats_filled(row), &people))
        }
        _ => Ok(false),
    }
}

/// Whether the step was signed or passed, and its recorded people are no seating.
fn is_ill_seated(alloc: Global, view: &FullView, row: &StepRow) -> Result<bool, AllocError>
    ensures { IfOk result (λ ill. ill ≡ Defects.is_step_wrong view.now row.now) }
{
    if !is_done(row.state) {
        return Ok(false);
    }
    let well = is_well_seated(alloc, view, row)?;
    Ok(!well)
}

/// The first step that was signed or passed and whose recorded people are no seating.
fn first_ill_seated(alloc: Global, view: &FullView) -> Result<Option<Finding>, AllocError>
    ensures { IfOk result (λ found. found ≡ option_map (λ row. Findings.Seating row.ceremony row.step)
        (find (Defects.is_step_wrong view.now) view.now.view.steps.items)) }
{
    for row in &view.view.steps {
        if is_ill_seated(alloc, view, row)? {
            return Ok(Some(Finding::Seating(row.ceremony, row.step)));
        }
    }
    Ok(None)
}

/// A step that was signed or passed and whose recorded people are no seating of its seats.
#[tactic(auto, using(crate::proofs::Found::steps))]
pub(crate) fn find_invalid_seating(
    alloc: Global,
    view: &FullView,
) -> Result<Option<Finding>, AllocError>
    ensures { IfOk result (IsFindingOfKind view.now 0) }
{
    first_ill_seated(alloc, view)
}
