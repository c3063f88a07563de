//! Whether a cell is no value of its column. The error of each test is `Memory`, or `Disk` as a
//! reader tells it.

ghost use Rattle.std.specs.Prelude.{◌≡◌, ◌≢◌, ◌<◌, List, ℕ, length, true, false, Ok, Err, IfErr, MatchOption};
ghost use Rattle.sqlite.specs.{Order.column, declared.types.Value.TheVariants.Null, declared.types.Value.TheVariants.Text as Chars};
ghost use Rattle.kcr_base.specs.Number.{IsNumber};
ghost use Rattle.kcr_custody.specs.Spots.{IsSpot, spot_text};
ghost use Rattle.kcr_script.specs.Seats.{written};
ghost use Rattle.kcr_rows.specs.Refusals.{IsFault};
ghost use Rattle.kcr_validity.specs.Cells.{HasNumberOf, HasTextOf, IsAlone, IsCell, IsOfficer, IsWritten, OrNull};
ghost use Rattle.kcr_validity.specs.Rows.{IsValid};

use kcr_base::number::{Numbered, OfBox, OfCeremony, OfStep};
use kcr_base::{
    Activity, Day, Facility, Initials, Key, Moment, Name, Place, Refusal, Remark, Role, Serial,
    Text, Written,
};
use kcr_custody::{SafeNumber, Spot};
use kcr_history::{CeremonyState, StepState};
use kcr_room::Way;
use kcr_rows::Kind;
use kcr_rows::cells::{
    counted_at, counted_or_null_at, number_at, number_or_null_at, officer_at, text_at,
};
use kcr_rows::numbers::{AsNumber, OfCommand, OfException, OfSeat};
use kcr_script::{read_seats, write_seats};
use sqlite::Row;
use sqlite::types::ValueRef;
use std::alloc::Global;

/// Whether a column was refused, as it has no such value.
fn is_refused<T: Drop>(read: Result<T, Refusal>) -> Result<bool, Refusal>
    requires cause { IfErr read IsFault }
    ensures refused { result ≡ Ok true → read ≡ Err Refusal.Disk }
    ensures cause { IfErr result IsFault }
{
    match &read {
        Ok(_) => Ok(false),
        Err(Refusal::Disk) => Ok(true),
        Err(refusal) => Err(*refusal),
    }
}

/// The text in a column, or `None` if it has none.
fn text_in(row: &Row, at: usize) -> Option<&[u8]>
    ensures { MatchOption result ((text : List ℕ) → column row.now at ≢ Chars text)
        (λ text. column row.now at ≡ Chars text.now) }
{
    match row.get_ref(at) {
        Ok(ValueRef::Text(text)) => Some(text),
        _ => None,
    }
}

/// Whether a column is NULL, as one past the end is.
fn is_null(row: &Row, at: usize) -> bool
    ensures yes { result ≡ true → column row.now at ≡ Null }
    ensures no { result ≡ false → column row.now at ≢ Null }
{
    match row.get_ref(at) {
        Ok(ValueRef::Null) | Err(_) => true,
        Ok(_) => false,
    }
}

/// Whether a column has the text of no value of this type.
fn lacks_text<T: Written + Drop>(alloc: Global, row: &Row, at: usize) -> Result<bool, Refusal>
    ensures lacks { result ≡ Ok true → ¬ HasTextOf T.is_value T.text (column row.now at) }
    ensures cause { IfErr result IsFault }
{
    is_refused(text_at::<T>(alloc, row, at))
}

/// Whether a column has the number of no value of this type.
fn lacks_number<T: AsNumber>(row: &Row, at: usize) -> Result<bool, Refusal>
    ensures lacks { result ≡ Ok true → ¬ HasNumberOf T.is_value T.number (column row.now at) }
    ensures cause { IfErr result IsFault }
{
    is_refused(number_at::<T>(row, at))
}

/// The same of a column that may be NULL.
fn lacks_number_or_null<T: AsNumber>(row: &Row, at: usize) -> Result<bool, Refusal>
    requires { at < length row.now }
    ensures lacks { result ≡ Ok true → ¬ OrNull (HasNumberOf T.is_value T.number) (column row.now at) }
    ensures cause { IfErr result IsFault }
{
    is_refused(number_or_null_at::<T>(row, at))
}

/// Whether a column has no number from 1 to the greatest of its kind, `K`.
fn lacks_count<K: Numbered>(row: &Row, at: usize) -> Result<bool, Refusal>
    ensures lacks { result ≡ Ok true → ¬ HasNumberOf (IsNumber K.limit) (λ n. n) (column row.now at) }
    ensures cause { IfErr result IsFault }
{
    is_refused(counted_at::<K>(row, at))
}

/// The same of a column that may be NULL.
fn lacks_count_or_null<K: Numbered>(row: &Row, at: usize) -> Result<bool, Refusal>
    requires { at < length row.now }
    ensures lacks { result ≡ Ok true → ¬ OrNull (HasNumberOf (IsNumber K.limit) (λ n. n)) (column row.now at) }
    ensures cause { IfErr result IsFault }
{
    is_refused(counted_or_null_at::<K>(row, at))
}

/// Whether a column is no Crypto Officer's place of the facility in column 0, if that is one.
fn lacks_officer(alloc: Global, row: &Row, at: usize) -> Result<bool, Refusal>
    ensures lacks { result ≡ Ok true → ¬ IsOfficer row.now at }
    ensures cause { IfErr result IsFault }
{
    match text_at::<Facility>(alloc, row, 0) {
        Ok(facility) => is_refused(officer_at(alloc, row, at, facility)),
        Err(Refusal::Disk) => Ok(false),
        Err(refusal) => Err(refusal),
    }
}

/// Whether a column has the text of no spot.
fn lacks_spot(row: &Row, at: usize) -> bool
    ensures { result ≡ true → ¬ HasTextOf IsSpot spot_text (column row.now at) }
{
    match text_in(row, at) {
        Some(text) => Spot::read(text).is_none(),
        None => true,
    }
}

/// Whether a column is not the one written text of seats.
fn lacks_seats(alloc: Global, row: &Row, at: usize) -> Result<bool, Refusal>
    ensures lacks { result ≡ Ok true → ¬ HasTextOf IsWritten written (column row.now at) }
    ensures cause { IfErr result IsFault }
{
    let Some(text) = text_in(row, at) else {
        return Ok(true);
    };
    let Some(seats) = read_seats(alloc, text)? else {
        return Ok(true);
    };
    let words = write_seats(alloc, &seats)?;
    Ok(words.as_bytes() != text)
}

/// Whether of two columns the one has the text of no value of this type although the other is NULL, or is not NULL
/// although the other is not either.
fn lacks_alone<T: Written + Drop>(
    alloc: Global,
    row: &Row,
    at: usize,
    other: usize,
) -> Result<bool, Refusal>
    ensures lacks { result ≡ Ok true
        → ¬ IsAlone (HasTextOf T.is_value T.text) (column row.now other) (column row.now at) }
    ensures cause { IfErr result IsFault }
{
    if is_null(row, other) {
        lacks_text::<T>(alloc, row, at)
    } else {
        Ok(!is_null(row, at))
    }
}

/// Whether a cell is no value of its column.
fn is_wrong(alloc: Global, kind: Kind, row: &Row, at: usize) -> Result<bool, Refusal>
    requires { at < length row.now }
    ensures wrong { result ≡ Ok true → ¬ IsCell kind row.now at }
    ensures cause { IfErr result IsFault }
{
    match kind {
        Kind::Initials => lacks_text::<Initials>(alloc, row, at),
        Kind::Key => lacks_text::<Key>(alloc, row, at),
        Kind::Serial => lacks_text::<Serial>(alloc, row, at),
        Kind::Name => lacks_text::<Name>(alloc, row, at),
        Kind::Activity => lacks_text::<Activity>(alloc, row, at),
        Kind::Remark => lacks_text::<Remark>(alloc, row, at),
        Kind::Text => lacks_text::<Text>(alloc, row, at),
        Kind::Day => lacks_number::<Day>(row, at),
        Kind::DayOrNull => lacks_number_or_null::<Day>(row, at),
        Kind::Moment => lacks_number::<Moment>(row, at),
        Kind::MomentOrNull => lacks_number_or_null::<Moment>(row, at),
        Kind::Ceremony => lacks_count::<OfCeremony>(row, at),
        Kind::Box => lacks_count::<OfBox>(row, at),
        Kind::Step => lacks_count::<OfStep>(row, at),
        Kind::StepOrNull => lacks_count_or_null::<OfStep>(row, at),
        Kind::Seat => lacks_count::<OfSeat>(row, at),
        Kind::Exception => lacks_count::<OfException>(row, at),
        Kind::Command => lacks_count::<OfCommand>(row, at),
        Kind::Version => lacks_number::<u32>(row, at),
        Kind::Facility => lacks_text::<Facility>(alloc, row, at),
        Kind::Role => lacks_text::<Role>(alloc, row, at),
        Kind::Place => lacks_text::<Place>(alloc, row, at),
        Kind::Officer => lacks_officer(alloc, row, at),
        Kind::Safe => lacks_number::<SafeNumber>(row, at),
        Kind::Truth => lacks_number::<bool>(row, at),
        Kind::Way => lacks_number::<Way>(row, at),
        Kind::CeremonyState => lacks_number::<CeremonyState>(row, at),
        Kind::StepState => lacks_number::<StepState>(row, at),
        Kind::Spot => Ok(lacks_spot(row, at)),
        Kind::Seats => lacks_seats(alloc, row, at),
        Kind::Loose => lacks_alone::<Facility>(alloc, row, at, 2),
        Kind::Within => lacks_alone::<Serial>(alloc, row, at, 1),
    }
}

/// Whether a row is invalid: it has other columns, or a cell that is no value of its column. The error is `Memory`,
/// or `Disk` as a reader tells it.
pub(crate) fn is_invalid(alloc: Global, kinds: &[Kind], row: &Row) -> Result<bool, Refusal>
    ensures invalid { result ≡ Ok true → ¬ IsValid kinds.now row.now }
    ensures cause { IfErr result IsFault }
{
    if row.column_count() != kinds.len() {
        return Ok(true);
    }
    for at in 0..kinds.len() {
        match is_wrong(alloc, kinds[at], row, at) {
            Ok(false) => {}
            other => return other,
        }
    }
    Ok(false)
}
