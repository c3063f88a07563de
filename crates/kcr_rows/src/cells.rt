//! One value of a row: read from a column, counted from 0, and made into a parameter of a statement. Each reader's error
//! is `Disk` if the column has no such value; those that take an allocator answer `Memory` when out of memory.

ghost use Rattle.std.specs.Prelude.{◌≡◌, ◌≢◌, ℕ, ◌+◌, ◌<◌, List, length, pos, Err, IfOk, IfErr, IfSome, OnErr, true, false, IsTrue};
ghost use Rattle.sqlite.specs.declared.types.Value.TheVariants.{Null, Int, Text as Chars};
ghost use Rattle.sqlite.specs.{Order.column, Value.owned, Values.bound_value};
ghost use Rattle.kcr_base.specs.{Number.IsNumber, Place.IsPlace, Place.place_text, declared.place.Place.Place as Custodian};
ghost use Rattle.kcr_custody.specs.{Custody.is_co_place_of, Spots.spot_text};
ghost use Rattle.kcr_script.specs.{Seats.StandsFor, Seats.written, declared.seat.Seat.Seat};
ghost use Rattle.kcr_rows.specs.{Refusals.IsFault, Values.or_null, States.loose_value, States.within_value, States.IsNumbered};

use crate::numbers::AsNumber;
use kcr_base::number::{Number, Numbered};
use kcr_base::{Facility, Place, Refusal, Serial, Written};
use kcr_custody::{Rest, Spot};
use kcr_script::{Seats, read_seats, write_seats};
use sqlite::Row;
use sqlite::types::ValueRef;
use std::alloc::Global;

/// The value whose text is in a column. The error is `Memory` only if a value takes memory.
pub fn text_at<T: Written + Drop>(alloc: Global, row: &Row, at: usize) -> Result<T, Refusal>
    ensures value { IfOk result (λ found. column row.now at ≡ Chars (T.text found)) }
    ensures none { result ≡ Err Refusal.Disk → (v : T) → T.is_value v → column row.now at ≢ Chars (T.text v) }
    ensures memory { result ≡ Err Refusal.Memory → IsTrue T.allocates }
    ensures cause { IfErr result IsFault }
{
    match row.get_ref(at) {
        Ok(ValueRef::Text(text)) => T::from_text(alloc, text)?.ok_or(Refusal::Disk),
        _ => Err(Refusal::Disk),
    }
}

/// The value whose number is in a column.
pub fn number_at<T: AsNumber>(row: &Row, at: usize) -> Result<T, Refusal>
    ensures value { IfOk result (λ found. column row.now at ≡ Int (pos (T.number found))) }
    ensures none { OnErr result ((v : T) → T.is_value v → column row.now at ≢ Int (pos (T.number v))) }
    ensures cause { IfErr result IsFault }
{
    match row.get_ref(at) {
        Ok(ValueRef::Int(number)) => T::from_number(number).ok_or(Refusal::Disk),
        _ => Err(Refusal::Disk),
    }
}

/// The number in a column, from 1 to the greatest of its kind, `K`.
pub fn counted_at<K: Numbered>(row: &Row, at: usize) -> Result<u32, Refusal>
    ensures value { IfOk result (λ found. column row.now at ≡ Int (pos found)) }
    ensures range { IfOk result (IsNumber K.limit) }
    ensures none { OnErr result ((n : ℕ) → IsNumber K.limit n → column row.now at ≢ Int (pos n)) }
    ensures cause { IfErr result IsFault }
{
    let number = number_at(row, at)?;
    match Number::<K>::new(number) {
        Some(found) => Ok(found.get()),
        None => Err(Refusal::Disk),
    }
}

/// The number in a column, from 1 to the greatest of its kind, `K`, or `None` if it is NULL.
pub fn counted_or_null_at<K: Numbered>(row: &Row, at: usize) -> Result<Option<u32>, Refusal>
    ensures value { IfOk result (λ found. column row.now at ≡ or_null (λ n. n) found) }
    ensures range { IfOk result (λ found. IfSome found (IsNumber K.limit)) }
    ensures null { OnErr result (at < length row.now → column row.now at ≢ Null) }
    ensures none { OnErr result ((n : ℕ) → IsNumber K.limit n → column row.now at ≢ Int (pos n)) }
    ensures cause { IfErr result IsFault }
{
    if is_null(row, at) {
        return Ok(None);
    }
    Ok(Some(counted_at::<K>(row, at)?))
}

/// The place in a column, a Crypto Officer's of this facility.
pub fn officer_at(alloc: Global, row: &Row, at: usize, facility: Facility) -> Result<Place, Refusal>
    ensures value { IfOk result (λ found. column row.now at ≡ Chars (place_text found)) }
    ensures own { IfOk result (λ found. IsTrue (is_co_place_of facility found)) }
    ensures none { result ≡ Err Refusal.Disk → (place : Custodian) → IsTrue (is_co_place_of facility place)
        → IsPlace place → column row.now at ≢ Chars (place_text place) }
    ensures cause { IfErr result IsFault }
{
    let found = text_at(alloc, row, at)?;
    if is_officer_of(facility, &found) {
        Ok(found)
    } else {
        Err(Refusal::Disk)
    }
}

/// Whether a place is a Crypto Officer's of this facility.
fn is_officer_of(facility: Facility, place: &Place) -> bool
    ensures { result ≡ is_co_place_of facility place.now }
{
    match place {
        Place::Co(of, _) => *of == facility,
        Place::Rksh(_) => false,
    }
}

/// Whether a column is there and NULL.
fn is_null(row: &Row, at: usize) -> bool
    ensures yes { result ≡ true → column row.now at ≡ Null }
    ensures no { result ≡ false → at < length row.now → column row.now at ≢ Null }
{
    matches!(row.get_ref(at), Ok(ValueRef::Null))
}

/// The value whose number is in a column, or `None` if it is NULL.
pub fn number_or_null_at<T: AsNumber>(row: &Row, at: usize) -> Result<Option<T>, Refusal>
    ensures value { IfOk result (λ found. column row.now at ≡ or_null T.number found) }
    ensures null { OnErr result (at < length row.now → column row.now at ≢ Null) }
    ensures none { OnErr result ((v : T) → T.is_value v → column row.now at ≢ Int (pos (T.number v))) }
    ensures cause { IfErr result IsFault }
{
    if is_null(row, at) {
        return Ok(None);
    }
    Ok(Some(number_at(row, at)?))
}

/// The spot of a bag in a column, whose boxes are numbered from 1 to `MAX_BOX`.
pub fn spot_at(row: &Row, at: usize) -> Result<Spot, Refusal>
    ensures value { IfOk result (λ found. column row.now at ≡ Chars (spot_text found)) }
    ensures read { IfOk result IsNumbered }
    ensures cause { IfErr result IsFault }
{
    match row.get_ref(at) {
        Ok(ValueRef::Text(text)) => Spot::read(text).ok_or(Refusal::Disk),
        _ => Err(Refusal::Disk),
    }
}

/// The seats of a step in a column, in their one written text.
pub fn seats_at(alloc: Global, row: &Row, at: usize) -> Result<Seats, Refusal>
    ensures value { IfOk result (λ found. column row.now at ≡ Chars (written found)) }
    ensures read { IfOk result (λ found. (seats : List Seat) → StandsFor (written found) seats → seats ≡ found) }
    ensures cause { IfErr result IsFault }
{
    match row.get_ref(at) {
        Ok(ValueRef::Text(text)) => match read_seats(alloc, text)? {
            Some(found) => {
                let words = write_seats(alloc, &found)?;
                if words.as_bytes() == text {
                    Ok(found)
                } else {
                    Err(Refusal::Disk)
                }
            }
            None => Err(Refusal::Disk),
        },
        _ => Err(Refusal::Disk),
    }
}

/// Where an item is, in this column and the next, of which one is NULL: a facility, or the serial of a bag.
pub fn rest_at(row: &Row, at: usize) -> Result<Rest, Refusal>
    requires { at < 1000 }
    ensures loose { IfOk result (λ found. column row.now at ≡ loose_value found) }
    ensures within { IfOk result (λ found. column row.now (at + 1) ≡ within_value found) }
    ensures cause { IfErr result IsFault }
{
    match (row.get_ref(at), row.get_ref(at + 1)) {
        (Ok(ValueRef::Text(text)), Ok(ValueRef::Null)) => match Facility::read(text) {
            Some(facility) => Ok(Rest::Loose(facility)),
            None => Err(Refusal::Disk),
        },
        (Ok(ValueRef::Null), Ok(ValueRef::Text(text))) => match Serial::read(text) {
            Some(serial) => Ok(Rest::Within(serial)),
            None => Err(Refusal::Disk),
        },
        _ => Err(Refusal::Disk),
    }
}

/// The value of a text.
pub fn text_cell(text: &str) -> ValueRef<'_>
    ensures { bound_value (owned result) ≡ Chars text.now }
{
    ValueRef::Text(text.as_bytes())
}

/// The value of a number.
pub fn number_cell<T: AsNumber>(value: T) -> ValueRef<'static>
    ensures { bound_value (owned result) ≡ Int (pos (T.number value)) }
{
    ValueRef::Int(value.number())
}
