//! What the rows say.
ghost use Rattle.std.specs.Prelude.{◌≡◌, IfOk, find, is_none};
ghost use Rattle.std.specs.List.{list_any, list_all};
ghost use Rattle.kcr_base.specs.Same.{same_place};
ghost use Rattle.kcr_custody.specs.Custody;

use crate::{Bag, BoxRow, Destination, Item, Rest, SafeNumber, SafeRow, Spot};
use kcr_base::{Facility, ItemCode, Place, Serial};
use std::alloc::{AllocError, Global};

fn is_open_row(row: SafeRow, facility: Facility, safe: SafeNumber) -> bool
    ensures { result ≡ Custody.is_open_row facility safe row }
{
    row.facility == facility && row.safe == safe && row.is_open
}

/// Whether the safe is open.
pub fn is_open(safes: &[SafeRow], facility: Facility, safe: SafeNumber) -> bool
    ensures { result ≡ Custody.is_open_by safes.now facility safe }
{
    safes.iter().any(|row| is_open_row(*row, facility, safe))
}

fn is_box(row: BoxRow, facility: Facility, number: u32) -> bool
    ensures { result ≡ Custody.is_box facility number row }
{
    row.facility == facility && row.number == number
}

/// Whether the facility has the box.
pub fn has_box(boxes: &[BoxRow], facility: Facility, number: u32) -> bool
    ensures { result ≡ list_any (Custody.is_box facility number) boxes.now }
{
    boxes.iter().any(|row| is_box(*row, facility, number))
}

/// Whether the place has a box.
pub(crate) fn has_place(boxes: &[BoxRow], place: Place) -> bool
    ensures { result ≡ list_any (λ row. same_place row.place place) boxes.now }
{
    boxes.iter().any(|row| row.place == place)
}

/// The place that a box belongs to.
pub fn place_of_box(boxes: &[BoxRow], facility: Facility, number: u32) -> Option<Place>
    ensures { result ≡ Custody.place_of_box_by boxes.now facility number }
{
    boxes
        .iter()
        .find(|row| is_box(**row, facility, number))
        .map(|row| row.place)
}

/// Where the bag is.
pub fn spot(bags: &[Bag], serial: Serial) -> Option<Spot>
    ensures { result ≡ Custody.spot_by bags.now serial }
{
    bags.iter()
        .find(|row| row.serial == serial)
        .map(|row| row.spot)
}

/// Where the item is.
pub fn rest(items: &[Item], code: ItemCode) -> Option<Rest>
    ensures { result ≡ Custody.rest_by items.now code }
{
    items
        .iter()
        .find(|row| row.code == code)
        .map(|row| row.rest)
}

pub(crate) fn is_on_table(facility: Facility, spot: Option<Spot>) -> bool
    ensures { result ≡ Custody.is_on_table facility spot }
{
    match spot {
        Some(Spot::Table(f)) => f == facility,
        _ => false,
    }
}

pub(crate) fn is_loose_at(facility: Facility, rest: Option<Rest>) -> bool
    ensures { result ≡ Custody.is_loose_at facility rest }
{
    match rest {
        Some(Rest::Loose(f)) => f == facility,
        _ => false,
    }
}

/// The safe of the facility in which the bag is.
pub(crate) fn safe_of(facility: Facility, spot: Option<Spot>) -> Option<SafeNumber>
    ensures { result ≡ Custody.safe_of facility spot }
{
    match spot {
        Some(Spot::Equipment(f)) => if f == facility {
            Some(SafeNumber::One)
        } else {
            None
        },
        Some(Spot::InBox(f, _)) => if f == facility {
            Some(SafeNumber::Two)
        } else {
            None
        },
        _ => None,
    }
}

pub(crate) fn safe_of_destination(to: &Destination) -> SafeNumber
    ensures { result ≡ Custody.safe_of_destination to.now }
{
    match to {
        Destination::SafeOne => SafeNumber::One,
        Destination::DepositBox(_) => SafeNumber::Two,
    }
}

pub fn spot_of_destination(facility: Facility, to: &Destination) -> Spot
    ensures { result ≡ Custody.spot_of_destination facility to.now }
{
    match to {
        Destination::SafeOne => Spot::Equipment(facility),
        Destination::DepositBox(number) => Spot::InBox(facility, number.get()),
    }
}

fn box_of(spot: Option<Spot>) -> Option<u32>
    ensures { result ≡ Custody.box_of spot }
{
    match spot {
        Some(Spot::InBox(_, number)) => Some(number),
        _ => None,
    }
}

pub(crate) fn box_of_destination(to: &Destination) -> Option<u32>
    ensures { result ≡ Custody.box_of_destination to.now }
{
    match to {
        Destination::SafeOne => None,
        Destination::DepositBox(number) => Some(number.get()),
    }
}

fn place_of(boxes: &[BoxRow], facility: Facility, number: Option<u32>) -> Option<Place>
    ensures { result ≡ Custody.place_of boxes.now facility number }
{
    match number {
        None => None,
        Some(number) => place_of_box(boxes, facility, number),
    }
}

/// The place whose holder has to be in the room when the bag is taken.
pub fn place_for_take(
    boxes: &[BoxRow],
    bags: &[Bag],
    facility: Facility,
    serial: Serial,
) -> Option<Place>
    ensures { result ≡ Custody.place_of boxes.now facility (Custody.box_of (Custody.spot_by bags.now serial)) }
{
    place_of(boxes, facility, box_of(spot(bags, serial)))
}

/// The place whose holder has to be in the room when a bag is put there.
pub fn place_for_put(boxes: &[BoxRow], facility: Facility, to: &Destination) -> Option<Place>
    ensures { result ≡ Custody.place_of boxes.now facility (Custody.box_of_destination to.now) }
{
    place_of(boxes, facility, box_of_destination(to))
}

pub(crate) fn is_co_place_of(facility: Facility, place: Place) -> bool
    ensures { result ≡ Custody.is_co_place_of facility place }
{
    match place {
        Place::Co(f, _) => f == facility,
        Place::Rksh(_) => false,
    }
}

fn is_within(serial: Serial, rest: Rest) -> bool
    ensures { result ≡ Custody.is_within serial rest }
{
    match rest {
        Rest::Within(s) => s == serial,
        Rest::Loose(_) => false,
    }
}

/// The first of the items that was never added.
pub(crate) fn first_missing(items: &[Item], codes: &[ItemCode]) -> Option<ItemCode>
    ensures { result ≡ find (λ code. is_none (Custody.rest_by items.now code)) codes.now }
{
    codes
        .iter()
        .copied()
        .find(|code| rest(items, *code).is_none())
}

/// Whether all the items are loose at the facility.
pub(crate) fn are_loose_at(items: &[Item], codes: &[ItemCode], facility: Facility) -> bool
    ensures { result ≡ list_all (λ code. Custody.is_loose_at facility (Custody.rest_by items.now code)) codes.now }
{
    codes
        .iter()
        .all(|code| is_loose_at(facility, rest(items, *code)))
}

fn lies_in(row: &Item, serial: Serial) -> bool
    ensures { result ≡ Custody.lies_in serial row.now }
{
    is_within(serial, row.rest)
}

fn loose_item(row: &Item, facility: Facility) -> Item
    ensures { result ≡ Custody.loose_item facility row.now }
{
    Item {
        code: row.code,
        rest: Rest::Loose(facility),
    }
}

fn sealed_item(code: &ItemCode, serial: Serial) -> Item
    ensures { result ≡ Custody.sealed_item serial code.now }
{
    Item {
        code: *code,
        rest: Rest::Within(serial),
    }
}

/// The items of the bag, loose at the facility.
pub(crate) fn loose_items(
    alloc: Global,
    items: &[Item],
    serial: Serial,
    facility: Facility,
) -> Result<Vec<Item>, AllocError>
    ensures { IfOk result (λ rows. rows.items ≡ Custody.loose_items items.now serial facility) }
{
    items
        .iter()
        .filter(|row| lies_in(row, serial))
        .map(|row| loose_item(row, facility))
        .collect(alloc)
}

/// The items in the bag.
pub(crate) fn sealed_items(
    alloc: Global,
    serial: Serial,
    codes: &[ItemCode],
) -> Result<Vec<Item>, AllocError>
    ensures { IfOk result (λ rows. rows.items ≡ Custody.sealed_items serial codes.now) }
{
    codes
        .iter()
        .map(|code| sealed_item(code, serial))
        .collect(alloc)
}
