//! The two stages of an act on safes, boxes, bags and items. A `check_` tests what refuses it whoever is in the room.
//! `check_ca`, `check_keepers` and `check_operator` then test who is there. Each act as a whole follows them: the
//! changed rows, or the first refusal.
ghost use Rattle.std.specs.Prelude.{◌≡◌, ◌∷◌, [], true, false, IfOk};
ghost use Rattle.kcr_base.specs.Refuse.{first_of, unless, IsTestResult, IsValueOrRefusal};
ghost use Rattle.std.specs.Result.{result_err};
ghost use Rattle.kcr_custody.specs.Custody;
ghost use Rattle.kcr_custody.specs.declared.{Rest.TheVariants.Loose, Spot.TheVariants.Table, Spot.TheVariants.Spent};

use crate::checks::{
    check_bag, check_box, check_ca, check_ceremony, check_keepers, check_open, check_operator,
    check_ready,
};
use crate::{
    Bag, BagChange, BoxRow, CeremonyStatus, Destination, Item, ItemRows, Rest, SafeNumber,
    SafeOperator, SafeRow, Spot, queries,
};
use kcr_base::{Facility, Initials, ItemCode, Refusal, Serial, Thing};
use std::alloc::{AllocError, Global};

/// A box added: the row as it is handed in. Refused: 13 if the facility has the number or the place has a box, 14
/// if the place is no Crypto Officer's place of the facility, 27 if the register is full.
pub fn add_box(boxes: &[BoxRow], is_full: bool, row: BoxRow) -> Result<BoxRow, Refusal>
    ensures { result ≡ unless (Custody.add_box_refusal boxes.now is_full row) row }
{
    if queries::has_box(boxes, row.facility, row.number) || queries::has_place(boxes, row.place) {
        return Err(Refusal::Taken);
    }
    if !queries::is_co_place_of(row.facility, row.place) {
        return Err(Refusal::Range);
    }
    if is_full {
        return Err(Refusal::Full);
    }
    Ok(row)
}

/// An item may be added. Refused: 12 without the ceremony, 13 if the item was added before, 20 if the ceremony is not
/// open, 22 before its mark, 27 full.
pub fn check_add_item(
    status: &CeremonyStatus,
    items: &[Item],
    code: ItemCode,
) -> Result<(), Refusal>
    ensures { IsTestResult (Custody.add_item_refusal status.now items.now code) result }
{
    check_ceremony(status)?;
    if queries::rest(items, code).is_some() {
        return Err(Refusal::Taken);
    }
    check_ready(status)
}

/// A safe may be opened, or shut, by a person; `is_known` tells whether the register has the person. Refused: 12 without
/// the ceremony or the person, 20 if the ceremony is not open, 22 before its mark, 27 full, 28 if the safe is already
/// open, or shut.
pub fn check_set_safe(
    status: &CeremonyStatus,
    safes: &[SafeRow],
    safe: SafeNumber,
    is_open: bool,
    is_known: bool,
    who: Initials,
) -> Result<(), Refusal>
    ensures { IsTestResult (Custody.safe_refusal status.now safes.now safe is_open is_known who) result }
{
    check_ceremony(status)?;
    if !is_known {
        return Err(Refusal::Unknown {
            thing: Thing::Person(who),
        });
    }
    check_ready(status)?;
    if queries::is_open(safes, status.facility, safe) == is_open {
        return Err(Refusal::Safe);
    }
    Ok(())
}

/// A bag may be taken from a safe. Refused: 12 without the ceremony or the bag, 20, 22, 27 as an item added, 28 if it is
/// in a shut safe of the facility, 29 if it is in no safe of the facility.
pub fn check_take(
    status: &CeremonyStatus,
    safes: &[SafeRow],
    bags: &[Bag],
    serial: Serial,
) -> Result<(), Refusal>
    ensures { IsTestResult (Custody.take_refusal status.now safes.now bags.now serial) result }
{
    check_ceremony(status)?;
    check_bag(bags, serial)?;
    check_ready(status)?;
    let safe = queries::safe_of(status.facility, queries::spot(bags, serial));
    check_open(safes, status.facility, safe)?;
    if safe.is_none() {
        return Err(Refusal::Elsewhere);
    }
    Ok(())
}

/// A bag may be put from the table into safe 1 or a box. Refused: 12 without the ceremony, the bag or the box, 20, 22, 27
/// as an item added, 28 if that safe is shut, 29 if the bag is not on the facility's table.
pub fn check_put(
    status: &CeremonyStatus,
    safes: &[SafeRow],
    boxes: &[BoxRow],
    bags: &[Bag],
    serial: Serial,
    to: Destination,
) -> Result<(), Refusal>
    ensures { IsTestResult (Custody.put_refusal status.now safes.now boxes.now bags.now serial to) result }
{
    check_ceremony(status)?;
    check_bag(bags, serial)?;
    check_box(boxes, status.facility, queries::box_of_destination(&to))?;
    check_ready(status)?;
    let safe = queries::safe_of_destination(&to);
    check_open(safes, status.facility, Some(safe))?;
    if !queries::is_on_table(status.facility, queries::spot(bags, serial)) {
        return Err(Refusal::Elsewhere);
    }
    Ok(())
}

/// A bag may be cut. Refused: 12 without the ceremony or the bag, 20, 22, 27 as an item added, 29 if the bag is not on
/// the facility's table.
pub fn check_cut(status: &CeremonyStatus, bags: &[Bag], serial: Serial) -> Result<(), Refusal>
    ensures { IsTestResult (Custody.cut_refusal status.now bags.now serial) result }
{
    check_ceremony(status)?;
    check_bag(bags, serial)?;
    check_ready(status)?;
    if !queries::is_on_table(status.facility, queries::spot(bags, serial)) {
        return Err(Refusal::Elsewhere);
    }
    Ok(())
}

/// A bag cut: it is spent, and its items are loose at the facility. The error is out of memory.
pub fn cut_rows(
    alloc: Global,
    facility: Facility,
    items: &[Item],
    serial: Serial,
) -> Result<BagChange, AllocError>
    ensures { IfOk result (λ change. change ≡ record {
      bag = record { serial = serial; spot = Spent };
      items = Custody.loose_items items.now serial facility;
    }) }
{
    let loose = queries::loose_items(alloc, items, serial, facility)?;
    Ok(BagChange {
        bag: Bag {
            serial,
            spot: Spot::Spent,
        },
        items: ItemRows::new(loose),
    })
}

/// Items may be sealed into a bag. Refused: 12 without the ceremony or an item (the first that was never added), 13 if
/// the serial was sealed before, 20, 22, 27 as an item added, 29 if an item is not loose at the facility.
pub fn check_seal(
    status: &CeremonyStatus,
    bags: &[Bag],
    items: &[Item],
    serial: Serial,
    codes: &[ItemCode],
) -> Result<(), Refusal>
    ensures { IsTestResult (Custody.seal_refusal status.now bags.now items.now serial codes.now) result }
{
    check_ceremony(status)?;
    if let Some(code) = queries::first_missing(items, codes) {
        return Err(Refusal::Unknown {
            thing: Thing::Item(code),
        });
    }
    if queries::spot(bags, serial).is_some() {
        return Err(Refusal::Taken);
    }
    check_ready(status)?;
    if !queries::are_loose_at(items, codes, status.facility) {
        return Err(Refusal::Elsewhere);
    }
    Ok(())
}

/// Items sealed into a bag, on the facility's table. The error is out of memory.
pub fn sealed_rows(
    alloc: Global,
    facility: Facility,
    serial: Serial,
    codes: &[ItemCode],
) -> Result<BagChange, AllocError>
    ensures { IfOk result (λ change. change ≡ record {
      bag = record { serial = serial; spot = Table facility };
      items = Custody.sealed_items serial codes.now;
    }) }
{
    let packed = queries::sealed_items(alloc, serial, codes)?;
    Ok(BagChange {
        bag: Bag {
            serial,
            spot: Spot::Table(facility),
        },
        items: ItemRows::new(packed),
    })
}

/// The value, or the first refusal of two tests.
fn unless_refused<T: Copy>(
    early: Result<(), Refusal>,
    late: Result<(), Refusal>,
    value: T,
) -> Result<T, Refusal>
    ensures { result ≡ unless (first_of (result_err early ∷ result_err late ∷ [])) value }
{
    match early {
        Err(refusal) => Err(refusal),
        Ok(()) => match late {
            Err(refusal) => Err(refusal),
            Ok(()) => Ok(value),
        },
    }
}

/// An item added, loose at the ceremony's facility; `has_ca` tells whether somebody in the room is trained as CA.
/// Refused: 12 without the ceremony, 13 if the item was added before, 20 if the ceremony is not open, 22 before its mark,
/// 27 full, 30 without a CA.
pub fn add_item(
    status: &CeremonyStatus,
    items: &[Item],
    code: ItemCode,
    has_ca: bool,
) -> Result<Item, Refusal>
    ensures { result ≡ unless
        (first_of (Custody.add_item_refusal status.now items.now code ∷ Custody.no_ca_refusal has_ca ∷ []))
        (record { code = code; rest = Loose status.now.facility }) }
{
    let row = Item {
        code,
        rest: Rest::Loose(status.facility),
    };
    unless_refused(check_add_item(status, items, code), check_ca(has_ca), row)
}

/// A safe opened; `is_known` tells whether the register has the person. Refused: 12 without the ceremony or the person,
/// 20 if the ceremony is not open, 22 before its mark, 27 full, 28 if the safe is open, 30 if the person is not in the
/// room or not trained for this safe.
pub fn open_safe(
    status: &CeremonyStatus,
    safes: &[SafeRow],
    safe: SafeNumber,
    is_known: bool,
    by: &SafeOperator,
) -> Result<SafeRow, Refusal>
    ensures { result ≡ unless
        (first_of (Custody.safe_refusal status.now safes.now safe true is_known by.now.who
        ∷ Custody.no_operator_refusal safe by.now ∷ []))
        (record { facility = status.now.facility; safe = safe; is_open = true }) }
{
    let row = SafeRow {
        facility: status.facility,
        safe,
        is_open: true,
    };
    unless_refused(
        check_set_safe(status, safes, safe, true, is_known, by.who),
        check_operator(safe, by),
        row,
    )
}

/// A safe shut. Refused: 28 if the safe is shut, else as a safe opened.
pub fn shut_safe(
    status: &CeremonyStatus,
    safes: &[SafeRow],
    safe: SafeNumber,
    is_known: bool,
    by: &SafeOperator,
) -> Result<SafeRow, Refusal>
    ensures { result ≡ unless
        (first_of (Custody.safe_refusal status.now safes.now safe false is_known by.now.who
        ∷ Custody.no_operator_refusal safe by.now ∷ []))
        (record { facility = status.now.facility; safe = safe; is_open = false }) }
{
    let row = SafeRow {
        facility: status.facility,
        safe,
        is_open: false,
    };
    unless_refused(
        check_set_safe(status, safes, safe, false, is_known, by.who),
        check_operator(safe, by),
        row,
    )
}

/// A bag taken from a safe to the table; `has_holder` tells whether the holder of the place of its box is in the room
/// (`place_for_take` names the place). Refused: 12 without the ceremony or the bag, 20, 22, 27 as an item added, 28 if it
/// is in a shut safe of the facility, 29 if it is in no safe of the facility, 30 without a CA or without the holder.
pub fn take(
    status: &CeremonyStatus,
    safes: &[SafeRow],
    boxes: &[BoxRow],
    bags: &[Bag],
    serial: Serial,
    has_ca: bool,
    has_holder: bool,
) -> Result<Bag, Refusal>
    ensures { result ≡ unless
        (first_of (Custody.take_refusal status.now safes.now bags.now serial
        ∷ first_of (Custody.keepers_conditions has_ca (λ _. has_holder)
        (Custody.place_of boxes.now status.now.facility (Custody.box_of (Custody.spot_by bags.now serial)))) ∷ []))
        (record { serial = serial; spot = Table status.now.facility }) }
{
    let row = Bag {
        serial,
        spot: Spot::Table(status.facility),
    };
    let place = queries::place_for_take(boxes, bags, status.facility, serial);
    unless_refused(
        check_take(status, safes, bags, serial),
        check_keepers(has_ca, place, has_holder),
        row,
    )
}

/// A bag put from the table into safe 1 or a box; `has_holder` tells whether the holder of the box's place is in the room
/// (`place_for_put` names the place). Refused: 12 without the ceremony, the bag or the box, 20, 22, 27 as an item added,
/// 28 if that safe is shut, 29 if the bag is not on the facility's table, 30 as a bag taken.
pub fn put(
    status: &CeremonyStatus,
    safes: &[SafeRow],
    boxes: &[BoxRow],
    bags: &[Bag],
    serial: Serial,
    to: Destination,
    has_ca: bool,
    has_holder: bool,
) -> Result<Bag, Refusal>
    ensures { result ≡ unless
        (first_of (Custody.put_refusal status.now safes.now boxes.now bags.now serial to
        ∷ first_of (Custody.keepers_conditions has_ca (λ _. has_holder)
        (Custody.place_of boxes.now status.now.facility (Custody.box_of_destination to))) ∷ []))
        (record { serial = serial; spot = Custody.spot_of_destination status.now.facility to }) }
{
    let row = Bag {
        serial,
        spot: queries::spot_of_destination(status.facility, &to),
    };
    let place = queries::place_for_put(boxes, status.facility, &to);
    unless_refused(
        check_put(status, safes, boxes, bags, serial, to),
        check_keepers(has_ca, place, has_holder),
        row,
    )
}

/// A bag on the table cut: it is spent, and its items are loose at the facility. Refused: 12 without the ceremony or the
/// bag, 20, 22, 27 as an item added, 29 if the bag is not on the facility's table, 30 without a CA, and 33 when out of
/// memory.
pub fn cut(
    alloc: Global,
    status: &CeremonyStatus,
    bags: &[Bag],
    items: &[Item],
    serial: Serial,
    has_ca: bool,
) -> Result<BagChange, Refusal>
    ensures { IsValueOrRefusal
        (first_of (Custody.cut_refusal status.now bags.now serial ∷ Custody.no_ca_refusal has_ca ∷ []))
        (record {
          bag = record { serial = serial; spot = Spent };
          items = Custody.loose_items items.now serial status.now.facility;
        }) result }
{
    check_cut(status, bags, serial)?;
    check_ca(has_ca)?;
    Ok(cut_rows(alloc, status.facility, items, serial)?)
}

/// Loose items of the facility sealed into a bag with a new serial, on its table. Refused: 12 without the ceremony or an
/// item (the first that was never added), 13 if the serial was sealed before, 20, 22, 27 as an item added, 29 if an item
/// is not loose at the facility, 30 without a CA, and 33 when out of memory.
pub fn seal(
    alloc: Global,
    status: &CeremonyStatus,
    bags: &[Bag],
    items: &[Item],
    serial: Serial,
    codes: &[ItemCode],
    has_ca: bool,
) -> Result<BagChange, Refusal>
    ensures { IsValueOrRefusal
        (first_of (Custody.seal_refusal status.now bags.now items.now serial codes.now
        ∷ Custody.no_ca_refusal has_ca ∷ []))
        (record {
          bag = record { serial = serial; spot = Table status.now.facility };
          items = Custody.sealed_items serial codes.now;
        }) result }
{
    check_seal(status, bags, items, serial, codes)?;
    check_ca(has_ca)?;
    Ok(sealed_rows(alloc, status.facility, serial, codes)?)
}
