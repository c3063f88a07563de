//! What several acts test: nothing, or the refusal.
ghost use Rattle.std.specs.Prelude.{◌≡◌};
ghost use Rattle.kcr_base.specs.Refuse.{first_of, IsTestResult, unknown_ceremony_refusal};
ghost use Rattle.kcr_custody.specs.Custody;

use crate::{Bag, BoxRow, CeremonyStatus, SafeNumber, SafeOperator, SafeRow, queries};
use kcr_base::{Absentee, Facility, Place, Refusal, Role, Serial, Thing};

/// The ceremony is there.
pub(crate) fn check_ceremony(status: &CeremonyStatus) -> Result<(), Refusal>
    ensures { IsTestResult (unknown_ceremony_refusal status.now.is_known status.now.ceremony) result }
{
    if !status.is_known {
        return Err(Refusal::Unknown {
            thing: Thing::Ceremony(status.ceremony),
        });
    }
    Ok(())
}

/// The ceremony is open, the moment is not before its mark, and the register takes more commands.
pub(crate) fn check_ready(status: &CeremonyStatus) -> Result<(), Refusal>
    ensures { IsTestResult (Custody.not_ready_refusal status.now) result }
{
    if !status.is_open {
        return Err(Refusal::State);
    }
    if let Some(mark) = status.mark
        && status.at < mark
    {
        return Err(Refusal::Late { mark });
    }
    if status.is_full {
        return Err(Refusal::Full);
    }
    Ok(())
}

/// The bag was sealed.
pub(crate) fn check_bag(bags: &[Bag], serial: Serial) -> Result<(), Refusal>
    ensures { IsTestResult (Custody.unknown_bag_refusal (Custody.spot_by bags.now serial) serial) result }
{
    if queries::spot(bags, serial).is_none() {
        return Err(Refusal::Unknown {
            thing: Thing::Bag(serial),
        });
    }
    Ok(())
}

/// The facility has the box, if one is meant.
pub(crate) fn check_box(
    boxes: &[BoxRow],
    facility: Facility,
    number: Option<u32>,
) -> Result<(), Refusal>
    ensures { IsTestResult (Custody.unknown_box_refusal (Custody.place_of_box_by boxes.now facility) number) result }
{
    if let Some(number) = number
        && queries::place_of_box(boxes, facility, number).is_none()
    {
        return Err(Refusal::Unknown {
            thing: Thing::Box(number),
        });
    }
    Ok(())
}

/// The facility's safe is open, if one is meant.
pub(crate) fn check_open(
    safes: &[SafeRow],
    facility: Facility,
    safe: Option<SafeNumber>,
) -> Result<(), Refusal>
    ensures { IsTestResult (Custody.shut_refusal (Custody.is_open_by safes.now facility) safe) result }
{
    if let Some(safe) = safe
        && !queries::is_open(safes, facility, safe)
    {
        return Err(Refusal::Safe);
    }
    Ok(())
}

/// Somebody in the room is trained as CA. Refused: 30.
pub fn check_ca(has_ca: bool) -> Result<(), Refusal>
    ensures { IsTestResult (Custody.no_ca_refusal has_ca) result }
{
    if !has_ca {
        return Err(Refusal::Absent {
            who: Absentee::Role(Role::Ca),
        });
    }
    Ok(())
}

/// Who has to be in the room for a bag to leave a safe or go into one: a CA, and of a bag in a box the holder of the
/// box's place (`place_for_take` and `place_for_put` name the place). Refused: 30.
pub fn check_keepers(has_ca: bool, place: Option<Place>, has_holder: bool) -> Result<(), Refusal>
    ensures { IsTestResult (first_of (Custody.keepers_conditions has_ca (λ _. has_holder) place)) result }
{
    if !has_ca {
        return Err(Refusal::Absent {
            who: Absentee::Role(Role::Ca),
        });
    }
    if let Some(place) = place
        && !has_holder
    {
        return Err(Refusal::Absent {
            who: Absentee::Place(place),
        });
    }
    Ok(())
}

/// Whether the person may turn the safe: in the room, and trained as SSC1 for safe 1 or as SSC2 for safe 2.
fn may_operate(by: &SafeOperator, safe: SafeNumber) -> bool
    ensures { result ≡ Custody.may_operate safe by.now }
{
    match safe {
        SafeNumber::One => by.is_present && by.has_ssc1,
        SafeNumber::Two => by.is_present && by.has_ssc2,
    }
}

/// The person is in the room, and trained for this safe. Refused: 30.
pub fn check_operator(safe: SafeNumber, by: &SafeOperator) -> Result<(), Refusal>
    ensures { IsTestResult (Custody.no_operator_refusal safe by.now) result }
{
    if !may_operate(by, safe) {
        return Err(Refusal::Absent {
            who: Absentee::Person(by.who),
        });
    }
    Ok(())
}
