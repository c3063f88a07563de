//! The paths to which commands are posted.
ghost use Rattle.std.specs.Prelude.{◌≡◌, IfOk, string_bytes};
ghost use Rattle.kcr_base.specs.Place.{place_text};
ghost use Rattle.kcr_history.specs.Texts;

use crate::commands::{Act, Deed};
use itoa::Buffer;
use kcr_base::{CeremonyNumber, Initials, Place, Serial, StepNumber};
use kcr_custody::SafeNumber;
use std::alloc::{AllocError, Global};

/// `/people/`, the person, a slash, and the rest of the path.
fn at_person(alloc: Global, who: &Initials, rest: &str) -> Result<String, AllocError>
    ensures { IfOk result (λ text. string_bytes text ≡ Texts.at_person who.now rest.now) }
{
    ["/people/", who.as_str(), "/", rest].concat(alloc)
}

/// `/custodians/`, the place, a slash, and the rest of the path.
fn at_place(alloc: Global, place: Place, rest: &str) -> Result<String, AllocError>
    ensures { IfOk result (λ text. string_bytes text ≡ Texts.at_place (place_text place) rest.now) }
{
    let code = place.text();
    ["/custodians/", code.as_str(), "/", rest].concat(alloc)
}

/// `/ceremonies/`, the ceremony's number, a slash, and the rest of the path.
fn at_ceremony(alloc: Global, ceremony: CeremonyNumber, rest: &str) -> Result<String, AllocError>
    ensures { IfOk result (λ text. string_bytes text ≡ Texts.at_ceremony ceremony rest.now) }
{
    let mut number = Buffer::new();
    ["/ceremonies/", number.format(ceremony.get()), "/", rest].concat(alloc)
}

/// The same for a bag: `bags/`, its serial, a slash, and the rest.
fn at_bag(
    alloc: Global,
    ceremony: CeremonyNumber,
    serial: &Serial,
    rest: &str,
) -> Result<String, AllocError>
    ensures { IfOk result (λ text. string_bytes text ≡ Texts.at_bag ceremony serial.now rest.now) }
{
    let bag = ["bags/", serial.as_str(), "/", rest].concat(alloc)?;
    at_ceremony(alloc, ceremony, bag.as_str())
}

/// The same for a step: `steps/`, its number, and `/signature`.
fn at_step(alloc: Global, ceremony: CeremonyNumber, step: StepNumber) -> Result<String, AllocError>
    ensures { IfOk result (λ text. string_bytes text ≡ Texts.at_step ceremony step) }
{
    let mut number = Buffer::new();
    let step = ["steps/", number.format(step.get()), "/signature"].concat(alloc)?;
    at_ceremony(alloc, ceremony, step.as_str())
}

/// The same for a safe: `safes/`, and its number.
fn at_safe(alloc: Global, ceremony: CeremonyNumber, safe: SafeNumber) -> Result<String, AllocError>
    ensures { IfOk result (λ text. string_bytes text ≡ Texts.at_safe ceremony safe) }
{
    match safe {
        SafeNumber::One => at_ceremony(alloc, ceremony, "safes/1"),
        SafeNumber::Two => at_ceremony(alloc, ceremony, "safes/2"),
    }
}

/// The path of an act in a ceremony.
fn deed_path(alloc: Global, ceremony: CeremonyNumber, deed: &Deed) -> Result<String, AllocError>
    ensures { IfOk result (λ text. string_bytes text ≡ Texts.deed_path ceremony deed.now) }
{
    match deed {
        Deed::Open => at_ceremony(alloc, ceremony, "opening"),
        Deed::Close => at_ceremony(alloc, ceremony, "closing"),
        Deed::RecordSheet { .. } => at_ceremony(alloc, ceremony, "sheet"),
        Deed::Sign { step } => at_step(alloc, ceremony, *step),
        Deed::RecordException { .. } => at_ceremony(alloc, ceremony, "exceptions"),
        Deed::AddItem { .. } => String::from_str(alloc, "/items"),
        Deed::SetSafe { safe, .. } => at_safe(alloc, ceremony, *safe),
        Deed::Seal { serial, .. } => at_bag(alloc, ceremony, serial, "seal"),
        Deed::Take { serial } => at_bag(alloc, ceremony, serial, "take"),
        Deed::Put { serial, .. } => at_bag(alloc, ceremony, serial, "put"),
        Deed::Cut { serial } => at_bag(alloc, ceremony, serial, "cut"),
    }
}

/// The path of a command's request, as `/ceremonies/61/steps/1/signature`. The error is out of memory.
pub fn path_text(alloc: Global, act: &Act) -> Result<String, AllocError>
    ensures { IfOk result (λ text. string_bytes text ≡ Texts.path_text act.now) }
{
    match act {
        Act::Enter { .. } => String::from_str(alloc, "/people"),
        Act::Train { who, .. } => at_person(alloc, who, "roles"),
        Act::Withdraw { who, .. } => at_person(alloc, who, "withdrawals"),
        Act::Appoint { .. } => String::from_str(alloc, "/custodians"),
        Act::Replace { place, .. } => at_place(alloc, *place, "replacement"),
        Act::Release { place, .. } => at_place(alloc, *place, "release"),
        Act::AddBox { .. } => String::from_str(alloc, "/boxes"),
        Act::Plan { .. } => String::from_str(alloc, "/ceremonies"),
        Act::Ceremony { ceremony, deed, .. } => deed_path(alloc, *ceremony, deed),
    }
}
