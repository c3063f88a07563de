//! Whether the people of a stored reply are a seating.
ghost use Rattle.std.specs.Prelude.{◌≡◌, Some, IfOk};
ghost use Rattle.kcr_rules.specs.ByRows.{seat_request_by};
ghost use Rattle.kcr_store.specs.Calls.{OfHistory};
ghost use Rattle.kcr_verify.specs.{Seated.TellsSeating, Seated.fill_by, Verification.IsIntact, Verification.OnlyLooks};

use kcr_audit::{ceremony_in, is_seating};
use kcr_base::{Initials, Moment, Refusal, Text};
use kcr_history::{Act, Deed, FullView};
use kcr_journal::seated_in;
use kcr_rules::{STAFF, seats_of, step_row};
use kcr_script::Seat;
use kcr_store::Register;
use sqlite::Alter;
use std::alloc::Global;

/// Whether the people fill these seats, if the ceremony has a row.
fn fill(
    view: &FullView,
    ceremony: u32,
    at: Moment,
    seats: &[Seat],
    people: &[Initials],
) -> Option<bool>
    ensures { result ≡ fill_by view.now
        (Some (record { ceremony = ceremony; at = at; seats = seats.now })) people.now }
{
    let row = ceremony_in(view, ceremony)?;
    Some(is_seating(view, &row, at, seats, people))
}

/// Whether the people fill the seats that the command asks for, if it asks for some.
fn fill_act(view: &FullView, act: &Act, people: &[Initials]) -> Option<bool>
    ensures { result ≡ fill_by view.now (seat_request_by view.now.view act.now) people.now }
{
    let Act::Ceremony { ceremony, at, deed } = act else {
        return None;
    };
    match deed {
        Deed::Sign { step } => {
            let row = step_row(&view.view.steps, ceremony.get(), step.get());
            fill(view, ceremony.get(), *at, seats_of(row), people)
        }
        Deed::RecordException { pass: true, .. } => {
            fill(view, ceremony.get(), *at, &STAFF, people)
        }
        _ => None,
    }
}

/// Whether the people whom the found reply to the command names fill its seats, after it; `None` if it names nobody, or
/// those of the expected reply, or if the command asks for no seats.
pub(crate) fn seating_told<S: Alter>(
    alloc: Global,
    register: &mut Register<S>,
    act: &Act,
    expected: &Text,
    found: &Text,
) -> Result<Option<bool>, Refusal>
    requires { IsIntact S.Store register.old }
    ensures told { OfHistory S.Store register.old register.new
        (λ A. IfOk result (TellsSeating A act.now expected.now found.now)) }
    ensures frame { OnlyLooks S.Store register.old register.new result }
{
    let people = seated_in(alloc, found.as_bytes())?;
    let others = seated_in(alloc, expected.as_bytes())?;
    if people.is_empty() {
        return Ok(None);
    }
    if people == others {
        return Ok(None);
    }
    let view = register.all_rows()?;
    Ok(fill_act(&view, act, &people))
}
