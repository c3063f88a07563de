//! The members of a command's body, given to a writer one after the other.
ghost use Rattle.std.specs.Prelude.{◌≡◌, OnOk};
ghost use Rattle.std.specs.List.{fold};
ghost use Rattle.kcr_base.specs.{Day.day_text, Place.place_text, Moment.moment_text};
ghost use Rattle.kcr_base.specs.declared.refusal.Member.TheVariants as Members;
ghost use Rattle.kcr_custody.specs.Destinations.{destination_text};
ghost use Rattle.kcr_history.specs.Texts.{Word, deed_members, members_of};
ghost use Rattle.kcr_history.specs.declared.commands.Act.TheVariants as Kinds;

use crate::commands::{Act, Deed};
use itoa::Buffer;
use kcr_base::lists::{DistinctList, ListElement};
use kcr_base::{BoxNumber, CeremonyNumber, Day, Facility, Initials, Member, Moment, Place, Text};
use kcr_custody::Destination;
use std::alloc::AllocError;

/// A writer of members, as lines of a text or as a JSON object. The error of each call is out of memory.
pub trait Teller {
    ghost use Rattle.std.specs.Prelude.{◌≡◌, OnOk};
    ghost use Rattle.kcr_base.specs.declared.refusal.Member.{Member};
    ghost use Rattle.kcr_history.specs.Texts.{MemberValue, Word, Whole, Truth, Several};

    /// What was written, as a contract sees it.
    ghost Seen: { Type 0 };

    /// What was written so far.
    ghost seen: { Self → Seen };

    /// What is there after one more member.
    ghost adds: { Seen → Member × MemberValue → Seen };

    /// Writes a member that is a text.
    fn text(&mut self, name: Member, value: &str) -> Result<(), AllocError>
        ensures { OnOk result (seen self.new ≡ adds (seen self.old) (name, Word value.now)) };

    /// Writes a member that is a number.
    fn number(&mut self, name: Member, value: u32) -> Result<(), AllocError>
        ensures { OnOk result (seen self.new ≡ adds (seen self.old) (name, Whole value)) };

    /// Writes a member that is a truth value.
    fn truth(&mut self, name: Member, value: bool) -> Result<(), AllocError>
        ensures { OnOk result (seen self.new ≡ adds (seen self.old) (name, Truth value)) };

    /// Writes a member that is a list.
    fn list<T: ListElement>(
        &mut self,
        name: Member,
        value: &DistinctList<T>,
    ) -> Result<(), AllocError>
        ensures { OnOk result (seen self.new ≡ adds (seen self.old) (name, Several (T.texts value.now))) };
}

fn tell_day<W: Teller>(to: &mut W, name: Member, day: Day) -> Result<(), AllocError>
    ensures { OnOk result (W.seen to.new ≡ W.adds (W.seen to.old) (name, Word (day_text day))) }
{
    let code = day.code();
    to.text(name, code.as_str())
}

fn tell_moment<W: Teller>(to: &mut W, at: Moment) -> Result<(), AllocError>
    ensures { OnOk result (W.seen to.new ≡ W.adds (W.seen to.old) (Members.At, Word (moment_text at))) }
{
    let code = at.code();
    to.text(Member::At, code.as_str())
}

fn tell_place<W: Teller>(to: &mut W, place: Place) -> Result<(), AllocError>
    ensures { OnOk result (W.seen to.new ≡ W.adds (W.seen to.old) (Members.Place, Word (place_text place))) }
{
    let code = place.text();
    to.text(Member::Place, code.as_str())
}

/// Where a bag is put: `safe1`, or the number of a box.
fn tell_destination<W: Teller>(to: &mut W, destination: Destination) -> Result<(), AllocError>
    ensures { OnOk result (W.seen to.new ≡ W.adds (W.seen to.old) (Members.To, Word (destination_text destination))) }
{
    match destination {
        Destination::SafeOne => to.text(Member::To, "safe1"),
        Destination::DepositBox(number) => {
            let mut digits = Buffer::new();
            to.text(Member::To, digits.format(number.get()))
        }
    }
}

/// Writes the members of an act in a ceremony but its moment.
fn tell_deed<W: Teller>(ceremony: CeremonyNumber, deed: &Deed, to: &mut W) -> Result<(), AllocError>
    ensures { OnOk result (W.seen to.new ≡ fold W.adds (W.seen to.old) (deed_members ceremony deed.now)) }
{
    match deed {
        Deed::RecordSheet { way, who } => {
            to.text(Member::Way, way.text())?;
            to.list(Member::Who, who)
        }
        Deed::RecordException { text, pass } => {
            to.text(Member::Text, text.as_str())?;
            to.truth(Member::Pass, *pass)
        }
        Deed::AddItem { item } => {
            to.number(Member::Ceremony, ceremony.get())?;
            to.text(Member::Item, item.as_str())
        }
        Deed::SetSafe { is_open, by, .. } => {
            to.truth(Member::Open, *is_open)?;
            to.text(Member::By, by.as_str())
        }
        Deed::Seal { items, .. } => to.list(Member::Items, items),
        Deed::Put {
            to: destination,
            ..
        } => tell_destination(to, *destination),
        Deed::Open | Deed::Close | Deed::Sign { .. } | Deed::Take { .. } | Deed::Cut { .. } => Ok(
            (),
        ),
    }
}

/// Writes the members of an appointment.
fn tell_appointment<W: Teller>(
    place: Place,
    who: Initials,
    day: Day,
    to: &mut W,
) -> Result<(), AllocError>
    ensures { OnOk result (W.seen to.new ≡ fold W.adds (W.seen to.old) (members_of (Kinds.Appoint place who day))) }
{
    tell_place(to, place)?;
    to.text(Member::Who, who.as_str())?;
    tell_day(to, Member::Day, day)
}

/// Writes the members of a new box.
fn tell_box<W: Teller>(
    facility: Facility,
    number: BoxNumber,
    place: Place,
    to: &mut W,
) -> Result<(), AllocError>
    ensures { OnOk result (W.seen to.new
        ≡ fold W.adds (W.seen to.old) (members_of (Kinds.AddBox facility number place))) }
{
    to.text(Member::Facility, facility.text())?;
    to.number(Member::Box, number.get())?;
    tell_place(to, place)
}

/// Writes the members of a planned ceremony.
fn tell_plan<W: Teller>(
    number: CeremonyNumber,
    facility: Facility,
    day: Day,
    script: &Text,
    to: &mut W,
) -> Result<(), AllocError>
    ensures { OnOk result (W.seen to.new
        ≡ fold W.adds (W.seen to.old) (members_of (Kinds.Plan number facility day script.now))) }
{
    to.number(Member::Number, number.get())?;
    to.text(Member::Facility, facility.text())?;
    tell_day(to, Member::Day, day)?;
    to.text(Member::Script, script.as_str())
}

/// Writes the members of an act's body but the key, in the order in which the API lists them. The error is out of
/// memory.
pub fn tell<W: Teller>(act: &Act, to: &mut W) -> Result<(), AllocError>
    ensures { OnOk result (W.seen to.new ≡ fold W.adds (W.seen to.old) (members_of act.now)) }
{
    match act {
        Act::Enter { who, name } => {
            to.text(Member::Who, who.as_str())?;
            to.text(Member::Name, name.as_str())
        }
        Act::Train {
            role,
            since,
            until,
            ..
        } => {
            to.text(Member::Role, role.text())?;
            tell_day(to, Member::From, *since)?;
            tell_day(to, Member::Until, *until)
        }
        Act::Withdraw { role, day, .. } => {
            to.text(Member::Role, role.text())?;
            tell_day(to, Member::Day, *day)
        }
        Act::Appoint { place, who, day } => tell_appointment(*place, *who, *day, to),
        Act::Replace { who, day, .. } => {
            to.text(Member::Who, who.as_str())?;
            tell_day(to, Member::Day, *day)
        }
        Act::Release { day, .. } => tell_day(to, Member::Day, *day),
        Act::AddBox {
            facility,
            number,
            place,
        } => tell_box(*facility, *number, *place, to),
        Act::Plan {
            number,
            facility,
            day,
            script,
        } => tell_plan(*number, *facility, *day, script, to),
        Act::Ceremony { ceremony, at, deed } => {
            tell_deed(*ceremony, deed, to)?;
            tell_moment(to, *at)
        }
    }
}
