// Written by tools/tables.py from tools/table_list.py: do not edit.
//! The rows of the tables as values: how each is read back, what its cells are, and what the cells of its columns are.

ghost use Rattle.std.specs.Prelude.{⊤};
ghost use Rattle.kcr_rows.specs.Kinds.{person_kinds, training_kinds, appointment_kinds, box_kinds, safe_kinds, bag_kinds};
ghost use Rattle.kcr_rows.specs.Rows.{person_row, training_row, appointment_row, box_row, safe_row, bag_row};
ghost use Rattle.kcr_rows.specs.Kinds.{item_kinds, ceremony_kinds, mark_kinds, step_kinds, seating_kinds, sheet_kinds};
ghost use Rattle.kcr_rows.specs.Rows.{item_row, ceremony_row, mark_row, step_row, seating_row, sheet_row};
ghost use Rattle.kcr_rows.specs.Kinds.{exception_kinds, version_kinds, key_kinds, stay_kinds, withdrawal_kinds};
ghost use Rattle.kcr_rows.specs.Rows.{exception_row, version_row, key_row, stay_row, withdrawal_row};
ghost use Rattle.kcr_rows.specs.States.{HasBoxNumber, HasOnlyTheseSeats, HasSeatsText};

use crate::cells::{
    counted_at, counted_or_null_at, number_at, number_or_null_at, officer_at, rest_at, seats_at,
    spot_at, text_at,
};
use crate::from_row::FromRow;
use crate::kinds::Kind;
use crate::numbers::{OfCommand, OfException, OfSeat};
use crate::to_row::{
    Cell, Cells, Columns, ToRow, ToRowAllocating, loose, number, number_or_null, seats, spot,
    within,
};
use kcr_base::Refusal;
use kcr_base::number::{OfBox, OfCeremony, OfStep};
use kcr_custody::{Bag, BoxRow, Item, SafeRow};
use kcr_history::{CeremonyRow, ExceptionRow, KeyRow, MarkRow, SeatingRow, StepRow};
use kcr_people::{Appointment, Person, Training, Withdrawal};
use kcr_room::{SheetRow, Stay};
use sqlite::Row;
use std::alloc::Global;

impl FromRow for Person {
    ghost row_of = { person_row };

    ghost is_read = { λ _. ⊤ };

    fn from_row(alloc: Global, row: &Row) -> Result<Person, Refusal> {
        if row.column_count() != 2 {
            return Err(Refusal::Disk);
        }
        let who = text_at(alloc, row, 0)?;
        let name = text_at(alloc, row, 1)?;
        Ok(Person { who, name })
    }
}

impl Columns for Person {
    ghost kinds = { person_kinds };

    fn kinds() -> &'static [Kind] {
        &[Kind::Initials, Kind::Name]
    }
}

impl ToRow for Person {
    fn cells(&self) -> Cells<'_> {
        [
            Cell::Text(self.who.as_str()),
            Cell::Text(self.name.as_str()),
            Cell::Null,
            Cell::Null,
            Cell::Null,
            Cell::Null,
        ]
    }
}

impl FromRow for Training {
    ghost row_of = { training_row };

    ghost is_read = { λ _. ⊤ };

    fn from_row(alloc: Global, row: &Row) -> Result<Training, Refusal> {
        if row.column_count() != 4 {
            return Err(Refusal::Disk);
        }
        let who = text_at(alloc, row, 0)?;
        let role = text_at(alloc, row, 1)?;
        let since = number_at(row, 2)?;
        let until = number_at(row, 3)?;
        Ok(Training {
            who,
            role,
            since,
            until,
        })
    }
}

impl Columns for Training {
    ghost kinds = { training_kinds };

    fn kinds() -> &'static [Kind] {
        &[Kind::Initials, Kind::Role, Kind::Day, Kind::Day]
    }
}

impl ToRow for Training {
    fn cells(&self) -> Cells<'_> {
        [
            Cell::Text(self.who.as_str()),
            Cell::Text(self.role.text()),
            number(self.since),
            number(self.until),
            Cell::Null,
            Cell::Null,
        ]
    }
}

impl FromRow for Appointment {
    ghost row_of = { appointment_row };

    ghost is_read = { λ _. ⊤ };

    fn from_row(alloc: Global, row: &Row) -> Result<Appointment, Refusal> {
        if row.column_count() != 4 {
            return Err(Refusal::Disk);
        }
        let place = text_at(alloc, row, 0)?;
        let since = number_at(row, 1)?;
        let who = text_at(alloc, row, 2)?;
        let until = number_or_null_at(row, 3)?;
        Ok(Appointment {
            place,
            since,
            who,
            until,
        })
    }
}

impl Columns for Appointment {
    ghost kinds = { appointment_kinds };

    fn kinds() -> &'static [Kind] {
        &[Kind::Place, Kind::Day, Kind::Initials, Kind::DayOrNull]
    }
}

impl ToRow for Appointment {
    fn cells(&self) -> Cells<'_> {
        [
            Cell::Place(self.place.text()),
            number(self.since),
            Cell::Text(self.who.as_str()),
            number_or_null(self.until),
            Cell::Null,
            Cell::Null,
        ]
    }
}

impl FromRow for BoxRow {
    ghost row_of = { box_row };

    ghost is_read = { λ _. ⊤ };

    fn from_row(alloc: Global, row: &Row) -> Result<BoxRow, Refusal> {
        if row.column_count() != 3 {
            return Err(Refusal::Disk);
        }
        let facility = text_at(alloc, row, 0)?;
        let number = counted_at::<OfBox>(row, 1)?;
        let place = officer_at(alloc, row, 2, facility)?;
        Ok(BoxRow {
            facility,
            number,
            place,
        })
    }
}

impl Columns for BoxRow {
    ghost kinds = { box_kinds };

    fn kinds() -> &'static [Kind] {
        &[Kind::Facility, Kind::Box, Kind::Officer]
    }
}

impl ToRow for BoxRow {
    fn cells(&self) -> Cells<'_> {
        [
            Cell::Text(self.facility.text()),
            number(self.number),
            Cell::Place(self.place.text()),
            Cell::Null,
            Cell::Null,
            Cell::Null,
        ]
    }
}

impl FromRow for SafeRow {
    ghost row_of = { safe_row };

    ghost is_read = { λ _. ⊤ };

    fn from_row(alloc: Global, row: &Row) -> Result<SafeRow, Refusal> {
        if row.column_count() != 3 {
            return Err(Refusal::Disk);
        }
        let facility = text_at(alloc, row, 0)?;
        let safe = number_at(row, 1)?;
        let is_open = number_at(row, 2)?;
        Ok(SafeRow {
            facility,
            safe,
            is_open,
        })
    }
}

impl Columns for SafeRow {
    ghost kinds = { safe_kinds };

    fn kinds() -> &'static [Kind] {
        &[Kind::Facility, Kind::Safe, Kind::Truth]
    }
}

impl ToRow for SafeRow {
    fn cells(&self) -> Cells<'_> {
        [
            Cell::Text(self.facility.text()),
            number(self.safe),
            number(self.is_open),
            Cell::Null,
            Cell::Null,
            Cell::Null,
        ]
    }
}

impl FromRow for Bag {
    ghost row_of = { bag_row };

    ghost is_read = { HasBoxNumber };

    fn from_row(alloc: Global, row: &Row) -> Result<Bag, Refusal> {
        if row.column_count() != 2 {
            return Err(Refusal::Disk);
        }
        let serial = text_at(alloc, row, 0)?;
        let spot = spot_at(row, 1)?;
        Ok(Bag { serial, spot })
    }
}

impl Columns for Bag {
    ghost kinds = { bag_kinds };

    fn kinds() -> &'static [Kind] {
        &[Kind::Serial, Kind::Spot]
    }
}

impl ToRowAllocating for Bag {
    ghost is_told = { HasBoxNumber };

    fn cells_allocating(&self, alloc: Global) -> Result<Cells<'_>, Refusal> {
        Ok([
            Cell::Text(self.serial.as_str()),
            spot(alloc, self.spot)?,
            Cell::Null,
            Cell::Null,
            Cell::Null,
            Cell::Null,
        ])
    }
}

impl FromRow for Item {
    ghost row_of = { item_row };

    ghost is_read = { λ _. ⊤ };

    fn from_row(alloc: Global, row: &Row) -> Result<Item, Refusal> {
        if row.column_count() != 3 {
            return Err(Refusal::Disk);
        }
        let code = text_at(alloc, row, 0)?;
        let rest = rest_at(row, 1)?;
        Ok(Item { code, rest })
    }
}

impl Columns for Item {
    ghost kinds = { item_kinds };

    fn kinds() -> &'static [Kind] {
        &[Kind::Serial, Kind::Loose, Kind::Within]
    }
}

impl ToRow for Item {
    fn cells(&self) -> Cells<'_> {
        [
            Cell::Text(self.code.as_str()),
            loose(self.rest),
            within(&self.rest),
            Cell::Null,
            Cell::Null,
            Cell::Null,
        ]
    }
}

impl FromRow for CeremonyRow {
    ghost row_of = { ceremony_row };

    ghost is_read = { λ _. ⊤ };

    fn from_row(alloc: Global, row: &Row) -> Result<CeremonyRow, Refusal> {
        if row.column_count() != 6 {
            return Err(Refusal::Disk);
        }
        let number = counted_at::<OfCeremony>(row, 0)?;
        let facility = text_at(alloc, row, 1)?;
        let day = number_at(row, 2)?;
        let state = number_at(row, 3)?;
        let opened = number_or_null_at(row, 4)?;
        let closed = number_or_null_at(row, 5)?;
        Ok(CeremonyRow {
            number,
            facility,
            day,
            state,
            opened,
            closed,
        })
    }
}

impl Columns for CeremonyRow {
    ghost kinds = { ceremony_kinds };

    fn kinds() -> &'static [Kind] {
        &[
            Kind::Ceremony,
            Kind::Facility,
            Kind::Day,
            Kind::CeremonyState,
            Kind::MomentOrNull,
            Kind::MomentOrNull,
        ]
    }
}

impl ToRow for CeremonyRow {
    fn cells(&self) -> Cells<'_> {
        [
            number(self.number),
            Cell::Text(self.facility.text()),
            number(self.day),
            number(self.state),
            number_or_null(self.opened),
            number_or_null(self.closed),
        ]
    }
}

impl FromRow for MarkRow {
    ghost row_of = { mark_row };

    ghost is_read = { λ _. ⊤ };

    fn from_row(_alloc: Global, row: &Row) -> Result<MarkRow, Refusal> {
        if row.column_count() != 2 {
            return Err(Refusal::Disk);
        }
        let ceremony = counted_at::<OfCeremony>(row, 0)?;
        let at = number_at(row, 1)?;
        Ok(MarkRow { ceremony, at })
    }
}

impl Columns for MarkRow {
    ghost kinds = { mark_kinds };

    fn kinds() -> &'static [Kind] {
        &[Kind::Ceremony, Kind::Moment]
    }
}

impl ToRow for MarkRow {
    fn cells(&self) -> Cells<'_> {
        [
            number(self.ceremony),
            number(self.at),
            Cell::Null,
            Cell::Null,
            Cell::Null,
            Cell::Null,
        ]
    }
}

impl FromRow for StepRow {
    ghost row_of = { step_row };

    ghost is_read = { HasOnlyTheseSeats };

    fn from_row(alloc: Global, row: &Row) -> Result<StepRow, Refusal> {
        if row.column_count() != 6 {
            return Err(Refusal::Disk);
        }
        let ceremony = counted_at::<OfCeremony>(row, 0)?;
        let step = counted_at::<OfStep>(row, 1)?;
        let activity = text_at(alloc, row, 2)?;
        let seats = seats_at(alloc, row, 3)?;
        let state = number_at(row, 4)?;
        let at = number_or_null_at(row, 5)?;
        Ok(StepRow {
            ceremony,
            step,
            activity,
            seats,
            state,
            at,
        })
    }
}

impl Columns for StepRow {
    ghost kinds = { step_kinds };

    fn kinds() -> &'static [Kind] {
        &[
            Kind::Ceremony,
            Kind::Step,
            Kind::Activity,
            Kind::Seats,
            Kind::StepState,
            Kind::MomentOrNull,
        ]
    }
}

impl ToRowAllocating for StepRow {
    ghost is_told = { HasSeatsText };

    fn cells_allocating(&self, alloc: Global) -> Result<Cells<'_>, Refusal> {
        Ok([
            number(self.ceremony),
            number(self.step),
            Cell::Text(self.activity.as_str()),
            seats(alloc, &self.seats)?,
            number(self.state),
            number_or_null(self.at),
        ])
    }
}

impl FromRow for SeatingRow {
    ghost row_of = { seating_row };

    ghost is_read = { λ _. ⊤ };

    fn from_row(alloc: Global, row: &Row) -> Result<SeatingRow, Refusal> {
        if row.column_count() != 4 {
            return Err(Refusal::Disk);
        }
        let ceremony = counted_at::<OfCeremony>(row, 0)?;
        let step = counted_at::<OfStep>(row, 1)?;
        let seat = counted_at::<OfSeat>(row, 2)?;
        let who = text_at(alloc, row, 3)?;
        Ok(SeatingRow {
            ceremony,
            step,
            seat,
            who,
        })
    }
}

impl Columns for SeatingRow {
    ghost kinds = { seating_kinds };

    fn kinds() -> &'static [Kind] {
        &[Kind::Ceremony, Kind::Step, Kind::Seat, Kind::Initials]
    }
}

impl ToRow for SeatingRow {
    fn cells(&self) -> Cells<'_> {
        [
            number(self.ceremony),
            number(self.step),
            number(self.seat),
            Cell::Text(self.who.as_str()),
            Cell::Null,
            Cell::Null,
        ]
    }
}

impl FromRow for SheetRow {
    ghost row_of = { sheet_row };

    ghost is_read = { λ _. ⊤ };

    fn from_row(alloc: Global, row: &Row) -> Result<SheetRow, Refusal> {
        if row.column_count() != 4 {
            return Err(Refusal::Disk);
        }
        let who = text_at(alloc, row, 0)?;
        let at = number_at(row, 1)?;
        let ceremony = counted_at::<OfCeremony>(row, 2)?;
        let way = number_at(row, 3)?;
        Ok(SheetRow {
            who,
            at,
            ceremony,
            way,
        })
    }
}

impl Columns for SheetRow {
    ghost kinds = { sheet_kinds };

    fn kinds() -> &'static [Kind] {
        &[Kind::Initials, Kind::Moment, Kind::Ceremony, Kind::Way]
    }
}

impl ToRow for SheetRow {
    fn cells(&self) -> Cells<'_> {
        [
            Cell::Text(self.who.as_str()),
            number(self.at),
            number(self.ceremony),
            number(self.way),
            Cell::Null,
            Cell::Null,
        ]
    }
}

impl FromRow for ExceptionRow {
    ghost row_of = { exception_row };

    ghost is_read = { λ _. ⊤ };

    fn from_row(alloc: Global, row: &Row) -> Result<ExceptionRow, Refusal> {
        if row.column_count() != 5 {
            return Err(Refusal::Disk);
        }
        let ceremony = counted_at::<OfCeremony>(row, 0)?;
        let exception = counted_at::<OfException>(row, 1)?;
        let text = text_at(alloc, row, 2)?;
        let at = number_at(row, 3)?;
        let passed = counted_or_null_at::<OfStep>(row, 4)?;
        Ok(ExceptionRow {
            ceremony,
            exception,
            text,
            at,
            passed,
        })
    }
}

impl Columns for ExceptionRow {
    ghost kinds = { exception_kinds };

    fn kinds() -> &'static [Kind] {
        &[
            Kind::Ceremony,
            Kind::Exception,
            Kind::Remark,
            Kind::Moment,
            Kind::StepOrNull,
        ]
    }
}

impl ToRow for ExceptionRow {
    fn cells(&self) -> Cells<'_> {
        [
            number(self.ceremony),
            number(self.exception),
            Cell::Text(self.text.as_str()),
            number(self.at),
            number_or_null(self.passed),
            Cell::Null,
        ]
    }
}

/// The number of a schema, by which a later program knows which tables a file has.
#[derive(Clone, Copy, PartialEq, Eq, Drop)]
pub struct Version {
    pub number: u32,
}

impl FromRow for Version {
    ghost row_of = { version_row };

    ghost is_read = { λ _. ⊤ };

    fn from_row(_alloc: Global, row: &Row) -> Result<Version, Refusal> {
        if row.column_count() != 1 {
            return Err(Refusal::Disk);
        }
        let number = number_at(row, 0)?;
        Ok(Version { number })
    }
}

impl Columns for Version {
    ghost kinds = { version_kinds };

    fn kinds() -> &'static [Kind] {
        &[Kind::Version]
    }
}

impl ToRow for Version {
    fn cells(&self) -> Cells<'_> {
        [
            number(self.number),
            Cell::Null,
            Cell::Null,
            Cell::Null,
            Cell::Null,
            Cell::Null,
        ]
    }
}

impl FromRow for KeyRow {
    ghost row_of = { key_row };

    ghost is_read = { λ _. ⊤ };

    fn from_row(alloc: Global, row: &Row) -> Result<KeyRow, Refusal> {
        if row.column_count() != 4 {
            return Err(Refusal::Disk);
        }
        let key = text_at(alloc, row, 0)?;
        let accepted = counted_at::<OfCommand>(row, 1)?;
        let command = text_at(alloc, row, 2)?;
        let reply = text_at(alloc, row, 3)?;
        Ok(KeyRow {
            key,
            accepted,
            command,
            reply,
        })
    }
}

impl Columns for KeyRow {
    ghost kinds = { key_kinds };

    fn kinds() -> &'static [Kind] {
        &[Kind::Key, Kind::Command, Kind::Text, Kind::Text]
    }
}

impl ToRow for KeyRow {
    fn cells(&self) -> Cells<'_> {
        [
            Cell::Text(self.key.as_str()),
            number(self.accepted),
            Cell::Text(self.command.as_str()),
            Cell::Text(self.reply.as_str()),
            Cell::Null,
            Cell::Null,
        ]
    }
}

impl FromRow for Stay {
    ghost row_of = { stay_row };

    ghost is_read = { λ _. ⊤ };

    fn from_row(alloc: Global, row: &Row) -> Result<Stay, Refusal> {
        if row.column_count() != 4 {
            return Err(Refusal::Disk);
        }
        let who = text_at(alloc, row, 0)?;
        let since = number_at(row, 1)?;
        let ceremony = counted_at::<OfCeremony>(row, 2)?;
        let until = number_or_null_at(row, 3)?;
        Ok(Stay {
            who,
            since,
            ceremony,
            until,
        })
    }
}

impl Columns for Stay {
    ghost kinds = { stay_kinds };

    fn kinds() -> &'static [Kind] {
        &[
            Kind::Initials,
            Kind::Moment,
            Kind::Ceremony,
            Kind::MomentOrNull,
        ]
    }
}

impl ToRow for Stay {
    fn cells(&self) -> Cells<'_> {
        [
            Cell::Text(self.who.as_str()),
            number(self.since),
            number(self.ceremony),
            number_or_null(self.until),
            Cell::Null,
            Cell::Null,
        ]
    }
}

impl FromRow for Withdrawal {
    ghost row_of = { withdrawal_row };

    ghost is_read = { λ _. ⊤ };

    fn from_row(alloc: Global, row: &Row) -> Result<Withdrawal, Refusal> {
        if row.column_count() != 5 {
            return Err(Refusal::Disk);
        }
        let who = text_at(alloc, row, 0)?;
        let role = text_at(alloc, row, 1)?;
        let since = number_at(row, 2)?;
        let until = number_at(row, 3)?;
        let day = number_at(row, 4)?;
        Ok(Withdrawal {
            who,
            role,
            since,
            until,
            day,
        })
    }
}

impl Columns for Withdrawal {
    ghost kinds = { withdrawal_kinds };

    fn kinds() -> &'static [Kind] {
        &[Kind::Initials, Kind::Role, Kind::Day, Kind::Day, Kind::Day]
    }
}

impl ToRow for Withdrawal {
    fn cells(&self) -> Cells<'_> {
        [
            Cell::Text(self.who.as_str()),
            Cell::Text(self.role.text()),
            number(self.since),
            number(self.until),
            number(self.day),
            Cell::Null,
        ]
    }
}
